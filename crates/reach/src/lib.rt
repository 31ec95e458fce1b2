// Which state of a chain reaches which: the masks, the closed set, and refusal 6.
#![tactic(auto)]

ghost use Rattle.std.specs.Prelude.{◌≡◌, ◌&&◌, ◌||◌, not, ℕ, ◌+◌, ◌-◌, ◌<◌, ◌≤◌, length, get_or, eqb, ltb};
ghost use Rattle.basics.specs.Sum.{sum};
ghost use Rattle.basics.specs.Below.{all};
ghost use Rattle.basics.specs.First.{found};
ghost use Rattle.refusal.specs.Table.{verdict};
ghost use Rattle.chain.specs.Rows.{rows_of};
ghost use Rattle.chain.specs.Sound.{Accepted};
ghost use Rattle.chain.specs.Meaning.{adds, rate_in};
ghost use Rattle.reach.specs.Reach.{stands, bits, reaches, Hold, ReachMasks};
ghost use Rattle.reach.specs.Inner.{via_below};
ghost use Rattle.reach.specs.ClosedSets.{settles, is_lowest, first_lowest, lowest_set};
ghost use Rattle.reach.specs.Answer.{one_closed, answered, set_of, AnswerSays};

use chain::{Chain, SoundChain};
use refusal::{ChainReason, Refusal};

// One mask for each state, all 64 together: bit j of mask i stands if state i reaches state j.
#[derive(Clone, Copy)]
pub struct Masks {
    pub rows: [u64; 64],
}

pub fn test_bit(mask: u64, j: usize) -> bool
    requires { j < 64 }
    ensures { result ≡ stands mask j }
{
    (mask >> j) % 2 == 1
}

fn set_bit(mask: u64, j: usize) -> u64
    requires { j < 64 }
    ensures { (i : ℕ) → stands result i ≡ (stands mask i || eqb j i) }
{
    mask | (1 << j)
}

// The mask with the bit of an entry's column, unless its rate is 0.
fn with_entry(mask: u64, column: usize, rate: u32) -> u64
    requires { column < 64 }
    ensures { (j : ℕ) → stands result j ≡ (stands mask j || (ltb 0 rate && eqb column j)) }
{
    if rate > 0 {
        set_bit(mask, column)
    } else {
        mask
    }
}

// The mask of the state itself and of the states to which a positive rate leads from it; its entries stand at places `begin`
// up to, not including, `end`.
fn row_mask(row: usize, begin: usize, end: usize, columns: &[u32], rates: &[u32]) -> u64
    requires bounds { (row < 64) × (begin ≤ end) × (end ≤ length columns.now) × (end ≤ length rates.now) }
    requires columns_low { (p : ℕ) → begin ≤ p → p < end → get_or columns.now p 0 < 64 }
    ensures { (j : ℕ) → stands result j ≡ (eqb row j || ltb 0 (sum (end - begin) (λ q. adds columns.now rates.now j (begin + q)))) }
{
    let mut mask = set_bit(0, row);
    for place in begin..end {
        mask = with_entry(mask, columns[place] as usize, rates[place]);
    }
    mask
}

// The masks before the first step of the closure.
fn first_masks(sound: SoundChain) -> Masks
    ensures { let c = rows_of sound.entry.chain in Hold result.rows (via_below c.order (rate_in c) 0) }
{
    let chain = sound.chain;
    let mut masks = Masks { rows: [0; 64] };
    for i in 0..chain.order {
        let begin = chain.starts[i] as usize;
        let end = chain.starts[i + 1] as usize;
        masks.rows[i] = row_mask(i, begin, end, chain.columns, chain.rates);
    }
    masks
}

// What state k reaches is added to a state that reaches k.
fn close_row(row: u64, through: u64, k: usize) -> u64
    requires { k < 64 }
    ensures { (j : ℕ) → stands result j ≡ (stands row j || (stands row k && stands through j)) }
{
    if test_bit(row, k) { row | through } else { row }
}

// The masks of a sound chain. Step k adds what state k reaches to each state that reaches k; from n on no mask has a bit.
fn closure(sound: SoundChain) -> Masks
    ensures { let c = rows_of sound.entry.chain in Hold result.rows (via_below c.order (rate_in c) c.order) }
{
    let n = sound.chain.order;
    let mut masks = first_masks(sound);
    for k in 0..n {
        let through = masks.rows[k];
        for i in 0..n {
            masks.rows[i] = close_row(masks.rows[i], through, k);
        }
    }
    masks
}

// The states that each state reaches; no bit stands for a chain refused by 1 to 4 or 14.
pub fn reach_masks(chain: Chain) -> Masks
    ensures bits { Hold result.rows (reaches (rows_of chain.entry)) }
    ensures meaning { ReachMasks (rows_of chain.entry) result.rows }
{
    let Ok(_) = chain.check() else {
        return Masks { rows: [0; 64] };
    };
    closure(SoundChain { chain })
}

// Whether no bit below i stands.
fn none_below(row: u64, i: usize) -> bool
    requires { i ≤ 64 }
    ensures { result ≡ all i (λ j. not (stands row j)) }
{
    (0..i).all(|j| !test_bit(row, j))
}

// Whether state j reaches state i, if i reaches it.
fn comes_back(rows: &[u64], i: usize, j: usize) -> bool
    requires { (i < 64) × (j < 64) × (length rows.now ≡ 64) }
    ensures { result ≡ (not (bits rows.now i j) || bits rows.now j i) }
{
    if test_bit(rows[i], j) {
        test_bit(rows[j], i)
    } else {
        true
    }
}

// Whether all states that state i reaches reach it.
fn settles(rows: &[u64], n: usize, i: usize) -> bool
    requires { (n ≤ 64) × (i < 64) × (length rows.now ≡ 64) }
    ensures { result ≡ settles n (bits rows.now) i }
{
    (0..n).all(|j| comes_back(rows, i, j))
}

// Whether state i is the lowest state of a closed set.
fn is_lowest(rows: &[u64], n: usize, i: usize) -> bool
    requires { (n ≤ 64) × (i < 64) × (length rows.now ≡ 64) }
    ensures { result ≡ is_lowest n (bits rows.now) i }
{
    none_below(rows[i], i) && settles(rows, n, i)
}

// The first state from `from` on that is the lowest of a closed set.
fn next_lowest(rows: &[u64], from: usize, n: usize) -> Option<usize>
    requires { (from ≤ n) × (n ≤ 64) × (length rows.now ≡ 64) }
    ensures { result ≡ found (is_lowest n (bits rows.now)) from n }
{
    (from..n).find(|&i| is_lowest(rows, n, i))
}

// The verdict of 1 to 4, 14 and 6, and the closed set of a chain that has an answer: bit i stands if state i is in it.
// They stand side by side, and the set is in no `Ok`: where 6 refuses, `find_answer` promises the set too (its clause `set`).
#[derive(Clone, Copy)]
pub struct Answer {
    pub outcome: Result<usize, Refusal>,
    pub set: u64,
}

// Refusal 6, from the masks: the lowest and the second lowest of the closed sets' lowest states. The set is what the first reaches.
fn answer_from(masks: Masks, n: usize, entries: usize) -> Answer
    requires { (n ≤ 64) × (first_lowest n (bits masks.rows) < n) }
    ensures { (verdict result.outcome ≡ one_closed n (bits masks.rows) entries) × ((i : ℕ) → stands result.set i ≡ lowest_set n (bits masks.rows) i) }
{
    let rows = masks.rows;
    let first = next_lowest(&rows, 0, n).unwrap();
    let set = rows[first];
    match next_lowest(&rows, first + 1, n) {
        Some(second) => Answer {
            outcome: Err(Refusal::Chain(ChainReason::ClosedSets(first, second))),
            set,
        },
        None => Answer {
            outcome: Ok(entries),
            set,
        },
    }
}

// The verdict of `check_answer` where 1 to 4 and 14 were checked before, as `check_answer` and `solve` do, and the closed set.
pub fn find_answer(chain: Chain) -> Answer
    requires { Accepted (rows_of chain) }
    ensures computed { verdict result.outcome ≡ answered (rows_of chain.entry) }
    ensures meaning { AnswerSays (rows_of chain.entry) (verdict result.outcome) }
    ensures set { (i : ℕ) → i < chain.entry.order → stands result.set i ≡ set_of (rows_of chain.entry) i }
{
    let masks = closure(SoundChain { chain });
    answer_from(masks, chain.order, chain.columns.len())
}

// The first of 1 to 4, 14 and 6 that applies, or the number of entries of a chain that has an answer.
pub fn check_answer(chain: Chain) -> Result<usize, Refusal>
    ensures computed { verdict result ≡ answered (rows_of chain.entry) }
    ensures meaning { AnswerSays (rows_of chain.entry) (verdict result) }
{
    chain.check()?;
    find_answer(chain).outcome
}
