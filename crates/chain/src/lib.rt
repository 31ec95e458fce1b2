// Chains in rows: the checks 1 to 4 and 14, and the look-up of a row and of a rate.
#![tactic(auto)]

ghost use Rattle.std.specs.Prelude.{◌≡◌, true, ◌<◌, ◌≤◌, eqb, get_or, length};
ghost use Rattle.basics.specs.First.{found};
ghost use Rattle.refusal.specs.Table.{verdict};
ghost use Rattle.chain.specs.Rows.{in_rows, rows_of};
ghost use Rattle.chain.specs.Rules.{order_sound, falls_at, starts_sound, entry_bad, columns_checked, rules_checked, zero_at, row_of, zeros_checked, checked};
ghost use Rattle.chain.specs.Sound.{Sound, Says};
ghost use Rattle.chain.specs.Row.{row_part, row_rates, stands_at};
ghost use Rattle.chain.specs.Meaning.{rate_in};

use refusal::{ChainReason, Refusal};

mod lent;

pub use lent::Chain;

// Whether an order is 1 to 64 (internal).
pub fn order_sound(n: usize) -> bool
    ensures { result ≡ order_sound n }
{
    0 < n && n <= 64
}

// The first place whose start is above the next one.
fn first_fall(n: usize, starts: &[u32]) -> Option<usize>
    requires { n < length starts.now }
    ensures { result ≡ found (falls_at starts.now) 0 n }
{
    (0..n).find(|&i| starts[i + 1] < starts[i])
}

fn starts_sound(n: usize, starts: &[u32], columns: usize) -> bool
    requires { n ≤ 64 }
    ensures { result ≡ starts_sound n starts.now columns }
{
    if starts.len() != n + 1 {
        return false;
    }
    if starts[0] != 0 {
        return false;
    }
    if first_fall(n, starts).is_some() {
        return false;
    }
    starts[n] as usize == columns
}

// Whether the entry at a place of the row, whose entries begin at place `begin`, breaks a rule of the columns.
fn entry_bad(n: usize, columns: &[u32], row: usize, begin: usize, place: usize) -> bool
    requires { place < length columns.now }
    ensures { result ≡ entry_bad n columns.now row begin place }
{
    let column = columns[place] as usize;
    if n <= column {
        return true;
    }
    if column == row {
        return true;
    }
    if place <= begin {
        return false;
    }
    columns[place] <= columns[place - 1]
}

// The place of the first rate of 0.
fn first_zero(rates: &[u32]) -> Option<usize>
    ensures { result ≡ found (zero_at rates.now) 0 (length rates.now) }
{
    rates.iter().position(|&rate| rate == 0)
}

// The first place from `begin` up to, not including, `end` whose entry stands at column j.
fn place_of(columns: &[u32], begin: usize, end: usize, j: usize) -> Option<usize>
    requires { (begin ≤ end) × (end ≤ length columns.now) }
    ensures { result ≡ found (λ place. eqb (get_or columns.now place 0) j) begin end }
{
    (begin..end).find(|&place| columns[place] as usize == j)
}

impl<'a> Chain<'a> {
    // The chain of any order and any slices.
    pub fn new(order: usize, starts: &'a [u32], columns: &'a [u32], rates: &'a [u32]) -> Chain<'a>
        ensures { (result.order ≡ order) × (result.starts ≡ starts.entry) × (result.columns ≡ columns.entry) × (result.rates ≡ rates.entry) }
    {
        Chain {
            order,
            starts,
            columns,
            rates,
        }
    }

    // The place of the first entry from `begin` up to, not including, `end` that breaks a rule of the columns.
    fn first_bad(self, row: usize, begin: usize, end: usize) -> Option<usize>
        requires { (begin ≤ end) × (end ≤ length self.columns.now) }
        ensures { result ≡ found (entry_bad self.entry.order self.entry.columns.now row begin) begin end }
    {
        let n = self.order;
        let columns = self.columns;
        (begin..end).find(|&place| entry_bad(n, columns, row, begin, place))
    }

    // The first entry, row by row, that breaks a rule of the columns, or the number of entries.
    fn check_columns(self) -> Result<usize, Refusal>
        requires { (self.order ≤ 64) × (starts_sound self.order self.starts.now (length self.columns.now) ≡ true) }
        ensures { verdict result ≡ columns_checked (rows_of self.entry) }
    {
        for row in 0..self.order {
            let begin = self.starts[row] as usize;
            let end = self.starts[row + 1] as usize;
            if let Some(place) = self.first_bad(row, begin, end) {
                return Err(Refusal::Chain(ChainReason::Columns(row, place)));
            }
        }
        Ok(self.columns.len())
    }

    // The first of the rules 1 to 4 that is broken, or the number of entries.
    fn check_rules(self) -> Result<usize, Refusal>
        ensures { verdict result ≡ rules_checked (rows_of self.entry) }
    {
        if !order_sound(self.order) {
            return Err(Refusal::Chain(ChainReason::Order));
        }
        if self.columns.len() != self.rates.len() {
            return Err(Refusal::Chain(ChainReason::Lengths));
        }
        if !starts_sound(self.order, self.starts, self.columns.len()) {
            return Err(Refusal::Chain(ChainReason::Starts));
        }
        self.check_columns()
    }

    // The first of 1, 2, 3, 4, 14 that applies, or the number of entries, and what that says of the chain. No other verdict has
    // facts that hold: `says_checked` of proofs/Reading.
    pub fn check(self) -> Result<usize, Refusal>
        ensures computed { verdict result ≡ checked (rows_of self.entry) }
        ensures meaning { Says (rows_of self.entry) (verdict result) }
    {
        self.check_rules()?;
        SoundChain { chain: self }.check_zeros()
    }

    // The caller's own rates of a row, as `row_rates` hands them back.
    pub fn row_rates(self, row: usize) -> &'a [u32]
        ensures content { result.now ≡ row_rates (rows_of self.entry) row }
        ensures own { result.ref_ptr ≡ stands_at self.entry.rates (row_part (rows_of self.entry) row).0 }
    {
        row_rates(self.order, self.starts, self.columns, self.rates, row)
    }
}

// A chain that keeps the rules 1 to 4.
#[derive(Clone, Copy)]
pub struct SoundChain<'a> {
    pub chain: Chain<'a>,
    ghost sound: { Sound (rows_of chain) },
}

impl SoundChain<'_> {
    // The row in which the entry at a place stands: the first that ends after it.
    fn row_of(self, place: usize) -> usize
        requires { place < length self.chain.rates.now }
        ensures { result ≡ row_of self.entry.chain.order self.entry.chain.starts.now place }
    {
        let starts = self.chain.starts;
        (0..self.chain.order)
            .find(|&row| place < starts[row + 1] as usize)
            .unwrap()
    }

    // The first entry of rate 0, or the number of entries.
    fn check_zeros(self) -> Result<usize, Refusal>
        ensures { verdict result ≡ zeros_checked (rows_of self.entry.chain) }
    {
        let Some(place) = first_zero(self.chain.rates) else {
            return Ok(self.chain.columns.len());
        };
        let row = self.row_of(place);
        let column = self.chain.columns[place] as usize;
        Err(Refusal::Chain(ChainReason::ZeroRate(row, column)))
    }

    // The rate from state i to state j: that of row i's entry at column j, or 0 where it has none (internal).
    pub fn rate_of(self, i: usize, j: usize) -> u32
        requires { i < self.chain.order }
        ensures { result ≡ rate_in (rows_of self.entry.chain) i j }
    {
        let begin = self.chain.starts[i] as usize;
        let end = self.chain.starts[i + 1] as usize;
        match place_of(self.chain.columns, begin, end, j) {
            Some(place) => self.chain.rates[place],
            None => 0,
        }
    }
}

// The caller's own rates of a row; the empty part for a chain refused by 1 to 4 or 14, or a row number of n or more. They are lent as long as
// the rates are, whether starts and columns are or not.
pub fn row_rates<'a>(
    n: usize,
    starts: &[u32],
    columns: &[u32],
    rates: &'a [u32],
    row: usize,
) -> &'a [u32]
    ensures content { result.now ≡ row_rates (in_rows n starts.entry columns.entry rates.entry) row }
    ensures own { result.ref_ptr ≡ stands_at rates.entry (row_part (in_rows n starts.entry columns.entry rates.entry) row).0 }
{
    let chain = Chain {
        order: n,
        starts,
        columns,
        rates,
    };
    let Ok(_) = chain.check() else {
        return &rates[0..0];
    };
    if n <= row {
        return &rates[0..0];
    }
    let begin = starts[row] as usize;
    let end = starts[row + 1] as usize;
    &rates[begin..end]
}
