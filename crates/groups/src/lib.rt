// Group tables (document 02, R-1): the check of a table by 13, 12 and 11, and the shares of its groups. For callers who have checked the
// chain: `group_shares` has the call for users.
#![tactic(auto)]

ghost use Rattle.std.specs.Prelude.{◌≡◌, ℕ, ◌+◌, ◌≤◌, ◌<◌, suc, leb, eqb, length, get_or};
ghost use Rattle.basics.specs.First.{found};
ghost use Rattle.refusal.specs.Table.{verdict};
ghost use Rattle.kernel.specs.Numbers.{Fit, plus};
ghost use Rattle.kernel.specs.Slices.{pair, number_at};
ghost use Rattle.kernel.specs.Kernel.{Holds};
ghost use Rattle.kernel.specs.Inner.{Placed};
ghost use Rattle.kernel.specs.Lent.{held, Stored};
ghost use Rattle.group_table.specs.Rules.{row_count, row_bad, table_checked};
ghost use Rattle.group_table.specs.Sound.{SoundRows, SoundTable, TableSays};
ghost use Rattle.group_table.specs.Sums.{group_share};
ghost use Rattle.groups.specs.Inner.{Changed, Counted, LookedUp, Summable};

use kernel::Numbers;
use refusal::{ChainReason, Refusal};
use scaled::Scaled;

// The number of rows of a table.
fn row_count(table: &[u32]) -> usize
    ensures { result ≡ row_count table.now }
{
    table.len().div_ceil(3)
}

// Whether a row is bad. A first state of n or more needs no test of its own: then the last state is too high, or below the first.
fn row_bad(n: usize, table: &[u32], row: usize) -> bool
    requires { row < row_count table.now }
    ensures { result ≡ row_bad n table.now row }
{
    let at = 3 * row;
    if table.len() - at < 3 {
        return true;
    }
    let last = table[at + 1] as usize;
    if last < table[at] as usize {
        return true;
    }
    if n <= last {
        return true;
    }
    15 < table[at + 2]
}

// The lowest bad row.
fn first_bad_row(n: usize, table: &[u32]) -> Option<usize>
    ensures { result ≡ found (row_bad n table.now) 0 (row_count table.now) }
{
    (0..row_count(table)).find(|&row| row_bad(n, table, row))
}

// One more for each state from first to last.
fn count_row(seen: &mut [usize], first: usize, last: usize)
    requires first_le_last { (first ≤ last) × (last < length seen.old) }
    requires counts_low { (s : ℕ) → s < length seen.old → get_or seen.old s 0 < 18446744073709551615 }
    ensures { Changed suc first last seen.old seen.new }
{
    for s in first..last + 1 {
        seen[s] += 1;
    }
}

// Counts the rows that hold each state.
fn count_rows(n: usize, table: &[u32], seen: &mut [usize])
    requires sound_rows { SoundRows n table.now }
    requires counted { Counted table.now 0 seen.old }
    requires n_bound { n ≤ 64 }
    ensures { Counted table.now (row_count table.now) seen.new }
{
    for row in 0..row_count(table) {
        let at = 3 * row;
        count_row(seen, table[at] as usize, table[at + 1] as usize);
    }
}

// The lowest state below n in two rows or more.
fn first_in_two(n: usize, seen: &[usize]) -> Option<usize>
    requires { n ≤ length seen.now }
    ensures { result ≡ found (λ s. leb 2 (get_or seen.now s 0)) 0 n }
{
    (0..n).find(|&state| 2 <= seen[state])
}

// The lowest state below n in no row.
fn first_in_none(n: usize, seen: &[usize]) -> Option<usize>
    requires { n ≤ length seen.now }
    ensures { result ≡ found (λ s. eqb (get_or seen.now s 0) 0) 0 n }
{
    (0..n).find(|&state| seen[state] == 0)
}

// Checks a table for a chain of n states: 13, then 12, then 11, or the number of rows, and what that says of the table. No other verdict
// has facts that hold: `says_checked` of `group_table`.
pub fn check_table(n: usize, table: &[u32]) -> Result<usize, Refusal>
    requires { n ≤ 64 }
    ensures computed { verdict result ≡ table_checked n table.now }
    ensures meaning { TableSays n table.now (verdict result) }
{
    if let Some(bad) = first_bad_row(n, table) {
        return Err(Refusal::Chain(ChainReason::TableRow(bad)));
    }
    let mut seen = [0usize; 64];
    count_rows(n, table, &mut seen);
    if let Some(twice) = first_in_two(n, &seen) {
        return Err(Refusal::Chain(ChainReason::InTwoRows(twice)));
    }
    if let Some(missing) = first_in_none(n, &seen) {
        return Err(Refusal::Chain(ChainReason::InNoRow(missing)));
    }
    Ok(row_count(table))
}

// Puts the group at each state from first to last.
fn put_group(of: &mut [usize], first: usize, last: usize, group: usize)
    requires { (first ≤ last) × (last < length of.old) }
    ensures { Changed (λ _. group) first last of.old of.new }
{
    of[first..last + 1].fill(group);
}

// The group of each state.
fn look_up(n: usize, table: &[u32], of: &mut [usize])
    requires sound_table { SoundTable n table.now }
    requires n_bound { (n ≤ 64) × (length of.old ≡ 64) }
    ensures { LookedUp n table.now of.new }
{
    for row in 0..row_count(table) {
        let at = 3 * row;
        let group = table[at + 2] as usize;
        put_group(of, table[at] as usize, table[at + 1] as usize, group);
    }
}

// Adds a share to that of its group.
fn add_share(sums: &mut Numbers, g: usize, x: Scaled)
    requires inside { g < length sums.old.m.now }
    requires fit { Fit (plus (number_at (held sums.old) g) x) }
    ensures { Stored (Placed g (plus (number_at (held sums.old) g) x)) sums.old sums.new }
{
    let sum = kernel::plus_of(sums.load(g), x);
    sums.place(g, sum);
}

// The shares of the sixteen groups: each the sum of the shares of its states, the state rising.
pub fn sum_shares(n: usize, table: &[u32], sm: &[u32], se: &[i32], gm: &mut [u32], ge: &mut [i32])
    requires { Summable n table.now (pair sm.now se.now) (pair gm.old ge.old) }
    ensures { Holds 16 (group_share table.now n (number_at (pair sm.now se.now))) (pair gm.new ge.new) }
{
    let mut of = [0usize; 64];
    look_up(n, table, &mut of);
    kernel::clear(gm, ge);
    let mut sums = Numbers { m: gm, e: ge };
    for s in 0..n {
        add_share(&mut sums, of[s], kernel::load(sm, se, s));
    }
}
