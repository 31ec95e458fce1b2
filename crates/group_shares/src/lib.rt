// Shares by group (document 02, R-1): the public call that solves a chain and sums its shares by a customer's table.
#![tactic(auto)]

ghost use Rattle.std.specs.Prelude.{◌≡◌};
ghost use Rattle.refusal.specs.Table.{verdict};
ghost use Rattle.chain.specs.Rows.{rows_of};
ghost use Rattle.solver.specs.Lent.{both_have};
ghost use Rattle.group_table.specs.Sums.{group_places};
ghost use Rattle.group_shares.specs.GroupShares.{group_lent, GroupsSolved};
ghost use Rattle.group_shares.specs.Inner.{suits, admitted};

use chain::Chain;
use refusal::{ChainReason, Refusal};

fn sixteen_places(m: usize, e: usize) -> bool
    ensures { result ≡ both_have group_places m e }
{
    16 <= m && 16 <= e
}

// Whether no refusal of the table and of the places of the groups applies, of which there are so many: then solving decides.
fn suits(n: usize, table: &[u32], gm: usize, ge: usize) -> bool
    ensures { result ≡ suits n table.now (both_have group_places gm ge) }
{
    if 64 < n {
        return false;
    }
    groups::check_table(n, table).is_ok() && sixteen_places(gm, ge)
}

// 1 to 4 and 14, then 13, 12 and 11, then 5 for the places of the groups: the first refusal, or the number of rows.
fn admit(chain: Chain, table: &[u32], gm: usize, ge: usize) -> Result<usize, Refusal>
    ensures { verdict result ≡ admitted (rows_of chain.entry) table.now (both_have group_places gm ge) }
{
    chain.check()?;
    let rows = groups::check_table(chain.order, table)?;
    if !sixteen_places(gm, ge) {
        return Err(Refusal::Chain(ChainReason::Room));
    }
    Ok(rows)
}

// Solves a chain as `solver::solve` does, and puts the share of each of the sixteen groups of the table into gm, ge. The table has three
// numbers a row: first state, last state, group. The answer is the bound count, or the first refusal in the order of docs/FORMAT.md. The
// contract, `GroupsSolved`, holds for any input.
// C lends the eight slices apart, so they are parameters and no struct.
pub fn solve_groups(
    chain: Chain,
    table: &[u32],
    m: &mut [u32],
    e: &mut [i32],
    wm: &mut [u32],
    we: &mut [i32],
    sm: &mut [u32],
    se: &mut [i32],
    gm: &mut [u32],
    ge: &mut [i32],
) -> Result<usize, Refusal>
    ensures { GroupsSolved (rows_of chain.entry) table.now
        (group_lent m.old e.old wm.old we.old sm.old se.old gm.old ge.old) result
        (group_lent m.new e.new wm.new we.new sm.new se.new gm.new ge.new) }
{
    let n = chain.order;
    if !suits(n, table, gm.len(), ge.len()) {
        return admit(chain, table, gm.len(), ge.len());
    }
    let bound = solver::solve(chain, m, e, wm, we, sm, se)?;
    groups::sum_shares(n, table, &sm[..n], &se[..n], &mut gm[..16], &mut ge[..16]);
    Ok(bound)
}
