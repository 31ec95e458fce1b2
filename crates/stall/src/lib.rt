// The public calls, exported for C: a number is returned, and three places of a lent slice, four for `stall_join`, take the rest of the
// answer. `capi/stall.h` declares them. No call asks anything of its lent slices: any lengths do.
#![tactic(auto)]

ghost use Rattle.chain.specs.Rows.{in_rows};
ghost use Rattle.layout.specs.Buffers.{buffers};
ghost use Rattle.solver.specs.Lent.{lent};
ghost use Rattle.group_shares.specs.GroupShares.{group_lent};
ghost use Rattle.stall.specs.Calls.{SolveCalled, GroupsCalled, ReadCalled, WriteCalled, JoinCalled};

use chain::Chain;
use layout::Form;

// Solves a chain, as `solver::solve` does: the answer's first place is the bound count.
#[unsafe(no_mangle)]
pub extern "C" fn stall_solve(
    n: usize,
    starts: &[u32],
    columns: &[u32],
    rates: &[u32],
    m: &mut [u32],
    e: &mut [i32],
    wm: &mut [u32],
    we: &mut [i32],
    sm: &mut [u32],
    se: &mut [i32],
    answer: &mut [usize],
) -> u32
    ensures { SolveCalled (in_rows n starts.entry columns.entry rates.entry)
        (lent m.old e.old wm.old we.old sm.old se.old) answer.old result
        (lent m.new e.new wm.new we.new sm.new se.new) answer.new }
{
    let chain = Chain {
        order: n,
        starts,
        columns,
        rates,
    };
    let outcome = solver::solve(chain, m, e, wm, we, sm, se);
    telling::tell_count(outcome, answer)
}

// Solves a chain with a group table, as `group_shares::solve_groups` does: the answer's first place is the bound count.
#[unsafe(no_mangle)]
pub extern "C" fn stall_solve_groups(
    n: usize,
    starts: &[u32],
    columns: &[u32],
    rates: &[u32],
    table: &[u32],
    m: &mut [u32],
    e: &mut [i32],
    wm: &mut [u32],
    we: &mut [i32],
    sm: &mut [u32],
    se: &mut [i32],
    gm: &mut [u32],
    ge: &mut [i32],
    answer: &mut [usize],
) -> u32
    ensures { GroupsCalled (in_rows n starts.entry columns.entry rates.entry) table.now
        (group_lent m.old e.old wm.old we.old sm.old se.old gm.old ge.old) answer.old result
        (group_lent m.new e.new wm.new we.new sm.new se.new gm.new ge.new) answer.new }
{
    let chain = Chain {
        order: n,
        starts,
        columns,
        rates,
    };
    let outcome = group_shares::solve_groups(chain, table, m, e, wm, we, sm, se, gm, ge);
    telling::tell_count(outcome, answer)
}

// Reads a stored chain, as `storage::read` does: the answer's places are the order, the number of entries and the number of the form.
#[unsafe(no_mangle)]
pub extern "C" fn stall_read(
    bytes: &[u8],
    starts: &mut [u32],
    columns: &mut [u32],
    rates: &mut [u32],
    answer: &mut [usize],
) -> u32
    ensures { ReadCalled bytes.now (buffers starts.old columns.old rates.old) answer.old result
        (buffers starts.new columns.new rates.new) answer.new }
{
    let reading = storage::read(bytes, starts, columns, rates);
    telling::tell_reading(reading, answer)
}

// Stores a chain, in form 1, as `storage::write` does: the answer's first place is the number of bytes.
#[unsafe(no_mangle)]
pub extern "C" fn stall_write(
    n: usize,
    starts: &[u32],
    columns: &[u32],
    rates: &[u32],
    out: &mut [u8],
    answer: &mut [usize],
) -> u32
    ensures { WriteCalled Form.One (in_rows n starts.entry columns.entry rates.entry) out.old answer.old result
        out.new answer.new }
{
    let chain = Chain {
        order: n,
        starts,
        columns,
        rates,
    };
    let outcome = storage::write(Form::One, chain, out);
    telling::tell_count(outcome, answer)
}

// Stores a chain, in form 2, as `storage::write` does; each form has an exported name of its own: the answer's first place is the number of bytes.
#[unsafe(no_mangle)]
pub extern "C" fn stall_write_short(
    n: usize,
    starts: &[u32],
    columns: &[u32],
    rates: &[u32],
    out: &mut [u8],
    answer: &mut [usize],
) -> u32
    ensures { WriteCalled Form.Two (in_rows n starts.entry columns.entry rates.entry) out.old answer.old result
        out.new answer.new }
{
    let chain = Chain {
        order: n,
        starts,
        columns,
        rates,
    };
    let outcome = storage::write(Form::Two, chain, out);
    telling::tell_count(outcome, answer)
}

// Joins two chains, as `joint::join` does: the answer's first place is the number of entries; it has four places, the fourth tells which part
// a refusal is of.
#[unsafe(no_mangle)]
pub extern "C" fn stall_join(
    n1: usize,
    starts1: &[u32],
    columns1: &[u32],
    rates1: &[u32],
    n2: usize,
    starts2: &[u32],
    columns2: &[u32],
    rates2: &[u32],
    starts: &mut [u32],
    columns: &mut [u32],
    rates: &mut [u32],
    answer: &mut [usize],
) -> u32
    ensures { JoinCalled (in_rows n1 starts1.entry columns1.entry rates1.entry)
        (in_rows n2 starts2.entry columns2.entry rates2.entry)
        (buffers starts.old columns.old rates.old) answer.old result
        (buffers starts.new columns.new rates.new) answer.new }
{
    let first = Chain {
        order: n1,
        starts: starts1,
        columns: columns1,
        rates: rates1,
    };
    let second = Chain {
        order: n2,
        starts: starts2,
        columns: columns2,
        rates: rates2,
    };
    let joining = joint::join(first, second, starts, columns, rates);
    telling::tell_joining(joining, answer)
}
