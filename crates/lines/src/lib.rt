// The lines of an answer, put into a buffer that has room for them. Each call answers the place after its text.
#![tactic(auto)]

ghost use Rattle.std.specs.Prelude.{◌+◌, ◌≤◌, length};
ghost use Rattle.decimal.specs.Decimal.{decimal, signed};
ghost use Rattle.decimal.specs.Put.{Puts};
ghost use Rattle.kernel.specs.Slices.{pair, number_at};
ghost use Rattle.lines.specs.Inner.{fields};
ghost use Rattle.lines.specs.Lines.{header_line, state_line, state_lines, answer_lines};

use scaled::Scaled;

// Of a scaled number m and e, each after a blank.
fn put_scaled(out: &mut [u8], at: usize, x: Scaled) -> usize
    requires { at + 2 + length (decimal x.m) + length (signed x.e) ≤ length out.old }
    ensures { Puts out.old at (fields x) out.new result }
{
    let p = refused::put_field(out, at, x.m as u64);
    let p = decimal::put_byte(out, p, b' ');
    decimal::put_signed(out, p, x.e)
}

// "states n bound K"
fn put_header(out: &mut [u8], at: usize, n: usize, bound: usize) -> usize
    requires { at + 15 + length (decimal n) + length (decimal bound) ≤ length out.old }
    ensures { Puts out.old at (header_line n bound) out.new result }
{
    let p = decimal::put_text(out, at, b"states");
    let p = refused::put_field(out, p, n as u64);
    let p = decimal::put_text(out, p, b" bound");
    let p = refused::put_field(out, p, bound as u64);
    decimal::put_byte(out, p, b'\n')
}

// The line of a state: its number, weight m, weight e, share m, share e.
fn put_state(out: &mut [u8], at: usize, number: usize, weight: Scaled, share: Scaled) -> usize
    requires { at + 5 + length (decimal number) + length (decimal weight.m) + length (signed weight.e) + length (decimal share.m) + length (signed share.e) ≤ length out.old }
    ensures { Puts out.old at (state_line number weight share) out.new result }
{
    let p = decimal::put_number(out, at, number as u64);
    let p = put_scaled(out, p, weight);
    let p = put_scaled(out, p, share);
    decimal::put_byte(out, p, b'\n')
}

// The lines of states 0 to n - 1, whose weights and shares stand in the four slices: two pairs and no struct, as `solver::solve` is lent them
// by C's interface.
fn put_states(
    out: &mut [u8],
    at: usize,
    n: usize,
    wm: &[u32],
    we: &[i32],
    sm: &[u32],
    se: &[i32],
) -> usize
    requires { (at + length (state_lines (number_at (pair wm.now we.now)) (number_at (pair sm.now se.now)) n 0) ≤ length out.old) ×
        (n ≤ length wm.now) × (n ≤ length we.now) × (n ≤ length sm.now) × (n ≤ length se.now) }
    ensures { Puts out.old at (state_lines (number_at (pair wm.now we.now)) (number_at (pair sm.now se.now)) n 0) out.new result }
{
    let mut p = at;
    for i in 0..n {
        let weight = kernel::load(wm, we, i);
        let share = kernel::load(sm, se, i);
        p = put_state(out, p, i, weight, share);
    }
    p
}

// "states n bound K", then for each state its number, weight m, weight e, share m, share e.
pub fn put_answer(
    out: &mut [u8],
    order: usize,
    bound: usize,
    wm: &[u32],
    we: &[i32],
    sm: &[u32],
    se: &[i32],
) -> usize
    requires { (length (answer_lines order bound (number_at (pair wm.now we.now)) (number_at (pair sm.now se.now))) ≤ length out.old) ×
        (order ≤ length wm.now) × (order ≤ length we.now) × (order ≤ length sm.now) × (order ≤ length se.now) }
    ensures { Puts out.old 0 (answer_lines order bound (number_at (pair wm.now we.now)) (number_at (pair sm.now se.now))) out.new result }
{
    let at = put_header(out, 0, order, bound);
    put_states(out, at, order, wm, we, sm, se)
}
