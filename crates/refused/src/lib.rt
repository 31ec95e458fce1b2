// The line of a refusal, and the parts that every line is put from. Each call answers the place after its text.
#![tactic(auto)]

ghost use Rattle.std.specs.Prelude.{◌+◌, ◌≤◌, ◌∷◌, length};
ghost use Rattle.decimal.specs.Decimal.{decimal};
ghost use Rattle.decimal.specs.Put.{Puts};
ghost use Rattle.refusal.specs.Table.{line};
ghost use Rattle.refused.specs.Refused.{blank, refused_line, longest_refused};

use refusal::{Line, Refusal};

// A blank and a number.
pub fn put_field(out: &mut [u8], at: usize, x: u64) -> usize
    requires { at + 1 + length (decimal x) ≤ length out.old }
    ensures { Puts out.old at (blank ∷ decimal x) out.new result }
{
    let first = decimal::put_byte(out, at, b' ');
    decimal::put_number(out, first, x)
}

// "refused", its number, its two places.
fn put_refused(out: &mut [u8], at: usize, line: Line) -> usize
    requires { at + 11 + length (decimal line.number) + length (decimal line.first) + length (decimal line.second) ≤ length out.old }
    ensures { Puts out.old at (refused_line line) out.new result }
{
    let p = decimal::put_text(out, at, b"refused");
    let p = put_field(out, p, line.number as u64);
    let p = put_field(out, p, line.first as u64);
    let p = put_field(out, p, line.second as u64);
    decimal::put_byte(out, p, b'\n')
}

// The line of a refusal, put at the front of a buffer: the number of its bytes.
pub fn put_refusal(out: &mut [u8], refusal: Refusal) -> usize
    requires { longest_refused ≤ length out.old }
    ensures { (Puts out.old 0 (refused_line (line refusal)) out.new result) × (result ≤ longest_refused) }
{
    let line = refusal::listed(refusal);
    put_refused(out, 0, line)
}
