// The decimal text of numbers, put into a lent buffer that has room for it. Each call answers the place after the text.
#![tactic(auto)]

ghost use Rattle.std.specs.Prelude.{◌+◌, ◌≤◌, ◌<◌, [], ◌∷◌, length};
ghost use Rattle.decimal.specs.Decimal.{decimal, signed};
ghost use Rattle.decimal.specs.Put.{Puts};

// Puts one byte.
pub fn put_byte(out: &mut [u8], at: usize, byte: u8) -> usize
    requires { at < length out.old }
    ensures { Puts out.old at (byte ∷ []) out.new result }
{
    out[at] = byte;
    at + 1
}

// A text as it stands.
pub fn put_text(out: &mut [u8], at: usize, text: &[u8]) -> usize
    requires { at + length text.now ≤ length out.old }
    ensures { Puts out.old at text.now out.new result }
{
    let end = at + text.len();
    out[at..end].copy_from_slice(text);
    end
}

// The digits of x.
pub fn put_number(out: &mut [u8], at: usize, x: u64) -> usize
    requires { at + length (decimal x) ≤ length out.old }
    ensures { Puts out.old at (decimal x) out.new result }
{
    let mut digits = itoa::Buffer::new();
    let text = digits.format(x).as_bytes();
    put_text(out, at, text)
}

// The sign where e is below 0, then the magnitude.
pub fn put_signed(out: &mut [u8], at: usize, e: i32) -> usize
    requires { at + length (signed e) ≤ length out.old }
    ensures { Puts out.old at (signed e) out.new result }
{
    let size = u64::from(e.unsigned_abs());
    if e < 0 {
        let first = put_byte(out, at, b'-');
        return put_number(out, first, size);
    }
    put_number(out, at, size)
}
