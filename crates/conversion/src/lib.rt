// What the converting program writes for any bytes, put at the front of a lent buffer.
#![tactic(auto)]

ghost use Rattle.std.specs.Prelude.{◌≡◌};
ghost use Rattle.conversion.specs.Conversion.{other, Conversion};

use filing::put_file;
use layout::Form;

// The other form.
fn other_form(form: Form) -> Form
    ensures { result ≡ other form }
{
    match form {
        Form::One => Form::Two,
        Form::Two => Form::One,
    }
}

// Puts the file of these bytes in the other form, or the line of their refusal, at the front of `out`: the answer is the number of its bytes.
// Where `out` has no room for the longest file, nothing is changed and the answer is 0.
pub fn convert(bytes: &[u8], out: &mut [u8]) -> usize
    ensures { Conversion bytes.now out.old out.new result }
{
    if out.len() < layout::LONGEST_FILE {
        return 0;
    }
    let mut starts = [0u32; layout::MOST_STARTS];
    let mut columns = [0u32; layout::MOST_ENTRIES];
    let mut rates = [0u32; layout::MOST_ENTRIES];
    match storage::read(bytes, &mut starts, &mut columns, &mut rates) {
        Ok(reading) => {
            let chain = reading.chain(&starts, &columns, &rates);
            put_file(out, other_form(reading.form), chain)
        }
        Err(refusal) => refused::put_refusal(out, refusal),
    }
}
