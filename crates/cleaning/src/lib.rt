// What the cleaning program writes for any bytes, put at the front of a lent buffer.
#![tactic(auto)]

ghost use Rattle.std.specs.Prelude.{◌≤◌, length};
ghost use Rattle.chain.specs.Rows.{rows_of};
ghost use Rattle.layout.specs.Buffers.{most_entries};
ghost use Rattle.layout.specs.File.{file_of, longest_file};
ghost use Rattle.decimal.specs.Put.{Puts};
ghost use Rattle.cleaned.specs.Cleaned.{cleaned};
ghost use Rattle.cleaning.specs.Cleaning.{Rewrites};

use chain::SoundChain;
use filing::put_file;
use layout::Form;
use storage::Reading;

// The file of a chain without its entries of rate 0, in a form.
fn put_cleaned(out: &mut [u8], form: Form, sound: SoundChain) -> usize
    requires { (longest_file ≤ length out.old) × (length sound.chain.columns.now ≤ most_entries) }
    ensures { (Puts out.old 0 (file_of form (cleaned (rows_of sound.entry.chain))) out.new result) × (result ≤ longest_file) }
{
    let mut starts = [0u32; layout::MOST_STARTS];
    let mut columns = [0u32; layout::MOST_ENTRIES];
    let mut rates = [0u32; layout::MOST_ENTRIES];
    let kept = cleaned::clean_chain(sound, &mut starts, &mut columns, &mut rates);
    let order = sound.chain.order;
    let left = Reading {
        order,
        entries: kept,
        form,
    };
    put_file(out, form, left.chain(&starts, &columns, &rates))
}

// Puts the cleaned file of these bytes, or the line of their refusal, at the front of `out`: the answer is the number of its bytes. Where
// `out` has no room for the longest file, nothing is changed and the answer is 0.
pub fn clean(bytes: &[u8], out: &mut [u8]) -> usize
    ensures { Rewrites bytes.now out.old out.new result }
{
    if out.len() < layout::LONGEST_FILE {
        return 0;
    }
    let mut starts = [0u32; layout::MOST_STARTS];
    let mut columns = [0u32; layout::MOST_ENTRIES];
    let mut rates = [0u32; layout::MOST_ENTRIES];
    match storage::read_with_zeros(bytes, &mut starts, &mut columns, &mut rates) {
        Ok(reading) => {
            let chain = reading.chain(&starts, &columns, &rates);
            put_cleaned(out, reading.form, SoundChain { chain })
        }
        Err(refusal) => refused::put_refusal(out, refusal),
    }
}
