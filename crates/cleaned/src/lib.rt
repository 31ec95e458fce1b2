// A chain without its entries of rate 0, put into second slices.
#![tactic(auto)]

ghost use Rattle.std.specs.Prelude.{map, ltb, count_by, ◌≡◌};
ghost use Rattle.std.proofs.lemmas.List.Edits.{sets};
ghost use Rattle.chain.specs.Rows.{rows_of};
ghost use Rattle.cleaned.specs.Cleaned.{new_place};
ghost use Rattle.cleaned.specs.Inner.{PutKept, KeptPut, PutStarts, Clean, Cleans};

use chain::SoundChain;

// How many of these rates are positive.
fn count_positive(rates: &[u32]) -> usize
    ensures { result ≡ count_by (λ rate. ltb 0 rate) rates.now }
{
    rates.iter().filter(|&&rate| 0 < rate).count()
}

// Each start counts the positive rates before it; every rate is looked at once.
fn put_starts(starts: &[u32], rates: &[u32], out: &mut [u32])
    requires { PutStarts starts.now rates.now out.old }
    ensures { out.new ≡ sets out.old 0 (map (new_place rates.now) starts.now) }
{
    let mut p = 0;
    let mut count = 0;
    for (row, &next) in starts.iter().enumerate() {
        let start = next as usize;
        count += count_positive(&rates[p..start]);
        out[row] = count as u32;
        p = start;
    }
}

// What stands where the rate is not 0, put from the first place on: how many there are.
fn put_kept(values: &[u32], rates: &[u32], out: &mut [u32]) -> usize
    requires { PutKept values.now rates.now out.old }
    ensures { KeptPut values.now rates.now out.old result out.new }
{
    let mut q = 0;
    for (p, &rate) in rates.iter().enumerate() {
        if 0 < rate {
            out[q] = values[p];
            q += 1;
        }
    }
    q
}

// The chain without its entries of rate 0, put into the front of three slices: the number of its entries. They are
// parameters and no struct, as where a chain is read (`storage`).
pub fn clean_chain(
    sound: SoundChain,
    starts: &mut [u32],
    columns: &mut [u32],
    rates: &mut [u32],
) -> usize
    requires { Clean (rows_of sound.chain) starts.old columns.old rates.old }
    ensures { Cleans (rows_of sound.entry.chain) starts.old columns.old rates.old
        result starts.new columns.new rates.new }
{
    let chain = sound.chain;
    put_starts(chain.starts, chain.rates, starts);
    put_kept(chain.rates, chain.rates, rates);
    put_kept(chain.columns, chain.rates, columns)
}
