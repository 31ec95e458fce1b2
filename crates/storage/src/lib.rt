// Stored chains: a chain read from bytes into lent slices, and written into lent bytes.
#![tactic(auto)]

ghost use Rattle.std.specs.Prelude.{◌≡◌, ◌<◌, ◌≤◌, length};
ghost use Rattle.chain.specs.Rows.{rows_of};
ghost use Rattle.file_rules.specs.Sound.{zeros_taken, zeros_refused};
ghost use Rattle.file_rules.specs.Verdict.{read_verdict};
ghost use Rattle.layout.specs.Buffers.{buffers, in_buffers, chain_in};
ghost use Rattle.storage.specs.Reading.{told, Read};
ghost use Rattle.storage.specs.Writing.{Written};

use chain::{Chain, SoundChain};
use checking::{check_file, room_for};
use layout::{Form, form_in, maps_of, order_in};
use packing::fill::fill_rows;
use packing::put::{put_chain, rates_size};
use refusal::{BytesReason, ChainReason, Refusal};

// What a reading gives: the order and the number of entries of the chain that now stands in the lent slices, and the form of its file.
#[derive(Clone, Copy)]
pub struct Reading {
    pub order: usize,
    pub entries: usize,
    pub form: Form,
}

impl Reading {
    // The chain that the reading left in the front of these slices.
    pub fn chain<'a>(self, starts: &'a [u32], columns: &'a [u32], rates: &'a [u32]) -> Chain<'a>
        requires { (self.order < length starts.now) × (self.entries ≤ length columns.now) × (self.entries ≤ length rates.now) }
        ensures { rows_of result ≡ chain_in (in_buffers starts.entry columns.entry rates.entry) self.order self.entries }
    {
        Chain {
            order: self.order,
            starts: &starts[..self.order + 1],
            columns: &columns[..self.entries],
            rates: &rates[..self.entries],
        }
    }
}

// What a reading into slices of these lengths answers, rates of 0 being taken or not.
fn judge(
    bytes: &[u8],
    zeros: bool,
    starts: usize,
    columns: usize,
    rates: usize,
) -> Result<Reading, Refusal>
    ensures { told result ≡ read_verdict zeros bytes.now starts columns rates }
{
    let entries = check_file(bytes, zeros)?;
    let first = bytes[0] as usize;
    let order = order_in(first);
    if !room_for(order, entries, starts, columns, rates) {
        return Err(Refusal::Bytes(BytesReason::Room));
    }
    let form = form_in(first);
    Ok(Reading {
        order,
        entries,
        form,
    })
}

// A stored chain, read into the three slices: nothing is written before every refusal is behind. C lends the slices apart, so they are
// parameters and no struct. `read` and `read_with_zeros` are public names of this one function.
fn read_by(
    bytes: &[u8],
    zeros: bool,
    starts: &mut [u32],
    columns: &mut [u32],
    rates: &mut [u32],
) -> Result<Reading, Refusal>
    ensures { Read zeros bytes.now
        (buffers starts.old columns.old rates.old) result
        (buffers starts.new columns.new rates.new) }
{
    let stored = judge(bytes, zeros, starts.len(), columns.len(), rates.len())?;
    fill_rows(bytes, stored.form, stored.order, starts, columns, rates);
    Ok(stored)
}

// A stored chain: one with a rate of 0 is refused by 14.
pub fn read(
    bytes: &[u8],
    starts: &mut [u32],
    columns: &mut [u32],
    rates: &mut [u32],
) -> Result<Reading, Refusal>
    ensures { Read zeros_refused bytes.now
        (buffers starts.old columns.old rates.old) result
        (buffers starts.new columns.new rates.new) }
{
    read_by(bytes, false, starts, columns, rates)
}

// A chain stored under the rules until request R-5, by which rates of 0 are taken.
pub fn read_with_zeros(
    bytes: &[u8],
    starts: &mut [u32],
    columns: &mut [u32],
    rates: &mut [u32],
) -> Result<Reading, Refusal>
    ensures { Read zeros_taken bytes.now
        (buffers starts.old columns.old rates.old) result
        (buffers starts.new columns.new rates.new) }
{
    read_by(bytes, true, starts, columns, rates)
}

// A chain, stored in the lent bytes in a form: the number of bytes. A refusal of the check is passed on unchanged.
pub fn write(form: Form, chain: Chain, out: &mut [u8]) -> Result<usize, Refusal>
    ensures { Written form (rows_of chain.entry) out.old result out.new }
{
    chain.check()?;
    let size = 1 + chain.order * maps_of(form, chain.order) + rates_size(form, chain.rates);
    if out.len() < size {
        return Err(Refusal::Chain(ChainReason::Room));
    }
    put_chain(form, SoundChain { chain }, out);
    Ok(size)
}
