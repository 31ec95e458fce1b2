// The bytes of a chain, put into the lent bytes.
ghost use Rattle.std.specs.Prelude.{◌≡◌, ◌+◌, ◌*◌, ◌<◌, ◌≤◌, ◌&&◌, ◌||◌, not, eqb, ltb, length};
ghost use Rattle.std.specs.List.{list_any, zip};
ghost use Rattle.std.proofs.lemmas.List.Edits.{sets};
ghost use Rattle.chain.specs.Rows.{rows_of};
ghost use Rattle.layout.specs.Forms.{width};
ghost use Rattle.layout.specs.Bytes.{map_bytes};
ghost use Rattle.layout.specs.File.{map_byte, map_of, marks_of, rate_bytes, bytes_of, rates_size, row_bytes, file_of, file_size, has};
ghost use Rattle.packing.specs.Inner.{picked};

use chain::SoundChain;
use layout::{Form, first_of, is_short, map_bytes, width_of};

// A rate in two bytes or in four, put from place a on: the place after it. The two are copied apart, since a copy of as many bytes as a number says is
// slower.
fn put_rate(short: bool, rate: u32, out: &mut [u8], a: usize) -> usize
    requires { a + width short ≤ length out.old }
    ensures { (out.new ≡ sets out.old a (rate_bytes short rate)) × (result ≡ a + width short) }
{
    let bytes = rate.to_le_bytes();
    if short {
        out[a..a + 2].copy_from_slice(&bytes[..2]);
        a + 2
    } else {
        out[a..a + 4].copy_from_slice(&bytes);
        a + 4
    }
}

// Rates, put from place m on: the place after them.
fn put_rates(form: Form, rates: &[u32], out: &mut [u8], m: usize) -> usize
    requires { m + rates_size form rates.now ≤ length out.old }
    ensures { (out.new ≡ sets out.old m (bytes_of form rates.now)) × (result ≡ m + rates_size form rates.now) }
{
    let mut a = m;
    for &rate in rates {
        a = put_rate(is_short(form, rate), rate, out, a);
    }
    a
}

// The bytes of rates.
pub fn rates_size(form: Form, rates: &[u32]) -> usize
    ensures { result ≡ rates_size form rates.now }
{
    rates
        .iter()
        .map(|&rate| width_of(is_short(form, rate)))
        .sum()
}

// A row that is put into bytes: the form and the order of its file, and the columns and rates of its entries.
#[derive(Clone, Copy)]
struct Row<'a> {
    form: Form,
    order: usize,
    columns: &'a [u32],
    rates: &'a [u32],
    ghost few: { order ≤ 64 },
    ghost paired: { length columns.now ≡ length rates.now },
}

impl Row<'_> {
    // Whether the row has an entry at column j, or one whose rate is short.
    fn has(self, short: bool, j: usize) -> bool
        ensures { result ≡ list_any (λ p. eqb p.0 j && (not short || ltb p.1 65536)) (zip self.entry.columns.now self.entry.rates.now) }
    {
        self.columns.iter().zip(self.rates).any(|(&column, &rate)| column as usize == j
            && (!short || rate < 65536))
    }

    // Byte k of the map of the row's columns, or of those whose rates are short, from its highest bit down.
    fn map_byte(self, short: bool, k: usize) -> u8
        requires { k < 8 }
        ensures { result ≡ map_byte (picked short self.entry.columns.now self.entry.rates.now) k }
    {
        let mut byte = 0;
        for i in (0..8).rev() {
            byte = u8::from(self.has(short, 8 * k + i)) + 2 * byte;
        }
        byte
    }

    // That map, put from place m on: the place after it.
    // Built into its callers, each of which says which of the two maps it wants: writing would else take up to a third longer.
    #[inline(always)]
    fn put_map(self, short: bool, out: &mut [u8], m: usize) -> usize
        requires { m + map_bytes self.order ≤ length out.old }
        ensures { (out.new ≡ sets out.old m (map_of (picked short self.entry.columns.now self.entry.rates.now) (map_bytes self.entry.order) 0)) ×
            (result ≡ m + map_bytes self.entry.order) }
    {
        let width = map_bytes(self.order);
        for k in 0..width {
            out[m + k] = self.map_byte(short, k);
        }
        m + width
    }

    // The second map, which form 1 does not have, put from place m on: the place after it.
    fn put_marks(self, out: &mut [u8], m: usize) -> usize
        requires { m + length (marks_of self.form self.order self.columns.now self.rates.now) ≤ length out.old }
        ensures { (out.new ≡ sets out.old m (marks_of self.entry.form self.entry.order self.entry.columns.now self.entry.rates.now)) ×
            (result ≡ m + length (marks_of self.entry.form self.entry.order self.entry.columns.now self.entry.rates.now)) }
    {
        match self.form {
            Form::One => m,
            Form::Two => self.put_map(true, out, m),
        }
    }

    // The whole row, put from place m on: the place after it.
    fn put(self, out: &mut [u8], m: usize) -> usize
        requires { m + length (row_bytes self.form self.order self.columns.now self.rates.now) ≤ length out.old }
        ensures { (out.new ≡ sets out.old m (row_bytes self.entry.form self.entry.order self.entry.columns.now self.entry.rates.now)) ×
            (result ≡ m + length (row_bytes self.entry.form self.entry.order self.entry.columns.now self.entry.rates.now)) }
    {
        let marks_at = self.put_map(false, out, m);
        let rates_at = self.put_marks(out, marks_at);
        put_rates(self.form, self.rates, out, rates_at)
    }
}

// A chain that keeps the rules, put from place 0 on.
pub fn put_chain(form: Form, sound: SoundChain, out: &mut [u8])
    requires { file_size form sound.chain.order sound.chain.rates.now ≤ length out.old }
    ensures { out.new ≡ sets out.old 0 (file_of form (rows_of sound.entry.chain)) }
{
    let chain = sound.chain;
    out[0] = first_of(form, chain.order) as u8;
    let mut m = 1;
    for row in 0..chain.order {
        let begin = chain.starts[row] as usize;
        let end = chain.starts[row + 1] as usize;
        let entries = Row {
            form,
            order: chain.order,
            columns: &chain.columns[begin..end],
            rates: &chain.rates[begin..end],
        };
        m = entries.put(out, m);
    }
}
