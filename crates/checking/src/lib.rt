// The first pass of a reading: every refusal of the bytes, and whether slices have room (internal).
#![tactic(auto)]

ghost use Rattle.std.specs.Prelude.{◌≡◌, ◌+◌, ◌*◌, ◌/◌, ◌<◌, ◌≤◌, length, count_by};
ghost use Rattle.std.specs.List.{range_with_len};
ghost use Rattle.basics.specs.First.{found};
ghost use Rattle.refusal.specs.Table.{verdict};
ghost use Rattle.layout.specs.Bytes.{map_bytes, maps_of, marked, bit_at, stored_columns};
ghost use Rattle.file_rules.specs.Verdict.{bad_bit, loose_bit, marks_checked, mark_checked};
ghost use Rattle.file_rules.specs.Verdict.{rate_checked, rates_checked, row_checked, rows_checked, file_checked, room_to_read};

use chain::order_sound;
use layout::{
    Form, bit_at, form_in, is_marked, is_short, map_bytes, maps_of, order_in, rate_at, width_of,
};
use refusal::{BytesReason, Refusal};

// The mark of a rate against its size: the place after the rate.
fn check_mark(
    form: Form,
    row: usize,
    column: usize,
    mark: bool,
    rate: u32,
    next: usize,
) -> Result<usize, Refusal>
    ensures { verdict result ≡ mark_checked form row column mark rate next }
{
    if mark == is_short(form, rate) {
        return Ok(next);
    }
    Err(Refusal::Bytes(BytesReason::Mark(row, column)))
}

// A file whose first byte tells its form and an order of at most 64, and whether rates of 0 are taken.
#[derive(Clone, Copy)]
struct File<'a> {
    bytes: &'a [u8],
    zeros: bool,
    form: Form,
    order: usize,
    ghost few: { order ≤ 64 },
}

impl File<'_> {
    // Bit j of a row's map stands where none may.
    fn bad_bit(self, row: usize, map: usize, j: usize) -> bool
        requires { map + j / 8 < length self.bytes.now }
        ensures { result ≡ bad_bit self.entry.bytes.now self.entry.order row map j }
    {
        let n = self.order;
        bit_at(self.bytes, map, j) && (j == row || n <= j)
    }

    // The lowest bit of a row's map that stands where none may.
    fn first_bad_bit(self, row: usize, map: usize) -> Option<usize>
        requires { map + map_bytes self.order ≤ length self.bytes.now }
        ensures { result ≡ found (bad_bit self.entry.bytes.now self.entry.order row map) 0 (8 * map_bytes self.entry.order) }
    {
        (0..8 * map_bytes(self.order)).find(|&j| self.bad_bit(row, map, j))
    }

    // How many entries a row has.
    fn count_entries(self, map: usize) -> usize
        requires { map + map_bytes self.order ≤ length self.bytes.now }
        ensures { result ≡ count_by (bit_at self.entry.bytes.now map) (range_with_len 0 self.entry.order) }
    {
        (0..self.order)
            .filter(|&j| bit_at(self.bytes, map, j))
            .count()
    }

    // A bit of a row's second map stands where the first has none.
    fn loose_bit(self, map: usize, j: usize) -> bool
        requires { map + map_bytes self.order + j / 8 < length self.bytes.now }
        ensures { result ≡ loose_bit self.entry.bytes.now self.entry.order map j }
    {
        bit_at(self.bytes, map + map_bytes(self.order), j) && !bit_at(self.bytes, map, j)
    }

    // The lowest bit of a row's second map that has no rate.
    fn first_loose_bit(self, map: usize) -> Option<usize>
        requires { map + (map_bytes self.order + map_bytes self.order) ≤ length self.bytes.now }
        ensures { result ≡ found (loose_bit self.entry.bytes.now self.entry.order map) 0 (8 * map_bytes self.entry.order) }
    {
        (0..8 * map_bytes(self.order)).find(|&j| self.loose_bit(map, j))
    }

    // The second map of a row, which form 1 does not have: the place at which the rates begin.
    fn check_marks(self, row: usize, map: usize) -> Result<usize, Refusal>
        requires { map ≤ length self.bytes.now }
        ensures { verdict result ≡ marks_checked self.entry.form self.entry.bytes.now self.entry.order row map }
    {
        let maps = maps_of(self.form, self.order);
        match self.form {
            Form::One => Ok(map + maps),
            Form::Two => {
                if self.bytes.len() - map < maps {
                    return Err(Refusal::Bytes(BytesReason::Short));
                }
                if let Some(bit) = self.first_loose_bit(map) {
                    return Err(Refusal::Bytes(BytesReason::Mark(row, bit)));
                }
                Ok(map + maps)
            }
        }
    }

    // The rate of a row's column, from a place on: the place after it. What is asked of a single rate as it is read stands here.
    fn check_rate(
        self,
        row: usize,
        column: usize,
        mark: bool,
        place: usize,
    ) -> Result<usize, Refusal>
        requires { place ≤ length self.bytes.now }
        ensures { verdict result ≡ rate_checked self.entry.zeros self.entry.form self.entry.bytes.now row column mark place }
    {
        let width = width_of(mark);
        if self.bytes.len() - place < width {
            return Err(Refusal::Bytes(BytesReason::Short));
        }
        let rate = rate_at(self.bytes, mark, place);
        if self.zeros || 0 < rate {
            return check_mark(self.form, row, column, mark, rate, place + width);
        }
        Err(Refusal::Bytes(BytesReason::ZeroRate(row, column)))
    }

    // The rates of a row: the place after them.
    fn check_rates(self, row: usize, map: usize) -> Result<usize, Refusal>
        requires { map + maps_of self.form self.order ≤ length self.bytes.now }
        ensures { verdict result ≡ rates_checked self.entry.zeros self.entry.form self.entry.bytes.now row
            (marked self.entry.form self.entry.bytes.now self.entry.order map)
            (stored_columns self.entry.bytes.now self.entry.order map) (map + maps_of self.entry.form self.entry.order) }
    {
        let mut place = map + maps_of(self.form, self.order);
        for j in 0..self.order {
            if bit_at(self.bytes, map, j) {
                let mark = is_marked(self.bytes, self.form, self.order, map, j);
                place = self.check_rate(row, j, mark, place)?;
            }
        }
        Ok(place)
    }

    // One row, whose map begins at a place: the place after it.
    fn check_row(self, row: usize, map: usize) -> Result<usize, Refusal>
        requires { map ≤ length self.bytes.now }
        ensures { verdict result ≡ row_checked self.entry.zeros self.entry.form self.entry.bytes.now self.entry.order row map }
    {
        let width = map_bytes(self.order);
        if self.bytes.len() - map < width {
            return Err(Refusal::Bytes(BytesReason::Short));
        }
        if let Some(bit) = self.first_bad_bit(row, map) {
            return Err(Refusal::Bytes(BytesReason::Bit(row, bit)));
        }
        self.check_marks(row, map)?;
        self.check_rates(row, map)
    }

    // All rows, and nothing after them: the number of entries.
    fn check_rows(self) -> Result<usize, Refusal>
        requires { 1 ≤ length self.bytes.now }
        ensures { verdict result ≡ rows_checked self.entry.zeros self.entry.form self.entry.bytes.now self.entry.order self.entry.order 0 1 0 }
    {
        let mut map = 1;
        let mut entries = 0;
        for row in 0..self.order {
            let next = self.check_row(row, map)?;
            entries += self.count_entries(map);
            map = next;
        }
        if map != self.bytes.len() {
            return Err(Refusal::Bytes(BytesReason::Extra));
        }
        Ok(entries)
    }
}

// All that is asked of the bytes themselves, rates of 0 being taken or not: the number of entries.
pub fn check_file(bytes: &[u8], zeros: bool) -> Result<usize, Refusal>
    ensures { verdict result ≡ file_checked zeros bytes.now }
{
    if bytes.is_empty() {
        return Err(Refusal::Bytes(BytesReason::Short));
    }
    let first = bytes[0] as usize;
    let form = form_in(first);
    let order = order_in(first);
    let sound = order_sound(order);
    if !sound {
        return Err(Refusal::Bytes(BytesReason::Order));
    }
    File {
        bytes,
        zeros,
        form,
        order,
    }
    .check_rows()
}

// Whether slices of these lengths hold a chain of order n with e entries.
pub fn room_for(n: usize, e: usize, starts: usize, columns: usize, rates: usize) -> bool
    ensures { result ≡ room_to_read n e starts columns rates }
{
    n < starts && e <= columns && e <= rates
}
