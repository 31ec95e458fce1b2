// The stored forms of a chain: what their single bits and rates are (internal).
#![tactic(auto)]

ghost use Rattle.std.specs.Prelude.{◌≡◌, ◌+◌, ◌*◌, ◌/◌, ◌<◌, ◌≤◌, length};
ghost use Rattle.layout.specs.Forms.{lead, short, width, form_in, order_in, form_number};
ghost use Rattle.layout.specs.Bytes.{map_bytes, maps_of, bit_at, marked, short_rate, stored_rate, rate_at};

// The two stored forms: in the second, rates below 65,536 are marked and take two bytes.
#[derive(Clone, Copy)]
pub enum Form {
    One,
    Two,
}

// A form by its number.
impl From<Form> for usize {
    ghost from_gives = { λ form n. n ≡ form_number form };

    fn from(form: Form) -> usize {
        match form {
            Form::One => 1,
            Form::Two => 2,
        }
    }
}

// The form of a file with this first byte. It and the order are functions and no `TryFrom`: every first byte has both, and the order is
// tested for itself, as refusal 1.
pub fn form_in(first: usize) -> Form
    ensures { result ≡ form_in first }
{
    if 128 < first { Form::Two } else { Form::One }
}

// The order of a file with this first byte.
pub fn order_in(first: usize) -> usize
    ensures { (result ≡ order_in first) × (result ≤ first) }
{
    if 128 < first { first - 128 } else { first }
}

// The first byte of a file of this form and order.
pub fn first_of(form: Form, n: usize) -> usize
    requires { n ≤ 64 }
    ensures { (result ≡ lead form + n) × (result ≤ 192) }
{
    match form {
        Form::One => n,
        Form::Two => 128 + n,
    }
}

// The bytes of one map of a row.
pub fn map_bytes(n: usize) -> usize
    ensures { result ≡ map_bytes n }
{
    n.div_ceil(8)
}

// The bytes of a row's maps.
pub fn maps_of(form: Form, n: usize) -> usize
    requires { n ≤ 64 }
    ensures { (result ≡ maps_of form n) × (result ≤ 16) }
{
    match form {
        Form::One => map_bytes(n),
        Form::Two => 2 * map_bytes(n),
    }
}

// Whether a rate is one that is marked.
pub fn is_short(form: Form, rate: u32) -> bool
    ensures { result ≡ short form rate }
{
    match form {
        Form::One => false,
        Form::Two => rate < 65536,
    }
}

// The bytes of a rate.
pub fn width_of(mark: bool) -> usize
    ensures { (result ≡ width mark) × (result ≤ 4) }
{
    if mark { 2 } else { 4 }
}

// What suffices for every chain of 64 states, each with an entry at every other: starts, entries, and the bytes of its file.
pub const MOST_STARTS: usize = 65;

pub const MOST_ENTRIES: usize = 4032;

pub const LONGEST_FILE: usize = 17153;

// One byte more, so that a program that reads no more of its input tells a file that is too long.
pub const ENOUGH_BYTES: usize = 17154;

// Bit j of the map that begins at a place.
pub fn bit_at(bytes: &[u8], map: usize, j: usize) -> bool
    requires { map + j / 8 < length bytes.now }
    ensures { result ≡ bit_at bytes.now map j }
{
    (bytes[map + j / 8] >> (j % 8)) % 2 == 1
}

// Whether the rate of column j is marked, in the row whose map begins at a place.
pub fn is_marked(bytes: &[u8], form: Form, n: usize, map: usize, j: usize) -> bool
    requires { (map + maps_of form n ≤ length bytes.now) × (j < 8 * map_bytes n) }
    ensures { result ≡ marked form bytes.now n map j }
{
    match form {
        Form::One => false,
        Form::Two => bit_at(bytes, map + map_bytes(n), j),
    }
}

// The rate in two bytes from a place on, low byte first.
fn two_at(bytes: &[u8], place: usize) -> u32
    requires { place + 2 ≤ length bytes.now }
    ensures { result ≡ short_rate bytes.now place }
{
    u16::from_le_bytes([bytes[place], bytes[place + 1]]).into()
}

// The rate in four bytes from a place on, low byte first.
fn four_at(bytes: &[u8], place: usize) -> u32
    requires { place + 4 ≤ length bytes.now }
    ensures { result ≡ stored_rate bytes.now place }
{
    u32::from_le_bytes([
        bytes[place],
        bytes[place + 1],
        bytes[place + 2],
        bytes[place + 3],
    ])
}

// The rate from a place on, in two bytes if it is marked and in four otherwise.
pub fn rate_at(bytes: &[u8], mark: bool, place: usize) -> u32
    requires { place + width mark ≤ length bytes.now }
    ensures { result ≡ rate_at mark bytes.now place }
{
    if mark {
        two_at(bytes, place)
    } else {
        four_at(bytes, place)
    }
}
