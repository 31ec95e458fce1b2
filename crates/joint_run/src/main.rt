// Reads stored chains, each after its length in two bytes, low byte first; two of them make a pair. It prints two lines on each pair: what
// joining the two gives with room for every joint chain; and the same with less room than many a one needs, the parts being read as old files
// were, so that joining itself meets their rates of 0.
//
// A line is the file of the joint chain in hexadecimal digits, or `refused`, the refusal's number and its two places; then `kept` and how
// many places at the end of the lent starts, columns and rates hold 5,000, as each did before: no start and no column is so high. Where a part
// is refused, `first` or `second` stands in front; where its reading is refused already, the two are not joined and nothing follows. The
// input and the expected lines come from tests/joint_run.py; `tools/chain join` reads the first of the two lines.
#![tactic(auto)]

ghost use Rattle.std.specs.Prelude.{◌≤◌, length};
ghost use Rattle.layout.specs.File.{longest_file};

use chain::Chain;
use framed::Next;
use joint::JoinRefusal;
use layout::Form;
use refusal::Refusal;
use std::io;
use std::io::Read;

// ---- the text

// A hexadecimal digit, for numbers below 16.
fn digit(x: u8) -> u8 {
    match x {
        0..=9 => b'0' + x,
        10..=15 => b'a' - 10 + x,
        _ => b'?',
    }
}

// The bytes of a file in hexadecimal digits, two each. (With `{byte:02x}` for each byte a joining takes half as long again.)
fn print_digits(rt: &impl Print, bytes: &[u8]) -> io::Result<()>
    requires { length bytes.now ≤ longest_file }
{
    let mut text = [0u8; 2 * layout::LONGEST_FILE];
    for (i, &byte) in bytes.iter().enumerate() {
        text[2 * i] = digit(byte / 16);
        text[2 * i + 1] = digit(byte % 16);
    }
    rt.write_all(&text[..2 * bytes.len()])
}

// Whose refusal it is, in a word and a blank, or nothing; then its number and places.
fn print_refusal(rt: &impl Print, whose: &str, refusal: Refusal) -> io::Result<()> {
    print!(rt; "{whose}refused {}", refusal::listed(refusal))
}

// How many places at the end hold 5,000.
fn kept(places: &[u32]) -> usize {
    places
        .iter()
        .rev()
        .take_while(|place| **place == 5000)
        .count()
}

// ---- chains

// Room for every chain.
#[derive(Clone, Copy)]
struct Room {
    starts: [u32; layout::MOST_STARTS],
    columns: [u32; layout::MOST_ENTRIES],
    rates: [u32; layout::MOST_ENTRIES],
}

impl Room {
    // Built into its callers, which would else copy it: it has 32 kilobytes.
    #[inline(always)]
    fn empty() -> Room {
        Room {
            starts: [0; layout::MOST_STARTS],
            columns: [0; layout::MOST_ENTRIES],
            rates: [0; layout::MOST_ENTRIES],
        }
    }
}

// Reads a part, old files with rates of 0 too or not.
fn read_part<'a>(bytes: &[u8], old: bool, room: &'a mut Room) -> Result<Chain<'a>, Refusal> {
    let starts = &mut room.starts;
    let columns = &mut room.columns;
    let rates = &mut room.rates;
    let reading = if old {
        storage::read_with_zeros(bytes, starts, columns, rates)?
    } else {
        storage::read(bytes, starts, columns, rates)?
    };
    Ok(reading.chain(starts, columns, rates))
}

// Writes a chain, and prints the file.
fn print_file(rt: &impl Print, chain: Chain) -> io::Result<()> {
    let mut out = [0u8; layout::LONGEST_FILE];
    match storage::write(Form::One, chain, &mut out) {
        Ok(size) => print_digits(rt, &out[..size]),
        Err(refusal) => print_refusal(rt, "written ", refusal),
    }
}

// Joins two parts into these slices, and prints the line.
fn print_joint(
    rt: &impl Print,
    first: Chain,
    second: Chain,
    starts: &mut [u32],
    columns: &mut [u32],
    rates: &mut [u32],
) -> io::Result<()> {
    match joint::join(first, second, starts, columns, rates) {
        Ok(entries) => {
            let order = first.order * second.order;
            let chain = Chain {
                order,
                starts: &starts[..order + 1],
                columns: &columns[..entries],
                rates: &rates[..entries],
            };
            print_file(rt, chain)?
        }
        Err(JoinRefusal::First(refusal)) => print_refusal(rt, "first ", refusal)?,
        Err(JoinRefusal::Second(refusal)) => print_refusal(rt, "second ", refusal)?,
        Err(JoinRefusal::Joint(refusal)) => print_refusal(rt, "", refusal)?,
    }
    println!(rt; " kept {} {} {}", kept(starts), kept(columns), kept(rates))
}

// One line: what joining two stored chains into these slices gives.
fn print_line(
    rt: &impl Print,
    first: &[u8],
    second: &[u8],
    old: bool,
    starts: &mut [u32],
    columns: &mut [u32],
    rates: &mut [u32],
) -> io::Result<()> {
    let mut room1 = Room::empty();
    let mut room2 = Room::empty();
    match read_part(first, old, &mut room1) {
        Err(refusal) => {
            print_refusal(rt, "first ", refusal)?;
            println!(rt)
        }
        Ok(first) => match read_part(second, old, &mut room2) {
            Err(refusal) => {
                print_refusal(rt, "second ", refusal)?;
                println!(rt)
            }
            Ok(second) => print_joint(rt, first, second, starts, columns, rates),
        },
    }
}

// ---- the input

// The line with room for every joint chain, of files without rates of 0.
fn with_room(rt: &impl Print, first: &[u8], second: &[u8]) -> io::Result<()> {
    let mut starts = [5000; layout::MOST_STARTS];
    let mut columns = [5000; layout::MOST_ENTRIES];
    let mut rates = [5000; layout::MOST_ENTRIES];
    print_line(
        rt,
        first,
        second,
        false,
        &mut starts,
        &mut columns,
        &mut rates,
    )
}

// The line with room for up to 8 states, 24 columns and 20 rates, of old files too. It stands beside `with_room`, each with arrays of its own lengths:
// a `Room` for both took copies, and half as much stack again.
fn with_less(rt: &impl Print, first: &[u8], second: &[u8]) -> io::Result<()> {
    let mut starts = [5000; 9];
    let mut columns = [5000; 24];
    let mut rates = [5000; 20];
    print_line(
        rt,
        first,
        second,
        true,
        &mut starts,
        &mut columns,
        &mut rates,
    )
}

fn report(rt: &impl Print, first: &[u8], second: &[u8]) -> io::Result<()> {
    with_room(rt, first, second)?;
    with_less(rt, first, second)
}

// A proved loop has to end, so it takes a number of turns that no input uses up.
fn all_pairs(
    rt: &impl Print,
    from: &mut impl Read,
    first: &mut [u8],
    second: &mut [u8],
) -> io::Result<()> {
    for _ in 0..u64::MAX {
        let Next::File(n) = framed::fetch(from, first)? else {
            break;
        };
        let Next::File(m) = framed::fetch(from, second)? else {
            break;
        };
        report(rt, &first[..n], &second[..m])?;
    }
    Ok(())
}

fn main(rt: HostRuntime) -> io::Result<()> {
    let mut first = [0u8; layout::ENOUGH_BYTES];
    let mut second = [0u8; layout::ENOUGH_BYTES];
    all_pairs(&rt, &mut rt.stdin(), &mut first, &mut second)
}
