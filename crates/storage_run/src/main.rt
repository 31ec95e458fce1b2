// Reads files, each after its length in two bytes, low byte first, and prints a line on each: the order, the number of entries, the
// form, and whether writing the chain in that form gives the same bytes again, or the refusal. A second line says the same where less
// room is lent than many a chain needs.
#![tactic(auto)]

use chain::Chain;
use layout::Form;
use std::io;

// Writes a chain that was read in the form of its file, and says whether the bytes are those it was read from.
fn write_back(
    rt: &impl Print,
    bytes: &[u8],
    form: Form,
    chain: Chain,
    out: &mut [u8],
) -> io::Result<()> {
    match storage::write(form, chain, out) {
        Ok(size) => {
            if out.get(..size) == Some(bytes) {
                println!(rt; " same")
            } else {
                println!(rt; " other")
            }
        }
        Err(refusal) => println!(rt; " refused {}", refusal::listed(refusal)),
    }
}

// One line: what reading into these slices gives, and writing into that buffer.
fn print_line(
    rt: &impl Print,
    bytes: &[u8],
    starts: &mut [u32],
    columns: &mut [u32],
    rates: &mut [u32],
    out: &mut [u8],
) -> io::Result<()> {
    match storage::read(bytes, starts, columns, rates) {
        Ok(stored) => {
            let form = usize::from(stored.form);
            print!(rt; "chain {} {} {form}", stored.order, stored.entries)?;
            let chain = stored.chain(starts, columns, rates);
            write_back(rt, bytes, stored.form, chain, out)
        }
        Err(refusal) => println!(rt; "refused {}", refusal::listed(refusal)),
    }
}

// The line with room for every chain; and with room for up to 8 states, 20 columns, 12 rates and a file of 40 bytes.
fn report(rt: &impl Print, bytes: &[u8]) -> io::Result<()> {
    let mut starts = [0u32; layout::MOST_STARTS];
    let mut columns = [0u32; layout::MOST_ENTRIES];
    let mut rates = [0u32; layout::MOST_ENTRIES];
    let mut out = [0u8; layout::LONGEST_FILE];
    print_line(rt, bytes, &mut starts, &mut columns, &mut rates, &mut out)?;
    let mut less = [0u8; 40];
    print_line(
        rt,
        bytes,
        &mut starts[..9],
        &mut columns[..20],
        &mut rates[..12],
        &mut less,
    )
}

fn main(rt: HostRuntime) -> io::Result<()> {
    let mut buffer = [0u8; layout::ENOUGH_BYTES];
    framed::each_file(&mut rt.stdin(), &mut buffer, |bytes| report(&rt, bytes))
}
