// Reads files, each after its length in two bytes, low byte first, and prints for each what the printing program prints.
#![tactic(auto)]

use std::io;

fn main(rt: HostRuntime) -> io::Result<()> {
    input::run_each(
        &rt,
        &mut rt.stdin(),
        &mut report::text_buffer(),
        report::report,
    )
}
