// Reads files, each after its length in two bytes, low byte first, and writes for each what the converting program writes.
#![tactic(auto)]

use std::io;

fn main(rt: HostRuntime) -> io::Result<()> {
    input::run_each(
        &rt,
        &mut rt.stdin(),
        &mut filing::file_buffer(),
        conversion::convert,
    )
}
