// Reads numbers of eight bytes, low byte first, and prints for each a line: the number, and its low four bytes as a signed number.
#![tactic(auto)]

use std::io;

// At most 20 bytes, a blank, 11 bytes and the end of the line.
fn print_line(rt: HostRuntime, x: u64, e: i32) -> io::Result<()> {
    let mut line = [0u8; 33];
    let p = decimal::put_number(&mut line, 0, x);
    let p = decimal::put_byte(&mut line, p, b' ');
    let p = decimal::put_signed(&mut line, p, e);
    let p = decimal::put_byte(&mut line, p, b'\n');
    rt.write_all(&line[..p])
}

// The next eight bytes, if there are so many.
fn next_bytes(rt: HostRuntime) -> io::Result<Option<[u8; 8]>> {
    let mut bytes = [0u8; 8];
    let n = framed::read_full(&mut rt.stdin(), &mut bytes)?;
    Ok((n == 8).then_some(bytes))
}

// A proved loop has to end, so it takes a number of turns that no input uses up.
fn main(rt: HostRuntime) -> io::Result<()> {
    for _ in 0..u64::MAX {
        let Some(bytes) = next_bytes(rt)? else {
            break;
        };
        let [b0, b1, b2, b3, ..] = bytes;
        let low = i32::from_le_bytes([b0, b1, b2, b3]);
        print_line(rt, u64::from_le_bytes(bytes), low)?;
    }
    Ok(())
}
