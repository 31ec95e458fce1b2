// Files one after the other in one input, each after its length in two bytes, low byte first.
#![tactic(auto)]

ghost use Rattle.std.specs.Prelude.{◌<◌, IfOk, OnOk, length, take};
ghost use Rattle.std.specs.Fn.{CalledAt};
ghost use Rattle.std.specs.Io.{ReadsAtMost};
ghost use Rattle.std.specs.Io.KnownBytes.{Consumes, IsAtEnd};
ghost use Rattle.framed.specs.Framed.{Fetched, Taken, Missed, HandedAll};

use std::io;
use std::io::Read;

// What comes next in the input.
#[derive(Clone, Copy)]
pub enum Next {
    // a file of so many bytes, which now stands at the beginning of the buffer
    File(usize),
    // a length or a file that is cut short, or a file longer than the buffer
    Cut,
    // nothing
    End,
}

// Reads until buf is full or the input ends, and answers how many bytes it put at the start of buf.
pub fn read_full<R: Read>(from: &mut R, buf: &mut [u8]) -> io::Result<usize>
    ensures in_bounds { ReadsAtMost result buf.new }
    ensures bytes { IfOk result (λ n. Consumes (R.remaining from.old) (R.remaining from.new) (take n buf.new)) }
    ensures end { IfOk result (λ n. n < length buf.new → IsAtEnd (R.remaining from.new)) }
{
    let mut done = 0;
    // no `for`: each read moves it on by as many bytes as it gives
    while done < buf.len() {
        let more = from.read(&mut buf[done..])?;
        if more == 0 {
            break;
        }
        done += more;
    }
    Ok(done)
}

// Reads the next file into the buffer.
pub fn fetch<R: Read>(from: &mut R, buffer: &mut [u8]) -> io::Result<Next>
    ensures buffer { IfOk result (λ next. Fetched next buffer.old buffer.new) }
    ensures bytes { IfOk result (λ next. Taken next (R.remaining from.old) (R.remaining from.new) buffer.new) }
    ensures missed { IfOk result (λ next. Missed next (length buffer.old) (R.remaining from.old)) }
{
    let mut head = [0u8; 2];
    let got = read_full(from, &mut head)?;
    if got == 0 {
        return Ok(Next::End);
    }
    if got < 2 {
        return Ok(Next::Cut);
    }
    let n = u16::from_le_bytes(head) as usize;
    if buffer.len() < n {
        return Ok(Next::Cut);
    }
    if read_full(from, &mut buffer[..n])? < n {
        return Ok(Next::Cut);
    }
    Ok(Next::File(n))
}

// Reads the files one after the other into the buffer and hands each to f, until the input ends, or a file is cut short or too long.
// A proved loop has to end, so it takes a number of turns that no input uses up.
pub fn each_file<R: Read, F: FnMut(&[u8]) -> io::Result<()>>(
    from: &mut R,
    buffer: &mut [u8],
    mut f: F,
) -> io::Result<()>
    requires { F.IsAlwaysCallable f }
    ensures { OnOk result (HandedAll (λ p file q. CalledAt F.FnMut p file (Ok tt) q) f (R.remaining from.old) (length buffer.old)) }
{
    for _turn in 0..u64::MAX {
        let Next::File(n) = fetch(from, buffer)? else {
            break;
        };
        f(&buffer[..n])?;
    }
    Ok(())
}
