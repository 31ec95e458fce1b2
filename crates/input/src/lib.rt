// A program that reads one file from standard input and writes an answer to it.
#![tactic(auto)]

ghost use Rattle.std.specs.Prelude.{◌≡◌, ◌<◌, IfOk, OnOk, length, take};
ghost use Rattle.std.specs.Io.{ReadsAtMost};
ghost use Rattle.std.specs.Io.KnownBytes.{Consumes, IsAtEnd};
ghost use Rattle.layout.specs.File.{enough_bytes};
ghost use Rattle.input.specs.Answer.{Fits, Answers};

use std::io::{Read, Write};
use std::{fmt, io};

// Room for what decides about an input: one byte more than the longest file.
pub fn buffer() -> [u8; layout::ENOUGH_BYTES]
    ensures { length result ≡ enough_bytes }
{
    [0; layout::ENOUGH_BYTES]
}

// Reads an input until it ends or buf is full, and answers how many bytes it put at the start of buf, or the error of a read that fails.
pub fn read_input<R: Read>(from: &mut R, buf: &mut [u8]) -> io::Result<usize>
    ensures in_bounds { ReadsAtMost result buf.new }
    ensures bytes { IfOk result (λ n. Consumes (R.remaining from.old) (R.remaining from.new) (take n buf.new)) }
    ensures end { IfOk result (λ n. n < length buf.new → IsAtEnd (R.remaining from.new)) }
{
    framed::read_full(from, buf)
}

// What failed.
#[derive(Clone, Copy, Debug)]
pub enum Failure {
    Read,
    Write,
}

impl fmt::Display for Failure {
    fn fmt<W: fmt::Write>(&self, f: &mut fmt::Formatter<W>) -> fmt::Result {
        match self {
            Failure::Read => write!(f, "could not read standard input"),
            Failure::Write => write!(f, "could not write the result"),
        }
    }
}

// Reads an input, has `fill` put the answer to it at the front of `out` and say how long it is, and writes that. A failed write may have
// written a part of it.
pub fn answer<R: Read, W: Write, F: FnOnce(&[u8], &mut [u8]) -> usize>(
    from: &mut R,
    to: &mut W,
    out: &mut [u8],
    fill: F,
) -> Result<(), Failure>
    requires callable { F.IsAlwaysCallable fill }
    requires fits { Fits (F.post fill) }
    ensures ok { OnOk result (Answers (F.post fill) (R.remaining from.old) (R.remaining from.new)
        out.old out.new (W.contents to.old) (W.contents to.new)) }
    ensures unread { result ≡ Err Failure.Read → (to.new ≡ to.old) × (out.new ≡ out.old) }
{
    let mut input = buffer();
    let count = read_input(from, &mut input).map_err(|_| Failure::Read)?;
    let n = fill(&input[..count], out);
    to.write_all(&out[..n]).map_err(|_| Failure::Write)
}

// The whole of a program of this name: it prints the answer to its input. Where a read or a write fails it says so on standard error.
pub fn run<F: FnOnce(&[u8], &mut [u8]) -> usize, P: Print + Eprint, R: Read>(
    rt: &P,
    from: &mut R,
    name: &str,
    out: &mut [u8],
    fill: F,
)
    requires callable { F.IsAlwaysCallable fill }
    requires fits { Fits (F.post fill) }
{
    if let Err(failure) = answer(from, &mut io::writer(rt), out, fill) {
        let _ = eprintln!(rt; "{name}: {failure}");
    }
}

// Prints the answer to each of several files in an input, as `framed::each_file` hands them on. A read or a write that fails ends it.
pub fn run_each<F: Fn(&[u8], &mut [u8]) -> usize, P: Print, R: Read>(
    rt: &P,
    from: &mut R,
    out: &mut [u8],
    fill: F,
) -> io::Result<()>
    requires callable { F.IsAlwaysCallable fill }
    requires fits { Fits (F.post fill) }
{
    framed::each_file(
        from,
        &mut buffer(),
        |bytes|
            requires callable { F.IsAlwaysCallable fill }
            requires fits { Fits (F.post fill) }
        {
            let n = fill(bytes, out);
            rt.write_all(&out[..n])
        },
    )
}
