// Prints the sum, product and quotient of 12 chosen pairs of operands, then of 400 generated pairs, and 100 converted rates. The file stdout
// beside src/ is written by tests/scaled_model.py, which works with exact whole numbers and knows nothing of this code.
#![tactic(auto)]

use scaled::Scaled;
use std::io;

// A linear congruential generator, with the number that it gave last.
#[derive(Drop)]
struct Generator {
    last: u32,
}

impl Generator {
    fn next(&mut self) -> u32 {
        self.last = self.last.wrapping_mul(1664525).wrapping_add(1013904223);
        self.last
    }

    fn operand(&mut self) -> Scaled {
        Scaled {
            m: mantissa(self.next()),
            e: exponent(self.next()),
        }
    }
}

// m of an operand: mostly any of 32 bits, sometimes an end of the range, 0, or too short.
fn mantissa(s: u32) -> u32 {
    match (s >> 16) % 16 {
        0 => 0,
        1 => 0x8000_0000,
        2 | 3 => 0xFFFF_FFFF,
        4 => s / 2,
        _ => s / 2 + 0x8000_0000,
    }
}

// e of an operand: mostly small or of the whole range, sometimes 0, an end of the range, or just outside it.
fn exponent(s: u32) -> i32 {
    let v = ((s >> 16) % 32768) as i32;
    match (s >> 12) % 8 {
        0..=2 => v % 80 - 40,
        3 | 4 => v - 16384,
        5 => v % 4 - 16385,
        6 => v % 4 + 16381,
        _ => 0,
    }
}

// Pairs that the generator hardly meets: ties, carries to the next binade, a quotient above the half, then the ends of the range.
const EDGES: [(u32, i32, u32, i32); 12] = [
    (0x8000_0000, 0, 0x8000_0000, -32),
    (0x8000_0001, 0, 0x8000_0000, -32),
    (0xFFFF_FFFF, 0, 0x8000_0000, -32),
    (0xFFFF_FFFE, -31, 0xC000_0001, -62),
    (0x8000_8000, 0, 0x8000_8000, 0),
    (0x8000_8000, 0, 0x8001_8000, 0),
    (0x8000_0000, 0, 0xC000_0000, 0),
    (0xFFFF_FFFF, 16383, 0x8000_0000, 16351),
    (0xFFFF_FFFF, 16383, 0xFFFF_FFFF, 16350),
    (0x8000_0001, 8176, 0xFFFF_FFFE, 8176),
    (2455465984, -8208, 3756261376, -8208),
    (2455465984, -8208, 3756261375, -8208),
];

fn print_result(rt: HostRuntime, r: Option<Scaled>) -> io::Result<()> {
    match r {
        Some(x) => print!(rt; " {} {}", x.m, x.e),
        None => print!(rt; " none"),
    }
}

fn print_operations(rt: HostRuntime, a: Scaled, b: Scaled) -> io::Result<()> {
    print!(rt; "{} {} {} {}", a.m, a.e, b.m, b.e)?;
    print_result(rt, scaled::sum(a, b))?;
    print_result(rt, scaled::product(a, b))?;
    print_result(rt, scaled::quotient(a, b))?;
    println!(rt)
}

fn print_rate(rt: HostRuntime, rate: u32) -> io::Result<()> {
    let r = scaled::from_rate(rate);
    println!(rt; "{rate} {} {}", r.m, r.e)
}

fn main(rt: HostRuntime) -> io::Result<()> {
    for &(m1, e1, m2, e2) in &EDGES {
        print_operations(rt, Scaled { m: m1, e: e1 }, Scaled { m: m2, e: e2 })?;
    }
    let mut generator = Generator { last: 20240131 };
    for i in 0..400 {
        let a = generator.operand();
        let b = generator.operand();
        print_operations(rt, a, b)?;
        if i % 4 == 0 {
            print_rate(rt, generator.last >> generator.last % 32)?;
        }
    }
    Ok(())
}
