// Reads chains from standard input, sound and broken, and prints for each what `check`, `check_answer`, `row_rates` and
// `reach_masks` give. The expected lines come from tests/chain_model.py.
#![tactic(auto)]

ghost use Rattle.std.specs.Prelude.{◌≤◌, IfOk, length};

use chain::Chain;
use reach::Masks;
use refusal::Refusal;
use std::io;
use std::io::Read;

// The next number of four bytes, low byte first; 0 after the end of the input.
fn next_word(from: &mut impl Read) -> io::Result<u32> {
    let mut bytes = [0u8; 4];
    framed::read_full(from, &mut bytes)?;
    Ok(u32::from_le_bytes(bytes))
}

fn next_count(from: &mut impl Read) -> io::Result<usize> {
    Ok(next_word(from)? as usize)
}

// The next list: its length, then its numbers. No more of them are taken than there is room for.
fn read_list<'a>(from: &mut impl Read, words: &'a mut [u32]) -> io::Result<&'a [u32]>
    ensures { IfOk result (λ list. length list.now ≤ length words.old) }
{
    let count = next_count(from)?.min(words.len());
    let list = &mut words[..count];
    for word in list.iter_mut() {
        *word = next_word(from)?;
    }
    Ok(list)
}

fn print_answer(rt: &impl Print, answer: Result<usize, Refusal>) -> io::Result<()> {
    match answer {
        Ok(k) => print!(rt; " accepts {k}"),
        Err(refusal) => print!(rt; " refuses {}", refusal::listed(refusal)),
    }
}

fn print_part(rt: &impl Print, part: &[u32]) -> io::Result<()> {
    for rate in part {
        print!(rt; " {rate}")?;
    }
    Ok(())
}

// Each mask that is not 0, with its state before it.
fn print_masks(rt: &impl Print, masks: Masks) -> io::Result<()> {
    for (i, mask) in masks.rows.iter().enumerate() {
        if *mask != 0 {
            print!(rt; " {i} {mask}")?;
        }
    }
    Ok(())
}

fn report(rt: &impl Print, chain: Chain, row: usize) -> io::Result<()> {
    print!(rt; "check")?;
    print_answer(rt, chain.check())?;
    print!(rt; " answer")?;
    print_answer(rt, reach::check_answer(chain))?;
    print!(rt; " row")?;
    print_part(rt, chain.row_rates(row))?;
    print!(rt; " masks")?;
    print_masks(rt, reach::reach_masks(chain))?;
    println!(rt)
}

// One chain: its order, a row number, and its three lists.
fn next_chain(rt: &impl Print, from: &mut impl Read) -> io::Result<()> {
    let order = next_count(from)?;
    let row = next_count(from)?;
    let mut starts = [0u32; 80];
    let mut columns = [0u32; 4100];
    let mut rates = [0u32; 4100];
    let starts = read_list(from, &mut starts)?;
    let columns = read_list(from, &mut columns)?;
    let rates = read_list(from, &mut rates)?;
    report(rt, Chain::new(order, starts, columns, rates), row)
}

fn main(rt: HostRuntime) -> io::Result<()> {
    let mut from = rt.stdin();
    let chains = next_count(&mut from)?;
    for _ in 0..chains {
        next_chain(&rt, &mut from)?;
    }
    Ok(())
}
