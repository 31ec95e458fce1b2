// Reads calls of `solve_groups`, each after its length in two bytes, low byte first, and prints the answer to each and what every lent
// place holds afterwards.
//
// A call is a row of numbers of four bytes, low byte first: the order; how many starts, columns, rates and numbers of the table follow;
// how many places of m, e, wm, we, sm, se, gm and ge are lent (no more than 4,100 of m and e, 70 of the next four, 20 of gm and ge);
// then the starts, the columns, the rates and the table. Each lent place holds 7 before the call. Bytes that are no call print
// `unreadable`. The input and the expected lines come from tests/groups_run.py.
#![tactic(auto)]

use chain::Chain;
use refusal::Refusal;
use std::fmt::Display;
use std::io;

// ---- the text

fn print_answer(rt: &impl Print, answer: Result<usize, Refusal>) -> io::Result<()> {
    match answer {
        Ok(k) => println!(rt; "accepted {k}"),
        Err(refusal) => println!(rt; "refused {}", refusal::listed(refusal)),
    }
}

// The places of a slice, each run of equal ones once, behind how many they are if more than one.
fn print_places<T: Display + PartialEq>(
    rt: &impl Print,
    name: &str,
    places: &[T],
) -> io::Result<()> {
    print!(rt; "{name}")?;
    for run in places.chunk_by(|a, b| a == b) {
        match run {
            [] => {}
            [place] => print!(rt; " {place}")?,
            [place, ..] => print!(rt; " {}x{place}", run.len())?,
        }
    }
    println!(rt)
}

// ---- a call

// A call's first thirteen numbers, and its lists.
#[derive(Clone, Copy)]
struct Call<'a> {
    head: &'a [u32; 13],
    chain: Chain<'a>,
    table: &'a [u32],
}

// The call that these numbers are, if they are one.
fn call_of(words: &[u32]) -> Option<Call<'_>> {
    let (head, lists) = words.split_first_chunk::<13>()?;
    let (starts, lists) = lists.split_at_checked(head[1] as usize)?;
    let (columns, lists) = lists.split_at_checked(head[2] as usize)?;
    let (rates, lists) = lists.split_at_checked(head[3] as usize)?;
    let (table, rest) = lists.split_at_checked(head[4] as usize)?;
    if !rest.is_empty() {
        return None;
    }
    let chain = Chain::new(head[0] as usize, starts, columns, rates);
    Some(Call { head, chain, table })
}

// The answer, and every lent place.
fn solve_and_print(rt: &impl Print, call: Call) -> io::Result<()> {
    let mut m = [7u32; 4100];
    let mut e = [7i32; 4100];
    let mut wm = [7u32; 70];
    let mut we = [7i32; 70];
    let mut sm = [7u32; 70];
    let mut se = [7i32; 70];
    let mut gm = [7u32; 20];
    let mut ge = [7i32; 20];
    let m = &mut m[..(call.head[5] as usize).min(4100)];
    let e = &mut e[..(call.head[6] as usize).min(4100)];
    let wm = &mut wm[..(call.head[7] as usize).min(70)];
    let we = &mut we[..(call.head[8] as usize).min(70)];
    let sm = &mut sm[..(call.head[9] as usize).min(70)];
    let se = &mut se[..(call.head[10] as usize).min(70)];
    let gm = &mut gm[..(call.head[11] as usize).min(20)];
    let ge = &mut ge[..(call.head[12] as usize).min(20)];
    let answer = group_shares::solve_groups(call.chain, call.table, m, e, wm, we, sm, se, gm, ge);
    print_answer(rt, answer)?;
    print_places(rt, "m", m)?;
    print_places(rt, "e", e)?;
    print_places(rt, "wm", wm)?;
    print_places(rt, "we", we)?;
    print_places(rt, "sm", sm)?;
    print_places(rt, "se", se)?;
    print_places(rt, "gm", gm)?;
    print_places(rt, "ge", ge)
}

// ---- the input

// The numbers of these bytes, put at the front of the slice; none where the last is cut short, or where they are too many for it.
fn words_of<'a>(bytes: &[u8], words: &'a mut [u32]) -> Option<&'a [u32]> {
    let (numbers, rest) = bytes.as_chunks::<4>();
    if !rest.is_empty() {
        return None;
    }
    let words = words.get_mut(..numbers.len())?;
    for (word, number) in words.iter_mut().zip(numbers) {
        *word = u32::from_le_bytes(*number);
    }
    Some(words)
}

fn answer(rt: &impl Print, bytes: &[u8]) -> io::Result<()> {
    let mut words = [0u32; 16384];
    match words_of(bytes, &mut words).and_then(call_of) {
        Some(call) => solve_and_print(rt, call),
        None => println!(rt; "unreadable"),
    }
}

fn main(rt: HostRuntime) -> io::Result<()> {
    let mut buffer = [0u8; 65535];
    framed::each_file(&mut rt.stdin(), &mut buffer, |bytes| answer(&rt, bytes))
}
