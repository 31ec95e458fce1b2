// How an answer is handed to C: a number is returned, and three places of a lent slice, four for a joining, take the rest.
// For the calls of `stall`.
#![tactic(auto)]

ghost use Rattle.std.specs.Prelude.{[], ◌∷◌, ◌≡◌};
ghost use Rattle.refusal.specs.Table.{side, line, verdict};
ghost use Rattle.storage.specs.Reading.{told};
ghost use Rattle.joint.specs.Joining.{told_joining};
ghost use Rattle.telling.specs.Answer.{side_number, refusal_places, handed, Told, CountTold, ReadingTold, JoiningTold};

use joint::JoinRefusal;
use refusal::Refusal;
use storage::Reading;

// These numbers into the first places of the answer slice, if it has them.
fn put<const N: usize>(answer: &mut [usize], places: [usize; N])
    ensures { answer.new ≡ handed answer.old places.entry }
{
    if N <= answer.len() {
        answer[..N].copy_from_slice(&places);
    }
}

// The side at fault: 0 the chain, 1 the stored bytes. C takes a number.
fn side_number(refusal: Refusal) -> usize
    ensures { result ≡ side_number (side refusal) }
{
    match refusal {
        Refusal::Chain(_) => 0,
        Refusal::Bytes(_) => 1,
    }
}

// A refusal's number is returned; its places and the side at fault go to the answer slice.
fn tell_refusal(refusal: Refusal, answer: &mut [usize]) -> u32
    ensures { Told (line refusal).number (refusal_places (side refusal) (line refusal)) answer.old result answer.new }
{
    let listed = refusal::listed(refusal);
    put(answer, [listed.first, listed.second, side_number(refusal)]);
    listed.number
}

// A joining's refusal is told as above, and the number of the part that it is of goes to the fourth place.
fn tell_part(part: usize, refusal: Refusal, answer: &mut [usize]) -> u32
    ensures { Told (line refusal).number ((line refusal).first ∷ (line refusal).second ∷ side_number (side refusal) ∷ part ∷ [])
        answer.old result answer.new }
{
    let line = refusal::listed(refusal);
    put(
        answer,
        [line.first, line.second, side_number(refusal), part],
    );
    line.number
}

// A count: the bound count of a solving, or the number of bytes of a writing. The number of the refusal is returned, or 0.
pub fn tell_count(outcome: Result<usize, Refusal>, answer: &mut [usize]) -> u32
    ensures { CountTold (verdict outcome) answer.old result answer.new }
{
    match outcome {
        Ok(count) => {
            put(answer, [count, 0, 0]);
            0
        }
        Err(refusal) => tell_refusal(refusal, answer),
    }
}

// A reading: its order, its number of entries and the number of its form. The number of the refusal is returned, or 0.
pub fn tell_reading(reading: Result<Reading, Refusal>, answer: &mut [usize]) -> u32
    ensures { ReadingTold (told reading) answer.old result answer.new }
{
    match reading {
        Ok(chain) => {
            let places = [chain.order, chain.entries, usize::from(chain.form)];
            put(answer, places);
            0
        }
        Err(refusal) => tell_refusal(refusal, answer),
    }
}

// A joining: the number of entries of the joint chain. The number of the refusal is returned, or 0.
pub fn tell_joining(joining: Result<usize, JoinRefusal>, answer: &mut [usize]) -> u32
    ensures { JoiningTold (told_joining joining) answer.old result answer.new }
{
    match joining {
        Ok(entries) => {
            put(answer, [entries, 0, 0, 0]);
            0
        }
        Err(JoinRefusal::Joint(refusal)) => tell_part(0, refusal, answer),
        Err(JoinRefusal::First(refusal)) => tell_part(1, refusal, answer),
        Err(JoinRefusal::Second(refusal)) => tell_part(2, refusal, answer),
    }
}
