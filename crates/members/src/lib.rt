// The states of a set, which is a 64-bit mask: listed, counted, and given the numbers that stand at their places (internal).
#![tactic(auto)]

ghost use Rattle.std.specs.Prelude.{◌≡◌, ◌+◌, ◌<◌, ◌≤◌, length};
ghost use Rattle.scaled.specs.Scaled.{zero_number};
ghost use Rattle.markov.specs.Closed.{size, spread};
ghost use Rattle.reach.specs.Reach.{stands};
ghost use Rattle.kernel.specs.Slices.{number_at};
ghost use Rattle.kernel.specs.Kernel.{Holds};
ghost use Rattle.kernel.specs.Lent.{Stored};
ghost use Rattle.members.specs.Members.{Listed};
ghost use Rattle.members.specs.Inner.{Given};

use kernel::Numbers;
use reach::test_bit;

// The states of a set in state order, and the place of each state of the chain among them: None for one outside. There is no heap: `list` has
// room for every state, and its first `count` places are used.
#[derive(Clone, Copy)]
pub struct States {
    pub count: usize,
    pub list: [usize; 64],
    pub places: [Option<usize>; 64],
}

// The states of the set below n.
pub fn states_of(set: u64, n: usize) -> States
    requires { n ≤ 64 }
    ensures { Listed n (stands set) result.count result.list result.places }
{
    let mut count = 0;
    let mut list = [0; 64];
    let mut places = [None; 64];
    for i in 0..n {
        if test_bit(set, i) {
            list[count] = i;
            places[i] = Some(count);
            count += 1;
        }
    }
    States {
        count,
        list,
        places,
    }
}

// How many of the n states are in the set. It is a loop: `(0..n).filter(..).count()` was tried, and its proof did not close.
pub fn size_of(set: u64, n: usize) -> usize
    requires { n ≤ 64 }
    ensures { result ≡ size n (stands set) }
{
    let mut r = 0;
    for state in 0..n {
        if test_bit(set, state) {
            r += 1;
        }
    }
    r
}

// State i gets the number of its place, or Zero if it is outside. Of the set's states, `left` are not above state i; the result is how many
// are below it.
fn spread_at(set: u64, i: usize, left: usize, x: &mut Numbers) -> usize
    requires inside { (i < 64) × (i < length x.old.m.now) }
    requires left_value { left ≡ size (i + 1) (stands set) }
    ensures { Stored (Given (stands set) i result) x.old x.new }
{
    if test_bit(set, i) {
        let p = left - 1;
        let number = x.load(p);
        x.place(i, number);
        p
    } else {
        x.place(i, scaled::zero());
        left
    }
}

// Gives the first r numbers to the r states of the set, and Zero to every state outside. It goes from the top state down: a state's place is
// never above its number, so no number is overwritten before it is read.
pub fn spread(set: u64, r: usize, x: &mut Numbers)
    requires in_range { length x.old.m.now ≤ 64 }
    requires r_value { r ≡ size (length x.old.m.now) (stands set) }
    ensures { Stored (λ s t. Holds (length s.m) (spread (stands set) zero_number (number_at s)) t) x.old x.new }
{
    let mut left = r;
    for i in (0..x.m.len()).rev() {
        left = spread_at(set, i, left, x);
    }
}
