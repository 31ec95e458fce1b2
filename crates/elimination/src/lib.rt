// The elimination of a set of a chain's states on lent slices: the rates between them loaded, the weights, the shares, each result given to its
// state, and the work places cleared (internal).
#![tactic(auto)]

ghost use Rattle.std.specs.Prelude.{◌≡◌, ℕ, ◌+◌, ◌-◌, ◌<◌, ◌≤◌, None, Some, length, get_or};
ghost use Rattle.markov.specs.Elimination.{weights};
ghost use Rattle.chain.specs.Rows.{rows_of};
ghost use Rattle.kernel.specs.Numbers.{ops};
ghost use Rattle.kernel.specs.Slices.{pair};
ghost use Rattle.kernel.specs.Kernel.{Square, Sized, Holds};
ghost use Rattle.kernel.specs.Lent.{held, Stored, Rewritten};
ghost use Rattle.reach.specs.Reach.{stands};
ghost use Rattle.elimination.specs.Inner.{RowLoaded, Loadable, Loaded, EntryLoaded, set_matrix, Weighable, SetSolved, FirstCleared, Ran};

use chain::SoundChain;
use kernel::{Matrix, Numbers};

// Puts the entry at place p into row a, if its column is listed.
fn load_entry(
    places: &[Option<usize>],
    a: usize,
    columns: &[u32],
    rates: &[u32],
    p: usize,
    x: &mut Matrix,
)
    requires inside { (a < x.old.order) × (p < length columns.now) × (p < length rates.now) × (get_or columns.now p 0 < length places.now) }
    requires place_inside { (b : ℕ) → get_or places.now (get_or columns.now p 0) None ≡ Some b → b < x.old.order }
    ensures { Rewritten (EntryLoaded x.old.order a (get_or places.now (get_or columns.now p 0) None) (get_or rates.now p 0)) x.old x.new }
{
    if let Some(b) = places[columns[p] as usize] {
        x.put(a, b, scaled::from_rate(rates[p]));
    }
}

// Puts the entries of the state at place a of the list into row a of the matrix.
fn load_row(sound: SoundChain, states: &[usize], places: &[Option<usize>], a: usize, x: &mut Matrix)
    requires loadable { Loadable (rows_of sound.chain) states.now places.now x.old.order }
    requires inside { a < x.old.order }
    ensures { Rewritten (RowLoaded (rows_of sound.entry.chain) states.now x.old.order a
        (get_or sound.entry.chain.starts.now (get_or states.now a 0 + 1) 0)) x.old x.new }
{
    let chain = sound.chain;
    let i = states[a];
    let begin = chain.starts[i] as usize;
    let end = chain.starts[i + 1] as usize;
    for p in begin..end {
        load_entry(places, a, chain.columns, chain.rates, p, x);
    }
}

// The matrix of the rates between the listed states.
fn load(sound: SoundChain, states: &[usize], places: &[Option<usize>], x: &mut Matrix)
    requires { Loadable (rows_of sound.chain) states.now places.now x.old.order }
    ensures { Rewritten (λ _ s. Loaded (rows_of sound.entry.chain) states.now x.old.order s) x.old x.new }
{
    kernel::clear(x.m, x.e);
    for a in 0..x.order {
        load_row(sound, states, places, a, x);
    }
}

// The weights of the states of the set, by the elimination of the rates between them.
fn weigh(sound: SoundChain, set: u64, x: &mut Matrix, w: &mut Numbers)
    requires weighable { Weighable (rows_of sound.chain) (stands set) x.old.order }
    requires sized { Sized x.old.order (held w.old) }
    ensures { Stored (λ _ v. Holds x.old.order (weights ops (x.old.order - 1) (set_matrix (rows_of sound.entry.chain) (stands set))) v)
        w.old w.new }
{
    let states = members::states_of(set, sound.chain.order);
    load(sound, &states.list, &states.places, x);
    weighing::weigh(x, w);
}

// The weights and the shares of the r states of the set, as a chain of its own. The slices are parts of those that a caller of the C interface
// lends apart.
fn solve_set(
    sound: SoundChain,
    set: u64,
    r: usize,
    m: &mut [u32],
    e: &mut [i32],
    wm: &mut [u32],
    we: &mut [i32],
    sm: &mut [u32],
    se: &mut [i32],
)
    requires weighable { Weighable (rows_of sound.chain) (stands set) r }
    requires square { Square r (pair m.old e.old) }
    requires weights_sized { Sized r (pair wm.old we.old) }
    requires shares_sized { Sized r (pair sm.old se.old) }
    ensures { SetSolved (rows_of sound.entry.chain) (stands set) r
        (pair m.new e.new) (pair wm.new we.new) (pair sm.new se.new) }
{
    let mut x = Matrix { order: r, m, e };
    let mut weights = Numbers { m: wm, e: we };
    let mut shares = Numbers { m: sm, e: se };
    weigh(sound, set, &mut x, &mut weights);
    weighing::share(&weights, &mut shares);
}

// Zeros in the first k places: how many are cleared is said where it is called.
fn clear_first(k: usize, m: &mut [u32], e: &mut [i32])
    requires { (k ≤ length m.old) × (k ≤ length e.old) }
    ensures { FirstCleared k (pair m.old e.old) (pair m.new e.new) }
{
    kernel::clear(&mut m[..k], &mut e[..k]);
}

// Solves a set of states on slices cut to the needed places of the whole chain: the set as a chain of its own in the first places, then each
// result goes to its state. All work places are cleared.
pub fn run(
    sound: SoundChain,
    set: u64,
    r: usize,
    m: &mut [u32],
    e: &mut [i32],
    wm: &mut [u32],
    we: &mut [i32],
    sm: &mut [u32],
    se: &mut [i32],
)
    requires weighable { Weighable (rows_of sound.chain) (stands set) r }
    requires square { Square sound.chain.order (pair m.old e.old) }
    requires weights_sized { Sized sound.chain.order (pair wm.old we.old) }
    requires shares_sized { Sized sound.chain.order (pair sm.old se.old) }
    ensures { Ran (rows_of sound.entry.chain) (stands set)
        (pair m.new e.new) (pair wm.new we.new) (pair sm.new se.new) }
{
    let n = sound.chain.order;
    let inner = r * r;
    solve_set(
        sound,
        set,
        r,
        &mut m[..inner],
        &mut e[..inner],
        &mut wm[..r],
        &mut we[..r],
        &mut sm[..r],
        &mut se[..r],
    );
    clear_first(n * n, m, e);
    let mut weights = Numbers { m: wm, e: we };
    members::spread(set, r, &mut weights);
    let mut shares = Numbers { m: sm, e: se };
    members::spread(set, r, &mut shares);
}
