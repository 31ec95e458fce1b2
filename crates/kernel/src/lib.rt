// Scaled numbers in lent memory, for a caller who knows that every number met is a scaled number: the operations, and a number loaded from
// a place, put at a place or into an n x n matrix; and places cleared.
#![tactic(auto)]

ghost use Rattle.std.specs.Prelude.{◌≡◌, ◌+◌, ◌*◌, ◌<◌, ◌≤◌, pos, length, set, replicate};
ghost use Rattle.scaled.specs.declared.Scaled.{Scaled};
ghost use Rattle.kernel.specs.Numbers.{Fit, plus, times, divided_by};
ghost use Rattle.kernel.specs.Slices.{pair, number_at};

use scaled::Scaled;

// Scaled numbers in lent memory: their m and their e. A caller of the C interface lends the two slices apart.
#[derive(Drop)]
pub struct Numbers<'a> {
    pub m: &'a mut [u32],
    pub e: &'a mut [i32],
    ghost paired: { length e.now ≡ length m.now },
}

// An n x n matrix in lent memory, row by row. The order n is at most 64. That a row or a column lies inside stays a `requires` of each call: it
// speaks of a number and of one matrix, and no type of its own would say it more plainly.
#[derive(Drop)]
pub struct Matrix<'a> {
    pub order: usize,
    pub m: &'a mut [u32],
    pub e: &'a mut [i32],
    ghost in_range: { order ≤ 64 },
    ghost size_m: { length m.now ≡ order * order },
    ghost size_e: { length e.now ≡ order * order },
}

// The operations, where the result is known to be a scaled number.
pub fn plus_of(a: Scaled, b: Scaled) -> Scaled
    requires { Fit (plus a b) }
    ensures { result ≡ plus a b }
{
    scaled::wide_sum(a, b)
}

pub fn times_of(a: Scaled, b: Scaled) -> Scaled
    requires { Fit (times a b) }
    ensures { result ≡ times a b }
{
    scaled::wide_product(a, b)
}

pub fn over_of(a: Scaled, b: Scaled) -> Scaled
    requires { Fit (divided_by a b) }
    ensures { result ≡ divided_by a b }
{
    scaled::wide_quotient(a, b)
}

// x plus a times t.
pub fn plus_times_of(x: Scaled, a: Scaled, t: Scaled) -> Scaled
    requires { Fit (plus x (times a t)) }
    ensures { result ≡ plus x (times a t) }
{
    scaled::add_product(x, a, t)
}

// The number at a place of two slices that are lent for reading.
pub fn load(m: &[u32], e: &[i32], at: usize) -> Scaled
    requires { (at < length m.now) × (at < length e.now) }
    ensures { result ≡ number_at (pair m.now e.now) at }
{
    Scaled { m: m[at], e: e[at] }
}

fn store(m: &mut [u32], e: &mut [i32], at: usize, x: Scaled)
    requires { (at < length m.old) × (at < length e.old) }
    ensures { (m.new ≡ set m.old at x.m) × (e.new ≡ set e.old at x.e) }
{
    m[at] = x.m;
    e[at] = x.e;
}

// Zeros in all places of two slices, which a caller may cut before.
pub fn clear(m: &mut [u32], e: &mut [i32])
    ensures { (m.new ≡ replicate (length m.old) 0) × (e.new ≡ replicate (length e.old) (pos 0)) }
{
    m.fill(0);
    e.fill(0);
}

// The place of entry (i, j).
fn cell(n: usize, i: usize, j: usize) -> usize
    requires { (n ≤ 64) × (i < n) × (j < n) }
    ensures { (result ≡ i * n + j) × (result < n * n) }
{
    i * n + j
}

impl Numbers<'_> {
    ghost use Rattle.kernel.specs.Lent.{held, Stored};
    ghost use Rattle.kernel.specs.Inner.{Placed};

    // The number at a place.
    pub fn load(&self, at: usize) -> Scaled
        requires { at < length self.now.m.now }
        ensures { result ≡ number_at (held self.now) at }
    {
        load(self.m, self.e, at)
    }

    // Puts x at a place.
    pub fn place(&mut self, at: usize, x: Scaled)
        requires { at < length self.old.m.now }
        ensures { Stored (Placed at x) self.old self.new }
    {
        store(self.m, self.e, at, x);
    }
}

impl Matrix<'_> {
    ghost use Rattle.kernel.specs.Kernel.{Put};
    ghost use Rattle.kernel.specs.Lent.{entry_of, Rewritten};

    // Entry (i, j).
    pub fn entry(&self, i: usize, j: usize) -> Scaled
        requires { (i < self.now.order) × (j < self.now.order) }
        ensures { result ≡ entry_of self.now i j }
    {
        load(self.m, self.e, cell(self.order, i, j))
    }

    // Puts x in place of entry (i, j).
    pub fn put(&mut self, i: usize, j: usize, x: Scaled)
        requires { (i < self.old.order) × (j < self.old.order) }
        ensures { Rewritten (Put self.old.order i j x) self.old self.new }
    {
        let place = cell(self.order, i, j);
        store(self.m, self.e, place, x);
    }
}
