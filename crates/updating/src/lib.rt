// Algorithm GTH on lent slices, for a caller who knows that every number met is a scaled number: the rows below a pivot updated (internal).
#![tactic(auto)]

ghost use Rattle.std.specs.Prelude.{◌≡◌, ℕ, ◌+◌, ◌<◌, ◌≤◌};
ghost use Rattle.scaled.specs.declared.Scaled.{Scaled};
ghost use Rattle.kernel.specs.Numbers.{Fit, plus, times};
ghost use Rattle.kernel.specs.Kernel.{Square, Put};
ghost use Rattle.kernel.specs.Slices.{pair, entry_at};
ghost use Rattle.kernel.specs.Lent.{cells, entry_of, Rewritten};
ghost use Rattle.updating.specs.Inner.{Mapped, updated, Ready, Updated};

use kernel::{Matrix, plus_times_of};
use scaled::Scaled;

// Adds a times t(j) to entry (i, j).
fn update_at(x: &mut Matrix, k: usize, i: usize, a: Scaled, j: usize)
    requires inside { (k < x.old.order) × (i < x.old.order) × (j < x.old.order) }
    requires fit { Fit (plus (entry_of x.old i j) (times a (entry_of x.old k j))) }
    ensures { Rewritten (Put x.old.order i j (plus (entry_of x.old i j) (times a (entry_of x.old k j)))) x.old x.new }
{
    let sum = plus_times_of(x.entry(i, j), a, x.entry(k, j));
    x.put(i, j, sum);
}

// Adds entry (i, k) times t(j) to the entries (i, j), j from `from` up to, not including, `to`; a is entry (i, k). This loop takes most of the time of
// a solve. The matrix is lent in its parts and made anew, since through a `&mut Matrix` each turn would read again where the slices lie; and it
// stands by itself, since built into its callers it keeps fewer of its values in registers. Both were tried, and slower.
#[inline(never)]
fn update_part(
    order: usize,
    m: &mut [u32],
    e: &mut [i32],
    k: usize,
    i: usize,
    a: Scaled,
    from: usize,
    to: usize,
)
    requires square { Square order (pair m.old e.old) }
    requires inside { (k < i) × (i < order) × (k < from) × (to ≤ order) × (from ≤ to) }
    requires factor { a ≡ entry_at order (pair m.old e.old) i k }
    requires each_fits { (b : ℕ) → from ≤ b → b < to → Fit (updated order (pair m.old e.old) k i b) }
    ensures { Mapped order i from to (updated order (pair m.old e.old) k i) (pair m.old e.old) (pair m.new e.new) }
{
    let mut x = Matrix { order, m, e };
    for j in from..to {
        update_at(&mut x, k, i, a, j);
    }
}

// Updates row i: entry (i, k) times t(j) is added to entry (i, j), j above k and not i.
fn update_row(x: &mut Matrix, k: usize, i: usize)
    requires ready { Ready x.old.order k i (cells x.old) }
    requires inside { (k < i) × (i < x.old.order) }
    ensures { Rewritten (Updated x.old.order k i (i + 1)) x.old x.new }
{
    let a = x.entry(i, k);
    let n = x.order;
    update_part(x.order, x.m, x.e, k, i, a, k + 1, i);
    update_part(x.order, x.m, x.e, k, i, a, i + 1, n);
}

// Updates the rows below row k. A row whose entry in column k is Zero stays as it is.
pub fn update_rows(x: &mut Matrix, k: usize)
    requires ready { Ready x.old.order k (k + 1) (cells x.old) }
    requires inside { k < x.old.order }
    ensures { Rewritten (Updated x.old.order k (k + 1) x.old.order) x.old x.new }
{
    for i in k + 1..x.order {
        if !scaled::is_zero(x.entry(i, k)) {
            update_row(x, k, i);
        }
    }
}
