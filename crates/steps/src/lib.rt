// Algorithm GTH in lent memory, for a caller who knows that every number met is a scaled number: the steps of the elimination of an
// n x n matrix (internal).
#![tactic(auto)]

ghost use Rattle.std.specs.Prelude.{◌≡◌, ℕ, ◌+◌, ◌-◌, ◌<◌};
ghost use Rattle.scaled.specs.declared.Scaled.{Scaled};
ghost use Rattle.kernel.specs.Numbers.{Fit, divided_by};
ghost use Rattle.kernel.specs.Slices.{entry_at};
ghost use Rattle.kernel.specs.Kernel.{Put, SumsFit};
ghost use Rattle.kernel.specs.Lent.{cells, entry_of, Rewritten};
ghost use Rattle.updating.specs.Inner.{Mapped};
ghost use Rattle.steps.specs.Inner.{pivot_at, Standing, Stepped, StagesFit, Eliminated};

use kernel::{Matrix, over_of, plus_of};
use scaled::Scaled;
use updating::update_rows;

// The pivot of step k: the sum of the entries (k, j), j rising from k + 1. It is a loop and no `fold`: a closure would not know the sums before,
// each of which `plus_of` asks to be a scaled number.
fn pivot(x: &Matrix, k: usize) -> Scaled
    requires inside { k < x.now.order }
    requires sums_fit { SumsFit (x.now.order - (k + 1)) (λ j. entry_of x.now k (k + 1 + j)) }
    ensures { result ≡ pivot_at x.now.order (cells x.now) k }
{
    let mut s = scaled::zero();
    for j in k + 1..x.order {
        s = plus_of(s, x.entry(k, j));
    }
    s
}

// t(j) in place of entry (k, j).
fn quotient_at(x: &mut Matrix, k: usize, s: Scaled, j: usize)
    requires inside { (k < x.old.order) × (j < x.old.order) }
    requires fit { Fit (divided_by (entry_of x.old k j) s) }
    ensures { Rewritten (Put x.old.order k j (divided_by (entry_of x.old k j) s)) x.old x.new }
{
    let t = over_of(x.entry(k, j), s);
    x.put(k, j, t);
}

// The quotients t(j), j above k.
fn quotients(x: &mut Matrix, k: usize, s: Scaled)
    requires inside { k < x.old.order }
    requires each_fits { (b : ℕ) → k < b → b < x.old.order → Fit (divided_by (entry_of x.old k b) s) }
    ensures { Rewritten (Mapped x.old.order k (k + 1) x.old.order (λ b. divided_by (entry_of x.old k b) s)) x.old x.new }
{
    for j in k + 1..x.order {
        quotient_at(x, k, s, j);
    }
}

// Step k: the pivot at (k, k), the quotients to its right, the rows below updated.
fn step(x: &mut Matrix, k: usize)
    requires inside { k < x.old.order }
    requires standing { Standing x.old.order k (cells x.old) }
    ensures { Rewritten (Stepped x.old.order k) x.old x.new }
{
    let s = pivot(x, k);
    x.put(k, k, s);
    quotients(x, k, s);
    update_rows(x, k);
}

// The elimination: the pivots stand on the diagonal, and each column below its pivot as it stood at that step.
pub fn eliminate(x: &mut Matrix)
    requires some { 0 < x.old.order }
    requires stages_fit { StagesFit x.old.order (entry_of x.old) }
    ensures { Rewritten (λ s. Eliminated x.old.order (x.old.order - 1) (entry_at x.old.order s)) x.old x.new }
{
    for k in 0..x.order - 1 {
        step(x, k);
    }
}
