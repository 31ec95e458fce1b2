// Algorithm GTH in lent memory, for a caller who knows that every number met is a scaled number: the weights by back substitution, and the
// shares (internal).
#![tactic(auto)]

ghost use Rattle.std.specs.Prelude.{◌≡◌, ℕ, ◌+◌, ◌-◌, ◌<◌, length};
ghost use Rattle.scaled.specs.declared.Scaled.{Scaled};
ghost use Rattle.markov.specs.Elimination.{weights};
ghost use Rattle.markov.specs.Promises.{AllFit};
ghost use Rattle.kernel.specs.Numbers.{ops, Fit, times};
ghost use Rattle.kernel.specs.Slices.{number_at};
ghost use Rattle.kernel.specs.Kernel.{Sized, Holds, SumsFit};
ghost use Rattle.kernel.specs.Inner.{Placed};
ghost use Rattle.kernel.specs.Lent.{held, cells, entry_of, Stored, Rewritten};
ghost use Rattle.steps.specs.Inner.{Eliminated};
ghost use Rattle.weighing.specs.Weighing.{Weighed, share_of, total_of, SharesFit};
ghost use Rattle.weighing.specs.Inner.{flow_at, weight_at, FlowFits, Backed};

use kernel::{Matrix, Numbers, over_of, plus_of, times_of};
use scaled::Scaled;
use steps::eliminate;

// The sum, j rising from k + 1, of weight j times entry (j, k); a loop, as in `steps::pivot`.
fn flow(x: &Matrix, w: &Numbers, k: usize) -> Scaled
    requires sized { Sized x.now.order (held w.now) }
    requires inside { k < x.now.order }
    requires sums_fit { SumsFit (x.now.order - (k + 1)) (λ j. times (number_at (held w.now) (k + 1 + j)) (entry_of x.now (k + 1 + j) k)) }
    ensures { result ≡ flow_at x.now.order (cells x.now) (held w.now) k }
{
    let mut s = scaled::zero();
    for j in k + 1..x.order {
        s = plus_of(s, times_of(w.load(j), x.entry(j, k)));
    }
    s
}

// Weight k: its flow divided once by the pivot of step k.
fn back_at(x: &Matrix, w: &mut Numbers, k: usize)
    requires sized { Sized x.now.order (held w.old) }
    requires inside { k < x.now.order }
    requires flow_fits { FlowFits x.now.order (cells x.now) (held w.old) k }
    ensures { Stored (Placed k (weight_at x.now.order (cells x.now) (held w.old) k)) w.old w.new }
{
    let weight = over_of(flow(x, w, k), x.entry(k, k));
    w.place(k, weight);
}

// The weights, from the last state down: the last is 1.
fn back(x: &Matrix, w: &mut Numbers)
    requires { Backed x.now.order (cells x.now) (held w.old) }
    ensures { Stored (λ _ v. (a : ℕ → ℕ → Scaled) → Eliminated x.now.order (x.now.order - 1) a (cells x.now)
        → Holds x.now.order (weights ops (x.now.order - 1) a) v) w.old w.new }
{
    let last = x.order - 1;
    w.place(last, scaled::one());
    for k in (0..last).rev() {
        back_at(x, w, k);
    }
}

// The elimination and the weights. The pivots are left on the diagonal of the matrix.
pub fn weigh(x: &mut Matrix, w: &mut Numbers)
    requires some { 0 < x.old.order }
    requires all_fit { AllFit ops Fit (x.old.order - 1) (entry_of x.old) }
    requires sized { Sized x.old.order (held w.old) }
    ensures { Rewritten (λ _ s. Stored (λ _ v. Weighed x.old.order (entry_of x.old) s v) w.old w.new) x.old x.new }
{
    eliminate(x);
    back(x, w);
}

// The sum of the weights, from state 0 up; a loop, as in `steps::pivot`.
fn total_weight(w: &Numbers) -> Scaled
    requires { SumsFit (length w.now.m.now) (number_at (held w.now)) }
    ensures { result ≡ total_of (length w.now.m.now) (held w.now) }
{
    let mut s = scaled::zero();
    for k in 0..w.m.len() {
        s = plus_of(s, w.load(k));
    }
    s
}

// Share k.
fn share_at(w: &Numbers, t: Scaled, k: usize, s: &mut Numbers)
    requires inside { (k < length w.now.m.now) × (k < length s.old.m.now) }
    requires fit { Fit (share_of (held w.now) t k) }
    ensures { Stored (Placed k (share_of (held w.now) t k)) s.old s.new }
{
    let share = over_of(w.load(k), t);
    s.place(k, share);
}

// The shares.
pub fn share(w: &Numbers, s: &mut Numbers)
    requires sized { Sized (length w.now.m.now) (held s.old) }
    requires shares_fit { SharesFit (length w.now.m.now) (held w.now) }
    ensures { let n = length w.now.m.now in
        Stored (λ _ t. Holds n (share_of (held w.now) (total_of n (held w.now))) t) s.old s.new }
{
    let t = total_weight(w);
    for k in 0..w.m.len() {
        share_at(w, t, k, s);
    }
}
