// The public call that solves a chain: what it refuses, the bound count, and the elimination on the needed places.
#![tactic(auto)]

ghost use Rattle.std.specs.Prelude.{◌≡◌, ◌≤◌};
ghost use Rattle.chain.specs.Rows.{rows_of};
ghost use Rattle.solver.specs.Lent.{lent, both_have, enough};
ghost use Rattle.solver.specs.Solve.{Solved};
ghost use Rattle.solver.specs.Inner.{Admitted};

use chain::{Chain, SoundChain};
use refusal::{ChainReason, Refusal};

// What solving needs of a chain that none refuses: the bound count, and the closed set with the number of its states.
#[derive(Clone, Copy)]
struct Found {
    bound: usize,
    set: u64,
    size: usize,
}

fn both_have(k: usize, m: usize, e: usize) -> bool
    ensures { result ≡ both_have k m e }
{
    k <= m && k <= e
}

// Whether lent slices of these lengths have the needed places.
fn enough(n: usize, m: usize, e: usize, wm: usize, we: usize, sm: usize, se: usize) -> bool
    requires { n ≤ 64 }
    ensures { result ≡ enough n m e wm we sm se }
{
    both_have(n * n, m, e) && both_have(n, wm, we) && both_have(n, sm, se)
}

// 1 to 4, 14, 5 and 6, for lent slices of these lengths: the first refusal, or what solving needs.
fn admit(
    chain: Chain,
    m: usize,
    e: usize,
    wm: usize,
    we: usize,
    sm: usize,
    se: usize,
) -> Result<Found, Refusal>
    ensures { Admitted (rows_of chain.entry) (enough chain.entry.order m e wm we sm se) result }
{
    chain.check()?;
    if !enough(chain.order, m, e, wm, we, sm, se) {
        return Err(Refusal::Chain(ChainReason::Room));
    }
    let answer = reach::find_answer(chain);
    answer.outcome?;
    let size = members::size_of(answer.set, chain.order);
    Ok(Found {
        bound: bound::bound_count(size),
        set: answer.set,
        size,
    })
}

// Solves a chain: the weights (m, e) go to wm, we and the shares to sm, se; the answer is the bound count, or the first refusal in the
// order of docs/FORMAT.md. States outside the chain's closed set get Zero (R-3). m and e are work places. The contract, `Solved`, holds for any input: it
// says the answer and what that means (demand 1), every lent place at exit, that the exact weights balance the whole chain and whatever balances it
// is in proportion to them (demand 2), and for an accepted chain how near the results are to them (demand 3) and that every number met lies well inside the range
// (R-7).
// C lends the six slices apart, so they are parameters and no struct.
pub fn solve(
    chain: Chain,
    m: &mut [u32],
    e: &mut [i32],
    wm: &mut [u32],
    we: &mut [i32],
    sm: &mut [u32],
    se: &mut [i32],
) -> Result<usize, Refusal>
    ensures { Solved (rows_of chain.entry)
        (lent m.old e.old wm.old we.old sm.old se.old) result
        (lent m.new e.new wm.new we.new sm.new se.new) }
{
    let found = admit(
        chain,
        m.len(),
        e.len(),
        wm.len(),
        we.len(),
        sm.len(),
        se.len(),
    )?;
    let n = chain.order;
    let need = n * n;
    elimination::run(
        SoundChain { chain },
        found.set,
        found.size,
        &mut m[..need],
        &mut e[..need],
        &mut wm[..n],
        &mut we[..n],
        &mut sm[..n],
        &mut se[..n],
    );
    Ok(found.bound)
}
