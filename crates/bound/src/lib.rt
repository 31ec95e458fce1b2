// The bound count of an order, from its formula (request R-2). Internal: it asks for an order of at most 64.
#![tactic(auto)]

ghost use Rattle.std.specs.Prelude.{◌≡◌, ◌≤◌};
ghost use Rattle.markov.specs.Count.{bound_count};

// K(n) = (2n^3 + 6n^2 - 8n) / 3. The sum comes first: 2n^3 - 8n alone is below 0 at n = 1.
pub fn bound_count(n: usize) -> usize
    requires { n ≤ 64 }
    ensures { result ≡ bound_count n }
{
    (2 * (n * n * n) + 6 * (n * n) - 8 * n) / 3
}
