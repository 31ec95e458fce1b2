// Two stations side by side: the joint chain of two chains in rows, put into lent slices.
#![tactic(auto)]

ghost use Rattle.std.specs.Prelude.{◌≡◌, ◌+◌, ◌*◌, ◌<◌, ◌≤◌};
ghost use Rattle.refusal.specs.Table.{verdict};
ghost use Rattle.chain.specs.Rows.{rows_of};
ghost use Rattle.layout.specs.Buffers.{buffers};
ghost use Rattle.joined.specs.Joined.{joint_rates};
ghost use Rattle.joined.specs.Verdict.{joint_tried, join_verdict, Joinable};
ghost use Rattle.joint.specs.Joining.{told_joining, Joins};
ghost use Rattle.joint.specs.Inner.{PutJointRow, JointRowPut, PutRows, RowsPut};

use chain::{Chain, SoundChain};
use checking::room_for;
use refusal::{ChainReason, Refusal};

// A refusal of a joining: of the first part, of the second part or of the joint chain.
#[derive(Clone, Copy)]
pub enum JoinRefusal {
    First(Refusal),
    Second(Refusal),
    Joint(Refusal),
}

// Two parts that can be joined.
#[derive(Clone, Copy)]
struct Pair<'a> {
    first: Chain<'a>,
    second: Chain<'a>,
    ghost joinable: { Joinable (rows_of first) (rows_of second) },
}

// 15 and 5, for parts of these orders and numbers of entries and for slices of these lengths: the number of entries of the joint chain.
fn judge_joint(
    a: usize,
    entries1: usize,
    b: usize,
    entries2: usize,
    starts: usize,
    columns: usize,
    rates: usize,
) -> Result<usize, Refusal>
    requires { (a ≤ 64) × (b ≤ 64) × (entries1 < 4294967296) × (entries2 < 4294967296) }
    ensures { verdict result ≡ joint_tried (a * b) (b * entries1 + a * entries2) starts columns rates }
{
    if 64 < a * b {
        return Err(Refusal::Chain(ChainReason::JointOrder));
    }
    let entries = b * entries1 + a * entries2;
    if room_for(a * b, entries, starts, columns, rates) {
        return Ok(entries);
    }
    Err(Refusal::Chain(ChainReason::Room))
}

// What a joining into slices of these lengths answers.
fn judge(
    first: Chain,
    second: Chain,
    starts: usize,
    columns: usize,
    rates: usize,
) -> Result<usize, JoinRefusal>
    ensures { told_joining result ≡ join_verdict (rows_of first.entry) (rows_of second.entry) starts columns rates }
{
    let entries1 = first.check().map_err(JoinRefusal::First)?;
    let entries2 = second.check().map_err(JoinRefusal::Second)?;
    judge_joint(
        first.order,
        entries1,
        second.order,
        entries2,
        starts,
        columns,
        rates,
    )
    .map_err(JoinRefusal::Joint)
}

impl Pair<'_> {
    // The rate between two joint states: one part moves at a time.
    fn rate(self, x: usize, y: usize) -> u32
        requires { x < self.first.order * self.second.order }
        ensures { result ≡ joint_rates (rows_of self.entry.first) (rows_of self.entry.second) x y }
    {
        let a = self.first.order;
        let b = self.second.order;
        if x % b == y % b {
            return SoundChain { chain: self.first }.rate_of(x / b, y / b);
        }
        if x / b == y / b {
            return SoundChain { chain: self.second }.rate_of(x % b, y % b);
        }
        0
    }

    // The entries of row x, put from place p on: the place after them.
    fn put_row(self, x: usize, columns: &mut [u32], rates: &mut [u32], p: usize) -> usize
        requires { PutJointRow (self.first.order * self.second.order) (joint_rates (rows_of self.first) (rows_of self.second)) x columns.old rates.old p }
        ensures { JointRowPut (self.entry.first.order * self.entry.second.order) (joint_rates (rows_of self.entry.first) (rows_of self.entry.second)) x
            columns.old rates.old p result columns.new rates.new }
    {
        let mut q = p;
        for y in 0..self.first.order * self.second.order {
            let rate = self.rate(x, y);
            if 0 < rate {
                columns[q] = y as u32;
                rates[q] = rate;
                q += 1;
            }
        }
        q
    }

    // All rows of the joint chain, put into the three slices.
    fn put_rows(self, starts: &mut [u32], columns: &mut [u32], rates: &mut [u32])
        requires { PutRows (self.first.order * self.second.order) (joint_rates (rows_of self.first) (rows_of self.second)) (buffers starts.old columns.old rates.old) }
        ensures { RowsPut (self.entry.first.order * self.entry.second.order) (joint_rates (rows_of self.entry.first) (rows_of self.entry.second))
            (buffers starts.old columns.old rates.old)
            (buffers starts.new columns.new rates.new) }
    {
        let n = self.first.order * self.second.order;
        let mut p = 0;
        for x in 0..n {
            starts[x] = p as u32;
            p = self.put_row(x, columns, rates, p);
        }
        starts[n] = p as u32;
    }
}

// Joins two chains, of orders a and b: the chain of order a × b whose state i × b + j has the first in i and the second in j goes to the three
// last slices; the answer is the number of its entries, or the first refusal in the order of docs/FORMAT.md, of the first part, of the second
// or of the joint chain. The contract, `Joins`, holds for any input. C lends the three slices apart, so they are parameters and no struct.
pub fn join(
    first: Chain,
    second: Chain,
    starts: &mut [u32],
    columns: &mut [u32],
    rates: &mut [u32],
) -> Result<usize, JoinRefusal>
    ensures { Joins (rows_of first.entry) (rows_of second.entry)
        (buffers starts.old columns.old rates.old) result
        (buffers starts.new columns.new rates.new) }
{
    let entries = judge(first, second, starts.len(), columns.len(), rates.len())?;
    Pair { first, second }.put_rows(starts, columns, rates);
    Ok(entries)
}
