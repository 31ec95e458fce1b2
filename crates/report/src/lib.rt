// What the printing program prints for any bytes, put at the front of a lent buffer.
#![tactic(auto)]

ghost use Rattle.std.specs.Prelude.{◌≡◌, ◌≤◌, length};
ghost use Rattle.chain.specs.Rows.{rows_of};
ghost use Rattle.decimal.specs.Put.{Puts};
ghost use Rattle.report.specs.Report.{longest, solved_text, Reports};

use chain::Chain;

// The bytes of the longest text.
const LONGEST_TEXT: usize = 2519;

// The text for a chain: its weights and shares, or the refusal of solving.
fn put_solved(out: &mut [u8], chain: Chain) -> usize
    requires { (longest ≤ length out.old) × (chain.order ≤ 64) }
    ensures { (Puts out.old 0 (solved_text (rows_of chain.entry)) out.new result) × (result ≤ longest) }
{
    let mut m = [0u32; 4096];
    let mut e = [0i32; 4096];
    let mut wm = [0u32; 64];
    let mut we = [0i32; 64];
    let mut sm = [0u32; 64];
    let mut se = [0i32; 64];
    match solver::solve(chain, &mut m, &mut e, &mut wm, &mut we, &mut sm, &mut se) {
        Ok(bound) => lines::put_answer(out, chain.order, bound, &wm, &we, &sm, &se),
        Err(refusal) => refused::put_refusal(out, refusal),
    }
}

// Room for the longest text, which suffices for `report`.
pub fn text_buffer() -> [u8; LONGEST_TEXT]
    ensures { length result ≡ longest }
{
    [0; LONGEST_TEXT]
}

// Puts the text for these bytes at the front of `out`: the answer is the number of its bytes. Where `out` has no room for the longest
// text, nothing is changed and the answer is 0.
pub fn report(bytes: &[u8], out: &mut [u8]) -> usize
    ensures { Reports bytes.now out.old out.new result }
{
    if out.len() < LONGEST_TEXT {
        return 0;
    }
    let mut starts = [0u32; layout::MOST_STARTS];
    let mut columns = [0u32; layout::MOST_ENTRIES];
    let mut rates = [0u32; layout::MOST_ENTRIES];
    match storage::read(bytes, &mut starts, &mut columns, &mut rates) {
        Ok(stored) => put_solved(out, stored.chain(&starts, &columns, &rates)),
        Err(refusal) => refused::put_refusal(out, refusal),
    }
}
