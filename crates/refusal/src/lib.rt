#![tactic(auto)]

ghost use Rattle.std.specs.Prelude.{◌≡◌};
ghost use Rattle.refusal.specs.Table.{numbered, line, Listed};

// Why a chain is turned away. The places are those of document 01's table.
#[derive(Clone, Copy)]
pub enum ChainReason {
    Order,
    Lengths,
    Starts,
    // Row, entry place.
    Columns(usize, usize),
    Room,
    // The lowest and the second lowest of the closed sets' lowest states.
    ClosedSets(usize, usize),
    // A state that no row of the group table holds.
    InNoRow(usize),
    // A state that two rows of the group table hold.
    InTwoRows(usize),
    // A bad row of the group table.
    TableRow(usize),
    // Row, column.
    ZeroRate(usize, usize),
    // Two parts whose joint chain has more than 64 states.
    JointOrder,
}

// Why stored bytes are turned away.
#[derive(Clone, Copy)]
pub enum BytesReason {
    Order,
    Room,
    Short,
    // Row, bit.
    Bit(usize, usize),
    Extra,
    // Row, column.
    ZeroRate(usize, usize),
    // Row, bit of the second map.
    Mark(usize, usize),
}

// A refusal says whether the chain or the stored bytes were at fault, with that side's own reason inside.
#[derive(Clone, Copy)]
pub enum Refusal {
    Chain(ChainReason),
    Bytes(BytesReason),
}

// A refusal as document 01's table lists it. The number is what a call returns to C and what the programs print.
#[derive(Clone, Copy)]
pub struct Line {
    pub number: u32,
    pub first: usize,
    pub second: usize,
}

fn table_line(number: u32, first: usize, second: usize) -> Line
    ensures { result ≡ numbered number first second }
{
    Line {
        number,
        first,
        second,
    }
}

fn chain_line(reason: ChainReason) -> Line
    ensures { result ≡ line (Refusal.Chain reason) }
{
    match reason {
        ChainReason::Order => table_line(1, 0, 0),
        ChainReason::Lengths => table_line(2, 0, 0),
        ChainReason::Starts => table_line(3, 0, 0),
        ChainReason::Columns(row, place) => table_line(4, row, place),
        ChainReason::Room => table_line(5, 0, 0),
        ChainReason::ClosedSets(first, second) => table_line(6, first, second),
        ChainReason::InNoRow(state) => table_line(11, state, 0),
        ChainReason::InTwoRows(state) => table_line(12, state, 0),
        ChainReason::TableRow(row) => table_line(13, row, 0),
        ChainReason::ZeroRate(row, column) => table_line(14, row, column),
        ChainReason::JointOrder => table_line(15, 0, 0),
    }
}

fn bytes_line(reason: BytesReason) -> Line
    ensures { result ≡ line (Refusal.Bytes reason) }
{
    match reason {
        BytesReason::Order => table_line(1, 0, 0),
        BytesReason::Room => table_line(5, 0, 0),
        BytesReason::Short => table_line(8, 0, 0),
        BytesReason::Bit(row, bit) => table_line(9, row, bit),
        BytesReason::Extra => table_line(10, 0, 0),
        BytesReason::ZeroRate(row, column) => table_line(14, row, column),
        BytesReason::Mark(row, bit) => table_line(16, row, bit),
    }
}

// The number of a refusal and its two places.
pub fn listed(refusal: Refusal) -> Line
    ensures { Listed refusal result }
{
    match refusal {
        Refusal::Chain(reason) => chain_line(reason),
        Refusal::Bytes(reason) => bytes_line(reason),
    }
}

// In print: its number and its two places, with a blank between each two.
impl std::fmt::Display for Line {
    ghost use Rattle.std.specs.Prelude.{Some};
    ghost use Rattle.refusal.specs.Printed.{line_text};

    ghost output = { λ line. Some (line_text line) };

    fn fmt<W: std::fmt::Write>(&self, f: &mut std::fmt::Formatter<W>) -> std::fmt::Result {
        write!(f, "{} {} {}", self.number, self.first, self.second)
    }
}
