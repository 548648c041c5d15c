// What came of a case on two sides: by the entry over records and by the one over numbers. What one side has the other must
// have too.
use protocol_types::{Account, PlacedRefusal, placed_number};
use trials_cells::cells::Cells;
use trials_cells::state;
use trials_cells::state::{Difference, Kind};

// The parts of an answer, and the account after it; 0 and a fresh account stand where a kind has no such part.
#[derive(Clone, Copy)]
pub struct Side {
    pub refused: Option<PlacedRefusal>,
    pub taken: usize,
    pub cost: u32,
    pub account: Account,
}

// What the sides differ in; `same` is whether they left the same tables or list.
fn difference(records: Side, numbers: Side, same: bool) -> Option<Difference> {
    if placed_number(records.refused) != placed_number(numbers.refused) {
        return Some(Difference::Refusal);
    }
    if records.refused != numbers.refused {
        return Some(Difference::Place);
    }
    if records.taken != numbers.taken {
        return Some(Difference::Taken);
    }
    if records.account != numbers.account {
        return Some(Difference::Account);
    }
    if records.cost != numbers.cost {
        return Some(Difference::Cost);
    }
    if !same {
        return Some(Difference::Buffers);
    }
    None
}

// A number of requests as one of 32 bits: those of these trials are small.
fn small(taken: usize) -> u32 {
    if taken < 65536 { taken as u32 } else { 65536 }
}

// A case of a kind ended as the sides say. The requests taken and the cost are added up, of the entry over records.
pub(crate) fn judge(
    rt: &impl Print,
    cells: &mut Cells,
    kind: Kind,
    case: u32,
    records: Side,
    numbers: Side,
    same: bool,
) {
    let what = difference(records, numbers, same);
    let number = placed_number(records.refused);
    state::record(rt, cells, kind, case, number, what);
    state::add(cells, state::REQUESTS, small(records.taken));
    state::add(cells, state::CYCLES, records.cost);
}
