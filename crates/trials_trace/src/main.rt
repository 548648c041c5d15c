// Random din traces through the count of a trace, beside the model. Each answer and each lent buffer is compared.
#![tactic(auto)]

mod entry;
mod layout;
mod reading;
mod tables;
mod text;

use crate::entry::Counted;
use crate::reading::Reading;
use protocol_types::placed_number;
use trials_cells::cells::Cells;
use trials_cells::state;
use trials_cells::state::{Difference, Kind};

// The generator as the trials of runs and prices left it, when all were one program.
const FIRST_SEED: u32 = 1381274556;

const CASES: u32 = 6000;

// What a trial differed in.
fn difference(expected: Reading, counted: Counted) -> Option<Difference> {
    let report = counted.report;
    if report.refusal != placed_number(expected.refused) {
        return Some(Difference::Refusal);
    }
    if report.line as usize != expected.refused_line() {
        return Some(Difference::Place);
    }
    if report.account != expected.account {
        return Some(Difference::Account);
    }
    if counted.unlike > 0 {
        return Some(Difference::Buffers);
    }
    None
}

// A trace, by the model and by the entry.
fn trace_case(rt: &impl Print, cells: &mut Cells, case: u32) {
    state::begin(cells);
    let n = text::put_trace(cells);
    let wrong = text::pick_wrong_length(cells);
    layout::scatter(cells, case);
    let expected = reading::count(cells, wrong, n);
    let counted = entry::count(cells, wrong, n, case);
    let what = difference(expected, counted);
    let number = placed_number(expected.refused);
    state::record(rt, cells, Kind::Trace, case, number, what);
}

fn traces(rt: &impl Print, cells: &mut Cells, n: u32) {
    for k in 0..n {
        trace_case(rt, cells, k);
    }
}

fn main(rt: HostRuntime) {
    let mut cells = state::seeded(FIRST_SEED);
    traces(&rt, &mut cells, CASES);
    state::print_kind(&rt, &cells, Kind::Trace, b"trace");
    state::print_cell(&rt, &cells, b"differences ", state::DIFFERENCES);
}
