// The search, called with tables and a list that hold a pattern, and what is seen of its answer and of the list after it.
use crate::layout::{
    CHANGED, CHANGED_TABLES, COST, ENTRIES, ENTRY_WIDTH, EXCESS, LEAST, LEGAL, LENGTHS, NOT_OWN,
    NUMBERS, OWN, OWN_COUNT, PATTERN, PLACE, PLAYED_COST, REFUSAL, REQUEST_WIDTH, SCHEDULE_LENGTH,
    STEPS, set_value, value,
};
use crate::lent::{ROOM, Table};
use crate::{lent, played, questions};
use protocol_types::{BestSchedule, PlacedRefusal};
use trials_cells::cells::{Cells, get, product, quotient};
use trials_cells::state;

// The cells of what is seen.
const SEEN: u32 = 12;

// No length and no place that is wanted is as high.
const TOO_MANY: u32 = 65535;

pub(crate) fn narrow(x: usize) -> u32 {
    if x < 65535 { x as u32 } else { TOO_MANY }
}

fn put_found(cells: &mut Cells, best: BestSchedule) {
    set_value(cells, ENTRIES, narrow(best.length));
    set_value(cells, COST, best.cost);
    set_value(cells, STEPS, best.steps);
    set_value(cells, LEAST, u32::from(best.least));
    set_value(cells, EXCESS, best.excess);
}

fn put_refused(cells: &mut Cells, refused: PlacedRefusal) {
    set_value(cells, REFUSAL, refused.refusal.number());
    set_value(cells, PLACE, narrow(refused.place));
}

fn put_answer(cells: &mut Cells, answer: Result<BestSchedule, PlacedRefusal>) {
    match answer {
        Ok(best) => put_found(cells, best),
        Err(refused) => put_refused(cells, refused),
    }
}

// Table k is looked at to its end.
fn look(cells: &mut Cells, k: u32, table: &Table) {
    let n = get(cells, LENGTHS, k);
    let count = lent::changed(table, 0, n, value(cells, PATTERN));
    state::add(cells, CHANGED_TABLES, count);
}

// The list behind the schedule, and beside the engine's actions.
fn look_behind(cells: &mut Cells, schedule: &Table) {
    let first = product(value(cells, ENTRIES), ENTRY_WIDTH);
    let n = value(cells, SCHEDULE_LENGTH);
    set_value(
        cells,
        CHANGED,
        lent::changed(schedule, first, n, value(cells, PATTERN)),
    );
    let own = product(value(cells, OWN_COUNT), ENTRY_WIDTH);
    set_value(cells, NOT_OWN, lent::unlike(schedule, cells, OWN, own));
}

// The schedule is played; it has to complete all requests.
fn play(cells: &mut Cells, schedule: &Table) {
    let n = quotient(value(cells, NUMBERS), REQUEST_WIDTH);
    if let Some(end) = played::play_all(cells, n, schedule, value(cells, ENTRIES)) {
        set_value(cells, LEGAL, u32::from(end.done == n));
        set_value(cells, PLAYED_COST, end.cost);
    }
}

// The search in at most so many steps.
pub(crate) fn ask(cells: &mut Cells, steps: u32) {
    trials_cells::cells::wipe(cells, REFUSAL, SEEN);
    let setup = questions::setup_of(cells);
    let view: &Cells = cells;
    let mut requests = [0u32; ROOM];
    let mut distances = [0u32; ROOM];
    let mut order = [0u32; ROOM];
    let mut predecessors = [0u32; ROOM];
    let mut lowest = [0u32; ROOM];
    let mut schedule = [0u32; ROOM];
    let n = lent::lend_requests(view, &mut requests);
    let a = lent::lend(view, 0, &mut distances);
    let b = lent::lend(view, 1, &mut order);
    let c = lent::lend(view, 2, &mut predecessors);
    let d = lent::lend(view, 3, &mut lowest);
    let e = lent::lend(view, 4, &mut schedule);
    let answer = best::best(
        setup,
        &requests[..n],
        &mut distances[..a],
        &mut order[..b],
        &mut predecessors[..c],
        &mut lowest[..d],
        &mut schedule[..e],
        steps,
    );
    put_answer(cells, answer);
    look(cells, 0, &distances);
    look(cells, 1, &order);
    look(cells, 2, &predecessors);
    look(cells, 3, &lowest);
    look_behind(cells, &schedule);
    play(cells, &schedule);
}
