// Random boards and requests through the search for the best schedule, beside an exact search and an engine that are coded apart. Each schedule
// is played by the model's own rules, and each lent list is looked at to its end.
#![tactic(auto)]

mod asked;
mod layout;
mod least;
mod lent;
mod own;
mod played;
mod questions;
mod requests;
mod rules;

use crate::layout::{
    CASE, CHANGED, CHANGED_TABLES, COST, ENTRIES, EXCESS, LEAST, LEAST_COST, LEGAL, NOT_OWN,
    NUMBERS, OWN_COUNT, OWN_CYCLES, PLACE, PLAYED_COST, REFUSAL, REQUEST_WIDTH, STEPS, set_value,
    value,
};
use protocol_types::PlacedRefusal;
use trials_cells::cells::{Cells, less, product, quotient, sum};
use trials_cells::state;
use trials_cells::state::{Difference, Kind, between, draw};

const FIRST_SEED: u32 = 20261118;

const QUESTIONS: u32 = 2000;

// Every so many questions one is right; the others are mostly wrong.
const RIGHT: u32 = 5;

// Requests of the longest list, and of a list that is too long at times.
const REQUESTS: u32 = 24;

const MORE_REQUESTS: u32 = 34;

// Steps that always suffice.
const SUFFICIENT: u32 = 583200;

// Cells of the state: the searches, those that were called least, those that were not but found a schedule cheaper than the engine's own, their
// steps in all, and the lists for which there is such a schedule.
const SEARCHES: u32 = 5;

const CALLED_LEAST: u32 = 6;

const CHEAPER: u32 = 7;

const ALL_STEPS: u32 = 8;

const BETTERED: u32 = 9;

// ---- what has to hold of what is seen

// A difference where it does not hold.
fn expect(rt: &impl Print, cells: &mut Cells, holds: bool, what: Difference) {
    if !holds {
        let case = value(cells, CASE);
        state::judge(rt, cells, Kind::Best, case, Some(what));
    }
}

// The number at a place is this one.
fn expect_at(rt: &impl Print, cells: &mut Cells, place: u32, x: u32, what: Difference) {
    let holds = value(cells, place) == x;
    expect(rt, cells, holds, what);
}

// Nothing but the refusal comes of it.
fn expect_refusal(rt: &impl Print, cells: &mut Cells, expected: PlacedRefusal) {
    let number = expected.refusal.number();
    let place = asked::narrow(expected.place);
    expect_at(rt, cells, REFUSAL, number, Difference::Refusal);
    expect_at(rt, cells, PLACE, place, Difference::Place);
    expect_at(rt, cells, CHANGED, 0, Difference::Buffers);
    expect_at(rt, cells, CHANGED_TABLES, 0, Difference::Buffers);
}

// A legal schedule of the cost that is told; what stands behind it stays. The excess is its cost less half the engine's cycles.
fn expect_schedule(rt: &impl Print, cells: &mut Cells, cost: u32) {
    expect_at(rt, cells, REFUSAL, 0, Difference::Refusal);
    expect_at(rt, cells, CHANGED, 0, Difference::Buffers);
    expect_at(rt, cells, LEGAL, 1, Difference::NotLegal);
    expect_at(rt, cells, PLAYED_COST, cost, Difference::Cost);
    let half = quotient(sum(value(cells, OWN_CYCLES), 1), 2);
    let excess = value(cells, EXCESS);
    expect(
        rt,
        cells,
        sum(half, excess) == cost,
        Difference::WrongExcess,
    );
}

// It is not cheaper than the least cost and no dearer than `bound`, which fewer steps gave.
fn expect_cost(rt: &impl Print, cells: &mut Cells, cost: u32, bound: u32) {
    let least = value(cells, LEAST_COST);
    expect(rt, cells, cost >= least, Difference::Cost);
    expect(rt, cells, cost <= bound, Difference::Cost);
}

// It is called least once no steps are needed any more, and only if it is.
fn expect_least(rt: &impl Print, cells: &mut Cells, cost: u32, steps: u32) {
    let used = value(cells, STEPS);
    if value(cells, LEAST) == 1 {
        expect_at(rt, cells, LEAST_COST, cost, Difference::NotLeast);
        expect(rt, cells, used <= steps, Difference::StepsUsed);
        return;
    }
    expect(rt, cells, used == steps, Difference::StepsUsed);
    expect(rt, cells, steps < SUFFICIENT, Difference::NotLeast);
}

// With 0 steps it is the engine's own actions.
fn expect_own(rt: &impl Print, cells: &mut Cells) {
    let count = value(cells, OWN_COUNT);
    let cycles = value(cells, OWN_CYCLES);
    expect_at(rt, cells, ENTRIES, count, Difference::OwnActions);
    expect_at(rt, cells, NOT_OWN, 0, Difference::OwnActions);
    expect_at(rt, cells, COST, cycles, Difference::Cost);
}

// ---- the cases

fn count_search(cells: &mut Cells, cost: u32) {
    let least = value(cells, LEAST);
    let used = value(cells, STEPS);
    let cheaper = u32::from(cost < value(cells, OWN_CYCLES));
    state::add(cells, SEARCHES, 1);
    state::add(cells, CALLED_LEAST, least);
    state::add(cells, CHEAPER, less(cheaper, least));
    state::add(cells, ALL_STEPS, used);
}

// One search in at most so many steps, where fewer gave a schedule of cost `bound`: its cost.
fn search(rt: &impl Print, cells: &mut Cells, steps: u32, bound: u32) -> u32 {
    asked::ask(cells, steps);
    let cost = value(cells, COST);
    expect_schedule(rt, cells, cost);
    expect_cost(rt, cells, cost, bound);
    expect_least(rt, cells, cost, steps);
    count_search(cells, cost);
    cost
}

// A number of steps that seldom suffices.
fn pick_steps(cells: &mut Cells) -> u32 {
    match draw(cells, 3) {
        0 => between(cells, 1, 60),
        1 => between(cells, 1, 4000),
        _ => between(cells, 1, 60000),
    }
}

// More and more steps for one list, and last a few less than those that sufficed.
fn searches(rt: &impl Print, cells: &mut Cells) {
    let first = search(rt, cells, 0, value(cells, OWN_CYCLES));
    expect_own(rt, cells);
    let few = pick_steps(cells);
    let second = search(rt, cells, few, first);
    let more = sum(few, pick_steps(cells));
    let third = search(rt, cells, more, second);
    search(rt, cells, SUFFICIENT, third);
    let nearly = less(value(cells, STEPS), between(cells, 1, 12));
    search(rt, cells, nearly, first);
}

// The model and the search for a question that nothing refuses.
fn search_case(rt: &impl Print, cells: &mut Cells) {
    let n = quotient(value(cells, NUMBERS), REQUEST_WIDTH);
    rules::put_lines(cells);
    own::serve_all(cells, n);
    least::find(cells, n);
    searches(rt, cells);
    let bettered = value(cells, LEAST_COST) < value(cells, OWN_CYCLES);
    state::add(cells, BETTERED, u32::from(bettered));
    state::add(cells, state::REQUESTS, n);
}

// A question is refused as it has to be, or answered.
fn ask_case(rt: &impl Print, cells: &mut Cells, case: u32) {
    match questions::check(cells) {
        Ok(()) => {
            state::record(rt, cells, Kind::Best, case, 0, None);
            search_case(rt, cells);
        }
        Err(expected) => {
            let number = expected.refusal.number();
            state::record(rt, cells, Kind::Best, case, number, None);
            asked::ask(cells, SUFFICIENT);
            expect_refusal(rt, cells, expected);
        }
    }
}

// A right question has a long list once in two times.
fn put_right(cells: &mut Cells) {
    let fewest = product(draw(cells, 2), REQUESTS / 2);
    let n = between(cells, fewest, REQUESTS);
    questions::put_question(cells, n);
}

fn put_wrong(cells: &mut Cells) {
    let n = between(cells, 0, MORE_REQUESTS);
    questions::put_question(cells, n);
    questions::spoil(cells);
}

fn one_case(rt: &impl Print, cells: &mut Cells, case: u32) {
    state::begin(cells);
    set_value(cells, CASE, case);
    if case % RIGHT == 0 {
        put_right(cells);
    } else {
        put_wrong(cells);
    }
    ask_case(rt, cells, case);
}

fn cases(rt: &impl Print, cells: &mut Cells, n: u32) {
    for k in 0..n {
        one_case(rt, cells, k);
    }
}

fn print_all(rt: &impl Print, cells: &Cells) {
    state::print_kind(rt, cells, Kind::Best, b"list");
    state::print_cell(
        rt,
        cells,
        b"requests of lists that were searched ",
        state::REQUESTS,
    );
    state::print_cell(
        rt,
        cells,
        b"lists with a schedule cheaper than the engine's own ",
        BETTERED,
    );
    state::print_cell(rt, cells, b"searches compared ", SEARCHES);
    state::print_cell(rt, cells, b"of them called least ", CALLED_LEAST);
    state::print_cell(
        rt,
        cells,
        b"of the others cheaper than the engine's own ",
        CHEAPER,
    );
    state::print_cell(rt, cells, b"steps used ", ALL_STEPS);
    state::print_cell(rt, cells, b"differences ", state::DIFFERENCES);
}

fn main(rt: HostRuntime) {
    let mut cells = state::seeded(FIRST_SEED);
    cases(&rt, &mut cells, QUESTIONS);
    print_all(&rt, &cells);
}
