// Random and chosen cases through starting, a look, and the run and the price over numbers, beside the model. Each answer
// and each lent buffer is compared.
#![tactic(auto)]

mod asked;
mod board;
mod damage;
mod layout;
mod lent;
mod lists;
mod price_trials;
mod rival;
mod run_trials;
mod served;
mod setups;

use crate::run_trials::Series;
use trials_cells::cells::Cells;
use trials_cells::state;
use trials_cells::state::Kind;

const FIRST_SEED: u32 = 20261115;

// How many cases of each kind there are; the price cases have runs too.
const STARTS: u32 = 4000;

const RUNS: u32 = 24000;

const PRICES: u32 = 16000;

fn starts(rt: &impl Print, cells: &mut Cells, n: u32) {
    for k in 0..n {
        run_trials::start_case(rt, cells, k);
    }
}

// The runs of a list go on over the tables and the account that the last one left.
fn series(rt: &impl Print, cells: &mut Cells, n: u32) {
    let mut at = Series {
        setup: setups::largest(0),
        account: setups::fresh_account(),
        left: 0,
    };
    for k in 0..n {
        at = run_trials::run_case(rt, cells, at, k);
    }
}

fn prices(rt: &impl Print, cells: &mut Cells, n: u32) {
    for k in 0..n {
        price_trials::price_case(rt, cells, k);
    }
}

// The looks, by whether the block was held.
fn print_looks(rt: &impl Print, cells: &Cells) {
    state::print_cases(rt, cells, Kind::Look, b"look");
    state::print_cell(
        rt,
        cells,
        b"look empty: ",
        state::count_place(Kind::Look, 0),
    );
    state::print_cell(rt, cells, b"look held: ", state::count_place(Kind::Look, 1));
}

fn print_sums(rt: &impl Print, cells: &Cells) {
    state::print_cell(rt, cells, b"requests served in runs ", state::REQUESTS);
    state::print_cell(rt, cells, b"cycles billed in runs ", state::CYCLES);
    state::print_cell(
        rt,
        cells,
        b"runs refused for a false mask alone ",
        state::FALSE_MASKS,
    );
    state::print_cell(
        rt,
        cells,
        b"schedules compared with the engine ",
        state::COMPARED,
    );
    state::print_cell(
        rt,
        cells,
        b"of them cheaper than the engine ",
        state::CHEAPER,
    );
    state::print_cell(
        rt,
        cells,
        b"of them with fetch and update cycles equal to its fetch cycles ",
        state::MET,
    );
    state::print_cell(
        rt,
        cells,
        b"of them with those equal to its update and write-back cycles ",
        state::MET_UPDATES,
    );
    state::print_cell(rt, cells, b"differences ", state::DIFFERENCES);
}

// The counts of each kind by number, and last the differences.
fn print_all(rt: &impl Print, cells: &Cells) {
    state::print_kind(rt, cells, Kind::Start, b"start");
    state::print_kind(rt, cells, Kind::Run, b"run");
    print_looks(rt, cells);
    state::print_kind(rt, cells, Kind::Price, b"price");
    print_sums(rt, cells);
}

fn main(rt: HostRuntime) {
    let mut cells = state::seeded(FIRST_SEED);
    starts(&rt, &mut cells, STARTS);
    series(&rt, &mut cells, RUNS);
    prices(&rt, &mut cells, PRICES);
    print_all(&rt, &cells);
}
