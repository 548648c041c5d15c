// The entries that are lent records, `run`, `price` and `generate`, beside the entries over plain numbers on the same lists:
// each answer, the account, the values, every table, the masks and every generated request are compared.
#![tactic(auto)]

mod board;
mod generated;
mod lists;
mod numbers;
mod prices;
mod runs;
mod sides;

use crate::runs::Series;
use trials_cells::cells::Cells;
use trials_cells::state;
use trials_cells::state::Kind;

const FIRST_SEED: u32 = 20261116;

const RUNS: u32 = 4000;

const PRICES: u32 = 4000;

const GENERATED: u32 = 4000;

// The runs go on over the tables and the account that the last one left.
fn all_runs(rt: &impl Print, cells: &mut Cells, n: u32) {
    let mut at = Series {
        tables: board::fresh_tables(),
        account: board::account_of(0),
    };
    for k in 0..n {
        at = runs::run_case(rt, cells, k, at);
    }
}

fn all_prices(rt: &impl Print, cells: &mut Cells, n: u32) {
    for k in 0..n {
        prices::price_case(rt, cells, k);
    }
}

fn all_generated(rt: &impl Print, cells: &mut Cells, n: u32) {
    for k in 0..n {
        generated::generate_case(rt, cells, k);
    }
}

fn print_all(rt: &impl Print, cells: &Cells) {
    state::print_kind(rt, cells, Kind::Run, b"run");
    state::print_kind(rt, cells, Kind::Price, b"price");
    state::print_kind(rt, cells, Kind::Generate, b"generate");
    state::print_cell(rt, cells, b"requests taken in runs ", state::REQUESTS);
    state::print_cell(rt, cells, b"cycles of legal schedules ", state::CYCLES);
    state::print_cell(rt, cells, b"differences ", state::DIFFERENCES);
}

fn main(rt: HostRuntime) {
    let mut cells = state::seeded(FIRST_SEED);
    all_runs(&rt, &mut cells, RUNS);
    all_prices(&rt, &mut cells, PRICES);
    all_generated(&rt, &mut cells, GENERATED);
    print_all(&rt, &cells);
}
