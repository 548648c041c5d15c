// Random and chosen setups, seeds and lists through the generator over numbers, beside the model. Each answer and each
// number of each lent list is compared, and each number after it.
#![tactic(auto)]

mod entry;
mod layout;
mod model;
mod setups;
mod shown;

use crate::layout::{OTHER, REAL, ROOM, WANTED, WIDTH};
use protocol_types::{Refusal, Setup, refusal_number};
use trials_cells::cells::{Cells, differences, product, quotient, remainder, sum};
use trials_cells::state;
use trials_cells::state::{Difference, Kind, between, draw};

const FIRST_SEED: u32 = 20261117;

// The cell of the state that counts the lists of boards with other blocks.
const OTHER_BLOCKS: u32 = 7;

const LISTS: u32 = 8000;

// The lists of even cases have every length in numbers below this, in turn; the others are whole, of fewer requests than
// `REQUESTS`.
const LENGTHS: u32 = 400;

const REQUESTS: u32 = 300;

// What a list differed in, of whose numbers `unlike` are not those that are wanted.
fn difference(
    expected: Result<(), Refusal>,
    answer: Option<Result<(), Refusal>>,
    unlike: u32,
) -> Option<Difference> {
    if answer != Some(expected) {
        return Some(Difference::Refusal);
    }
    if unlike > 0 {
        return Some(Difference::Buffers);
    }
    None
}

// The list of another setup or of another length: the first `most` cells are those of the list.
fn compare_other(
    rt: &impl Print,
    cells: &mut Cells,
    case: u32,
    setup: Setup,
    seed: u32,
    n: u32,
    most: u32,
) {
    let answer = entry::generate(cells, setup, seed, n, OTHER);
    let unlike = differences(cells, REAL, OTHER, most);
    let what = difference(Ok(()), answer, unlike);
    state::judge(rt, cells, Kind::Generate, case, what);
    state::add(cells, state::COMPARED, 1);
}

// A longer list begins with the list. The lines, the prices and the words of a block change nothing where there are as many
// processors and variables.
fn compare_others(rt: &impl Print, cells: &mut Cells, case: u32, setup: Setup, seed: u32, n: u32) {
    let more = product(between(cells, 1, 20), WIDTH);
    compare_other(rt, cells, case, setup, seed, sum(n, more), n);
    let other = setups::pick_like(cells, setup);
    compare_other(rt, cells, case, other, seed, n, ROOM);
    if other.words != setup.words {
        state::add(cells, OTHER_BLOCKS, 1);
    }
}

// A list, by the model and by the entry.
fn list_case(rt: &impl Print, cells: &mut Cells, case: u32) {
    state::begin(cells);
    let setup = setups::pick_setup(cells);
    let seed = setups::pick_seed(cells);
    let whole = product(draw(cells, REQUESTS), WIDTH);
    let n = if case % 2 == 0 {
        remainder(quotient(case, 2), LENGTHS)
    } else {
        whole
    };
    let expected = model::generate(cells, setup, seed, n);
    let answer = entry::generate(cells, setup, seed, n, REAL);
    let unlike = differences(cells, WANTED, REAL, ROOM);
    let what = difference(expected, answer, unlike);
    let number = refusal_number(expected);
    state::record(rt, cells, Kind::Generate, case, number, what);
    if expected.is_ok() {
        state::add(cells, state::REQUESTS, quotient(n, WIDTH));
        compare_others(rt, cells, case, setup, seed, n);
    }
}

fn lists(rt: &impl Print, cells: &mut Cells, n: u32) {
    for k in 0..n {
        list_case(rt, cells, k);
    }
}

fn print_all(rt: &impl Print, cells: &Cells) {
    state::print_kind(rt, cells, Kind::Generate, b"list");
    state::print_cell(rt, cells, b"requests compared ", state::REQUESTS);
    state::print_cell(
        rt,
        cells,
        b"longer lists and other boards ",
        state::COMPARED,
    );
    state::print_cell(rt, cells, b"of them with other blocks ", OTHER_BLOCKS);
    state::print_cell(rt, cells, b"differences ", state::DIFFERENCES);
}

fn main(rt: HostRuntime) {
    let mut cells = state::seeded(FIRST_SEED);
    layout::put_pattern(&mut cells);
    lists(&rt, &mut cells, LISTS);
    shown::print_requests(&rt, &mut cells);
    print_all(&rt, &cells);
}
