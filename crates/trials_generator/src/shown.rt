// The first requests of the known seed on the board of a trace, for a reader: the three draws of each, by the model, and the
// request, by the entry.
use crate::layout::{OTHER, WANTED, WIDTH};
use crate::setups::KNOWN_SEED;
use crate::{entry, model};
use protocol_types::Setup;
use trials_cells::cells::{Cells, product, put, sum};
use trials_cells::state;

const REQUESTS: u32 = 4;

// The draw after x.
fn print_draw(rt: &impl Print, cells: &mut Cells, x: u32) -> u32 {
    let next = model::draw_after(x);
    put(cells, WANTED, 0, next);
    state::print_cell(rt, cells, b"draw ", WANTED);
    next
}

// The request whose numbers begin at `first`.
fn print_request(rt: &impl Print, cells: &Cells, first: u32) {
    state::print_cell(rt, cells, b"processor ", first);
    state::print_cell(rt, cells, b"  writes ", sum(first, 1));
    state::print_cell(rt, cells, b"  variable ", sum(first, 2));
    state::print_cell(rt, cells, b"  value ", sum(first, 3));
}

pub(crate) fn print_requests(rt: &impl Print, cells: &mut Cells) {
    let board = Setup {
        processors: 4,
        lines: 8,
        words: 4,
        blocks: 64,
        fetch_price: 4,
        write_back_price: 4,
    };
    entry::generate(cells, board, KNOWN_SEED, product(REQUESTS, WIDTH), OTHER);
    let mut x = KNOWN_SEED;
    for t in 0..REQUESTS {
        x = print_draw(rt, cells, x);
        x = print_draw(rt, cells, x);
        x = print_draw(rt, cells, x);
        print_request(rt, cells, sum(OTHER, product(t, WIDTH)));
    }
}
