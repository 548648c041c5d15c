// Requests: as they stand in the cells, and drawn so that blocks collide and are shared.
use crate::layout::{BLOCKS, REQUEST_WIDTH, REQUESTS, STYLE, WORDS, value};
use trials_cells::cells::{Cells, get, product, put, quotient, sum};
use trials_cells::state::{draw, word};

// The numbers of operations. Any other number reads.
const READ: u32 = 0;

const WRITE: u32 = 1;

const CLEAR: u32 = 2;

const OTHER_READ: u32 = 3;

#[derive(Clone, Copy, PartialEq, Eq)]
pub enum Operation {
    Read,
    Write,
    Clear,
}

fn operation_of(number: u32) -> Operation {
    match number {
        WRITE => Operation::Write,
        CLEAR => Operation::Clear,
        _ => Operation::Read,
    }
}

// Of 16 requests how many are by processor 1, write, clear, and are of the first block.
const SECOND: u32 = 0;

const WRITES: u32 = 1;

const CLEARS: u32 = 2;

const HOT: u32 = 3;

const OF: u32 = 16;

// A request by what matters to a schedule.
#[derive(Clone, Copy)]
pub struct Asked {
    pub processor: u32,
    pub operation: Operation,
    pub block: u32,
}

pub(crate) fn request_place(t: u32) -> u32 {
    sum(REQUESTS, product(t, REQUEST_WIDTH))
}

// Request t.
pub(crate) fn asked_at(cells: &Cells, t: u32) -> Asked {
    let first = request_place(t);
    Asked {
        processor: get(cells, first, 0),
        operation: operation_of(get(cells, first, 1)),
        block: quotient(get(cells, first, 2), value(cells, WORDS)),
    }
}

fn pick_style(cells: &mut Cells) {
    let second = draw(cells, OF + 1);
    put(cells, STYLE, SECOND, second);
    let writes = draw(cells, OF + 1);
    put(cells, STYLE, WRITES, writes);
    let clears = draw(cells, 3);
    put(cells, STYLE, CLEARS, clears);
    let hot = draw(cells, 12);
    put(cells, STYLE, HOT, hot);
}

// Whether a request is one of those that the style has so many of.
fn chosen(cells: &mut Cells, k: u32) -> bool {
    draw(cells, OF) < get(cells, STYLE, k)
}

fn pick_operation(cells: &mut Cells) -> u32 {
    if chosen(cells, CLEARS) {
        return CLEAR;
    }
    if chosen(cells, WRITES) {
        return WRITE;
    }
    if draw(cells, OF) == 0 {
        return OTHER_READ;
    }
    READ
}

// A clear names no variable: its number may be any.
fn pick_variable(cells: &mut Cells, operation: u32) -> u32 {
    if operation == CLEAR {
        return word(cells);
    }
    let offset = draw(cells, value(cells, WORDS));
    if chosen(cells, HOT) {
        return offset;
    }
    let block = draw(cells, value(cells, BLOCKS));
    sum(product(block, value(cells, WORDS)), offset)
}

fn put_request(cells: &mut Cells, t: u32) {
    let first = request_place(t);
    let second = chosen(cells, SECOND);
    let operation = pick_operation(cells);
    let variable = pick_variable(cells, operation);
    let written = word(cells);
    put(cells, first, 0, u32::from(second));
    put(cells, first, 1, operation);
    put(cells, first, 2, variable);
    put(cells, first, 3, written);
}

pub(crate) fn put_requests(cells: &mut Cells, n: u32) {
    pick_style(cells);
    for t in 0..n {
        put_request(cells, t);
    }
}

// The processor or the variable of request t becomes one that is none, just so or by far.
pub(crate) fn spoil_request(cells: &mut Cells, t: u32) {
    let first = request_place(t);
    let far = word(cells);
    match draw(cells, 4) {
        0 => put(cells, first, 0, 2),
        1 => put(cells, first, 0, far),
        2 => put(cells, first, 2, far),
        _ => put(
            cells,
            first,
            2,
            product(value(cells, BLOCKS), value(cells, WORDS)),
        ),
    }
}
