// Lists of requests, four numbers each, and lengths of lists that are not whole.
use crate::layout::REQUESTS;
use protocol_types::Setup;
use trials_cells::cells::{Cells, get, less, product, put, remainder, sum};
use trials_cells::state::{between, draw, word};

// A list has fewer requests than this, of so many numbers each.
pub const LISTS: u32 = 61;

pub const REQUEST_WIDTH: u32 = 4;

// Whether a list of so many numbers ends within a record of `width` numbers.
pub(crate) fn partial(numbers: u32, width: u32) -> bool {
    remainder(numbers, width) != 0
}

// So many numbers, or once in `every` times up to three more or fewer.
pub(crate) fn perhaps_partial(cells: &mut Cells, numbers: u32, every: u32) -> u32 {
    let roll = draw(cells, every);
    let off = between(cells, 1, 3);
    let more = draw(cells, 2) == 0;
    if roll != 0 {
        return numbers;
    }
    if more || numbers < off {
        return sum(numbers, off);
    }
    less(numbers, off)
}

// How many numbers n requests have.
pub(crate) fn numbers_of(n: u32) -> u32 {
    product(n, REQUEST_WIDTH)
}

// The numbers of operations. Any other number reads.
const WRITE: u32 = 1;

const CLEAR: u32 = 2;

#[derive(Clone, Copy, PartialEq, Eq)]
pub enum Operation {
    Read,
    Write,
    Clear,
}

fn operation_of(number: u32) -> Operation {
    match number {
        WRITE => Operation::Write,
        CLEAR => Operation::Clear,
        _ => Operation::Read,
    }
}

// A request. A read has no use for the value, and a clear none for the variable either.
#[derive(Clone, Copy)]
pub struct Request {
    pub processor: u32,
    pub operation: Operation,
    pub variable: u32,
    pub value: u32,
}

fn request_place(t: u32) -> u32 {
    sum(REQUESTS, product(t, REQUEST_WIDTH))
}

// Request t of the list.
pub(crate) fn request_at(cells: &Cells, t: u32) -> Request {
    let first = request_place(t);
    Request {
        processor: get(cells, first, 0),
        operation: operation_of(get(cells, first, 1)),
        variable: get(cells, first, 2),
        value: get(cells, first, 3),
    }
}

// The first variable of a block that shares a line with block 0: block number `turn` of these, in turn.
fn sharing(setup: Setup, turn: u32) -> u32 {
    product(
        remainder(product(setup.lines, turn), setup.blocks),
        setup.words,
    )
}

// A variable: anywhere, in the first blocks, in blocks that share a line, or in the last block.
fn pick_variable(cells: &mut Cells, setup: Setup) -> u32 {
    let p = setup.words;
    let all = product(setup.blocks, p);
    let shape = draw(cells, 4);
    let any = draw(cells, all);
    let near = draw(cells, product(p, 2));
    let offset = draw(cells, p);
    let turn = draw(cells, 4);
    match shape {
        0 => any,
        1 => remainder(near, all),
        2 => sum(sharing(setup, turn), offset),
        _ => less(all, sum(offset, 1)),
    }
}

// x, or once in `wild` times a number that is not below `bound`; never if `wild` is 0.
fn perhaps_over(cells: &mut Cells, x: u32, bound: u32, wild: u32) -> u32 {
    let roll = draw(cells, wild);
    let past = draw(cells, 4);
    if wild == 0 || roll != 0 {
        return x;
    }
    if past == 3 {
        return u32::MAX;
    }
    sum(bound, past)
}

// Half of the requests write, and one in 16 clears: seldom enough that caches fill in between. Of the others some read by
// a number that is not 0.
fn pick_operation(cells: &mut Cells) -> u32 {
    match draw(cells, 16) {
        0 => CLEAR,
        1 => 3,
        2 => u32::MAX,
        3..=7 => 0,
        _ => WRITE,
    }
}

// Once in how many times a request's variable is out of range. A clear's, which plays no part, is so every second time.
fn wild_variable(operation: u32, wild: u32) -> u32 {
    if operation == CLEAR { 2 } else { wild }
}

fn put_request(cells: &mut Cells, t: u32, processor: u32, operation: u32, variable: u32, x: u32) {
    let first = request_place(t);
    put(cells, first, 0, processor);
    put(cells, first, 1, operation);
    put(cells, first, 2, variable);
    put(cells, first, 3, x);
}

fn pick_request(cells: &mut Cells, setup: Setup, t: u32, wild: u32) {
    let i = draw(cells, setup.processors);
    let v = pick_variable(cells, setup);
    let operation = pick_operation(cells);
    let x = word(cells);
    let processor = perhaps_over(cells, i, setup.processors, wild);
    let variable = perhaps_over(
        cells,
        v,
        product(setup.blocks, setup.words),
        wild_variable(operation, wild),
    );
    put_request(cells, t, processor, operation, variable, x);
}

// n requests. Each number of one that plays a part is out of range once in `wild` times.
pub(crate) fn pick_requests(cells: &mut Cells, setup: Setup, n: u32, wild: u32) {
    for t in 0..n {
        pick_request(cells, setup, t, wild);
    }
}

// Whether request t is a read by processor 1, once in f + 1 times after the first two.
fn reads_again(fetch_price: u32, t: u32) -> bool {
    remainder(less(t, 2), sum(fetch_price, 1)) == fetch_price
}

// Variable 0 is read by 0 and by 1, and then written f times by 0 and read by 1, over and over: a rival that keeps both
// copies pays about half of what the engine does.
fn shared_request(cells: &mut Cells, fetch_price: u32, t: u32) {
    let x = word(cells);
    if t < 2 {
        put_request(cells, t, t, 0, 0, x);
        return;
    }
    let again = reads_again(fetch_price, t);
    put_request(cells, t, u32::from(again), u32::from(!again), 0, x);
}

// Variable 0 is written by 0, whose cache is then cleared, over and over: the engine pays f + g each time, and a rival that
// broadcasts f + 1.
fn flushed_request(cells: &mut Cells, t: u32) {
    let x = word(cells);
    let operation = if remainder(t, 2) == 1 { CLEAR } else { WRITE };
    put_request(cells, t, 0, operation, 0, x);
}

fn tight_request(cells: &mut Cells, fetch_price: u32, t: u32, clears: bool) {
    if clears {
        flushed_request(cells, t);
    } else {
        shared_request(cells, fetch_price, t);
    }
}

// A list for which a rival may pay about half of what the engine does, with clears or without.
pub(crate) fn tight_requests(cells: &mut Cells, fetch_price: u32, n: u32, clears: bool) {
    for t in 0..n {
        tight_request(cells, fetch_price, t, clears);
    }
}
