// The engine for two processors, and its actions as entries: a counter and a mark for each processor and block.
use crate::layout::{
    COUNTERS, ENGINE_CELLS, ENTRY_WIDTH, FETCH_PRICE, LINES, MARKS, OWN, OWN_COUNT, OWN_CYCLES,
    WRITE_BACK_PRICE, value,
};
use crate::requests;
use crate::requests::{Asked, Operation};
use crate::rules::{EntryKind, pair};
use trials_cells::cells::{Cells, get, less, product, put, remainder, sum, wipe};
use trials_cells::state;

fn counter(cells: &Cells, i: u32, b: u32) -> u32 {
    get(cells, COUNTERS, pair(i, b))
}

// Processor i's copy of block b gets a counter, 0 where it is none, and a mark.
fn set_copy(cells: &mut Cells, i: u32, b: u32, counter: u32, mark: u32) {
    put(cells, COUNTERS, pair(i, b), counter);
    put(cells, MARKS, pair(i, b), mark);
}

// One entry more, with what it costs the engine.
fn add_entry(cells: &mut Cells, kind: EntryKind, i: u32, b: u32, cycles: u32) {
    let first = sum(OWN, product(value(cells, OWN_COUNT), ENTRY_WIDTH));
    put(cells, first, 0, kind as u32);
    put(cells, first, 1, i);
    put(cells, first, 2, b);
    state::add(cells, OWN_COUNT, 1);
    state::add(cells, OWN_CYCLES, cycles);
}

// Block b leaves processor i's cache, if it is there.
fn leave(cells: &mut Cells, i: u32, b: u32) {
    if counter(cells, i, b) == 0 {
        return;
    }
    if get(cells, MARKS, pair(i, b)) != 0 {
        let price = value(cells, WRITE_BACK_PRICE);
        add_entry(cells, EntryKind::WriteBack, i, b, price);
    }
    add_entry(cells, EntryKind::Drop, i, b, 0);
    set_copy(cells, i, b, 0, 0);
}

// The same, if the block's line is this one.
fn leave_line(cells: &mut Cells, i: u32, line: u32, b: u32) {
    if remainder(b, value(cells, LINES)) == line {
        leave(cells, i, b);
    }
}

// Whatever stands in a line leaves.
fn empty_line(cells: &mut Cells, i: u32, line: u32) {
    for b in 0..4 {
        leave_line(cells, i, line, b);
    }
}

// All n lines, from line 0 up.
fn empty_cache(cells: &mut Cells, i: u32, n: u32) {
    for line in 0..n {
        empty_line(cells, i, line);
    }
}

// Processor i has block b, after a miss if it had not. The mark of the other processor's copy clears.
fn obtain(cells: &mut Cells, i: u32, b: u32) {
    if counter(cells, i, b) != 0 {
        return;
    }
    let price = value(cells, FETCH_PRICE);
    empty_line(cells, i, remainder(b, value(cells, LINES)));
    put(cells, MARKS, pair(less(1, i), b), 0);
    set_copy(cells, i, b, price, 0);
    add_entry(cells, EntryKind::Fetch, i, b, price);
}

// A write of block b by processor i, which is completed. The other processor, j, pays where it shares the block, and has this counter.
fn pay(cells: &mut Cells, j: u32, b: u32, shared: u32) {
    state::add(cells, OWN_CYCLES, 1);
    set_copy(cells, j, b, less(shared, 1), 0);
    if shared == 1 {
        add_entry(cells, EntryKind::Drop, j, b, 0);
    }
}

fn write(cells: &mut Cells, i: u32, b: u32) {
    let shared = counter(cells, less(1, i), b);
    let price = value(cells, FETCH_PRICE);
    if shared == 0 {
        set_copy(cells, i, b, price, 1);
        return;
    }
    set_copy(cells, i, b, price, 0);
    pay(cells, less(1, i), b, shared);
}

fn serve(cells: &mut Cells, asked: Asked) {
    let i = asked.processor;
    let b = asked.block;
    if asked.operation == Operation::Clear {
        empty_cache(cells, i, value(cells, LINES));
        add_entry(cells, EntryKind::Complete, 0, 0, 0);
        return;
    }
    obtain(cells, i, b);
    add_entry(cells, EntryKind::Complete, 0, 0, 0);
    if asked.operation == Operation::Write {
        write(cells, i, b);
    }
}

fn serve_next(cells: &mut Cells, t: u32) {
    serve(cells, requests::asked_at(cells, t));
}

// The n requests are served from fresh tables: its entries and its cycles stand in the cells.
pub(crate) fn serve_all(cells: &mut Cells, n: u32) {
    wipe(cells, OWN_COUNT, ENGINE_CELLS);
    for t in 0..n {
        serve_next(cells, t);
    }
}
