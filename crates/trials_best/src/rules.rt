// A rival's position and the entries that are legal there. A position is a mask of 12 bits: four for the copies of processor 0, four for those
// of processor 1, four for the marks. A marked block has one holder, so that its mark needs no processor.
use crate::layout::{BLOCKS, FETCH_PRICE, LINE_MASKS, LINES, WRITE_BACK_PRICE, value};
use crate::requests::{Asked, Operation};
use trials_cells::cells::{Cells, get, less, product, put, remainder, sum, wipe};

// The kinds of entries, by number.
#[derive(Clone, Copy, PartialEq, Eq)]
pub enum EntryKind {
    Fetch = 0,
    WriteBack = 1,
    Drop = 2,
    Complete = 3,
    Broadcast = 4,
}

pub(crate) fn kind_of(number: u32) -> Option<EntryKind> {
    match number {
        0 => Some(EntryKind::Fetch),
        1 => Some(EntryKind::WriteBack),
        2 => Some(EntryKind::Drop),
        3 => Some(EntryKind::Complete),
        4 => Some(EntryKind::Broadcast),
        _ => None,
    }
}

// The pairs of a processor and a block.
const PAIRS: u32 = 8;

// What a legal entry leads to.
#[derive(Clone, Copy)]
pub struct Step {
    pub cost: u32,
    pub next: u32,
}

// The bit of processor 0's copy of block b.
fn first_copy(b: u32) -> u32 {
    match b {
        0 => 1,
        1 => 2,
        2 => 4,
        3 => 8,
        _ => 0,
    }
}

fn copy(i: u32, b: u32) -> u32 {
    if i == 0 {
        return first_copy(b);
    }
    product(first_copy(b), 16)
}

fn mark(b: u32) -> u32 {
    product(first_copy(b), 256)
}

// The place of a processor and a block.
pub(crate) fn pair(i: u32, b: u32) -> u32 {
    i % 2 * 4 + b % 4
}

// Block c stands in the way of block b, where both go to one line.
fn put_line_mate(cells: &mut Cells, b: u32, c: u32) {
    let lines = value(cells, LINES);
    if remainder(b, lines) != remainder(c, lines) {
        return;
    }
    let first = get(cells, LINE_MASKS, pair(0, b));
    put(cells, LINE_MASKS, pair(0, b), sum(first, copy(0, c)));
    let second = get(cells, LINE_MASKS, pair(1, b));
    put(cells, LINE_MASKS, pair(1, b), sum(second, copy(1, c)));
}

pub(crate) fn put_lines(cells: &mut Cells) {
    wipe(cells, LINE_MASKS, PAIRS);
    for b in 0..4 {
        for c in 0..4 {
            put_line_mate(cells, b, c);
        }
    }
}

fn taken(cost: u32, next: u32) -> Option<Step> {
    Some(Step { cost, next })
}

// The position u without a bit.
fn without(u: u32, bit: u32) -> u32 {
    less(u, u & bit)
}

// The other copy of the block loses its mark.
fn fetch(cells: &Cells, u: u32, i: u32, b: u32) -> Option<Step> {
    if u & get(cells, LINE_MASKS, pair(i, b)) != 0 {
        return None;
    }
    taken(value(cells, FETCH_PRICE), without(u, mark(b)) | copy(i, b))
}

fn write_back(cells: &Cells, u: u32, i: u32, b: u32) -> Option<Step> {
    if u & copy(i, b) == 0 {
        return None;
    }
    taken(value(cells, WRITE_BACK_PRICE), without(u, mark(b)))
}

fn drop_copy(u: u32, i: u32, b: u32) -> Option<Step> {
    if u & copy(i, b) == 0 || u & mark(b) != 0 {
        return None;
    }
    taken(0, without(u, copy(i, b)))
}

// A fetch, a write-back or a drop.
pub(crate) fn change(cells: &Cells, u: u32, kind: EntryKind, i: u32, b: u32) -> Option<Step> {
    if i > 1 || b >= value(cells, BLOCKS) {
        return None;
    }
    match kind {
        EntryKind::Fetch => fetch(cells, u, i, b),
        EntryKind::WriteBack => write_back(cells, u, i, b),
        EntryKind::Drop => drop_copy(u, i, b),
        EntryKind::Complete | EntryKind::Broadcast => None,
    }
}

// A clear is completed where processor i has no copy.
fn complete_clear(u: u32, i: u32) -> Option<Step> {
    let cache = if i == 0 { 15 } else { 240 };
    if u & cache != 0 {
        return None;
    }
    taken(0, u)
}

// A write by a processor that holds block b is completed, j being the other one.
fn complete_write(u: u32, j: u32, b: u32, broadcast: bool) -> Option<Step> {
    if broadcast || u & copy(j, b) != 0 {
        return taken(1, u);
    }
    taken(0, u | mark(b))
}

// The completion of a read or a write.
fn complete_named(u: u32, asked: Asked, broadcast: bool) -> Option<Step> {
    let i = asked.processor;
    let b = asked.block;
    if u & copy(i, b) == 0 {
        return None;
    }
    if asked.operation == Operation::Write {
        return complete_write(u, less(1, i), b, broadcast);
    }
    taken(0, u)
}

// The completion of a request. Only a write may be broadcast.
pub(crate) fn complete(u: u32, asked: Asked, broadcast: bool) -> Option<Step> {
    if broadcast && asked.operation != Operation::Write {
        return None;
    }
    if asked.operation == Operation::Clear {
        return complete_clear(u, asked.processor);
    }
    complete_named(u, asked, broadcast)
}
