// Damage to the real tables: one line changes, or the main memory of its block, or a mask. Some of it leaves sound tables
// sound.
use crate::layout::{MOST_PROCESSORS, REAL, WANTED};
use crate::lent;
use protocol_types::Setup;
use trials_cells::cells::{Cells, copy, get, less, product, put, quotient, remainder, sum};
use trials_cells::state::{draw, word};

const COUNTERS: u32 = REAL + lent::COUNTERS;

const MARKS: u32 = REAL + lent::MARKS;

const WORDS: u32 = REAL + lent::WORDS;

const MEMORY: u32 = REAL + lent::MEMORY;

const MASKS: u32 = REAL + lent::MASKS;

const WANTED_MASKS: u32 = WANTED + lent::MASKS;

// The first slot from k on that is not empty, in turn; k if all are.
pub(crate) fn held_slot(cells: &Cells, slots: u32, k: u32) -> u32 {
    (0..slots)
        .map(|t| remainder(sum(k, t), slots))
        .find(|at| get(cells, COUNTERS, *at) > 0)
        .unwrap_or(k)
}

// The block number in slot k.
pub(crate) fn block_at(cells: &Cells, k: u32) -> u32 {
    get(cells, REAL, k)
}

fn words_place(k: u32, p: u32) -> u32 {
    sum(WORDS, product(k, p))
}

// Slot `to` becomes a copy of slot `from`.
fn copy_slot(cells: &mut Cells, p: u32, from: u32, to: u32) {
    copy(cells, sum(REAL, from), sum(REAL, to), 1);
    copy(cells, sum(COUNTERS, from), sum(COUNTERS, to), 1);
    copy(cells, sum(MARKS, from), sum(MARKS, to), 1);
    copy(cells, words_place(from, p), words_place(to, p), p);
}

// The cell that changes: of slot k, or of the main memory of its block.
fn damaged_place(setup: Setup, k: u32, block: u32, how: u32, x: u32) -> u32 {
    let offset = remainder(x, setup.words);
    match how {
        0 | 1 | 2 => sum(COUNTERS, k),
        3 | 4 => sum(REAL, k),
        5 | 6 => sum(MARKS, k),
        7 => sum(words_place(k, setup.words), offset),
        _ => sum(sum(MEMORY, product(block, setup.words)), offset),
    }
}

// What that cell becomes.
fn damaged_number(setup: Setup, block: u32, mark: u32, how: u32, x: u32) -> u32 {
    match how {
        0 => sum(setup.fetch_price, 1),
        1 => 0,
        2 => remainder(x, sum(setup.fetch_price, 1)),
        3 => remainder(x, sum(setup.blocks, 2)),
        4 => sum(block, setup.lines),
        5 => less(1, mark),
        6 => sum(2, remainder(x, 2)),
        _ => x,
    }
}

fn damage_cell(cells: &mut Cells, setup: Setup, k: u32, how: u32, x: u32) {
    let block = block_at(cells, k);
    let mark = get(cells, MARKS, k);
    let number = damaged_number(setup, block, mark, how, x);
    put(cells, damaged_place(setup, k, block, how, x), 0, number);
}

// The slot that is damaged: any, once in four times, or else the first held one from it on.
fn damaged_slot(cells: &Cells, slots: u32, any: u32, seek: u32) -> u32 {
    if seek == 0 {
        any
    } else {
        held_slot(cells, slots, any)
    }
}

// Damage to one line, held or empty.
fn damage_line(cells: &mut Cells, setup: Setup) {
    let slots = lent::slots(setup);
    let any = draw(cells, slots);
    let seek = draw(cells, 4);
    let how = draw(cells, 11);
    let x = word(cells);
    let k = damaged_slot(cells, slots, any, seek);
    if seek == 0 || how < 9 {
        damage_cell(cells, setup, k, how, x);
        return;
    }
    copy_slot(cells, setup.words, k, remainder(sum(k, setup.lines), slots));
}

// The masks become true, if the damaged lines are sound: what the model makes of them.
fn mend_masks(cells: &mut Cells, setup: Setup) {
    copy(cells, REAL, WANTED, lent::CELLS);
    lent::load(cells, setup);
    lent::lay_masks(cells, setup.blocks);
    copy(cells, WANTED_MASKS, MASKS, setup.blocks);
}

// The mask of block b with bit i, of the bits of a byte, the other way.
fn flip(cells: &mut Cells, b: u32, i: u32) {
    let mask = get(cells, MASKS, b);
    put(cells, MASKS, b, mask ^ (1 << i % 8));
}

// A bit at or above N; that of processor 0 where there is none.
fn past_processors(cells: &mut Cells, n: u32) -> u32 {
    let bits = less(MOST_PROCESSORS, n);
    sum(n, draw(cells, bits))
}

// Damage to one mask: the bit of a held copy goes, the bit of any processor turns, mostly where it has no copy, a bit of no
// processor turns, or the mask becomes any byte.
fn damage_mask(cells: &mut Cells, setup: Setup) {
    let slots = lent::slots(setup);
    let any = draw(cells, slots);
    let i = draw(cells, setup.processors);
    let past = past_processors(cells, setup.processors);
    let b = draw(cells, setup.blocks);
    let x = draw(cells, 256);
    let how = draw(cells, 4);
    let k = held_slot(cells, slots, any);
    let held = remainder(block_at(cells, k), setup.blocks);
    match how {
        0 => flip(cells, held, quotient(k, setup.lines)),
        1 => flip(cells, b, i),
        2 => flip(cells, b, past),
        _ => put(cells, MASKS, b, x),
    }
}

// Once in a while the tables are damaged: a mask, or a line, after which the masks are true or as they were.
pub(crate) fn perhaps_damage(cells: &mut Cells, setup: Setup) {
    let roll = draw(cells, 12);
    match roll {
        0 => damage_mask(cells, setup),
        1 => damage_line(cells, setup),
        2 => {
            damage_line(cells, setup);
            mend_masks(cells, setup);
        }
        _ => {}
    }
}
