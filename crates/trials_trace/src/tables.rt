// The model: what one request does to the tables of a trace, line by line. A line holds a block where its counter is not 0.
use crate::layout::{
    ALL_WORDS, BLOCK_WORDS, COUNTERS, FETCH_PRICE, LINES, MARKS, MEMORY, NUMBERS, PROCESSORS,
    SLOTS, VARIABLES, WORDS, WRITE_BACK_PRICE,
};
use trials_cells::cells::{Cells, copy, get, less, product, put, quotient, remainder, sum, wipe};

// The cycles of a request.
#[derive(Clone, Copy)]
pub struct Cycles {
    pub fetch: u32,
    pub write_back: u32,
    pub update: u32,
}

const NO_CYCLES: Cycles = Cycles {
    fetch: 0,
    write_back: 0,
    update: 0,
};

// The tables of a fresh board.
pub(crate) fn start(cells: &mut Cells) {
    wipe(cells, NUMBERS, SLOTS);
    wipe(cells, COUNTERS, SLOTS);
    wipe(cells, MARKS, SLOTS);
    wipe(cells, WORDS, ALL_WORDS);
    wipe(cells, MEMORY, VARIABLES);
}

// The line of processor i in which block b may stand.
fn slot(i: u32, b: u32) -> u32 {
    sum(product(i, LINES), remainder(b, LINES))
}

// Where the words of a line begin.
fn line_words(k: u32) -> u32 {
    sum(WORDS, product(k, BLOCK_WORDS))
}

// Where the words of a block begin in main memory.
fn home(b: u32) -> u32 {
    sum(MEMORY, product(b, BLOCK_WORDS))
}

fn holds(cells: &Cells, i: u32, b: u32) -> bool {
    let k = slot(i, b);
    get(cells, COUNTERS, k) != 0 && get(cells, NUMBERS, k) == b
}

// The counter of processor j's copy of block b; 0 if it has none, or is processor i.
fn other_counter(cells: &Cells, i: u32, j: u32, b: u32) -> u32 {
    if j != i && holds(cells, j, b) {
        return get(cells, COUNTERS, slot(j, b));
    }
    0
}

// The processor other than i that holds block b with the smallest counter, the lowest among equals. It is sought from the
// top, and no counter is over FETCH_PRICE.
fn payer(cells: &Cells, i: u32, b: u32) -> Option<u32> {
    let mut found = None;
    let mut smallest = FETCH_PRICE;
    for j in (0..PROCESSORS).rev() {
        let c = other_counter(cells, i, j, b);
        if c > 0 && c <= smallest {
            found = Some(j);
            smallest = c;
        }
    }
    found
}

// A marked line gives its words to main memory: the cycles of it.
fn write_back(cells: &mut Cells, k: u32) -> u32 {
    if get(cells, MARKS, k) == 0 {
        return 0;
    }
    let b = get(cells, NUMBERS, k);
    copy(cells, line_words(k), home(b), BLOCK_WORDS);
    put(cells, MARKS, k, 0);
    WRITE_BACK_PRICE
}

fn empty_line(cells: &mut Cells, k: u32) {
    put(cells, NUMBERS, k, 0);
    put(cells, COUNTERS, k, 0);
    wipe(cells, line_words(k), BLOCK_WORDS);
}

// Line k is written back if it is marked, and emptied: the cycles of it.
fn vacate(cells: &mut Cells, k: u32) -> u32 {
    let written = write_back(cells, k);
    empty_line(cells, k);
    written
}

// The same for each line of processor i.
fn vacate_all(cells: &mut Cells, i: u32) -> u32 {
    let first = product(i, LINES);
    let mut written = 0;
    for k in 0..LINES {
        written = sum(written, vacate(cells, sum(first, k)));
    }
    written
}

// Processor i's cache is cleared.
pub(crate) fn clear(cells: &mut Cells, i: u32) -> Cycles {
    Cycles {
        write_back: vacate_all(cells, i),
        ..NO_CYCLES
    }
}

// Whoever holds block b writes it back if it is marked. The bus carries the words to the reader too, so this costs nothing.
fn release(cells: &mut Cells, b: u32) {
    for j in 0..PROCESSORS {
        release_line(cells, j, b);
    }
}

fn release_line(cells: &mut Cells, j: u32, b: u32) {
    if holds(cells, j, b) {
        write_back(cells, slot(j, b));
    }
}

// Block b comes from main memory into line k.
fn fill_line(cells: &mut Cells, k: u32, b: u32) {
    release(cells, b);
    put(cells, NUMBERS, k, b);
    put(cells, COUNTERS, k, FETCH_PRICE);
    copy(cells, home(b), line_words(k), BLOCK_WORDS);
}

// Processor i gets block b, if it does not hold it.
fn obtain(cells: &mut Cells, i: u32, b: u32) -> Cycles {
    if holds(cells, i, b) {
        return NO_CYCLES;
    }
    let k = slot(i, b);
    let write_back = vacate(cells, k);
    fill_line(cells, k, b);
    Cycles {
        fetch: FETCH_PRICE,
        write_back,
        update: 0,
    }
}

// The word of variable v in processor j's line becomes x, if it holds the block.
fn update_line(cells: &mut Cells, j: u32, v: u32, x: u32) {
    let b = quotient(v, BLOCK_WORDS);
    if holds(cells, j, b) {
        put(cells, line_words(slot(j, b)), remainder(v, BLOCK_WORDS), x);
    }
}

fn update_lines(cells: &mut Cells, v: u32, x: u32) {
    for j in 0..PROCESSORS {
        update_line(cells, j, v, x);
    }
}

// The holder of line k pays for an update: at 0 its line is emptied.
fn pay(cells: &mut Cells, k: u32) {
    let left = less(get(cells, COUNTERS, k), 1);
    put(cells, COUNTERS, k, left);
    if left == 0 {
        empty_line(cells, k);
    }
}

// Processor i, which holds the block of variable v, writes x to it: the update cycles.
fn write(cells: &mut Cells, i: u32, v: u32, x: u32) -> u32 {
    let b = quotient(v, BLOCK_WORDS);
    let k = slot(i, b);
    let paying = payer(cells, i, b);
    put(cells, COUNTERS, k, FETCH_PRICE);
    update_lines(cells, v, x);
    let Some(j) = paying else {
        put(cells, MARKS, k, 1);
        return 0;
    };
    put(cells, MEMORY, v, x);
    pay(cells, slot(j, b));
    1
}

// Serves a read or a write, which nothing refuses.
pub(crate) fn serve(cells: &mut Cells, i: u32, writes: bool, v: u32, x: u32) -> Cycles {
    let moved = obtain(cells, i, quotient(v, BLOCK_WORDS));
    if !writes {
        return moved;
    }
    Cycles {
        update: write(cells, i, v, x),
        ..moved
    }
}
