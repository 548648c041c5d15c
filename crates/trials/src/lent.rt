// The lent tables, each in room for the largest board and a few cells more: block numbers, counters, marks, words, main
// memory, masks, a cell for each byte, and the list of values. They stand twice in the cells; the model's are the wanted
// ones.
use crate::board;
use crate::board::{
    BLOCKS, clear, counter, current, holders, owner, owns, set_counter, set_owner, shared,
};
use crate::layout::{
    LENGTHS, MOST_BLOCKS, MOST_FETCH_PRICE, MOST_LINES, MOST_PROCESSORS, MOST_WORDS, PAIRS, REAL,
    TABLE_CELLS, WANTED,
};
use protocol_types::{Refusal, Setup};
use trials_cells::cells::{
    Cells, copy, differences, get, product, put, quotient, remainder, sum, wipe,
};

// The tables' numbers.
pub const NUMBERS_TABLE: u32 = 0;

pub const COUNTERS_TABLE: u32 = 1;

pub const MARKS_TABLE: u32 = 2;

pub const WORDS_TABLE: u32 = 3;

pub const MEMORY_TABLE: u32 = 4;

pub const MASKS_TABLE: u32 = 5;

pub const VALUES_TABLE: u32 = 6;

// How many of them the pricer, starting and a run are lent.
pub const PRICED: u32 = 3;

pub const STARTED: u32 = 6;

pub const ALL: u32 = 7;

// Where each table begins after the first, and the cells of all.
pub const COUNTERS: u32 = 520;

pub const MARKS: u32 = 1040;

pub const WORDS: u32 = 1560;

pub const MEMORY: u32 = 9760;

pub const MASKS: u32 = 13864;

pub const VALUES: u32 = 14128;

pub const MASK_CELLS: u32 = VALUES - MASKS;

pub const CELLS: u32 = TABLE_CELLS;

// Where the model's tables begin, and the real ones that a look is about.
const WANTED_COUNTERS: u32 = WANTED + COUNTERS;

const WANTED_MARKS: u32 = WANTED + MARKS;

const WANTED_WORDS: u32 = WANTED + WORDS;

const WANTED_MEMORY: u32 = WANTED + MEMORY;

const WANTED_MASKS: u32 = WANTED + MASKS;

const REAL_COUNTERS: u32 = REAL + COUNTERS;

const REAL_WORDS: u32 = REAL + WORDS;

// Where a table begins.
pub(crate) fn table_place(table: u32) -> u32 {
    match table {
        0 => 0,
        1 => COUNTERS,
        2 => MARKS,
        3 => WORDS,
        4 => MEMORY,
        5 => MASKS,
        _ => VALUES,
    }
}

// The length at which a table is lent.
pub(crate) fn length(cells: &Cells, table: u32) -> u32 {
    get(cells, LENGTHS, table)
}

pub(crate) fn slots(setup: Setup) -> u32 {
    product(setup.processors, setup.lines)
}

pub(crate) fn variables(setup: Setup) -> u32 {
    product(setup.blocks, setup.words)
}

// The length of a table that a setup, and a list of `values` requests, require.
fn right_length(setup: Setup, values: u32, table: u32) -> u32 {
    match table {
        0 | 1 | 2 => slots(setup),
        3 => product(slots(setup), setup.words),
        4 => variables(setup),
        5 => setup.blocks,
        _ => values,
    }
}

// All lengths become right.
pub(crate) fn put_lengths(cells: &mut Cells, setup: Setup, values: u32) {
    for table in 0..ALL {
        put(cells, LENGTHS, table, right_length(setup, values, table));
    }
}

fn outside(x: u32, most: u32) -> bool {
    x == 0 || x > most
}

// Whether a size of the board is out of range.
fn sizes_wrong(setup: Setup) -> bool {
    outside(setup.processors, MOST_PROCESSORS)
        || outside(setup.lines, MOST_LINES)
        || outside(setup.words, MOST_WORDS)
        || outside(setup.blocks, MOST_BLOCKS)
}

// Whether a price is out of range: a write-back may cost as much as a fetch, and no more.
fn prices_wrong(setup: Setup) -> bool {
    outside(setup.fetch_price, MOST_FETCH_PRICE)
        || outside(setup.write_back_price, setup.fetch_price)
}

// Whether a setup is refused.
pub(crate) fn check_setup(setup: Setup) -> Result<(), Refusal> {
    if sizes_wrong(setup) {
        return Err(Refusal::SetupOutOfRange);
    }
    if prices_wrong(setup) {
        return Err(Refusal::PriceOutOfRange);
    }
    Ok(())
}

pub(crate) fn length_wrong(cells: &Cells, setup: Setup, values: u32, table: u32) -> bool {
    length(cells, table) != right_length(setup, values, table)
}

// Whether one of the first n tables has another length than it should.
pub(crate) fn lengths_wrong(cells: &Cells, setup: Setup, values: u32, n: u32) -> bool {
    (0..n).any(|table| length_wrong(cells, setup, values, table))
}

// The n variables are in main memory, and current.
fn load_memory(cells: &mut Cells, n: u32) {
    copy(cells, WANTED_MEMORY, board::MEMORY, n);
    copy(cells, WANTED_MEMORY, board::CURRENT, n);
}

// How many of the n cells from `first` on are not 0.
fn filled(cells: &Cells, first: u32, n: u32) -> u32 {
    let mut count = 0;
    for k in 0..n {
        if get(cells, first, k) != 0 {
            count = sum(count, 1);
        }
    }
    count
}

// Where the words of slot k stand.
fn words_place(k: u32, p: u32) -> u32 {
    sum(WANTED_WORDS, product(k, p))
}

// How many of the p words of slot k are not those of block b in main memory.
fn unlike_memory(cells: &Cells, k: u32, b: u32, p: u32) -> u32 {
    let home = sum(WANTED_MEMORY, product(b, p));
    differences(cells, words_place(k, p), home, p)
}

// The words of slot k become the current values of block b.
fn load_words(cells: &mut Cells, k: u32, b: u32, p: u32) {
    copy(
        cells,
        words_place(k, p),
        sum(board::CURRENT, product(b, p)),
        p,
    );
}

// An empty line: how many of its cells are not 0.
fn empty_faults(cells: &Cells, k: u32, p: u32) -> u32 {
    let block = filled(cells, sum(WANTED, k), 1);
    let mark = filled(cells, sum(WANTED_MARKS, k), 1);
    let words = filled(cells, words_place(k, p), p);
    sum(sum(block, mark), words)
}

// A marked copy in slot k, of processor i: its words are the current ones. A second mark is a fault.
fn load_marked(cells: &mut Cells, k: u32, i: u32, b: u32, p: u32) -> u32 {
    if owner(cells, b).is_some() {
        return 1;
    }
    set_owner(cells, b, i);
    load_words(cells, k, b, p);
    0
}

// What slot k shows of block b, in its proper line, becomes a fact: its faults.
fn load_copy(cells: &mut Cells, setup: Setup, k: u32, b: u32) -> u32 {
    let i = quotient(k, setup.lines);
    let held = get(cells, WANTED_COUNTERS, k);
    set_counter(cells, i, b, held);
    let mark = get(cells, WANTED_MARKS, k);
    if mark == 0 {
        return unlike_memory(cells, k, b, setup.words);
    }
    if mark > 1 {
        return 1;
    }
    load_marked(cells, k, i, b, setup.words)
}

// Whether slot k, which is not empty, has a counter over f, or a block that may not stand there.
fn slot_wrong(cells: &Cells, setup: Setup, k: u32) -> bool {
    let b = get(cells, WANTED, k);
    get(cells, WANTED_COUNTERS, k) > setup.fetch_price
        || b >= setup.blocks
        || remainder(b, setup.lines) != remainder(k, setup.lines)
}

// The faults of slot k.
fn load_slot(cells: &mut Cells, setup: Setup, k: u32) -> u32 {
    if get(cells, WANTED_COUNTERS, k) == 0 {
        return empty_faults(cells, k, setup.words);
    }
    if slot_wrong(cells, setup, k) {
        return 1;
    }
    let b = get(cells, WANTED, k);
    load_copy(cells, setup, k, b)
}

fn load_slots(cells: &mut Cells, setup: Setup, n: u32) -> u32 {
    let mut faults = 0;
    for k in 0..n {
        faults = sum(faults, load_slot(cells, setup, k));
    }
    faults
}

// A marked block has counter f and one holder.
fn block_faults(cells: &Cells, fetch_price: u32, b: u32) -> u32 {
    match owner(cells, b) {
        Some(i) => u32::from(counter(cells, i, b) != fetch_price || shared(cells, i, b)),
        None => 0,
    }
}

fn all_block_faults(cells: &Cells, fetch_price: u32) -> u32 {
    let mut faults = 0;
    for b in 0..BLOCKS {
        faults = sum(faults, block_faults(cells, fetch_price, b));
    }
    faults
}

// The facts become what the tables show. How many faults the tables have: none if they are sound.
pub(crate) fn load(cells: &mut Cells, setup: Setup) -> u32 {
    clear(cells);
    load_memory(cells, variables(setup));
    let faults = load_slots(cells, setup, slots(setup));
    sum(faults, all_block_faults(cells, setup.fetch_price))
}

// How many of the n masks do not say who holds the block.
pub(crate) fn false_masks(cells: &Cells, n: u32) -> u32 {
    let mut count = 0;
    for b in 0..n {
        if get(cells, WANTED_MASKS, b) != holders(cells, b) {
            count = sum(count, 1);
        }
    }
    count
}

// The slot of block b in processor i's cache.
fn slot(setup: Setup, i: u32, b: u32) -> u32 {
    sum(product(i, setup.lines), remainder(b, setup.lines))
}

// The line of processor i's copy of block b, if it has one. A mark is 1.
fn lay_line(cells: &mut Cells, setup: Setup, i: u32, b: u32) {
    let held = counter(cells, i, b);
    if held == 0 {
        return;
    }
    let marked = u32::from(owns(cells, i, b));
    let k = slot(setup, i, b);
    put(cells, WANTED, k, b);
    put(cells, WANTED_COUNTERS, k, held);
    put(cells, WANTED_MARKS, k, marked);
}

// Block numbers, counters and marks, which were 0: for each processor and block.
pub(crate) fn lay_lines(cells: &mut Cells, setup: Setup) {
    for k in 0..PAIRS {
        lay_line(cells, setup, k / BLOCKS, k % BLOCKS);
    }
}

fn wipe_table(cells: &mut Cells, table: u32) {
    let n = length(cells, table);
    wipe(cells, sum(WANTED, table_place(table)), n);
}

// The first n tables, as long as they are lent, become 0.
pub(crate) fn wipe_tables(cells: &mut Cells, n: u32) {
    for table in 0..n {
        wipe_table(cells, table);
    }
}

// Word w of the words of all lines: 0 in an empty line.
fn word_wanted(cells: &Cells, p: u32, w: u32) -> u32 {
    let k = quotient(w, p);
    if get(cells, WANTED_COUNTERS, k) == 0 {
        return 0;
    }
    let b = get(cells, WANTED, k);
    current(cells, sum(product(b, p), remainder(w, p)))
}

fn lay_word(cells: &mut Cells, p: u32, w: u32) {
    let x = word_wanted(cells, p, w);
    put(cells, WANTED_WORDS, w, x);
}

fn lay_words(cells: &mut Cells, p: u32, n: u32) {
    for w in 0..n {
        lay_word(cells, p, w);
    }
}

fn lay_mask(cells: &mut Cells, b: u32) {
    let bits = holders(cells, b);
    put(cells, WANTED_MASKS, b, bits);
}

// The n masks become who holds each block.
pub(crate) fn lay_masks(cells: &mut Cells, n: u32) {
    for b in 0..n {
        lay_mask(cells, b);
    }
}

// The tables become what the facts say. They are lent at the right lengths.
pub(crate) fn lay_out(cells: &mut Cells, setup: Setup) {
    wipe_tables(cells, PRICED);
    lay_lines(cells, setup);
    lay_words(cells, setup.words, product(slots(setup), setup.words));
    copy(cells, board::MEMORY, WANTED_MEMORY, variables(setup));
    lay_masks(cells, setup.blocks);
}

// Starting, over lent tables, which become what they should be after it, unless it is refused.
pub(crate) fn start(cells: &mut Cells, setup: Setup) -> Result<(), Refusal> {
    check_setup(setup)?;
    if lengths_wrong(cells, setup, 0, STARTED) {
        return Err(Refusal::WrongLength);
    }
    wipe_tables(cells, STARTED);
    Ok(())
}

// Whether the tables that a look is lent, at a right setup, have other lengths. Those of marks and memory play no part.
fn look_lengths_wrong(cells: &Cells, setup: Setup) -> bool {
    lengths_wrong(cells, setup, 0, 2) || length_wrong(cells, setup, 0, WORDS_TABLE)
}

// Whether a look at block b of processor i shows it, in the real tables.
pub(crate) fn shows(cells: &Cells, setup: Setup, i: u32, b: u32) -> bool {
    if check_setup(setup).is_err() || look_lengths_wrong(cells, setup) {
        return false;
    }
    if i >= setup.processors || b >= setup.blocks {
        return false;
    }
    let k = slot(setup, i, b);
    get(cells, REAL_COUNTERS, k) != 0 && get(cells, REAL, k) == b
}

// Where the words of block b stand, in processor i's cache, in the real tables.
pub(crate) fn shown_place(setup: Setup, i: u32, b: u32) -> u32 {
    sum(REAL_WORDS, product(slot(setup, i, b), setup.words))
}
