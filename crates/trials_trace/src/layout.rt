// Where a trace and the model's tables stand in the cells, and the lengths at which tables are lent.
use trials_cells::cells::{Cells, product, put, sum};

// The bytes of the trace, each in a cell of its own. There is room for 8,192, more than the longest trace has.
pub const BYTES: u32 = 256;

// The tables: block numbers, counters, marks, words and main memory, in room for the longest and a few cells more each.
#[derive(Clone, Copy, PartialEq, Eq)]
pub enum Table {
    Numbers = 0,
    Counters = 1,
    Marks = 2,
    Words = 3,
    Memory = 4,
}

pub const TABLES: u32 = 5;

pub const ROOM: usize = 264;

pub const TABLE_CELLS: u32 = ROOM as u32;

pub const NUMBERS: u32 = 8448;

pub const COUNTERS: u32 = NUMBERS + TABLE_CELLS;

pub const MARKS: u32 = COUNTERS + TABLE_CELLS;

pub const WORDS: u32 = MARKS + TABLE_CELLS;

pub const MEMORY: u32 = WORDS + TABLE_CELLS;

// The board of every trace.
pub const PROCESSORS: u32 = 4;

pub const LINES: u32 = 8;

pub const BLOCK_WORDS: u32 = 4;

pub const FETCH_PRICE: u32 = 4;

pub const WRITE_BACK_PRICE: u32 = 4;

pub const SLOTS: u32 = 32;

pub const ALL_WORDS: u32 = 128;

pub const VARIABLES: u32 = 256;

// A table that is lent at a wrong length.
#[derive(Clone, Copy)]
pub struct WrongLength {
    pub table: Table,
    pub length: u32,
}

pub(crate) fn right_length(table: Table) -> u32 {
    match table {
        Table::Numbers | Table::Counters | Table::Marks => SLOTS,
        Table::Words => ALL_WORDS,
        Table::Memory => VARIABLES,
    }
}

// The length at which a table is lent.
pub(crate) fn length(wrong: Option<WrongLength>, table: Table) -> u32 {
    match wrong {
        Some(wrong) if wrong.table == table => wrong.length,
        _ => right_length(table),
    }
}

// What the first cell of a table holds before a case.
pub(crate) fn scattered(case: u32, table: Table) -> u32 {
    sum(case, product(table as u32, TABLE_CELLS))
}

// Every cell of the tables gets a number of its own.
pub(crate) fn scatter(cells: &mut Cells, case: u32) {
    for k in 0..TABLES * TABLE_CELLS {
        put(cells, NUMBERS, k, sum(case, k));
    }
}
