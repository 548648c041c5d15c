// The board of these trials, and what is lent on it, by value: the tables of an engine with the masks and the list of
// values, and the copies of a rival.
use protocol_types::{Account, Setup};
use trials_lending::REQUESTS;

pub const PROCESSORS: u32 = 3;

const LINES: u32 = 2;

const WORDS: u32 = 2;

pub const BLOCKS: u32 = 5;

const FETCH_PRICE: u32 = 3;

const WRITE_BACK_PRICE: u32 = 1;

pub const VARIABLES: u32 = BLOCKS * WORDS;

pub const SLOTS: usize = (PROCESSORS * LINES) as usize;

const ALL_WORDS: usize = (PROCESSORS * LINES * WORDS) as usize;

const ALL_VARIABLES: usize = VARIABLES as usize;

const ALL_BLOCKS: usize = BLOCKS as usize;

#[derive(Clone, Copy, PartialEq, Eq)]
pub struct Tables {
    pub blocks: [u32; SLOTS],
    pub counters: [u32; SLOTS],
    pub marks: [u32; SLOTS],
    pub words: [u32; ALL_WORDS],
    pub memory: [u32; ALL_VARIABLES],
    pub masks: [u8; ALL_BLOCKS],
    pub values: [u32; REQUESTS],
}

#[derive(Clone, Copy, PartialEq, Eq)]
pub struct Copies {
    pub blocks: [u32; SLOTS],
    pub held: [u32; SLOTS],
    pub marks: [u32; SLOTS],
}

pub(crate) fn setup() -> Setup {
    Setup {
        processors: PROCESSORS,
        lines: LINES,
        words: WORDS,
        blocks: BLOCKS,
        fetch_price: FETCH_PRICE,
        write_back_price: WRITE_BACK_PRICE,
    }
}

// Empty caches over a memory that is not all 0.
pub(crate) fn fresh_tables() -> Tables {
    Tables {
        blocks: [0; SLOTS],
        counters: [0; SLOTS],
        marks: [0; SLOTS],
        words: [0; ALL_WORDS],
        memory: [100, 101, 102, 103, 104, 105, 106, 107, 108, 109],
        masks: [0; ALL_BLOCKS],
        values: [0; REQUESTS],
    }
}

// Copies that a price has to clear.
pub(crate) fn worn_copies() -> Copies {
    Copies {
        blocks: [4; SLOTS],
        held: [1; SLOTS],
        marks: [1; SLOTS],
    }
}

pub(crate) fn account_of(requests: u32) -> Account {
    Account {
        requests,
        fetch: 0,
        write_back: 0,
        update: 0,
    }
}
