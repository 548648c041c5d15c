// Where each part begins in the cells, after the state of the trials. The lengths are those at which tables are lent; entries
// and requests are a schedule's and a run's; the facts are the model's (module board). The tables (module lent) stand
// twice: as the model wants them, and as the entries leave them.
pub const LENGTHS: u32 = 256;

pub const ENTRIES: u32 = LENGTHS + 16;

pub const REQUESTS: u32 = ENTRIES + 1200;

pub const FACTS: u32 = REQUESTS + 260;

pub const WANTED: u32 = FACTS + FACT_CELLS;

pub const REAL: u32 = WANTED + TABLE_CELLS;

// The numbers of the largest board, and the most requests of an account.
pub const MOST_PROCESSORS: u32 = 8;

pub const MOST_LINES: u32 = 64;

pub const MOST_WORDS: u32 = 16;

pub const MOST_BLOCKS: u32 = 256;

pub const MOST_FETCH_PRICE: u32 = 32;

pub const MOST_REQUESTS: u32 = 1000000;

// Each processor with each block, and each variable, of the largest board.
pub const PAIRS: u32 = MOST_PROCESSORS * MOST_BLOCKS;

pub const VARIABLES: u32 = MOST_BLOCKS * MOST_WORDS;

// The cells of the facts, and of the tables.
pub const FACT_CELLS: u32 = PAIRS + MOST_BLOCKS + VARIABLES + VARIABLES;

pub const TABLE_CELLS: u32 = 14192;
