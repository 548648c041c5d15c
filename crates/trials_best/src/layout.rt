// Where the model keeps its numbers in the cells, after the state of the trials: a number stands at its place.
use trials_cells::cells::{Cells, get, put};

// What is asked: the board, how many numbers the requests are, and how long each table and the schedule are that are lent.
pub const PROCESSORS: u32 = 256;

pub const LINES: u32 = 257;

pub const WORDS: u32 = 258;

pub const BLOCKS: u32 = 259;

pub const FETCH_PRICE: u32 = 260;

pub const WRITE_BACK_PRICE: u32 = 261;

pub const NUMBERS: u32 = 262;

pub const LENGTHS: u32 = 263;

pub const SCHEDULE_LENGTH: u32 = 267;

pub const ASKED: u32 = 12;

// What is lent holds a pattern that begins with this number.
pub const PATTERN: u32 = 268;

// What is seen: the refusal number, or 0, and its place; the schedule's entries, its cost, the steps used, 1 if it is called least, and the
// excess; how many numbers of the search tables changed, and how many of the list behind the schedule; how many are not those of the engine's
// actions; 1 if the schedule is legal, and what it costs.
pub const REFUSAL: u32 = 272;

pub const PLACE: u32 = 273;

pub const ENTRIES: u32 = 274;

pub const COST: u32 = 275;

pub const STEPS: u32 = 276;

pub const LEAST: u32 = 277;

pub const EXCESS: u32 = 278;

pub const CHANGED_TABLES: u32 = 279;

pub const CHANGED: u32 = 280;

pub const NOT_OWN: u32 = 281;

pub const LEGAL: u32 = 282;

pub const PLAYED_COST: u32 = 283;

// How a list is drawn.
pub const STYLE: u32 = 288;

// The case, and the least cost of its requests.
pub const CASE: u32 = 292;

pub const LEAST_COST: u32 = 293;

// The engine: how many entries its actions are, its cycles, and a counter and a mark for each processor and block.
pub const OWN_COUNT: u32 = 294;

pub const OWN_CYCLES: u32 = 295;

pub const COUNTERS: u32 = 296;

pub const MARKS: u32 = 304;

pub const ENGINE_CELLS: u32 = 18;

// For each processor and block the copies that stand in the way, as a mask.
pub const LINE_MASKS: u32 = 312;

// The requests, four numbers each, with room for more than may be asked for.
pub const REQUESTS: u32 = 320;

pub const REQUEST_WIDTH: u32 = 4;

// The engine's actions, three numbers each: at most nine for a request.
pub const OWN: u32 = 520;

pub const ENTRY_WIDTH: u32 = 3;

// The least cost of each position, with the requests so far completed, and with one more.
pub const COSTS: u32 = 2000;

pub const POSITIONS: u32 = 4096;

pub const NEXT_COSTS: u32 = COSTS + POSITIONS;

// The number at a place.
pub(crate) fn value(cells: &Cells, place: u32) -> u32 {
    get(cells, place, 0)
}

pub(crate) fn set_value(cells: &mut Cells, place: u32, x: u32) {
    put(cells, place, 0, x);
}
