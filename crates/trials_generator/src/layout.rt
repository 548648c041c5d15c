// Where lists stand in the cells, after the state of the trials: what every list holds before it is lent, the list that the
// model wants, and lists as the entry leaves them. Each has room for the longest list and more.
use trials_cells::cells::{Cells, put};
use trials_cells::state::word;

pub const ROOM: u32 = 1300;

pub const PATTERN: u32 = 256;

pub const WANTED: u32 = PATTERN + ROOM;

pub const REAL: u32 = WANTED + ROOM;

pub const OTHER: u32 = REAL + ROOM;

// The numbers of a request.
pub const WIDTH: u32 = 4;

// Every number that is lent is a drawn one, so that one that is written, or left, is seen.
pub(crate) fn put_pattern(cells: &mut Cells) {
    for k in 0..ROOM {
        let x = word(cells);
        put(cells, PATTERN, k, x);
    }
}
