// What is known of a board: for each processor and block the counter (0: no copy), for each block who has it marked,
// for each variable its current value, which all copies share, and its value in main memory. There is room for the
// largest board.
use crate::layout::{FACT_CELLS, FACTS, MOST_BLOCKS, MOST_PROCESSORS, PAIRS, VARIABLES};
use trials_cells::cells::{Cells, copy, get, product, put, remainder, sum, wipe};

// Processors and blocks of the largest board.
pub const PROCESSORS: u32 = MOST_PROCESSORS;

pub const BLOCKS: u32 = MOST_BLOCKS;

// Where the owners, the current values and main memory begin, after the counters.
const OWNERS: u32 = FACTS + PAIRS;

pub const CURRENT: u32 = OWNERS + MOST_BLOCKS;

pub const MEMORY: u32 = CURRENT + VARIABLES;

// Nothing is known yet: no copies, no marks, every variable 0.
pub(crate) fn clear(cells: &mut Cells) {
    wipe(cells, FACTS, FACT_CELLS);
}

fn pair(i: u32, b: u32) -> u32 {
    sum(product(i, BLOCKS), b)
}

// Processor i's counter for block b.
pub(crate) fn counter(cells: &Cells, i: u32, b: u32) -> u32 {
    get(cells, FACTS, pair(i, b))
}

pub(crate) fn set_counter(cells: &mut Cells, i: u32, b: u32, x: u32) {
    put(cells, FACTS, pair(i, b), x);
}

// The processor that has block b marked, if one has. In the cells it is one more, and 0 if none has.
pub(crate) fn owner(cells: &Cells, b: u32) -> Option<u32> {
    get(cells, OWNERS, b).checked_sub(1)
}

pub(crate) fn set_owner(cells: &mut Cells, b: u32, i: u32) {
    put(cells, OWNERS, b, sum(i, 1));
}

pub(crate) fn clear_owner(cells: &mut Cells, b: u32) {
    put(cells, OWNERS, b, 0);
}

// Whether processor i has block b marked.
pub(crate) fn owns(cells: &Cells, i: u32, b: u32) -> bool {
    owner(cells, b) == Some(i)
}

// The value of variable v in every copy of its block.
pub(crate) fn current(cells: &Cells, v: u32) -> u32 {
    get(cells, CURRENT, v)
}

pub(crate) fn set_current(cells: &mut Cells, v: u32, x: u32) {
    put(cells, CURRENT, v, x);
}

// Main memory has x at variable v.
pub(crate) fn set_stored(cells: &mut Cells, v: u32, x: u32) {
    put(cells, MEMORY, v, x);
}

// Main memory takes the p words of block b, whose mark clears.
pub(crate) fn save(cells: &mut Cells, p: u32, b: u32) {
    let v = product(b, p);
    copy(cells, sum(CURRENT, v), sum(MEMORY, v), p);
    clear_owner(cells, b);
}

// Whether a processor other than i has a copy of block b.
pub(crate) fn shared(cells: &Cells, i: u32, b: u32) -> bool {
    (0..PROCESSORS).any(|j| j != i && counter(cells, j, b) > 0)
}

// The processors with a copy of block b, bit i for processor i. From the top, each doubles what is there.
pub(crate) fn holders(cells: &Cells, b: u32) -> u32 {
    let mut bits = 0;
    for i in (0..PROCESSORS).rev() {
        bits = sum(product(bits, 2), u32::from(counter(cells, i, b) > 0));
    }
    bits
}

// The smaller of two counters, of which 0 is none.
fn smaller(a: u32, c: u32) -> u32 {
    if a == 0 || 0 < c && c < a { c } else { a }
}

// The smallest counter of a copy of block b that a processor other than i has; 0 if no other has one.
fn smallest_counter(cells: &Cells, i: u32, b: u32) -> u32 {
    let mut smallest = 0;
    for j in 0..PROCESSORS {
        if j != i {
            smallest = smaller(smallest, counter(cells, j, b));
        }
    }
    smallest
}

// Who pays for a write to block b by processor i, if another has a copy. The smallest counter is sought first, and then
// who has it.
pub(crate) fn payer(cells: &Cells, i: u32, b: u32) -> Option<u32> {
    let smallest = smallest_counter(cells, i, b);
    if smallest == 0 {
        return None;
    }
    (0..PROCESSORS).find(|j| *j != i && counter(cells, *j, b) == smallest)
}

// Whether processor i has block a, and a may stand only where b may, of `lines` lines.
fn collides(cells: &Cells, lines: u32, i: u32, a: u32, b: u32) -> bool {
    counter(cells, i, a) != 0 && remainder(a, lines) == remainder(b, lines)
}

// The block of processor i that stands where block b may.
pub(crate) fn in_the_way(cells: &Cells, lines: u32, i: u32, b: u32) -> Option<u32> {
    (0..BLOCKS).find(|a| collides(cells, lines, i, *a, b))
}

// The first block that processor i has, unless its cache is empty. In a single line any block is in the way.
pub(crate) fn first_held(cells: &Cells, i: u32) -> Option<u32> {
    in_the_way(cells, 1, i, 0)
}
