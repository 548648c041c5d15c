// The entry, lent a part of the cells.
use crate::layout::{PATTERN, ROOM};
use protocol_types::{Refusal, Setup};
use trials_cells::cells::{Cells, copy, sum};

// The entry over the n numbers from `first` on; None where the cells end before them.
fn generate_part(
    cells: &mut [u32],
    setup: Setup,
    seed: u32,
    n: u32,
    first: u32,
) -> Option<Result<(), Refusal>> {
    let a = first as usize;
    let e = sum(first, n) as usize;
    if a <= e && e <= cells.len() {
        return Some(generator::generate(setup, seed, &mut cells[a..e]));
    }
    None
}

// The same, where these and the numbers after them hold the pattern before it.
pub(crate) fn generate(
    cells: &mut Cells,
    setup: Setup,
    seed: u32,
    n: u32,
    first: u32,
) -> Option<Result<(), Refusal>> {
    copy(cells, PATTERN, first, ROOM);
    generate_part(cells, setup, seed, n, first)
}
