// The lists and tables that are lent: arrays of one length, of which a part is lent. They hold a pattern before, every number another one, so
// that one that is written is seen.
ghost use Rattle.std.specs.Prelude.{◌≤◌, length};

use crate::layout::{LENGTHS, NUMBERS, PATTERN, REQUESTS, value};
use trials_cells::cells::{Cells, get, sum};

// Room for the longest list and a few numbers more.
pub const ROOM: usize = 97210;

pub type Table = [u32; ROOM];

// n, or the room where n is more.
fn within_room(n: u32) -> usize
    ensures { result ≤ 97210 }
{
    ROOM.min(n as usize)
}

fn set(table: &mut [u32], k: u32, x: u32) {
    if let Some(cell) = table.get_mut(k as usize) {
        *cell = x;
    }
}

pub(crate) fn element(table: &Table, k: u32) -> u32 {
    table.get(k as usize).copied().unwrap_or(0)
}

// The first n numbers become a pattern.
fn fill(to: &mut [u32], n: u32, pattern: u32) {
    for k in 0..n {
        set(to, k, sum(pattern, k));
    }
}

// The first n numbers become those of the requests.
fn fill_requests(cells: &Cells, to: &mut [u32], n: u32) {
    for k in 0..n {
        set(to, k, get(cells, REQUESTS, k));
    }
}

// Table k gets the pattern: how much of it is lent.
pub(crate) fn lend(cells: &Cells, k: u32, to: &mut Table) -> usize
    ensures { result ≤ length to.new }
{
    let n = get(cells, LENGTHS, k);
    fill(to, n, value(cells, PATTERN));
    within_room(n)
}

// The requests go to a list: how much of it is lent.
pub(crate) fn lend_requests(cells: &Cells, to: &mut Table) -> usize
    ensures { result ≤ length to.new }
{
    let n = value(cells, NUMBERS);
    fill_requests(cells, to, n);
    within_room(n)
}

// How many of the numbers from `first` to the n-th do not have the pattern.
pub(crate) fn changed(table: &Table, first: u32, n: u32, pattern: u32) -> u32 {
    let mut count = 0;
    for k in first..n {
        if element(table, k) != sum(pattern, k) {
            count = sum(count, 1);
        }
    }
    count
}

// How many of the first n numbers are not those of the cells from `first` on.
pub(crate) fn unlike(table: &Table, cells: &Cells, first: u32, n: u32) -> u32 {
    let mut count = 0;
    for k in 0..n {
        if element(table, k) != get(cells, first, k) {
            count = sum(count, 1);
        }
    }
    count
}
