// The entry, called over tables of its own: each is an array, a part of which, as long as the case wants it, is lent.
ghost use Rattle.std.specs.Prelude.{◌≤◌, length};

use crate::layout;
use crate::layout::{BYTES, ROOM, Table, WrongLength};
use trace_lines::ReportNumbers;
use trials_cells::cells::{Cells, get, sum};

// Room for a trace.
const LONGEST: usize = 8200;

type Numbers = [u32; ROOM];

// What the entry answered, and how many cells of its tables are not the model's.
#[derive(Clone, Copy)]
pub struct Counted {
    pub report: ReportNumbers,
    pub unlike: u32,
}

// The words of a table become numbers counted from `from`.
fn fill(to: &mut [u32], from: u32) {
    let mut number = from;
    for x in to.iter_mut() {
        *x = number;
        number = sum(number, 1);
    }
}

// n, or the room where n is more.
fn within(n: u32, room: usize) -> usize
    ensures { result ≤ room }
{
    room.min(n as usize)
}

// A table as it is before the case: how much of it is lent.
fn lend(to: &mut Numbers, wrong: Option<WrongLength>, case: u32, table: Table) -> usize
    ensures { result ≤ length to.new }
{
    fill(to, layout::scattered(case, table));
    within(layout::length(wrong, table), ROOM)
}

// How many cells of a table are not the model's, which begin at `first`.
fn unlike(cells: &Cells, first: u32, table: &Numbers) -> u32 {
    let mut count = 0;
    let mut place = first;
    for x in table {
        if *x != get(cells, place, 0) {
            count = sum(count, 1);
        }
        place = sum(place, 1);
    }
    count
}

fn set_byte(bytes: &mut [u8], k: u32, x: u32) {
    let i = k as usize;
    if i < bytes.len() {
        bytes[i] = (x % 256) as u8;
    }
}

fn fill_bytes(cells: &Cells, n: u32, to: &mut [u8]) {
    for k in 0..n {
        set_byte(to, k, get(cells, BYTES, k));
    }
}

// The n bytes of the trace go to an array: how many of them are lent.
fn lend_bytes(cells: &Cells, n: u32, to: &mut [u8; LONGEST]) -> usize
    ensures { result ≤ length to.new }
{
    fill_bytes(cells, n, to);
    within(n, LONGEST)
}

// The trace of the first n bytes.
pub(crate) fn count(cells: &Cells, wrong: Option<WrongLength>, n: u32, case: u32) -> Counted {
    let mut blocks = [0u32; ROOM];
    let mut counters = [0u32; ROOM];
    let mut marks = [0u32; ROOM];
    let mut words = [0u32; ROOM];
    let mut memory = [0u32; ROOM];
    let mut bytes = [0u8; LONGEST];
    let a = lend(&mut blocks, wrong, case, Table::Numbers);
    let b = lend(&mut counters, wrong, case, Table::Counters);
    let c = lend(&mut marks, wrong, case, Table::Marks);
    let d = lend(&mut words, wrong, case, Table::Words);
    let e = lend(&mut memory, wrong, case, Table::Memory);
    let f = lend_bytes(cells, n, &mut bytes);
    let counted = trace::count_trace(
        &bytes[..f],
        &mut blocks[..a],
        &mut counters[..b],
        &mut marks[..c],
        &mut words[..d],
        &mut memory[..e],
    );
    let first = sum(
        unlike(cells, layout::NUMBERS, &blocks),
        unlike(cells, layout::COUNTERS, &counters),
    );
    let last = sum(
        unlike(cells, layout::WORDS, &words),
        unlike(cells, layout::MEMORY, &memory),
    );
    Counted {
        report: trace_lines::answer_numbers(counted),
        unlike: sum(sum(first, unlike(cells, layout::MARKS, &marks)), last),
    }
}
