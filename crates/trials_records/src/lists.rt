// The lists: one session that is written down, with a legal schedule for its requests, and lists that are drawn.
use crate::board;
use protocol_types::{Block, Entry, Operation, Request, Variable};
use trials_cells::cells::Cells;
use trials_cells::state::draw;
use trials_lending::{ENTRIES, REQUESTS};

fn read(processor: u32, variable: u32) -> Request {
    Request {
        processor,
        operation: Operation::Read(Variable(variable)),
    }
}

fn write(processor: u32, variable: u32, value: u32) -> Request {
    Request {
        processor,
        operation: Operation::Write(Variable(variable), value),
    }
}

fn clear(processor: u32) -> Request {
    Request {
        processor,
        operation: Operation::Clear,
    }
}

// Two misses; three writes by broadcast, the last of which empties the payer's line; a write alone; a clear that writes the
// marked block back; a read of what was written back.
fn session() -> [Request; REQUESTS] {
    [
        read(0, 0),
        read(1, 1),
        write(0, 0, 11),
        write(0, 1, 12),
        write(0, 0, 13),
        write(0, 1, 14),
        clear(0),
        read(1, 0),
    ]
}

// After it: a miss and a write; a fetch of a marked block; a write by broadcast; a hit; a write alone; a miss that writes a
// marked block back; a request that is refused, and one that is not reached.
fn session_after() -> [Request; REQUESTS] {
    [
        write(2, 9, 21),
        read(1, 8),
        write(1, 8, 22),
        read(2, 8),
        write(0, 4, 23),
        read(0, 0),
        write(3, 0, 24),
        read(1, 1),
    ]
}

// A legal schedule for the session, with moves that no request asks for, some of them after its last completion.
fn schedule() -> [Entry; ENTRIES] {
    [
        Entry::Fetch(0, Block(0)),
        Entry::Complete,
        Entry::Fetch(1, Block(0)),
        Entry::Complete,
        Entry::CompleteByBroadcast,
        Entry::Drop(1, Block(0)),
        Entry::Complete,
        Entry::Complete,
        Entry::Complete,
        Entry::Fetch(0, Block(1)),
        Entry::WriteBack(0, Block(0)),
        Entry::Drop(0, Block(0)),
        Entry::Drop(0, Block(1)),
        Entry::Complete,
        Entry::Fetch(1, Block(0)),
        Entry::Complete,
        Entry::Fetch(2, Block(3)),
        Entry::WriteBack(2, Block(3)),
        Entry::Drop(1, Block(0)),
        Entry::Fetch(1, Block(4)),
    ]
}

// A number below n, or once in 64 times n.
fn mostly_below(cells: &mut Cells, n: u32) -> u32 {
    let roll = draw(cells, 64);
    let x = draw(cells, n);
    if roll == 0 { n } else { x }
}

fn any_request(cells: &mut Cells) -> Request {
    let i = mostly_below(cells, board::PROCESSORS);
    let v = mostly_below(cells, board::VARIABLES);
    let x = draw(cells, 1000);
    match draw(cells, 12) {
        0 => clear(i),
        1..=6 => read(i, v),
        _ => write(i, v, x),
    }
}

fn any_entry(cells: &mut Cells) -> Entry {
    let i = mostly_below(cells, board::PROCESSORS);
    let b = mostly_below(cells, board::BLOCKS);
    match draw(cells, 5) {
        0 => Entry::Fetch(i, Block(b)),
        1 => Entry::WriteBack(i, Block(b)),
        2 => Entry::Drop(i, Block(b)),
        3 => Entry::Complete,
        _ => Entry::CompleteByBroadcast,
    }
}

pub(crate) fn any_requests(cells: &mut Cells) -> [Request; REQUESTS] {
    let mut list = [clear(0); REQUESTS];
    for request in list.iter_mut() {
        *request = any_request(cells);
    }
    list
}

// The list of the k-th run: the session, what comes after it, and lists that are drawn.
pub(crate) fn run_list(cells: &mut Cells, k: u32) -> [Request; REQUESTS] {
    match k {
        0 => session(),
        1 => session_after(),
        _ => any_requests(cells),
    }
}

// The list of the k-th price: the session, with one request replaced in every second.
pub(crate) fn price_list(cells: &mut Cells, k: u32) -> [Request; REQUESTS] {
    let mut list = session();
    let request = any_request(cells);
    let i = draw(cells, REQUESTS as u32) as usize;
    if k % 2 == 1 && i < REQUESTS {
        list[i] = request;
    }
    list
}

// The schedule of the k-th price: the legal one, with one entry replaced in every second but the first.
pub(crate) fn price_schedule(cells: &mut Cells, k: u32) -> [Entry; ENTRIES] {
    let mut list = schedule();
    let entry = any_entry(cells);
    let i = draw(cells, ENTRIES as u32) as usize;
    if k > 0 && k % 2 == 0 && i < ENTRIES {
        list[i] = entry;
    }
    list
}
