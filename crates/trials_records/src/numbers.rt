// Lists of records as lists of plain numbers, as hosts pass them.
use protocol_types::{Entry, Operation, Request};
use trials_lending::{ENTRIES, REQUESTS};

const REQUEST_WIDTH: usize = 4;

const ENTRY_WIDTH: usize = 3;

const REQUEST_NUMBERS: usize = REQUESTS * REQUEST_WIDTH;

const ENTRY_NUMBERS: usize = ENTRIES * ENTRY_WIDTH;

pub type RequestNumbers = [u32; REQUEST_NUMBERS];

pub type EntryNumbers = [u32; ENTRY_NUMBERS];

// A read has operation 0 and no value, a write operation 1, a clear operation 2 and neither variable nor value.
fn request_numbers(request: Request) -> [u32; REQUEST_WIDTH] {
    let i = request.processor;
    match request.operation {
        Operation::Read(v) => [i, 0, v.0, 0],
        Operation::Write(v, x) => [i, 1, v.0, x],
        Operation::Clear => [i, 2, 0, 0],
    }
}

fn entry_numbers(entry: Entry) -> [u32; ENTRY_WIDTH] {
    match entry {
        Entry::Fetch(i, b) => [0, i, b.0],
        Entry::WriteBack(i, b) => [1, i, b.0],
        Entry::Drop(i, b) => [2, i, b.0],
        Entry::Complete => [3, 0, 0],
        Entry::CompleteByBroadcast => [4, 0, 0],
    }
}

// The numbers of a record go to a list, from its place `first` on.
fn lay(list: &mut [u32], first: usize, numbers: &[u32]) {
    for (cell, x) in list.iter_mut().skip(first).zip(numbers) {
        *cell = *x;
    }
}

pub(crate) fn of_requests(requests: [Request; REQUESTS]) -> RequestNumbers {
    let mut list = [0u32; REQUEST_NUMBERS];
    for k in 0..REQUESTS {
        lay(&mut list, k * REQUEST_WIDTH, &request_numbers(requests[k]));
    }
    list
}

pub(crate) fn of_entries(entries: [Entry; ENTRIES]) -> EntryNumbers {
    let mut list = [0u32; ENTRY_NUMBERS];
    for k in 0..ENTRIES {
        lay(&mut list, k * ENTRY_WIDTH, &entry_numbers(entries[k]));
    }
    list
}
