// A din trace, line by line: a line is found whole before its parts are.
use crate::layout::{BYTES, PROCESSORS, VARIABLES, WrongLength};
use crate::tables;
use crate::tables::Cycles;
use crate::text::{
    ADDRESSES, BLANK, CARRIAGE_RETURN, DIGIT_0, LOWER, NEWLINE, TAB, UPPER, VARIABLE_ADDRESSES,
};
use protocol_types::{Account, PlacedRefusal, Refusal};
use trials_cells::cells::{Cells, get, less, sum};

// The labels: 1 writes, the others below READS_AND_WRITES read, and one more clears.
const WRITE: u32 = 1;

const READS_AND_WRITES: u32 = 3;

pub const CLEAR: u32 = 4;

const LONGEST_LINE: u32 = 80;

const MOST_DIGITS: u32 = 8;

// An account has no more requests.
const MOST_REQUESTS: u32 = 1000000;

// What a trace came to. `at` is where its next line starts; after a refusal no line is read. A refusal's place is its line, or 0
// where no line was read.
#[derive(Clone, Copy)]
pub struct Reading {
    pub at: u32,
    pub account: Account,
    pub refused: Option<PlacedRefusal>,
}

impl Reading {
    // The line that was refused, or 0.
    pub(crate) fn refused_line(self) -> usize {
        match self.refused {
            Some(refused) => refused.place,
            None => 0,
        }
    }
}

// A line's label and address.
#[derive(Clone, Copy)]
struct Parts {
    label: u32,
    address: u32,
}

// Byte k of the trace.
fn byte(cells: &Cells, k: u32) -> u32 {
    get(cells, BYTES, k)
}

fn is_blank(b: u32) -> bool {
    b == BLANK || b == TAB
}

// The value of a hexadecimal digit.
fn digit(b: u32) -> Option<u32> {
    match b {
        48..=57 => Some(b - DIGIT_0),
        65..=70 => Some(b - UPPER),
        97..=102 => Some(b - LOWER),
        _ => None,
    }
}

// Where the line ends that starts at `start`: at its newline, or at the end of n bytes.
fn line_end(cells: &Cells, start: u32, n: u32) -> u32 {
    (start..n).find(|k| byte(cells, *k) == NEWLINE).unwrap_or(n)
}

// The first byte from `start` to `end` that is no blank and no tab.
fn blanks_end(cells: &Cells, start: u32, end: u32) -> u32 {
    (start..end)
        .find(|k| !is_blank(byte(cells, *k)))
        .unwrap_or(end)
}

// The first byte from `start` to `end` that is no hexadecimal digit.
fn digits_end(cells: &Cells, start: u32, end: u32) -> u32 {
    (start..end)
        .find(|k| digit(byte(cells, *k)).is_none())
        .unwrap_or(end)
}

// The number of the digits from `start` to `end`.
fn number(cells: &Cells, start: u32, end: u32) -> u32 {
    let mut value = 0;
    for k in start..end {
        value = shifted(value, digit(byte(cells, k)).unwrap_or(0));
    }
    value
}

fn shifted(value: u32, x: u32) -> u32 {
    value % 268435456 * 16 + x % 16
}

// Whether what follows an address at `k` is the line's end, or a blank, a tab or a carriage return.
fn closed(cells: &Cells, k: u32, end: u32) -> bool {
    let b = byte(cells, k);
    k >= end || is_blank(b) || b == CARRIAGE_RETURN
}

// Whether a line from `start` to `end` is malformed: it is empty or too long, its label is no digit below 10, no blank follows it, or its address,
// from `from` to `to`, has no digit or more than eight.
fn malformed(start: u32, end: u32, label: u32, from: u32, to: u32) -> bool {
    let length = less(end, start);
    let digits = less(to, from);
    let unlabelled = label > 9 || from == sum(start, 1);
    length == 0 || length > LONGEST_LINE || unlabelled || digits == 0 || digits > MOST_DIGITS
}

// The parts of the line from `start` to `end`, unless it is malformed.
fn split(cells: &Cells, start: u32, end: u32) -> Result<Parts, Refusal> {
    let label = digit(byte(cells, start)).ok_or(Refusal::MalformedLine)?;
    let from = blanks_end(cells, sum(start, 1), end);
    let to = digits_end(cells, from, end);
    if malformed(start, end, label, from, to) || !closed(cells, to, end) {
        return Err(Refusal::MalformedLine);
    }
    let address = number(cells, from, to);
    Ok(Parts { label, address })
}

// The processor and the variable of an address.
fn processor(address: u32) -> u32 {
    address / ADDRESSES
}

fn variable(address: u32) -> u32 {
    address % ADDRESSES / VARIABLE_ADDRESSES
}

// Whether the label and the address name a variable that there is not. A clear names none.
fn names_wrongly(label: u32, address: u32) -> bool {
    label != CLEAR && variable(address) >= VARIABLES
}

// Whether a line is refused for what it asks, the conditions in their order.
fn check(line: Parts, account: Account) -> Result<(), Refusal> {
    if line.label >= READS_AND_WRITES && line.label != CLEAR {
        return Err(Refusal::UnknownLabel);
    }
    if processor(line.address) >= PROCESSORS {
        return Err(Refusal::NoSuchProcessor);
    }
    if names_wrongly(line.label, line.address) {
        return Err(Refusal::NoSuchVariable);
    }
    if account.requests >= MOST_REQUESTS {
        return Err(Refusal::AccountFull);
    }
    Ok(())
}

// The line from `start` to `end`, unless it is refused.
fn asked(cells: &Cells, start: u32, end: u32, account: Account) -> Result<Parts, Refusal> {
    let line = split(cells, start, end)?;
    check(line, account)?;
    Ok(line)
}

// The account with one request more.
fn entered(account: Account, cycles: Cycles) -> Account {
    Account {
        requests: sum(account.requests, 1),
        fetch: sum(account.fetch, cycles.fetch),
        write_back: sum(account.write_back, cycles.write_back),
        update: sum(account.update, cycles.update),
    }
}

// Serves the line with the number x: its cycles.
fn serve(cells: &mut Cells, line: Parts, x: u32) -> Cycles {
    let i = processor(line.address);
    if line.label == CLEAR {
        return tables::clear(cells, i);
    }
    let v = variable(line.address);
    tables::serve(cells, i, line.label == WRITE, v, x)
}

// The line that ends at `end` is served, as the account's next request. A write has the number of its request as its value.
fn served(cells: &mut Cells, line: Parts, account: Account, end: u32) -> Reading {
    let cycles = serve(cells, line, sum(account.requests, 1));
    Reading {
        at: sum(end, 1),
        account: entered(account, cycles),
        refused: None,
    }
}

// The reading after its next line; after the last of n bytes, or after a refusal, nothing changes.
fn next_line(cells: &mut Cells, n: u32, so_far: Reading) -> Reading {
    if so_far.refused.is_some() || so_far.at >= n {
        return so_far;
    }
    let account = so_far.account;
    let end = line_end(cells, so_far.at, n);
    match asked(cells, so_far.at, end, account) {
        Ok(line) => served(cells, line, account, end),
        Err(refusal) => refused(so_far, refusal, sum(account.requests, 1)),
    }
}

fn refused(so_far: Reading, refusal: Refusal, line: u32) -> Reading {
    let place = line as usize;
    Reading {
        refused: Some(PlacedRefusal { refusal, place }),
        ..so_far
    }
}

// Nothing is read yet.
fn unread() -> Reading {
    Reading {
        at: 0,
        account: Account {
            requests: 0,
            fetch: 0,
            write_back: 0,
            update: 0,
        },
        refused: None,
    }
}

// There are no more lines than bytes.
fn read_lines(cells: &mut Cells, n: u32) -> Reading {
    let mut so_far = unread();
    for _ in 0..n {
        so_far = next_line(cells, n, so_far);
    }
    so_far
}

// A trace of n bytes over lent tables, which become what they should be after it.
pub(crate) fn count(cells: &mut Cells, wrong: Option<WrongLength>, n: u32) -> Reading {
    if wrong.is_some() {
        return refused(unread(), Refusal::WrongLength, 0);
    }
    tables::start(cells);
    read_lines(cells, n)
}
