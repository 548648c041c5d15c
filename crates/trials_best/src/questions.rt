// What is asked of the search: a board, requests, and the lengths of what is lent; right ones and wrong ones, and what the refusal has to be.
use crate::layout::{
    ASKED, BLOCKS, FETCH_PRICE, LENGTHS, LINES, NUMBERS, PATTERN, PROCESSORS, REQUEST_WIDTH,
    SCHEDULE_LENGTH, WORDS, WRITE_BACK_PRICE, set_value, value,
};
use crate::requests;
use crate::requests::Operation;
use protocol_types::{PlacedRefusal, Refusal, Setup};
use trials_cells::cells::{Cells, get, less, product, put, quotient, remainder, sum};
use trials_cells::state::{between, draw, word};

const POSITIONS: u32 = 32400;

const GROUPS: u32 = 900;

const SCHEDULE: u32 = 97200;

const MOST_REQUESTS: u32 = 24;

const MOST_BLOCKS: u32 = 4;

// ---- right questions

// A number from 1 to `few`, or once in two times from 1 to `most`.
fn pick_number(cells: &mut Cells, few: u32, most: u32) -> u32 {
    let last = if draw(cells, 2) == 0 { few } else { most };
    between(cells, 1, last)
}

// Few lines and low prices are more often than others.
fn put_setup(cells: &mut Cells) {
    set_value(cells, PROCESSORS, 2);
    let lines = pick_number(cells, 3, 64);
    set_value(cells, LINES, lines);
    let words = between(cells, 1, 16);
    set_value(cells, WORDS, words);
    let blocks = less(MOST_BLOCKS + 1, pick_number(cells, 1, MOST_BLOCKS));
    set_value(cells, BLOCKS, blocks);
    let price = pick_number(cells, 5, 32);
    set_value(cells, FETCH_PRICE, price);
    let lower = between(cells, 1, price);
    set_value(cells, WRITE_BACK_PRICE, lower);
}

// The right length of lent table k, or of the schedule.
fn right_length(k: u32) -> u32 {
    match k {
        3 => GROUPS,
        4 => SCHEDULE,
        _ => POSITIONS,
    }
}

fn put_lengths(cells: &mut Cells) {
    for k in 0..5 {
        put(cells, LENGTHS, k, right_length(k));
    }
}

// A board and n requests for it.
pub(crate) fn put_question(cells: &mut Cells, n: u32) {
    put_setup(cells);
    put_lengths(cells);
    requests::put_requests(cells, n);
    set_value(cells, NUMBERS, product(n, REQUEST_WIDTH));
    let pattern = word(cells);
    set_value(cells, PATTERN, pattern);
}

// ---- wrong ones

// Another number than x, just so or by far; seldom x itself.
fn pick_other(cells: &mut Cells, x: u32) -> u32 {
    let off = between(cells, 1, 6);
    match draw(cells, 3) {
        0 => draw(cells, 300),
        1 => less(x, off),
        _ => sum(x, off),
    }
}

// Any number of what is asked becomes another.
fn spoil_number(cells: &mut Cells) {
    let k = draw(cells, ASKED);
    let x = pick_other(cells, get(cells, PROCESSORS, k));
    put(cells, PROCESSORS, k, x);
}

// A request names what is not there.
fn spoil_request(cells: &mut Cells) {
    let t = draw(cells, quotient(value(cells, NUMBERS), REQUEST_WIDTH));
    requests::spoil_request(cells, t);
}

// Some of these, so that often more than one condition is met.
pub(crate) fn spoil(cells: &mut Cells) {
    spoil_request(cells);
    if draw(cells, 2) == 0 {
        spoil_request(cells);
    }
    if draw(cells, 2) == 0 {
        spoil_number(cells);
    }
    if draw(cells, 4) == 0 {
        spoil_number(cells);
    }
}

// ---- the refusal. Whether a setup is in range is asked of the setup itself: other trials try that.

pub(crate) fn setup_of(cells: &Cells) -> Setup {
    Setup {
        processors: value(cells, PROCESSORS),
        lines: value(cells, LINES),
        words: value(cells, WORDS),
        blocks: value(cells, BLOCKS),
        fetch_price: value(cells, FETCH_PRICE),
        write_back_price: value(cells, WRITE_BACK_PRICE),
    }
}

// Whether request t is refused.
fn check_request(cells: &Cells, t: u32) -> Result<(), Refusal> {
    let first = requests::request_place(t);
    if get(cells, first, 0) > 1 {
        return Err(Refusal::NoSuchProcessor);
    }
    let variables = product(value(cells, BLOCKS), value(cells, WORDS));
    let clears = requests::asked_at(cells, t).operation == Operation::Clear;
    if !clears && get(cells, first, 2) >= variables {
        return Err(Refusal::NoSuchVariable);
    }
    Ok(())
}

fn placed(refusal: Refusal, t: u32) -> PlacedRefusal {
    let place = t as usize;
    PlacedRefusal { refusal, place }
}

// The n requests, from the last one down.
fn check_requests(cells: &Cells, n: u32) -> Result<(), PlacedRefusal> {
    let mut answer = Ok(());
    for t in (0..n).rev() {
        if let Err(refusal) = check_request(cells, t) {
            answer = Err(placed(refusal, t));
        }
    }
    answer
}

// Whether one of the lent tables or the schedule is not as long as it has to be.
fn lengths_wrong(cells: &Cells) -> bool {
    (0..5).any(|k| get(cells, LENGTHS, k) != right_length(k))
}

// 12 of n requests.
fn is_searchable(cells: &Cells, n: u32) -> bool {
    value(cells, PROCESSORS) == 2 && value(cells, BLOCKS) <= MOST_BLOCKS && n <= MOST_REQUESTS
}

// Whether the question is refused for its setup, or for how much is lent.
fn check_sizes(cells: &Cells, numbers: u32) -> Result<(), Refusal> {
    setup_of(cells).check()?;
    if !is_searchable(cells, quotient(numbers, REQUEST_WIDTH)) {
        return Err(Refusal::NotSearchable);
    }
    if lengths_wrong(cells) || remainder(numbers, REQUEST_WIDTH) != 0 {
        return Err(Refusal::WrongLength);
    }
    Ok(())
}

// The refusal that the question has to meet, if any.
pub(crate) fn check(cells: &Cells) -> Result<(), PlacedRefusal> {
    let numbers = value(cells, NUMBERS);
    if let Err(refusal) = check_sizes(cells, numbers) {
        return Err(placed(refusal, 0));
    }
    check_requests(cells, quotient(numbers, REQUEST_WIDTH))
}
