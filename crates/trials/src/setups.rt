// Setups, lengths and accounts for the cases, right ones and wrong ones.
use crate::layout::{
    LENGTHS, MOST_BLOCKS, MOST_FETCH_PRICE, MOST_LINES, MOST_PROCESSORS, MOST_REQUESTS, MOST_WORDS,
};
use crate::lent;
use protocol_types::{Account, Setup};
use trials_cells::cells::{Cells, less, product, put, quotient, remainder, sum};
use trials_cells::state;
use trials_cells::state::{between, draw, word};

// The numbers of a setup.
pub const NUMBERS: u32 = 6;

// A board of these sizes, its prices the highest.
fn board_of(processors: u32, lines: u32, words: u32, blocks: u32) -> Setup {
    Setup {
        processors,
        lines,
        words,
        blocks,
        fetch_price: MOST_FETCH_PRICE,
        write_back_price: MOST_FETCH_PRICE,
    }
}

// A board whose sizes are at most these.
fn within(cells: &mut Cells, largest: Setup) -> Setup {
    let n = between(cells, 1, largest.processors);
    let l = between(cells, 1, largest.lines);
    let p = between(cells, 1, largest.words);
    let m = between(cells, 1, largest.blocks);
    board_of(n, l, p, m)
}

// The largest board of a shape that is drawn.
pub(crate) fn largest(shape: u32) -> Setup {
    match shape {
        // Few blocks: much sharing.
        0 => board_of(8, 2, 4, 6),
        // Words of their own.
        1 => board_of(4, 3, 1, 8),
        // One processor.
        2 => board_of(1, 8, 4, 32),
        // One line: every two blocks collide.
        4 => board_of(3, 1, 3, 3),
        // A pair of processors on one block.
        7 => board_of(2, 1, 6, 1),
        // That of every trace.
        8 => board_of(4, 8, 4, 64),
        // Any, or the largest.
        _ => board_of(MOST_PROCESSORS, MOST_LINES, MOST_WORDS, MOST_BLOCKS),
    }
}

// A board of one of a few shapes.
fn pick_board(cells: &mut Cells) -> Setup {
    let shape = draw(cells, 9);
    let any = within(cells, largest(6));
    match shape {
        // More lines than blocks.
        3 => board_of(any.processors, MOST_LINES, any.words, between(cells, 1, 8)),
        5 | 8 => largest(shape),
        6 => any,
        _ => within(cells, largest(shape)),
    }
}

// A fetch price beside p words: mostly low, so that updates use counters up and copies go, else p, the highest or any.
fn pick_fetch_price(cells: &mut Cells, p: u32) -> u32 {
    let shape = draw(cells, 8);
    let low = between(cells, 1, 6);
    let any = between(cells, 1, MOST_FETCH_PRICE);
    match shape {
        0 | 1 => p,
        2 => MOST_FETCH_PRICE,
        3 => any,
        _ => low,
    }
}

// A write-back price: mostly any up to the fetch price, else that.
fn pick_write_back_price(cells: &mut Cells, fetch_price: u32) -> u32 {
    let shape = draw(cells, 4);
    let any = between(cells, 1, fetch_price);
    if shape == 0 { fetch_price } else { any }
}

// A right setup.
pub(crate) fn pick_setup(cells: &mut Cells) -> Setup {
    let board = pick_board(cells);
    let fetch_price = pick_fetch_price(cells, board.words);
    Setup {
        fetch_price,
        write_back_price: pick_write_back_price(cells, fetch_price),
        ..board
    }
}

// A case begins, with a right setup.
pub(crate) fn new_setup(cells: &mut Cells) -> Setup {
    state::begin(cells);
    pick_setup(cells)
}

// The setup with its number `which` at x.
pub(crate) fn with_number(setup: Setup, which: u32, x: u32) -> Setup {
    let mut other = setup;
    match which {
        0 => other.processors = x,
        1 => other.lines = x,
        2 => other.words = x,
        3 => other.blocks = x,
        4 => other.fetch_price = x,
        _ => other.write_back_price = x,
    }
    other
}

// The largest that the setup's number `which` may be. A write-back price is bounded by the fetch price.
pub(crate) fn most(setup: Setup, which: u32) -> u32 {
    match which {
        0 => MOST_PROCESSORS,
        1 => MOST_LINES,
        2 => MOST_WORDS,
        3 => MOST_BLOCKS,
        4 => MOST_FETCH_PRICE,
        _ => setup.fetch_price,
    }
}

// A number that is out of range: 0, one or a few more than `most`, or `far`.
fn wrong_number(most: u32, how: u32, far: u32) -> u32 {
    match how {
        0 => 0,
        1 => sum(most, 1),
        2 => sum(most, sum(remainder(far, 30), 2)),
        _ => far,
    }
}

// The setup with one of its numbers out of range.
fn wrong_setup(cells: &mut Cells, setup: Setup) -> Setup {
    let which = draw(cells, NUMBERS);
    let how = draw(cells, 4);
    let far = word(cells);
    with_number(setup, which, wrong_number(most(setup, which), how, far))
}

// The setup, or once in `n` times one that is out of range, now and then in two numbers.
pub(crate) fn perhaps_wrong_setup(cells: &mut Cells, setup: Setup, n: u32) -> Setup {
    let roll = draw(cells, n);
    let second = draw(cells, 4);
    let once = wrong_setup(cells, setup);
    let twice = wrong_setup(cells, once);
    if roll != 0 {
        return setup;
    }
    if second == 0 { twice } else { once }
}

// One more or one less.
fn off_by_one(x: u32, up: bool) -> u32 {
    if up || x == 0 { sum(x, 1) } else { less(x, 1) }
}

// Once in n times one of the lengths becomes wrong by one.
pub(crate) fn perhaps_wrong_lengths(cells: &mut Cells, n: u32) {
    let roll = draw(cells, n);
    let which = draw(cells, lent::ALL);
    let up = draw(cells, 2) == 0;
    if roll == 0 {
        let right = lent::length(cells, which);
        put(cells, LENGTHS, which, off_by_one(right, up));
    }
}

// The setup that an entry is given, and the lengths for it and for a list of n requests: the setup is wrong once in
// `setup_every` times, a length once in `length_every` times.
pub(crate) fn pick_lending(
    cells: &mut Cells,
    right: Setup,
    n: u32,
    setup_every: u32,
    length_every: u32,
) -> Setup {
    let setup = perhaps_wrong_setup(cells, right, setup_every);
    lent::put_lengths(cells, right, n);
    perhaps_wrong_lengths(cells, length_every);
    setup
}

// a × n, for an a up to MOST_LINES and an n up to some tens of millions.
fn full(a: u32, n: u32) -> u32 {
    let thousands = product(quotient(n, 1000), product(a, 1000));
    sum(thousands, product(a, remainder(n, 1000)))
}

// The most write-back cycles of so many requests, up to some millions: each writes back every line of a cache.
fn full_write_back(setup: Setup, requests: u32) -> u32 {
    full(setup.lines, full(setup.write_back_price, requests))
}

fn account_of(requests: u32, fetch: u32, write_back: u32, update: u32) -> Account {
    Account {
        requests,
        fetch,
        write_back,
        update,
    }
}

pub(crate) fn fresh_account() -> Account {
    account_of(0, 0, 0, 0)
}

// An account of a shape, from numbers drawn for it: `requests` is about a million.
fn account_at(shape: u32, setup: Setup, requests: u32, few: u32, far: u32) -> Account {
    let f = setup.fetch_price;
    let g = setup.write_back_price;
    match shape {
        // About to be full, and at the limits of what is possible.
        0 => account_of(
            requests,
            full(f, requests),
            full_write_back(setup, requests),
            requests,
        ),
        1 => account_of(requests, 0, 0, 0),
        // Possible, and some way on.
        2 => account_of(few, full(f, few), 0, quotient(few, 2)),
        3 => account_of(MOST_REQUESTS, few, few, few),
        // Impossible by one, in each kind.
        4 => account_of(few, sum(full(f, few), 1), 0, 0),
        5 => account_of(few, 0, sum(full_write_back(setup, few), 1), 0),
        6 => account_of(few, 0, 0, sum(few, 1)),
        7 => account_of(requests, sum(full(f, requests), 1), 0, requests),
        8 => account_of(requests, 0, sum(full_write_back(setup, requests), 1), 0),
        // A block a request is written back, and a cycle more: possible in caches of two lines.
        9 => account_of(few, 0, sum(full(g, few), 1), 0),
        // price × requests is over 32 bits, and for an even price its low 32 bits are few.
        10 => account_of(sum(2147483648, few), far, far, quotient(far, 2)),
        11 => account_of(few, far, far, far),
        _ => fresh_account(),
    }
}

// An account with which a list of runs begins: mostly fresh, else at a limit or past it.
pub(crate) fn pick_account(cells: &mut Cells, setup: Setup) -> Account {
    let shape = draw(cells, 28);
    let requests = between(cells, 999970, 1000003);
    let few = draw(cells, 2000);
    let far = word(cells);
    account_at(shape, setup, requests, few, far)
}
