// The model: draws by multiplication, division and binary digits, and refusals from the last condition to the first.
use crate::layout::{PATTERN, ROOM, WANTED, WIDTH};
use protocol_types::{Refusal, Setup};
use trials_cells::cells::{Cells, copy, product, put, quotient, remainder, sum};

// The numbers of 32 bits, and their binary digits.
const NUMBERS: u64 = 4294967296;

const DIGITS: u32 = 32;

// 2^13, 2^17 and 2^5.
const FIRST_FACTOR: u64 = 8192;

const DIVISOR: u32 = 131072;

const LAST_FACTOR: u64 = 32;

// The longest list, in requests.
const MOST_REQUESTS: u32 = 1000000;

// The digits of x and y added without carrying.
fn add_digits(x: u32, y: u32) -> u32 {
    let mut left = x;
    let mut right = y;
    let mut all = 0;
    let mut power = 1;
    for _ in 0..DIGITS {
        if left % 2 != right % 2 {
            all = sum(all, power);
        }
        left /= 2;
        right /= 2;
        power = sum(power, power);
    }
    all
}

// The draw after x.
pub(crate) fn draw_after(x: u32) -> u32 {
    let a = add_digits(x, (u64::from(x) * FIRST_FACTOR % NUMBERS) as u32);
    let b = add_digits(a, a / DIVISOR);
    add_digits(b, (u64::from(b) * LAST_FACTOR % NUMBERS) as u32)
}

fn outside(x: u32, most: u32) -> bool {
    x == 0 || x > most
}

// Whether a list of n numbers is refused: the condition that comes first is looked at last.
fn check(setup: Setup, seed: u32, n: u32) -> Result<(), Refusal> {
    let f = setup.fetch_price;
    let caches = outside(setup.processors, 8) || outside(setup.lines, 64);
    let mut answer = Ok(());
    if quotient(n, WIDTH) > MOST_REQUESTS {
        answer = Err(Refusal::TooMany);
    }
    if seed == 0 {
        answer = Err(Refusal::SeedZero);
    }
    if remainder(n, WIDTH) != 0 {
        answer = Err(Refusal::WrongLength);
    }
    if outside(f, 32) || outside(setup.write_back_price, f) {
        answer = Err(Refusal::PriceOutOfRange);
    }
    if caches || outside(setup.words, 16) || outside(setup.blocks, 256) {
        answer = Err(Refusal::SetupOutOfRange);
    }
    answer
}

// Request t of the list that is wanted, x being the draw before it: the last draw of the request.
fn put_request(cells: &mut Cells, setup: Setup, t: u32, x: u32) -> u32 {
    let at = sum(WANTED, product(t, WIDTH));
    let first = draw_after(x);
    let second = draw_after(first);
    let third = draw_after(second);
    let variables = product(setup.blocks, setup.words);
    put(cells, at, 0, remainder(first, setup.processors));
    put(cells, at, 1, third % 2);
    put(cells, at, 2, remainder(second, variables));
    put(cells, at, 3, if third % 2 == 1 { third } else { 0 });
    third
}

// The list of n numbers that is wanted, unless it is refused.
pub(crate) fn generate(cells: &mut Cells, setup: Setup, seed: u32, n: u32) -> Result<(), Refusal> {
    copy(cells, PATTERN, WANTED, ROOM);
    check(setup, seed, n)?;
    let mut x = seed;
    for t in 0..quotient(n, WIDTH) {
        x = put_request(cells, setup, t, x);
    }
    Ok(())
}
