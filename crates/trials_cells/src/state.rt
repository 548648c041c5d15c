// The state of the trials, in the first 256 cells: the random generator, and the counts of what was seen.
ghost use Rattle.std.specs.Prelude.{◌≡◌, ◌<◌, ◌+◌, ◌-◌, ◌*◌, ◌%◌, replicate};
ghost use Rattle.trials_cells.specs.Cells.{size, summed, cell, with};
ghost use Rattle.trials_cells.specs.State.{following, drawn, roll, added, kind_number, count_place, judged, totalled};

use crate::cells::{Cells, SIZE, get, less, put, remainder, sum};

pub const STATE: u32 = 0;

// The kinds of trials. The trials of a kind are counted under refusal numbers, those of looks by whether the block was held.
#[derive(Clone, Copy)]
pub enum Kind {
    Start = 0,
    Run = 1,
    Look = 2,
    Price = 3,
    Trace = 4,
    Generate = 5,
    Best = 6,
}

impl Kind {
    fn number(self) -> u32
        ensures value { result ≡ kind_number self }
        ensures few { result < 32 }
    {
        self as u32
    }
}

// What a trial may differ in.
#[derive(Clone, Copy)]
pub enum Difference {
    Refusal = 1,
    Place = 2,
    Taken = 3,
    Account = 4,
    Cost = 5,
    Buffers = 6,
    Shown = 7,
    Factor = 8,
    Split = 9,
    NotLegal = 16,
    StepsUsed = 17,
    NotLeast = 18,
    WrongExcess = 19,
    OwnActions = 20,
}

// Cells of the state: the generator, the generator as the case began, the differences, and the sums of what was served.
const GENERATOR: u32 = 0;

const SEED: u32 = 1;

pub const DIFFERENCES: u32 = 2;

pub const REQUESTS: u32 = 3;

pub const CYCLES: u32 = 4;

pub const COMPARED: u32 = 5;

pub const CHEAPER: u32 = 6;

pub const MET: u32 = 7;

pub const MET_UPDATES: u32 = 8;

pub const FALSE_MASKS: u32 = 9;

// The counts of a kind, one for each number, stand after those of the kind before it.
const COUNTS: u32 = 16;

const NUMBERS: u32 = 32;

// How many differences are printed; all are counted.
const PRINTED: u32 = 20;

// Lehmer's generator.
const MULTIPLIER: u64 = 48271;

const MODULUS: u64 = 2147483647;

const HALF_WORD: u32 = 65536;

// The generator begins with a seed.
pub fn set_seed(cells: &mut Cells, seed: u32)
    ensures { cells.new ≡ with cells.old 0 0 seed }
{
    put(cells, STATE, GENERATOR, seed);
}

// Cells of 0, but for the generator, which is the seed.
pub fn seeded(seed: u32) -> Cells
    ensures { result ≡ with (replicate size 0) 0 0 seed }
{
    let mut cells = [0; SIZE];
    set_seed(&mut cells, seed);
    cells
}

// The number after s.
fn follow(s: u32) -> u32
    ensures { result ≡ following s }
{
    (u64::from(s) * MULTIPLIER % MODULUS) as u32
}

// A number below `below`.
pub fn draw(cells: &mut Cells, below: u32) -> u32
    ensures { (result ≡ roll cells.old below) × (cells.new ≡ drawn cells.old) }
{
    let s = follow(get(cells, STATE, GENERATOR));
    put(cells, STATE, GENERATOR, s);
    remainder(s, below)
}

// Any number of 32 bits.
pub fn word(cells: &mut Cells) -> u32
    ensures { (result ≡ roll cells.old 65536 % 65536 * 65536 + roll (drawn cells.old) 65536 % 65536)
        × (cells.new ≡ drawn (drawn cells.old)) }
{
    let high = draw(cells, HALF_WORD) % HALF_WORD;
    let low = draw(cells, HALF_WORD) % HALF_WORD;
    high * HALF_WORD + low
}

// A number from `low` to `high`.
pub fn between(cells: &mut Cells, low: u32, high: u32) -> u32
    ensures { (result ≡ summed low (roll cells.old (summed (high - low) 1))) × (cells.new ≡ drawn cells.old) }
{
    let below = sum(less(high, low), 1);
    sum(low, draw(cells, below))
}

// A case begins: the generator's number names it.
pub fn begin(cells: &mut Cells)
    ensures { cells.new ≡ with cells.old 0 1 (cell cells.old 0 0) }
{
    let seed = get(cells, STATE, GENERATOR);
    put(cells, STATE, SEED, seed);
}

pub fn add(cells: &mut Cells, place: u32, x: u32)
    ensures { cells.new ≡ added cells.old place x }
{
    let before = get(cells, STATE, place);
    put(cells, STATE, place, sum(before, x));
}

// Where the trials of a kind that ended in a number are counted.
pub fn count_place(kind: Kind, number: u32) -> u32
    ensures { result ≡ count_place kind number }
{
    sum(COUNTS, kind.number() * NUMBERS + number % NUMBERS)
}

// What is not taken by standard output is lost, here and below.
fn print_text(rt: &impl Print, text: &[u8]) {
    let _ = rt.write_all(text);
}

fn print(rt: &impl Print, text: &[u8], number: u32) {
    print_text(rt, text);
    let _ = rt.print(number);
}

fn print_line(rt: &impl Print, text: &[u8], number: u32) {
    print(rt, text, number);
    print_text(rt, b"\n");
}

// Prints a difference, by the numbers of its kind and of what differs.
fn print_difference(rt: &impl Print, cells: &Cells, kind: Kind, case: u32, what: Difference) {
    if get(cells, STATE, DIFFERENCES) <= PRINTED {
        print(rt, b"kind ", kind.number());
        print(rt, b" case ", case);
        print(rt, b" seed ", get(cells, STATE, SEED));
        print_line(rt, b" differs in ", what as u32);
    }
}

// A trial that differed from the model in `what`, if in anything.
pub fn judge(rt: &impl Print, cells: &mut Cells, kind: Kind, case: u32, what: Option<Difference>)
    ensures { cells.new ≡ judged cells.old what }
{
    if let Some(what) = what {
        add(cells, DIFFERENCES, 1);
        print_difference(rt, cells, kind, case, what);
    }
}

// A trial of a kind ended in this number, and differed from the model in `what`, if in anything.
pub fn record(
    rt: &impl Print,
    cells: &mut Cells,
    kind: Kind,
    case: u32,
    number: u32,
    what: Option<Difference>,
)
    ensures { cells.new ≡ judged (added cells.old (count_place kind number) 1) what }
{
    add(cells, count_place(kind, number), 1);
    judge(rt, cells, kind, case, what);
}

// How many trials of a kind ended in a number.
pub fn counted(cells: &Cells, kind: Kind, number: u32) -> u32
    ensures { result ≡ cell cells.now 0 (count_place kind number) }
{
    get(cells, STATE, count_place(kind, number))
}

// How many trials of a kind there were.
fn total(cells: &Cells, kind: Kind) -> u32
    ensures { result ≡ totalled cells.now kind 32 }
{
    let mut all = 0;
    for number in 0..NUMBERS {
        all = sum(all, counted(cells, kind, number));
    }
    all
}

fn print_count(rt: &impl Print, name: &[u8], number: u32, count: u32) {
    if count != 0 {
        print_text(rt, name);
        print(rt, b" ", number);
        print_line(rt, b": ", count);
    }
}

fn print_counts(rt: &impl Print, cells: &Cells, kind: Kind, name: &[u8]) {
    for number in 0..NUMBERS {
        print_count(rt, name, number, counted(cells, kind, number));
    }
}

// Prints how many trials of a kind there were: that number.
pub fn print_cases(rt: &impl Print, cells: &Cells, kind: Kind, name: &[u8]) -> u32
    ensures { result ≡ totalled cells.now kind 32 }
{
    let all = total(cells, kind);
    print_text(rt, name);
    print_line(rt, b" cases ", all);
    all
}

// The same, and how many ended in each number.
pub fn print_kind(rt: &impl Print, cells: &Cells, kind: Kind, name: &[u8]) -> u32
    ensures { result ≡ totalled cells.now kind 32 }
{
    let all = print_cases(rt, cells, kind, name);
    print_counts(rt, cells, kind, name);
    all
}

// Prints a cell of the state after a text: its number.
pub fn print_cell(rt: &impl Print, cells: &Cells, text: &[u8], place: u32) -> u32
    ensures { result ≡ cell cells.now 0 place }
{
    let number = get(cells, STATE, place);
    print_line(rt, text, number);
    number
}
