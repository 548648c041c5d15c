// Din traces: right lines, and now and then a wrong one, or one with an odd byte, which may be right or wrong.
use crate::layout;
use crate::layout::{BYTES, TABLES, Table, WrongLength};
use crate::reading::CLEAR;
use trials_cells::cells::{Cells, less, put, sum};
use trials_cells::state::{between, draw};

// Bytes that stand in several places.
pub const TAB: u32 = 9;

pub const NEWLINE: u32 = 10;

pub const CARRIAGE_RETURN: u32 = 13;

pub const BLANK: u32 = 32;

pub const DIGIT_0: u32 = 48;

// A byte less the value of its digit, of upper and of lower case.
pub const UPPER: u32 = 55;

pub const LOWER: u32 = 87;

// A processor has the addresses of 24 bits, a variable four of them.
pub const ADDRESSES: u32 = 16777216;

pub const VARIABLE_ADDRESSES: u32 = 4;

// Puts a byte at `at`: the place after it.
fn put_byte(cells: &mut Cells, at: u32, x: u32) -> u32 {
    put(cells, BYTES, at, x);
    sum(at, 1)
}

// The digit of 16^k of an address.
fn nibble(address: u32, k: u32) -> u32 {
    if k < 8 { address >> (4 * k) & 15 } else { 0 }
}

// A hexadecimal digit, in lower or upper case.
fn hex_digit(x: u32, upper: bool) -> u32 {
    if x < 10 {
        sum(DIGIT_0, x)
    } else if upper {
        sum(UPPER, x)
    } else {
        sum(LOWER, x)
    }
}

// The last `digits` digits of an address.
fn put_address(cells: &mut Cells, from: u32, address: u32, digits: u32, upper: bool) -> u32 {
    let mut at = from;
    for k in (0..digits).rev() {
        at = put_byte(cells, at, hex_digit(nibble(address, k), upper));
    }
    at
}

// n bytes of one kind.
fn put_many(cells: &mut Cells, from: u32, x: u32, n: u32) -> u32 {
    let mut at = from;
    for _ in 0..n {
        at = put_byte(cells, at, x);
    }
    at
}

// What is wrong with a line. An odd byte may also happen to be right.
#[derive(Clone, Copy, PartialEq, Eq)]
enum Wrong {
    OddLabel,
    Label,
    NoBlank,
    NineDigits,
    NoDigit,
    OddEnd,
    Processor,
    Variable,
    Empty,
    Long,
    OddBlank,
}

// An odd byte, to stand after a digit: any from the vertical tab to the tilde.
fn pick_odd(cells: &mut Cells) -> u32 {
    between(cells, 11, 126)
}

// A label: now and then that of a clear, and else 0, 1 or 2.
fn known_label(roll: u32) -> u32 {
    if roll == 0 { CLEAR } else { roll % 3 }
}

// A digit that is no label: 3 for the clear's, or itself.
fn unknown_label(high: u32) -> u32 {
    if high == CLEAR { 3 } else { high }
}

// The byte of a label.
fn pick_label(cells: &mut Cells, wrong: Option<Wrong>) -> u32 {
    let roll = draw(cells, 13);
    let high = between(cells, CLEAR, 9);
    let odd = between(cells, 33, 126);
    match wrong {
        Some(Wrong::OddLabel) => odd,
        Some(Wrong::Label) => sum(DIGIT_0, unknown_label(high)),
        _ => sum(DIGIT_0, known_label(roll)),
    }
}

// The address of a byte of variable v, of processor i.
fn address_of(i: u32, v: u32, low: u32) -> u32 {
    i % 256 * ADDRESSES + v % 4194304 * VARIABLE_ADDRESSES + low % VARIABLE_ADDRESSES
}

// An address. The variable of a clear plays no part, and is out of range every second time.
fn pick_address(cells: &mut Cells, wrong: Option<Wrong>, clears: bool) -> u32 {
    let i = draw(cells, 4);
    let v = draw(cells, 256);
    let near = draw(cells, 24);
    let low = draw(cells, 4);
    let roll = draw(cells, 2);
    let other = between(cells, 4, 255);
    let past = between(cells, 256, 4194303);
    match wrong {
        Some(Wrong::Processor) => address_of(other, v, 0),
        Some(Wrong::Variable) => address_of(i, past, low),
        _ if roll == 0 => address_of(i, near, low),
        _ if clears => address_of(i, past, low),
        _ => address_of(i, v, low),
    }
}

// How many digits an address is written with: it may have zeros in front. Before an odd byte it is any number of them, so that one digit
// more is seldom too many.
fn pick_digits(cells: &mut Cells, address: u32, wrong: Option<Wrong>) -> u32 {
    let short = between(cells, 1, 8);
    let middle = between(cells, 3, 8);
    match wrong {
        Some(Wrong::NineDigits) => 9,
        Some(Wrong::NoDigit) => 0,
        Some(Wrong::OddEnd) => short,
        _ if address < 16 => short,
        _ if address < 4096 => middle,
        _ => 8,
    }
}

// The byte after an address, unless the line ends: a carriage return, the gap before ignored text, or an odd one.
fn gap_after(wrong: Option<Wrong>, roll: u32, odd: u32) -> Option<u32> {
    match (wrong, roll) {
        (Some(Wrong::OddEnd), _) => Some(odd),
        (Some(Wrong::Long), _) | (_, 1) => Some(BLANK),
        (_, 0 | 3) => Some(CARRIAGE_RETURN),
        (_, 2) => Some(TAB),
        _ => None,
    }
}

// How many bytes of ignored text follow it: n, or up to the end of a line of about 80 bytes.
fn text_after(wrong: Option<Wrong>, roll: u32, n: u32, at: u32, end: u32) -> u32 {
    match wrong {
        Some(Wrong::OddEnd) => 0,
        Some(Wrong::Long) => less(end, sum(at, 1)),
        _ if roll == 0 => 0,
        _ => n,
    }
}

// What follows an address, in a line from `start` on.
fn put_rest(cells: &mut Cells, start: u32, at: u32, wrong: Option<Wrong>) -> u32 {
    let roll = draw(cells, 10);
    let n = draw(cells, 12);
    let x = between(cells, 14, 255);
    let width = between(cells, 79, 82);
    let odd = pick_odd(cells);
    let Some(gap) = gap_after(wrong, roll, odd) else {
        return at;
    };
    let text = text_after(wrong, roll, n, at, sum(start, width));
    put_text(cells, at, gap, x, text)
}

// A gap, and n bytes of ignored text.
fn put_text(cells: &mut Cells, at: u32, gap: u32, x: u32, n: u32) -> u32 {
    let from = put_byte(cells, at, gap);
    put_many(cells, from, x, n)
}

// The first byte after a label: a blank, a tab once in a while, or an odd one.
fn first_blank(wrong: Option<Wrong>, tab: u32, odd: u32) -> u32 {
    match wrong {
        Some(Wrong::OddBlank) => odd,
        _ if tab == 0 => TAB,
        _ => BLANK,
    }
}

// The blanks after a label.
fn put_blanks(cells: &mut Cells, at: u32, wrong: Option<Wrong>) -> u32 {
    let n = between(cells, 1, 3);
    let tab = draw(cells, 4);
    let odd = pick_odd(cells);
    if wrong == Some(Wrong::NoBlank) {
        return at;
    }
    put_text(cells, at, first_blank(wrong, tab, odd), BLANK, less(n, 1))
}

// A line's parts in turn.
fn put_parts(
    cells: &mut Cells,
    start: u32,
    label: u32,
    address: u32,
    digits: u32,
    wrong: Option<Wrong>,
) -> u32 {
    let upper = draw(cells, 2) == 0;
    let blank = put_byte(cells, start, label);
    let from = put_blanks(cells, blank, wrong);
    let to = put_address(cells, from, address, digits, upper);
    put_rest(cells, start, to, wrong)
}

// A line without its newline.
fn put_line(cells: &mut Cells, start: u32, wrong: Option<Wrong>) -> u32 {
    let label = pick_label(cells, wrong);
    let clears = label == DIGIT_0 + CLEAR;
    let address = pick_address(cells, wrong, clears);
    let digits = pick_digits(cells, address, wrong);
    if wrong == Some(Wrong::Empty) {
        return start;
    }
    put_parts(cells, start, label, address, digits, wrong)
}

// What is wrong with the next line, if anything. Odd bytes come up more often, since there are many of them.
fn pick_wrong(cells: &mut Cells) -> Option<Wrong> {
    match draw(cells, 400) {
        0 | 17..=18 => Some(Wrong::OddLabel),
        1 => Some(Wrong::Label),
        2 => Some(Wrong::NoBlank),
        3 => Some(Wrong::NineDigits),
        4 => Some(Wrong::NoDigit),
        5 | 11..=13 => Some(Wrong::OddEnd),
        6 => Some(Wrong::Processor),
        7 => Some(Wrong::Variable),
        8 => Some(Wrong::Empty),
        9 => Some(Wrong::Long),
        10 | 14..=16 => Some(Wrong::OddBlank),
        _ => None,
    }
}

fn put_whole_line(cells: &mut Cells, start: u32) -> u32 {
    let wrong = pick_wrong(cells);
    let end = put_line(cells, start, wrong);
    put_byte(cells, end, NEWLINE)
}

// n lines: where they end.
fn put_lines(cells: &mut Cells, n: u32) -> u32 {
    let mut at = 0;
    for _ in 0..n {
        at = put_whole_line(cells, at);
    }
    at
}

// A trace: its length. The last line may lack its newline.
pub(crate) fn put_trace(cells: &mut Cells) -> u32 {
    let lines = draw(cells, 90);
    let end = put_lines(cells, lines);
    let cut = draw(cells, 3);
    if cut == 0 { less(end, 1) } else { end }
}

// The length of a table, one more or one less than it should be.
fn wrong_length(table: Table, more: bool) -> u32 {
    let right = layout::right_length(table);
    if more { sum(right, 1) } else { less(right, 1) }
}

fn table_of(number: u32) -> Option<Table> {
    match number {
        0 => Some(Table::Numbers),
        1 => Some(Table::Counters),
        2 => Some(Table::Marks),
        3 => Some(Table::Words),
        4 => Some(Table::Memory),
        _ => None,
    }
}

// Once in 20 times a table is lent at a wrong length. The number drawn for it may name a sixth table, which a trace does
// not have.
pub(crate) fn pick_wrong_length(cells: &mut Cells) -> Option<WrongLength> {
    let roll = draw(cells, 20);
    let number = draw(cells, TABLES + 1);
    let more = draw(cells, 2) == 0;
    if roll != 0 {
        return None;
    }
    let table = table_of(number)?;
    let length = wrong_length(table, more);
    Some(WrongLength { table, length })
}
