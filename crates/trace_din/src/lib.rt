// The lines of a din trace, parsed where they lie.
#![tactic(auto)]

ghost use Rattle.std.specs.Prelude.{◌≡◌, ◌<◌, ◌≤◌, length, IfSome};
ghost use Rattle.trace_din.specs.Lines.{is_text, is_digit, is_blank, is_gap, hex_digit};
ghost use Rattle.trace_din.specs.Digits.{shifted};
ghost use Rattle.trace_din.specs.Places.{EndsAt, AddressAt, RestAt, FirstOf};

// The most bytes of a line without its newline.
pub const LINE_LIMIT: u32 = 80;

// The most digits of an address.
pub const ADDRESS_DIGITS: u32 = 8;

// What a line that is not malformed says.
#[derive(Clone, Copy)]
pub struct Parsed {
    pub label: u32,
    pub address: u32,
}

// The value of a hexadecimal digit of either case; None of any other byte.
#[tactic(auto, unfolding(crate::specs::Lines::hex_value, crate::specs::Lines::is_hex))]
pub fn hex_value(b: u8) -> Option<u32>
    ensures value { result ≡ hex_digit b }
    ensures bound { IfSome result (λ d. d < 16) }
{
    match b {
        b'0'..=b'9' => Some((b - b'0') as u32),
        b'A'..=b'F' => Some((b - b'A') as u32 + 10),
        b'a'..=b'f' => Some((b - b'a') as u32 + 10),
        _ => None,
    }
}

// A blank or a tab.
#[tactic(auto, unfolding(crate::specs::Lines::is_blank))]
pub fn is_blank(b: u8) -> bool
    ensures { result ≡ is_blank b }
{
    matches!(b, b' ' | b'\t')
}

// A blank, a tab or a carriage return.
#[tactic(auto, unfolding(crate::specs::Lines::is_gap))]
pub fn is_gap(b: u8) -> bool
    ensures { result ≡ is_gap b }
{
    is_blank(b) || b == b'\r'
}

// One hexadecimal digit more.
pub fn shift(address: u32, digit: u32) -> u32
    requires { digit < 16 }
    ensures { result ≡ shifted address digit }
{
    address % 268435456 * 16 + digit
}

// A decimal digit.
#[tactic(auto, unfolding(crate::specs::Lines::is_digit))]
fn is_digit(b: u8) -> bool
    ensures { result ≡ is_digit b }
{
    b.is_ascii_digit()
}

// The first place from `from` on that has no blank or tab, or the bytes' end.
fn blanks_end(bytes: &[u8], from: usize) -> usize
    requires { from ≤ length bytes.now }
    ensures { EndsAt is_blank bytes.now from result }
{
    from + bytes[from..].iter().take_while(|b| is_blank(**b)).count()
}

// The hexadecimal digits from a place on: the place after them, and their number's low 32 bits.
#[derive(Clone, Copy)]
struct Address {
    end: usize,
    number: u32,
}

#[tactic(auto, using(crate::proofs::Leading::leads))]
fn address_at(bytes: &[u8], from: usize) -> Address
    requires { from ≤ length bytes.now }
    ensures { AddressAt bytes.now from result }
{
    let mut number = 0;
    for i in from..bytes.len() {
        let Some(digit) = hex_value(bytes[i]) else {
            return Address { end: i, number };
        };
        number = shift(number, digit);
    }
    Address {
        end: bytes.len(),
        number,
    }
}

// The place of the first newline from `from` on, or the bytes' end.
pub fn line_end(bytes: &[u8], from: usize) -> usize
    requires { from ≤ length bytes.now }
    ensures { EndsAt is_text bytes.now from result }
{
    from + bytes[from..].iter().take_while(|b| **b != b'\n').count()
}

// The first line of some bytes: what it says, None if it is malformed, and the place of its newline, or the bytes' end.
#[derive(Clone, Copy)]
pub struct FirstLine {
    pub parsed: Option<Parsed>,
    pub end: usize,
}

// The rest of a line with this label, from its address on. That a line may be too wide plays no part here.
fn rest_of_line(label: u32, bytes: &[u8], from: usize) -> FirstLine
    requires { from ≤ length bytes.now }
    ensures { RestAt label bytes.now from result }
{
    let address = address_at(bytes, from);
    let behind = address.end;
    let end = line_end(bytes, behind);
    let malformed = FirstLine { parsed: None, end };
    let count = behind - from;
    if count < 1 || count > ADDRESS_DIGITS as usize {
        return malformed;
    }
    if behind < end && !is_gap(bytes[behind]) {
        return malformed;
    }
    FirstLine {
        parsed: Some(Parsed {
            label,
            address: address.number,
        }),
        end,
    }
}

// The first line of some bytes, in one pass.
pub fn first_line(bytes: &[u8]) -> FirstLine
    ensures { FirstOf bytes.now result }
{
    if bytes.is_empty() {
        return FirstLine {
            parsed: None,
            end: 0,
        };
    }
    let first = bytes[0];
    if !is_digit(first) {
        return FirstLine {
            parsed: None,
            end: line_end(bytes, 0),
        };
    }
    let from = blanks_end(bytes, 1);
    if from == 1 {
        return FirstLine {
            parsed: None,
            end: line_end(bytes, 1),
        };
    }
    let rest = rest_of_line((first - b'0') as u32, bytes, from);
    if rest.end > LINE_LIMIT as usize {
        return FirstLine {
            parsed: None,
            end: rest.end,
        };
    }
    rest
}
