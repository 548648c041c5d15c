// A line of a din trace that is not whole yet. Only a few numbers are kept of it, however long it is.
#![tactic(auto)]

ghost use Rattle.std.specs.Prelude.{◌≡◌};
ghost use Rattle.trace_scan.specs.Automaton.{after_blanks, after_digits, scanned_byte, new_line, with_byte, with_bytes, scan_parsed};

use trace_din::{ADDRESS_DIGITS, LINE_LIMIT, Parsed, hex_value, is_blank, is_gap, shift};

// How far a line has come: its label, then blanks, then the count of digits and the address so far, then ignored text.
#[derive(Clone, Copy)]
pub enum Scan {
    Start,
    Label {
        label: u32,
    },
    Blanks {
        label: u32,
    },
    Digits {
        label: u32,
        count: u32,
        address: u32,
    },
    Rest {
        label: u32,
        address: u32,
    },
    Bad,
}

// A line's bytes so far, up to the limit, and what they are.
#[derive(Clone, Copy)]
pub struct Line {
    pub width: u32,
    pub scan: Scan,
}

#[tactic(auto, unfolding(crate::specs::Automaton::scanned_byte, trace_din::specs::Lines::is_digit))]
fn at_start(b: u8) -> Scan
    ensures { result ≡ scanned_byte Scan.Start b }
{
    match b {
        b'0'..=b'9' => Scan::Label {
            label: (b - b'0') as u32,
        },
        _ => Scan::Bad,
    }
}

#[tactic(auto, unfolding(crate::specs::Automaton::scanned_byte))]
fn after_label(label: u32, b: u8) -> Scan
    ensures { result ≡ scanned_byte (Scan.Label label) b }
{
    if is_blank(b) {
        Scan::Blanks { label }
    } else {
        Scan::Bad
    }
}

#[tactic(auto, unfolding(crate::specs::Automaton::after_blanks))]
fn after_blanks(label: u32, b: u8) -> Scan
    ensures { result ≡ after_blanks label b }
{
    if is_blank(b) {
        return Scan::Blanks { label };
    }
    match hex_value(b) {
        Some(digit) => Scan::Digits {
            label,
            count: 1,
            address: digit,
        },
        None => Scan::Bad,
    }
}

#[tactic(auto, unfolding(crate::specs::Automaton::after_digits))]
fn after_digits(label: u32, count: u32, address: u32, b: u8) -> Scan
    ensures { result ≡ after_digits label count address b }
{
    match hex_value(b) {
        Some(digit) if count < ADDRESS_DIGITS => Scan::Digits {
            label,
            count: count + 1,
            address: shift(address, digit),
        },
        None if is_gap(b) => Scan::Rest { label, address },
        _ => Scan::Bad,
    }
}

impl Scan {
    // One byte more.
    #[tactic(auto, unfolding(crate::specs::Automaton::scanned_byte))]
    pub fn byte(self, b: u8) -> Scan
        ensures { result ≡ scanned_byte self b }
    {
        match self {
            Scan::Start => at_start(b),
            Scan::Label { label } => after_label(label, b),
            Scan::Blanks { label } => after_blanks(label, b),
            Scan::Digits {
                label,
                count,
                address,
            } => after_digits(label, count, address, b),
            Scan::Rest { .. } | Scan::Bad => self,
        }
    }

    // What the line says, if it ends here; None if it is malformed.
    #[tactic(auto, unfolding(crate::specs::Automaton::scan_parsed))]
    pub fn parsed(self) -> Option<Parsed>
        ensures { result ≡ scan_parsed self }
    {
        match self {
            Scan::Digits { label, address, .. } | Scan::Rest { label, address } => {
                Some(Parsed { label, address })
            }
            Scan::Start | Scan::Label { .. } | Scan::Blanks { .. } | Scan::Bad => None,
        }
    }
}

impl Line {
    // A line of no bytes.
    pub fn new() -> Self
        ensures { result ≡ new_line }
    {
        Self {
            width: 0,
            scan: Scan::Start,
        }
    }

    // The line with one byte more, which is no newline.
    #[tactic(auto, unfolding(crate::specs::Automaton::with_byte))]
    pub fn byte(self, b: u8) -> Line
        ensures { result ≡ with_byte self b }
    {
        if self.width < LINE_LIMIT {
            Line {
                width: self.width + 1,
                scan: self.scan.byte(b),
            }
        } else {
            Line {
                width: LINE_LIMIT,
                scan: Scan::Bad,
            }
        }
    }

    // The line with more bytes, none of them a newline.
    pub fn bytes(self, more: &[u8]) -> Line
        ensures { result ≡ with_bytes self more.now }
    {
        more.iter().fold(self, |line, b| line.byte(*b))
    }

    // What the line says, if it ends here; None if it is malformed.
    pub fn parsed(self) -> Option<Parsed>
        ensures { result ≡ scan_parsed self.scan }
    {
        self.scan.parsed()
    }
}
