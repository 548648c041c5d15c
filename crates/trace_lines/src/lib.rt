// What a line of a trace asks for.
#![tactic(auto)]

ghost use Rattle.std.specs.Prelude.{◌≡◌};
ghost use Rattle.trace_lines.specs.Trace.{trace_setup, processor_at, variable_at, interpreted_label, interpreted, report_numbers, answer_numbers};

use protocol_types::{Account, Operation, Refusal, Request, Setup, Variable};
use trace_din::Parsed;

// The addresses of one processor: its number is the top byte.
const PROCESSOR_STRIDE: u32 = 16777216;

// A refusal, and the number of the line that it ended a trace at.
#[derive(Clone, Copy)]
pub struct RefusedLine {
    pub refusal: Refusal,
    pub line: u32,
}

// What is reported of a trace: the account, and the line that was refused, if one was.
#[derive(Clone, Copy)]
pub struct Report {
    pub account: Account,
    pub refused: Option<RefusedLine>,
}

// A report in the documents' numbers: those of the refusal and its line are 0 and 0 if no line was refused.
#[derive(Clone, Copy)]
pub struct ReportNumbers {
    pub account: Account,
    pub refusal: u32,
    pub line: u32,
}

impl Report {
    pub fn numbers(self) -> ReportNumbers
        ensures { result ≡ report_numbers self }
    {
        let account = self.account;
        match self.refused {
            Some(RefusedLine { refusal, line }) => ReportNumbers {
                account,
                refusal: refusal.number(),
                line,
            },
            None => ReportNumbers {
                account,
                refusal: 0,
                line: 0,
            },
        }
    }
}

// The numbers of a trace that was counted, or whose tables were refused: nothing is counted on those.
pub fn answer_numbers(answer: Result<Report, Refusal>) -> ReportNumbers
    ensures { result ≡ answer_numbers answer }
{
    match answer {
        Ok(report) => report.numbers(),
        Err(refusal) => ReportNumbers {
            account: Account {
                requests: 0,
                fetch: 0,
                write_back: 0,
                update: 0,
            },
            refusal: refusal.number(),
            line: 0,
        },
    }
}

// The setup of every trace.
#[tactic(auto, unfolding(crate::specs::Trace::trace_setup))]
pub fn trace_setup() -> Setup
    ensures { result ≡ trace_setup }
{
    Setup {
        processors: 4,
        lines: 8,
        words: 4,
        blocks: 64,
        fetch_price: 4,
        write_back_price: 4,
    }
}

// The top byte of an address.
#[tactic(auto, unfolding(crate::specs::Trace::processor_at))]
fn processor_at(address: u32) -> u32
    ensures { result ≡ processor_at address }
{
    address / PROCESSOR_STRIDE
}

// The low 24 bits of an address, divided by 4.
#[tactic(auto, unfolding(crate::specs::Trace::variable_at))]
fn variable_at(address: u32) -> Variable
    ensures { result ≡ variable_at address }
{
    Variable(address % PROCESSOR_STRIDE / 4)
}

// The table of labels: what line `number` asks for by its label and address.
#[tactic(auto, unfolding(crate::specs::Trace::interpreted_label))]
fn interpret_label(number: u32, label: u32, address: u32) -> Result<Request, Refusal>
    ensures { result ≡ interpreted_label number label address }
{
    let operation = match label {
        0 | 2 => Operation::Read(variable_at(address)),
        1 => Operation::Write(variable_at(address), number),
        4 => Operation::Clear,
        _ => return Err(Refusal::UnknownLabel),
    };
    Ok(Request {
        processor: processor_at(address),
        operation,
    })
}

// What line `number` asks for, from what it says; None says that it is malformed.
pub fn interpret(number: u32, parsed: Option<Parsed>) -> Result<Request, Refusal>
    ensures { result ≡ interpreted number parsed }
{
    let parsed = parsed.ok_or(Refusal::MalformedLine)?;
    interpret_label(number, parsed.label, parsed.address)
}
