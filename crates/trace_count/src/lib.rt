// What a trace has come to so far, and its current line counted over the lent tables.
#![tactic(auto)]

ghost use Rattle.std.specs.Prelude.{◌≡◌, ◌<◌};
ghost use Rattle.protocol.specs.Lent.{lent, TrueMasks};
ghost use Rattle.protocol.specs.Masks.{masks_of};
ghost use Rattle.protocol_types.specs.Conditions.{request_limit};
ghost use Rattle.protocol_types.specs.Refusals.{number};
ghost use Rattle.protocol.specs.Accounts.{entered, Spent, bill_of};
ghost use Rattle.trace_lines.specs.Trace.{trace_setup, report_numbers};
ghost use Rattle.trace_count.specs.Counting.{count_numbers, count_stage, fresh_count, lengthened, line_refused, line_counted, line_ended, reported, Countable};

use protocol_types::{Account, Bill, Refusal, Request};
use trace_din::Parsed;
use trace_lines::{RefusedLine, Report, interpret, trace_setup};
use trace_scan::Line;

// A trace so far: its current line and that line's number, what the lines before came to, and the refusal of that line, at which the trace ended.
#[derive(Clone, Copy)]
pub struct Count {
    pub line: Line,
    pub line_number: u32,
    pub account: Account,
    pub refusal: Option<Refusal>,
}

impl Count {
    // A trace before its first byte.
    pub fn new() -> Self
        ensures { count_numbers result ≡ fresh_count }
    {
        Self {
            line: Line::new(),
            line_number: 1,
            account: Account {
                requests: 0,
                fetch: 0,
                write_back: 0,
                update: 0,
            },
            refusal: None,
        }
    }

    // More bytes of the current line, none of them a newline.
    pub fn lengthen(self, bytes: &[u8]) -> Count
        ensures { count_numbers result ≡ lengthened (count_numbers self) bytes.now }
    {
        Count {
            line: self.line.bytes(bytes),
            ..self
        }
    }

    // The current line is refused.
    fn refuse_line(self, refusal: Refusal) -> Count
        ensures { count_numbers result ≡ line_refused (number refusal) (count_numbers self) }
    {
        Count {
            line: Line::new(),
            refusal: Some(refusal),
            ..self
        }
    }

    // What is reported of a trace that ends here.
    pub fn reported(self) -> Report
        ensures { report_numbers result ≡ reported (count_numbers self) }
    {
        Report {
            account: self.account,
            refused: self.refusal.map(|refusal| RefusedLine {
                refusal,
                line: self.line_number,
            }),
        }
    }
}

// The account after a request with this bill.
fn enter(account: Account, bill: Bill) -> Account
    requires requests_lt_request_limit { account.requests < request_limit }
    requires spent { Spent trace_setup account.requests (bill_of account) }
    requires spent_2 { Spent trace_setup 1 bill }
    ensures { result ≡ entered account 1 bill }
{
    Account {
        requests: account.requests + 1,
        fetch: account.fetch + bill.fetch,
        write_back: account.write_back + bill.write_back,
        update: account.update + bill.update,
    }
}

// The current line asks for this request, which is served, or refused.
fn take_request(
    count: Count,
    request: Request,
    blocks: &mut [u32],
    counters: &mut [u32],
    marks: &mut [u32],
    words: &mut [u32],
    memory: &mut [u32],
    masks: &mut [u8],
) -> Count
    requires countable { Countable (count_stage count (lent blocks.old counters.old marks.old words.old memory.old)) }
    requires true_masks { TrueMasks trace_setup (lent blocks.old counters.old marks.old words.old memory.old) masks.old }
    ensures memory_value { count_stage result (lent blocks.new counters.new marks.new words.new memory.new)
        ≡ line_counted (count_stage count (lent blocks.old counters.old marks.old words.old memory.old)) (Ok request) }
    ensures masks_after { masks.new ≡ masks_of trace_setup (lent blocks.new counters.new marks.new words.new memory.new) }
{
    let setup = trace_setup();
    if let Err(refusal) = setup.check_request(count.account.requests, request) {
        return count.refuse_line(refusal);
    }
    let done = engine::serve(
        setup, request, blocks, counters, marks, words, memory, masks,
    );
    Count {
        line: Line::new(),
        line_number: count.line_number + 1,
        account: enter(count.account, done.bill),
        refusal: None,
    }
}

// The current line ends, and is so parsed.
pub fn end_line(
    count: Count,
    parsed: Option<Parsed>,
    blocks: &mut [u32],
    counters: &mut [u32],
    marks: &mut [u32],
    words: &mut [u32],
    memory: &mut [u32],
    masks: &mut [u8],
) -> Count
    requires countable { Countable (count_stage count (lent blocks.old counters.old marks.old words.old memory.old)) }
    requires true_masks { TrueMasks trace_setup (lent blocks.old counters.old marks.old words.old memory.old) masks.old }
    ensures memory_value { count_stage result (lent blocks.new counters.new marks.new words.new memory.new)
        ≡ line_ended (count_stage count (lent blocks.old counters.old marks.old words.old memory.old)) parsed }
    ensures masks_after { masks.new ≡ masks_of trace_setup (lent blocks.new counters.new marks.new words.new memory.new) }
{
    match interpret(count.line_number, parsed) {
        Ok(request) => take_request(
            count, request, blocks, counters, marks, words, memory, masks,
        ),
        Err(refusal) => count.refuse_line(refusal),
    }
}
