// Reads a din trace on standard input and prints what it came to.
#![tactic(auto)]

ghost use Rattle.std.specs.Prelude.{◌≡◌, ◌≤◌, ◌*◌, length, is_err, IfOk};
ghost use Rattle.std.specs.Result.{result_ok};
ghost use Rattle.protocol.specs.Tables.{Tables, fresh};
ghost use Rattle.protocol.specs.Lent.{lent, TrueMasks};
ghost use Rattle.protocol.specs.Masks.{masks_of};
ghost use Rattle.trace_lines.specs.Trace.{trace_setup};
ghost use Rattle.trace_count.specs.Counting.{count_stage, Countable};
ghost use Rattle.trace_report.specs.Reading.{read_of, reading, after_read, Took, so_far, Reached, Reported, Withheld, Delivered};

use std::io;
use std::io::Read;
use std::ops::ControlFlow;
use trace::BLOCKS;
use trace_count::Count;
use trace_lines::Report;

// The lengths of the tables of the setup.
const SLOTS: usize = 32;

const WORDS: usize = 128;

const VARIABLES: usize = 256;

// How many bytes are read at once.
const BUFFER: usize = 65536;

// A read failed: what the trace had come to before it.
#[derive(Clone, Copy)]
pub struct ReadFailed<T> {
    pub before: T,
}

// What a read led to: a count after which more is to be read, or how the reading ended.
type Turn = ControlFlow<Result<Count, ReadFailed<Count>>, Count>;

// Counts what a read brought, by its answer. Reading stops at the end of the input, at an error and after a refusal.
fn count_read(
    answer: io::Result<usize>,
    count: Count,
    buffer: &[u8],
    blocks: &mut [u32],
    counters: &mut [u32],
    marks: &mut [u32],
    words: &mut [u32],
    memory: &mut [u32],
    masks: &mut [u8],
) -> Turn
    requires within { IfOk answer (λ n. n ≤ length buffer.now) }
    requires countable { Countable (count_stage count (lent blocks.old counters.old marks.old words.old memory.old)) }
    requires true_masks { TrueMasks trace_setup (lent blocks.old counters.old marks.old words.old memory.old) masks.old }
    ensures memory_value { reading result (lent blocks.new counters.new marks.new words.new memory.new)
        ≡ after_read (count_stage count (lent blocks.old counters.old marks.old words.old memory.old)) (read_of (result_ok answer) buffer.now) }
    ensures masks_after { masks.new ≡ masks_of trace_setup (lent blocks.new counters.new marks.new words.new memory.new) }
{
    let Ok(n) = answer else {
        return ControlFlow::Break(Err(ReadFailed { before: count }));
    };
    if n == 0 {
        return ControlFlow::Break(Ok(count));
    }
    let next = trace::feed(
        count,
        &buffer[..n],
        blocks,
        counters,
        marks,
        words,
        memory,
        masks,
    );
    let refused = next.refusal.is_some();
    if refused {
        return ControlFlow::Break(Ok(next));
    }
    ControlFlow::Continue(next)
}

// Reads once, and counts what came.
fn read_some<R: Read>(
    input: &mut R,
    count: Count,
    buffer: &mut [u8],
    blocks: &mut [u32],
    counters: &mut [u32],
    marks: &mut [u32],
    words: &mut [u32],
    memory: &mut [u32],
    masks: &mut [u8],
) -> Turn
    requires countable { Countable (count_stage count (lent blocks.old counters.old marks.old words.old memory.old)) }
    requires true_masks { TrueMasks trace_setup (lent blocks.old counters.old marks.old words.old memory.old) masks.old }
    ensures took { Took (count_stage count (lent blocks.old counters.old marks.old words.old memory.old)) buffer.new
        (reading result (lent blocks.new counters.new marks.new words.new memory.new)) }
    ensures masks_after { masks.new ≡ masks_of trace_setup (lent blocks.new counters.new marks.new words.new memory.new) }
{
    let answer = input.read(buffer);
    count_read(
        answer, count, &*buffer, blocks, counters, marks, words, memory, masks,
    )
}

// Reads to the end of the trace, or up to a refusal or a failed read; more is to be read only where all turns of the range, which is there so that the loop ends, were made.
fn read_all<R: Read>(
    input: &mut R,
    buffer: &mut [u8],
    blocks: &mut [u32],
    counters: &mut [u32],
    marks: &mut [u32],
    words: &mut [u32],
    memory: &mut [u32],
    masks: &mut [u8],
) -> Turn
    requires memory_value { lent blocks.old counters.old marks.old words.old memory.old ≡ fresh trace_setup }
    requires true_masks { TrueMasks trace_setup (lent blocks.old counters.old marks.old words.old memory.old) masks.old }
    ensures reached { Reached (reading result (lent blocks.new counters.new marks.new words.new memory.new)) }
    ensures masks_after { masks.new ≡ masks_of trace_setup (lent blocks.new counters.new marks.new words.new memory.new) }
{
    let mut count = Count::new();
    for _turn in 0..u64::MAX {
        match read_some(
            input, count, buffer, blocks, counters, marks, words, memory, masks,
        ) {
            ControlFlow::Continue(more) => count = more,
            ControlFlow::Break(end) => return ControlFlow::Break(end),
        }
    }
    ControlFlow::Continue(count)
}

// How the reading ended, which it has too where all turns were made.
fn end_of(turn: Turn) -> Result<Count, ReadFailed<Count>>
    ensures { (t : Tables) → (is_err result ≡ (reading turn t).failed) × (count_stage (so_far result) t ≡ (reading turn t).stage) }
{
    match turn {
        ControlFlow::Continue(count) => Ok(count),
        ControlFlow::Break(end) => end,
    }
}

// The report of the trace on the input, or of what was read of it.
fn read_report<R: Read>(
    input: &mut R,
    blocks: &mut [u32],
    counters: &mut [u32],
    marks: &mut [u32],
    words: &mut [u32],
    memory: &mut [u32],
    masks: &mut [u8],
) -> Result<Report, ReadFailed<Report>>
    requires memory_value { lent blocks.old counters.old marks.old words.old memory.old ≡ fresh trace_setup }
    requires true_masks { TrueMasks trace_setup (lent blocks.old counters.old marks.old words.old memory.old) masks.old }
    ensures { Reported result }
{
    let mut buffer = [0u8; BUFFER];
    let last = read_all(
        input,
        &mut buffer,
        blocks,
        counters,
        marks,
        words,
        memory,
        masks,
    );
    match end_of(last) {
        Ok(count) => Ok(trace::finish(count, blocks, counters, marks, words, memory, masks)),
        Err(failed) => Err(ReadFailed {
            before: trace::finish(failed.before, blocks, counters, marks, words, memory, masks),
        }),
    }
}

// The report of the trace, or of what was read of it, and whether it was written.
#[derive(Clone, Copy)]
pub struct Delivery {
    pub answer: Result<Report, ReadFailed<Report>>,
    pub written: bool,
}

// Writes the report, or says on standard error why it is not written: whether it was. After a read error no totals are written, since they would be those of a part of the trace.
fn tell<R: Print + Eprint>(rt: &R, answer: Result<Report, ReadFailed<Report>>) -> bool
    ensures { Withheld (is_err answer) result }
{
    let Ok(report) = answer else {
        let _ = rt.eprintln("buscount: standard input could not be read.");
        return false;
    };
    let text = trace_text::render(report.numbers());
    if rt.write_all(text.written()).is_ok() {
        return true;
    }
    let _ = rt.eprintln("buscount: the report could not be written.");
    false
}

// The program `buscount`: what it answers, and whether that was written.
pub fn run<R: Input + Print + Eprint>(rt: &R) -> Delivery
    ensures { Delivered result }
{
    let mut blocks = [0u32; SLOTS];
    let mut counters = [0u32; SLOTS];
    let mut marks = [0u32; SLOTS];
    let mut words = [0u32; WORDS];
    let mut memory = [0u32; VARIABLES];
    let mut masks = [0u8; BLOCKS];
    let mut input = rt.reader();
    let answer = read_report(
        &mut input,
        &mut blocks,
        &mut counters,
        &mut marks,
        &mut words,
        &mut memory,
        &mut masks,
    );
    let written = tell(rt, answer);
    Delivery { answer, written }
}
