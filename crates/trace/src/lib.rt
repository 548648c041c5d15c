// A din trace counted over lent tables, in chunks of any size. Only a few numbers are kept between two chunks.
#![tactic(auto)]

ghost use Rattle.std.specs.Prelude.{◌≡◌};
ghost use Rattle.protocol.specs.Tables.{fresh};
ghost use Rattle.protocol.specs.Lent.{lent, TrueMasks};
ghost use Rattle.protocol.specs.Masks.{masks_of};
ghost use Rattle.trace_lines.specs.Trace.{trace_setup, report_numbers, answer_numbers, ended, ended_on};
ghost use Rattle.trace_count.specs.Counting.{count_numbers, count_stage, Countable, AtStart};
ghost use Rattle.trace.specs.Feeding.{fed, finished, reporting};

use protocol_types::Refusal;
use trace_count::{Count, end_line};
use trace_lines::{Report, trace_setup};

// The length of the masks: one for each block of the setup.
pub const BLOCKS: usize = 64;

// More bytes of a trace, from the start of a line on. A line that lies whole there is parsed where it lies; of one that is cut the bytes are kept as a few numbers.
fn feed_lines(
    count: Count,
    bytes: &[u8],
    blocks: &mut [u32],
    counters: &mut [u32],
    marks: &mut [u32],
    words: &mut [u32],
    memory: &mut [u32],
    masks: &mut [u8],
) -> Count
    requires at_start { AtStart (count_numbers count) }
    requires countable { Countable (count_stage count (lent blocks.old counters.old marks.old words.old memory.old)) }
    requires true_masks { TrueMasks trace_setup (lent blocks.old counters.old marks.old words.old memory.old) masks.old }
    ensures memory_value { count_stage result (lent blocks.new counters.new marks.new words.new memory.new)
        ≡ fed (count_stage count (lent blocks.old counters.old marks.old words.old memory.old)) bytes.now }
    ensures masks_after { masks.new ≡ masks_of trace_setup (lent blocks.new counters.new marks.new words.new memory.new) }
{
    let mut so_far = count;
    let mut rest = bytes;
    'lines: loop {
        let first = trace_din::first_line(rest);
        if first.end >= rest.len() {
            return so_far.lengthen(rest);
        }
        so_far = end_line(
            so_far,
            first.parsed,
            blocks,
            counters,
            marks,
            words,
            memory,
            masks,
        );
        if so_far.refusal.is_some() {
            return so_far;
        }
        rest = &rest[first.end + 1..];
    }
}

// More bytes of a trace: the rest of the current line, then the lines behind it.
pub fn feed(
    count: Count,
    bytes: &[u8],
    blocks: &mut [u32],
    counters: &mut [u32],
    marks: &mut [u32],
    words: &mut [u32],
    memory: &mut [u32],
    masks: &mut [u8],
) -> Count
    requires countable { Countable (count_stage count (lent blocks.old counters.old marks.old words.old memory.old)) }
    requires true_masks { TrueMasks trace_setup (lent blocks.old counters.old marks.old words.old memory.old) masks.old }
    ensures memory_value { count_stage result (lent blocks.new counters.new marks.new words.new memory.new)
        ≡ fed (count_stage count (lent blocks.old counters.old marks.old words.old memory.old)) bytes.now }
    ensures masks_after { masks.new ≡ masks_of trace_setup (lent blocks.new counters.new marks.new words.new memory.new) }
{
    if count.refusal.is_some() {
        return count;
    }
    let end = trace_din::line_end(bytes, 0);
    let longer = count.lengthen(&bytes[..end]);
    if end >= bytes.len() {
        return longer;
    }
    let next = end_line(
        longer,
        longer.line.parsed(),
        blocks,
        counters,
        marks,
        words,
        memory,
        masks,
    );
    if next.refusal.is_some() {
        return next;
    }
    feed_lines(
        next,
        &bytes[end + 1..],
        blocks,
        counters,
        marks,
        words,
        memory,
        masks,
    )
}

// The end of the input: a last line may lack its newline.
pub fn finish(
    count: Count,
    blocks: &mut [u32],
    counters: &mut [u32],
    marks: &mut [u32],
    words: &mut [u32],
    memory: &mut [u32],
    masks: &mut [u8],
) -> Report
    requires countable { Countable (count_stage count (lent blocks.old counters.old marks.old words.old memory.old)) }
    requires true_masks { TrueMasks trace_setup (lent blocks.old counters.old marks.old words.old memory.old) masks.old }
    ensures memory_value { reporting (report_numbers result) (lent blocks.new counters.new marks.new words.new memory.new)
        ≡ finished (count_stage count (lent blocks.old counters.old marks.old words.old memory.old)) }
    ensures masks_after { masks.new ≡ masks_of trace_setup (lent blocks.new counters.new marks.new words.new memory.new) }
{
    let between_lines = count.line.width == 0;
    if count.refusal.is_some() || between_lines {
        return count.reported();
    }
    let last = end_line(
        count,
        count.line.parsed(),
        blocks,
        counters,
        marks,
        words,
        memory,
        masks,
    );
    last.reported()
}

// A whole trace, on fresh tables.
fn count_fresh(
    bytes: &[u8],
    blocks: &mut [u32],
    counters: &mut [u32],
    marks: &mut [u32],
    words: &mut [u32],
    memory: &mut [u32],
    masks: &mut [u8],
) -> Report
    requires memory_value { lent blocks.old counters.old marks.old words.old memory.old ≡ fresh trace_setup }
    requires true_masks { TrueMasks trace_setup (lent blocks.old counters.old marks.old words.old memory.old) masks.old }
    ensures { reporting (report_numbers result) (lent blocks.new counters.new marks.new words.new memory.new) ≡ ended bytes.now }
{
    let count = feed(
        Count::new(),
        bytes,
        blocks,
        counters,
        marks,
        words,
        memory,
        masks,
    );
    finish(count, blocks, counters, marks, words, memory, masks)
}

// A whole trace. The tables are started here, whatever they held, with masks that live only here; tables of the wrong lengths are refused by 2, and stay as they are.
pub fn count_trace(
    bytes: &[u8],
    blocks: &mut [u32],
    counters: &mut [u32],
    marks: &mut [u32],
    words: &mut [u32],
    memory: &mut [u32],
) -> Result<Report, Refusal>
    ensures { reporting (answer_numbers result) (lent blocks.new counters.new marks.new words.new memory.new)
        ≡ ended_on (lent blocks.old counters.old marks.old words.old memory.old) bytes.now }
{
    let mut masks = [0u8; BLOCKS];
    if let Err(refusal) = engine_tables::start(
        trace_setup(),
        blocks,
        counters,
        marks,
        words,
        memory,
        &mut masks,
    ) {
        return Err(refusal);
    }
    Ok(count_fresh(bytes, blocks, counters, marks, words, memory, &mut masks))
}
