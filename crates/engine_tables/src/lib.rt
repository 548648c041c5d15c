// Starting and looking.
#![tactic(auto)]

ghost use Rattle.std.specs.Prelude.{◌≡◌};
ghost use Rattle.protocol_types.specs.Board.{Fits};
ghost use Rattle.protocol_types.specs.Refusals.{refusal_number};
ghost use Rattle.protocol.specs.Lent.{lent_masked};
ghost use Rattle.protocol.specs.Runs.{start_refusal, started, looked};
ghost use Rattle.engine_tables.specs.Entries.{lengths_fit, seen};

use parts::set_all;
use protocol_types::{Block, Refusal, Setup};

// Whether tables and masks of these lengths are let through by condition 2.
#[tactic(auto, unfolding(crate::specs::Entries::lengths_fit))]
pub fn lengths_fit(
    setup: Setup,
    blocks: usize,
    counters: usize,
    marks: usize,
    words: usize,
    memory: usize,
    masks: usize,
) -> bool
    requires { Fits setup }
    ensures { result ≡ lengths_fit setup blocks counters marks words memory masks }
{
    let slots = setup.slot_count();
    let variables = setup.variable_count() as usize;
    blocks == slots
        && counters == slots
        && marks == slots
        && words == setup.word_count()
        && memory == variables
        && masks == setup.blocks as usize
}

// Fills all tables and masks with 0.
pub fn start(
    setup: Setup,
    blocks: &mut [u32],
    counters: &mut [u32],
    marks: &mut [u32],
    words: &mut [u32],
    memory: &mut [u32],
    masks: &mut [u8],
) -> Result<(), Refusal>
    ensures value { refusal_number result ≡ start_refusal setup (lent_masked blocks.old counters.old marks.old words.old memory.old masks.old) }
    ensures masks_value { lent_masked blocks.new counters.new marks.new words.new memory.new masks.new ≡ started setup (lent_masked blocks.old counters.old marks.old words.old memory.old masks.old) }
{
    setup.check()?;
    if !lengths_fit(
        setup,
        blocks.len(),
        counters.len(),
        marks.len(),
        words.len(),
        memory.len(),
        masks.len(),
    ) {
        return Err(Refusal::WrongLength);
    }
    set_all(blocks, 0);
    set_all(counters, 0);
    set_all(marks, 0);
    set_all(words, 0);
    set_all(memory, 0);
    set_all(masks, 0);
    Ok(())
}

// Whether a look at a block in a processor's cache shows it, the words being `count`.
#[tactic(auto, unfolding(crate::specs::Entries::seen))]
fn sees(
    setup: Setup,
    processor: u32,
    block: Block,
    blocks: &[u32],
    counters: &[u32],
    count: usize,
) -> bool
    ensures { result ≡ seen setup blocks.now counters.now count processor block }
{
    if setup.check().is_err() {
        return false;
    }
    let slots = setup.slot_count();
    blocks.len() == slots
        && counters.len() == slots
        && count == setup.word_count()
        && processor < setup.processors
        && block.0 < setup.blocks
        && engine_holders::holds(setup, processor, block, blocks, counters)
}

// The words of a block in a processor's cache; none where it is not held there.
#[tactic(auto, using(crate::proofs::Tests::shown), unfolding(protocol_types::specs::Board::word_index))]
pub fn look<'a>(
    setup: Setup,
    processor: u32,
    block: Block,
    blocks: &[u32],
    counters: &[u32],
    words: &'a [u32],
) -> &'a [u32]
    ensures { result.now ≡ looked setup blocks.now counters.now words.now processor block }
{
    if !sees(setup, processor, block, blocks, counters, words.len()) {
        return &words[..0];
    }
    let n = setup.words as usize;
    let start = setup.slot(processor, block) * n;
    &words[start..start + n]
}
