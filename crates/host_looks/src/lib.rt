// A look as an offset and a length, for hosts to which no slice can be given back.
#![tactic(auto)]

ghost use Rattle.std.specs.Prelude.{◌≡◌};
ghost use Rattle.host_looks.specs.Looks.{look_length, look_offset};

use protocol_types::{Block, Setup};

// The length of the part of the words that a look shows.
#[tactic(auto, unfolding(crate::specs::Looks::look_length))]
pub fn look_length(
    setup: Setup,
    processor: u32,
    block: Block,
    blocks: &[u32],
    counters: &[u32],
    words: &[u32],
) -> usize
    ensures { result ≡ look_length setup blocks.now counters.now words.now processor block }
{
    let shown = engine_tables::look(setup, processor, block, blocks, counters, words);
    shown.len()
}

// Where that part begins.
#[tactic(auto, using(crate::proofs::Looks::shows))]
pub fn look_offset(
    setup: Setup,
    processor: u32,
    block: Block,
    blocks: &[u32],
    counters: &[u32],
    words: &[u32],
) -> usize
    ensures { result ≡ look_offset setup blocks.now counters.now words.now processor block }
{
    if look_length(setup, processor, block, blocks, counters, words) == 0 {
        return 0;
    }
    setup.slot(processor, block) * setup.words as usize
}
