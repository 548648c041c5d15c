// A processor that holds a block writes a word of it.
#![tactic(auto)]

ghost use Rattle.std.specs.Prelude.{◌≡◌, true, List, ℕ, ◌^◌, ◌≤◌, ◌<◌, eqb};
ghost use Rattle.protocol_types.specs.Lists.{at};
ghost use Rattle.protocol_types.specs.Board.{Fits, slots};
ghost use Rattle.protocol.specs.Tables.{Sized, counter, holds};
ghost use Rattle.protocol.specs.Lent.{lent, PerSlot, PerSlotWord, PerVariable, TrueMasks};
ghost use Rattle.protocol.specs.Masks.{holders, masks_of};
ghost use Rattle.protocol.specs.Rules.{written_alone, broadcast, charged, written, update_cycles};

use engine_holders::{payer, update_copies};
use engine_lines::charge;
use engine_masks::lose;
use parts::set_word;
use protocol_types::{Block, Setup};

// The only holder, at slot k, writes: its word changes and it is marked.
#[tactic(auto, unfolding(protocol::specs::Rules::written_alone))]
fn write_alone(
    setup: Setup,
    k: usize,
    offset: u32,
    value: u32,
    counters: &mut [u32],
    marks: &mut [u32],
    words: &mut [u32],
)
    requires fits { Fits setup }
    requires k_bound { k < slots setup }
    requires offset_lt_words { offset < setup.words }
    requires per_slot { PerSlot setup counters.old × PerSlot setup marks.old × PerSlotWord setup words.old }
    ensures { (b g : List ℕ) → lent b counters.new marks.new words.new g
        ≡ written_alone setup (lent b counters.old marks.old words.old g) k offset value }
{
    let full = setup.fetch_price();
    counters[k] = full;
    marks[k] = 1;
    set_word(setup, k, offset, value, words);
}

// The holder at slot `writer` writes a block that others hold too: the word changes in every copy and in main memory. `mask` is the block's mask of holders.
#[tactic(auto, unfolding(protocol::specs::Rules::broadcast))]
fn broadcast(
    setup: Setup,
    writer: usize,
    block: Block,
    offset: u32,
    value: u32,
    mask: u8,
    counters: &mut [u32],
    words: &mut [u32],
    memory: &mut [u32],
)
    requires fits { Fits setup }
    requires writer_bound { writer < slots setup }
    requires block_lt_blocks { block.0 < setup.blocks }
    requires offset_lt_words { offset < setup.words }
    requires mask_bound { mask < 2 ^ setup.processors }
    requires per_slot { PerSlot setup counters.old × PerSlotWord setup words.old × PerVariable setup memory.old }
    ensures { (b m : List ℕ) → mask ≡ holders setup (lent b counters.old m words.old memory.old) block
        → lent b counters.new m words.new memory.new
        ≡ broadcast setup (lent b counters.old m words.old memory.old) writer block offset value }
{
    update_copies(setup, block, offset, value, mask, words);
    set_word(setup, block.0 as usize, offset, value, memory);
    let full = setup.fetch_price();
    counters[writer] = full;
}

// The holder at slot `writer` writes a block that others hold too, and the payer at slot `payer` is charged. Returns whether the payer's line becomes empty.
#[tactic(auto, using(bits::proofs::Bits::mask_below, protocol_types::proofs::Laws::at_set), unfolding(protocol::specs::Masks::holders, protocol::specs::Rules::broadcast))]
fn write_shared(
    setup: Setup,
    writer: usize,
    payer: usize,
    block: Block,
    offset: u32,
    value: u32,
    mask: u8,
    blocks: &mut [u32],
    counters: &mut [u32],
    marks: &mut [u32],
    words: &mut [u32],
    memory: &mut [u32],
) -> bool
    requires fits { Fits setup }
    requires writer_bound { (writer < slots setup) × (payer < slots setup) }
    requires block_lt_blocks { block.0 < setup.blocks }
    requires offset_lt_words { offset < setup.words }
    requires bound { 1 ≤ at counters.old payer }
    requires mask_value { mask ≡ holders setup (lent blocks.old counters.old marks.old words.old memory.old) block }
    requires sized { Sized setup (lent blocks.old counters.old marks.old words.old memory.old) }
    ensures value { result ≡ eqb (counter (broadcast setup (lent blocks.old counters.old marks.old words.old memory.old) writer block offset value) payer) 1 }
    ensures memory_value { lent blocks.new counters.new marks.new words.new memory.new
        ≡ charged setup (broadcast setup (lent blocks.old counters.old marks.old words.old memory.old) writer block offset value) payer }
{
    broadcast(
        setup, writer, block, offset, value, mask, counters, words, memory,
    );
    charge(setup, payer, blocks, counters, marks, words)
}

// A processor that holds a block writes a word of it. Returns the update cycles.
pub fn write(
    setup: Setup,
    processor: u32,
    block: Block,
    offset: u32,
    value: u32,
    blocks: &mut [u32],
    counters: &mut [u32],
    marks: &mut [u32],
    words: &mut [u32],
    memory: &mut [u32],
    masks: &mut [u8],
) -> u32
    requires fits { Fits setup }
    requires processor_lt_processors { processor < setup.processors }
    requires block_lt_blocks { block.0 < setup.blocks }
    requires offset_lt_words { offset < setup.words }
    requires block_value { holds setup (lent blocks.old counters.old marks.old words.old memory.old) processor block ≡ true }
    requires sized { Sized setup (lent blocks.old counters.old marks.old words.old memory.old) }
    requires true_masks { TrueMasks setup (lent blocks.old counters.old marks.old words.old memory.old) masks.old }
    ensures value { result ≡ update_cycles setup (lent blocks.old counters.old marks.old words.old memory.old) processor block }
    ensures memory_value { lent blocks.new counters.new marks.new words.new memory.new ≡ written setup (lent blocks.old counters.old marks.old words.old memory.old) processor block offset value }
    ensures masks_after { masks.new ≡ masks_of setup (lent blocks.new counters.new marks.new words.new memory.new) }
{
    let k = setup.slot(processor, block);
    let b = block.0 as usize;
    let mask = masks[b];
    let Some(j) = payer(setup, processor, block, mask, counters) else {
        write_alone(setup, k, offset, value, counters, marks, words);
        return 0;
    };
    let emptied = write_shared(
        setup,
        k,
        setup.slot(j, block),
        block,
        offset,
        value,
        mask,
        blocks,
        counters,
        marks,
        words,
        memory,
    );
    if !emptied {
        return 1;
    }
    lose(block, j, masks);
    1
}
