// A line of a cache emptied, its block written back, and a whole cache cleared.
#![tactic(auto)]

ghost use Rattle.std.specs.Prelude.{◌≡◌, List, ℕ, ◌<◌};
ghost use Rattle.protocol_types.specs.Lists.{at};
ghost use Rattle.protocol_types.specs.Board.{Fits, slots};
ghost use Rattle.protocol.specs.Tables.{Sized};
ghost use Rattle.protocol.specs.Lent.{lent, PerSlot, PerSlotWord, PerVariable, TrueMasks};
ghost use Rattle.protocol.specs.Masks.{masks_of};
ghost use Rattle.engine_masks.specs.Copies.{Proper, StandsAt};
ghost use Rattle.protocol.specs.Rules.{emptied, written_back, saved, save_cycles, evicted, cleared, clear_cycles};

use engine_masks::lose_at;
use parts::{clear_row, copy_row};
use protocol_types::Setup;

// Slot k becomes empty.
#[tactic(auto, unfolding(protocol::specs::Rules::emptied))]
pub fn empty_line(
    setup: Setup,
    k: usize,
    blocks: &mut [u32],
    counters: &mut [u32],
    marks: &mut [u32],
    words: &mut [u32],
)
    requires k_bound { k < slots setup }
    requires per_slot { PerSlot setup blocks.old × PerSlot setup counters.old × PerSlot setup marks.old × PerSlotWord setup words.old }
    ensures { (g : List ℕ) → lent blocks.new counters.new marks.new words.new g ≡ emptied setup (lent blocks.old counters.old marks.old words.old g) k }
{
    blocks[k] = 0;
    counters[k] = 0;
    marks[k] = 0;
    clear_row(setup, k, words);
}

// Main memory takes the words of slot `from`, whose mark clears.
#[tactic(auto, unfolding(protocol::specs::Rules::written_back, protocol::specs::Tables::line_words))]
pub fn write_back(
    setup: Setup,
    from: usize,
    blocks: &[u32],
    marks: &mut [u32],
    words: &[u32],
    memory: &mut [u32],
)
    requires from_bound { from < slots setup }
    requires from_bound_2 { at blocks.now from < setup.blocks }
    requires per_slot { PerSlot setup blocks.now × PerSlot setup marks.old × PerSlotWord setup words.now × PerVariable setup memory.old }
    ensures { (c : List ℕ) → lent blocks.now c marks.new words.now memory.new ≡ written_back setup (lent blocks.now c marks.old words.now memory.old) from }
{
    let block = blocks[from] as usize;
    marks[from] = 0;
    copy_row(setup, words, from, memory, block);
}

// Slot k is written back if it is marked. Returns the cycles.
#[tactic(auto, unfolding(protocol::specs::Rules::save_cycles, protocol::specs::Rules::saved, protocol::specs::Tables::marked))]
fn save(
    setup: Setup,
    k: usize,
    blocks: &[u32],
    marks: &mut [u32],
    words: &[u32],
    memory: &mut [u32],
) -> u32
    requires k_bound { k < slots setup }
    requires k_bound_2 { at blocks.now k < setup.blocks }
    requires per_slot { PerSlot setup blocks.now × PerSlot setup marks.old × PerSlotWord setup words.now × PerVariable setup memory.old }
    ensures by_index { (c : List ℕ) → result ≡ save_cycles setup (lent blocks.now c marks.old words.now memory.old) k }
    ensures by_index_2 { (c : List ℕ) → lent blocks.now c marks.new words.now memory.new ≡ saved setup (lent blocks.now c marks.old words.now memory.old) k }
{
    if marks[k] != 1 {
        return 0;
    }
    write_back(setup, k, blocks, marks, words, memory);
    setup.write_back_price()
}

// The block at slot k of a processor leaves. Returns the cycles.
pub fn evict(
    setup: Setup,
    processor: u32,
    k: usize,
    blocks: &mut [u32],
    counters: &mut [u32],
    marks: &mut [u32],
    words: &mut [u32],
    memory: &mut [u32],
    masks: &mut [u8],
) -> u32
    requires fits { Fits setup }
    requires processor_lt_processors { (processor < setup.processors) × (k < slots setup) }
    requires k_bound { at blocks.old k < setup.blocks }
    requires stands_at { StandsAt setup (lent blocks.old counters.old marks.old words.old memory.old) processor k }
    requires sized { Sized setup (lent blocks.old counters.old marks.old words.old memory.old) }
    requires true_masks { TrueMasks setup (lent blocks.old counters.old marks.old words.old memory.old) masks.old }
    ensures value { result ≡ save_cycles setup (lent blocks.old counters.old marks.old words.old memory.old) k }
    ensures memory_value { lent blocks.new counters.new marks.new words.new memory.new ≡ evicted setup (lent blocks.old counters.old marks.old words.old memory.old) k }
    ensures masks_after { masks.new ≡ masks_of setup (lent blocks.new counters.new marks.new words.new memory.new) }
{
    lose_at(processor, k, blocks, counters, masks);
    let cycles = save(setup, k, blocks, marks, words, memory);
    empty_line(setup, k, blocks, counters, marks, words);
    cycles
}

// Processor i's cache is cleared, from line 0 up. Returns the cycles.
pub fn clear(
    setup: Setup,
    i: u32,
    blocks: &mut [u32],
    counters: &mut [u32],
    marks: &mut [u32],
    words: &mut [u32],
    memory: &mut [u32],
    masks: &mut [u8],
) -> u32
    requires fits { Fits setup }
    requires i_lt_processors { i < setup.processors }
    requires by_index { (k : ℕ) → at blocks.old k < setup.blocks }
    requires proper { Proper setup (lent blocks.old counters.old marks.old words.old memory.old) }
    requires sized { Sized setup (lent blocks.old counters.old marks.old words.old memory.old) }
    requires true_masks { TrueMasks setup (lent blocks.old counters.old marks.old words.old memory.old) masks.old }
    ensures value { result ≡ clear_cycles setup (lent blocks.old counters.old marks.old words.old memory.old) i setup.lines }
    ensures memory_value { lent blocks.new counters.new marks.new words.new memory.new ≡ cleared setup (lent blocks.old counters.old marks.old words.old memory.old) i setup.lines }
    ensures masks_after { masks.new ≡ masks_of setup (lent blocks.new counters.new marks.new words.new memory.new) }
{
    let n = setup.lines;
    let mut cycles = 0;
    for l in 0..n {
        let k = setup.line_slot(i, l);
        cycles += evict(setup, i, k, blocks, counters, marks, words, memory, masks);
    }
    cycles
}
