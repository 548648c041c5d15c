// A line of a cache filled by a fetch, and charged.
#![tactic(auto)]

ghost use Rattle.std.specs.Prelude.{◌≡◌, List, ℕ, ◌^◌, ◌≤◌, ◌<◌, eqb};
ghost use Rattle.protocol_types.specs.Lists.{at};
ghost use Rattle.protocol_types.specs.Board.{Fits, slots};
ghost use Rattle.protocol.specs.Tables.{Sized};
ghost use Rattle.protocol.specs.Lent.{lent, PerSlot, PerSlotWord, PerVariable};
ghost use Rattle.protocol.specs.Masks.{holders};
ghost use Rattle.protocol.specs.Rules.{released, filled, fetched, charged};

use engine_evictions::{empty_line, write_back};
use engine_holders::owner;
use parts::copy_row;
use protocol_types::{Block, Setup};

// Main memory takes the words of the cache that has a block marked, whose mark clears. `mask` is the block's mask of holders.
#[tactic(auto, unfolding(protocol::specs::Rules::released))]
fn release(
    setup: Setup,
    block: Block,
    mask: u8,
    blocks: &[u32],
    marks: &mut [u32],
    words: &[u32],
    memory: &mut [u32],
)
    requires fits { Fits setup }
    requires mask_bound { mask < 2 ^ setup.processors }
    requires by_index { (k : ℕ) → at blocks.now k < setup.blocks }
    requires per_slot { PerSlot setup blocks.now × PerSlot setup marks.old × PerSlotWord setup words.now × PerVariable setup memory.old }
    ensures { (c : List ℕ) → mask ≡ holders setup (lent blocks.now c marks.old words.now memory.old) block
        → lent blocks.now c marks.new words.now memory.new ≡ released setup (lent blocks.now c marks.old words.now memory.old) block }
{
    if let Some(j) = owner(setup, block, mask, marks) {
        write_back(setup, setup.slot(j, block), blocks, marks, words, memory);
    }
}

// Slot k gets a block, with main memory's words.
#[tactic(auto, unfolding(protocol::specs::Rules::filled, protocol::specs::Tables::memory_words))]
fn fill(
    setup: Setup,
    k: usize,
    block: Block,
    blocks: &mut [u32],
    counters: &mut [u32],
    marks: &mut [u32],
    words: &mut [u32],
    memory: &[u32],
)
    requires k_bound { k < slots setup }
    requires block_lt_blocks { block.0 < setup.blocks }
    requires sized { Sized setup (lent blocks.old counters.old marks.old words.old memory.now) }
    ensures { lent blocks.new counters.new marks.new words.new memory.now ≡ filled setup (lent blocks.old counters.old marks.old words.old memory.now) k block }
{
    blocks[k] = block.0;
    counters[k] = setup.fetch_price();
    marks[k] = 0;
    copy_row(setup, memory, block.0 as usize, words, k);
}

// A block is fetched into slot k. `mask` is its mask of holders before.
#[tactic(auto, using(bits::proofs::Bits::mask_below), unfolding(protocol::specs::Masks::holders, protocol::specs::Rules::fetched))]
pub fn fetch(
    setup: Setup,
    k: usize,
    block: Block,
    mask: u8,
    blocks: &mut [u32],
    counters: &mut [u32],
    marks: &mut [u32],
    words: &mut [u32],
    memory: &mut [u32],
)
    requires fits { Fits setup }
    requires k_bound { k < slots setup }
    requires block_lt_blocks { block.0 < setup.blocks }
    requires mask_value { mask ≡ holders setup (lent blocks.old counters.old marks.old words.old memory.old) block }
    requires by_index { (k : ℕ) → at blocks.old k < setup.blocks }
    requires sized { Sized setup (lent blocks.old counters.old marks.old words.old memory.old) }
    ensures { lent blocks.new counters.new marks.new words.new memory.new ≡ fetched setup (lent blocks.old counters.old marks.old words.old memory.old) k block }
{
    release(setup, block, mask, blocks, marks, words, memory);
    fill(setup, k, block, blocks, counters, marks, words, memory);
}

// The payer's counter, at slot k, falls by 1; at 0 its line becomes empty. Returns whether it does.
#[tactic(auto, unfolding(protocol::specs::Rules::charged))]
pub fn charge(
    setup: Setup,
    k: usize,
    blocks: &mut [u32],
    counters: &mut [u32],
    marks: &mut [u32],
    words: &mut [u32],
) -> bool
    requires k_bound { k < slots setup }
    requires bound { 1 ≤ at counters.old k }
    requires per_slot { PerSlot setup blocks.old × PerSlot setup counters.old × PerSlot setup marks.old × PerSlotWord setup words.old }
    ensures value { result ≡ eqb (at counters.old k) 1 }
    ensures by_index { (g : List ℕ) → lent blocks.new counters.new marks.new words.new g ≡ charged setup (lent blocks.old counters.old marks.old words.old g) k }
{
    if counters[k] == 1 {
        empty_line(setup, k, blocks, counters, marks, words);
        return true;
    }
    counters[k] = counters[k] - 1;
    false
}
