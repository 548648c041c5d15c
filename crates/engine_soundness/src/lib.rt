// The soundness scan.
#![tactic(auto)]

ghost use Rattle.std.specs.Prelude.{◌≡◌, cond, List, ℕ, ◌+◌, ◌^◌, ◌<◌, length};
ghost use Rattle.protocol_types.specs.Lists.{at};
ghost use Rattle.protocol_types.specs.Board.{Fits, slots, line_slot};
ghost use Rattle.protocol.specs.Tables.{Sized, holds};
ghost use Rattle.protocol.specs.Lent.{lent, lent_masked, PerSlot, PerSlotWord};
ghost use Rattle.protocol.specs.Soundness.{empty_line, copy_line, sound_line, sound};
ghost use Rattle.protocol.specs.Masks.{holders, true_masks, sound_masked};

use protocol_types::{Block, Setup};

// Whether the empty line at slot k is all 0.
#[tactic(auto, unfolding(protocol::specs::Soundness::empty_line))]
fn empty_line_sound(setup: Setup, k: usize, blocks: &[u32], marks: &[u32], words: &[u32]) -> bool
    requires fits { Fits setup }
    requires k_bound { k < slots setup }
    requires per_slot { PerSlot setup blocks.now × PerSlot setup marks.now × PerSlotWord setup words.now }
    ensures { (c g : List ℕ) → result ≡ empty_line setup (lent blocks.now c marks.now words.now g) k }
{
    blocks[k] == 0 && marks[k] == 0 && parts::zero_row(setup, k, words)
}

// Whether the copy at slot k, of processor i, equals main memory if unmarked, and is full and alone if marked.
#[tactic(auto, unfolding(protocol::specs::Soundness::copy_line))]
fn copy_sound(
    setup: Setup,
    i: u32,
    k: usize,
    blocks: &[u32],
    counters: &[u32],
    marks: &[u32],
    words: &[u32],
    memory: &[u32],
) -> bool
    requires fits { Fits setup }
    requires k_bound { k < slots setup }
    requires sized { Sized setup (lent blocks.now counters.now marks.now words.now memory.now) }
    requires k_bound_2 { at blocks.now k < setup.blocks }
    ensures { result ≡ copy_line setup (lent blocks.now counters.now marks.now words.now memory.now) i k }
{
    let block = blocks[k];
    if marks[k] == 0 {
        return parts::same_row(setup, words, k, memory, block as usize);
    }
    marks[k] == 1
        && counters[k] == setup.fetch_price()
        && !engine_holders::shares(setup, i, Block(block), blocks, counters)
}

// Whether line l of processor i is sound.
#[tactic(auto, unfolding(protocol::specs::Soundness::sound_line))]
fn line_sound(
    setup: Setup,
    i: u32,
    l: u32,
    blocks: &[u32],
    counters: &[u32],
    marks: &[u32],
    words: &[u32],
    memory: &[u32],
) -> bool
    requires fits { Fits setup }
    requires i_lt_processors { (i < setup.processors) × (l < setup.lines) }
    requires sized { Sized setup (lent blocks.now counters.now marks.now words.now memory.now) }
    ensures { result ≡ sound_line setup (lent blocks.now counters.now marks.now words.now memory.now) i l (line_slot setup i l) }
{
    let k = setup.line_slot(i, l);
    if counters[k] == 0 {
        return empty_line_sound(setup, k, blocks, marks, words);
    }
    let block = blocks[k];
    counters[k] <= setup.fetch_price()
        && block < setup.blocks
        && setup.line_of(Block(block)) == l
        && copy_sound(setup, i, k, blocks, counters, marks, words, memory)
}

// Whether every line of every processor is sound.
fn lines_sound(
    setup: Setup,
    blocks: &[u32],
    counters: &[u32],
    marks: &[u32],
    words: &[u32],
    memory: &[u32],
) -> bool
    requires fits { Fits setup }
    requires sized { Sized setup (lent blocks.now counters.now marks.now words.now memory.now) }
    ensures { result ≡ sound setup (lent blocks.now counters.now marks.now words.now memory.now) }
{
    for i in 0..setup.processors {
        for l in 0..setup.lines {
            if !line_sound(setup, i, l, blocks, counters, marks, words, memory) {
                return false;
            }
        }
    }
    true
}

// A mask, with the weight of processor i added if it holds a block.
fn add_holder(setup: Setup, block: Block, mask: u8, i: u8, blocks: &[u32], counters: &[u32]) -> u8
    requires fits { Fits setup }
    requires i_lt_processors { i < setup.processors }
    requires i_bound { mask + 2 ^ i < 256 }
    requires per_slot { PerSlot setup blocks.now × PerSlot setup counters.now }
    ensures { (m w g : List ℕ) → result ≡ mask + cond (holds setup (lent blocks.now counters.now m w g) i block) (2 ^ i) 0 }
{
    if engine_holders::holds(setup, i as u32, block, blocks, counters) {
        mask + bits::bit(i)
    } else {
        mask
    }
}

// The true mask of a block.
fn block_mask(setup: Setup, block: Block, blocks: &[u32], counters: &[u32]) -> u8
    requires fits { Fits setup }
    requires per_slot { PerSlot setup blocks.now × PerSlot setup counters.now }
    ensures { (m w g : List ℕ) → result ≡ holders setup (lent blocks.now counters.now m w g) block }
{
    let mut mask = 0;
    for i in 0..setup.processors as u8 {
        mask = add_holder(setup, block, mask, i, blocks, counters);
    }
    mask
}

// Whether every mask is the true one of its block.
fn masks_true(setup: Setup, blocks: &[u32], counters: &[u32], masks: &[u8]) -> bool
    requires fits { Fits setup }
    requires per_slot { PerSlot setup blocks.now × PerSlot setup counters.now × (length masks.now ≡ setup.blocks) }
    ensures { (m w g : List ℕ) → result ≡ true_masks setup (lent_masked blocks.now counters.now m w g masks.now) }
{
    for b in 0..setup.blocks {
        if masks[b as usize] != block_mask(setup, Block(b), blocks, counters) {
            return false;
        }
    }
    true
}

// Whether tables and masks are let through by condition 20.
#[tactic(auto, unfolding(protocol::specs::Masks::sound_masked))]
pub fn is_sound(
    setup: Setup,
    blocks: &[u32],
    counters: &[u32],
    marks: &[u32],
    words: &[u32],
    memory: &[u32],
    masks: &[u8],
) -> bool
    requires fits { Fits setup }
    requires sized { Sized setup (lent blocks.now counters.now marks.now words.now memory.now) }
    requires masks_len { length masks.now ≡ setup.blocks }
    ensures { result ≡ sound_masked setup (lent_masked blocks.now counters.now marks.now words.now memory.now masks.now) }
{
    lines_sound(setup, blocks, counters, marks, words, memory)
        && masks_true(setup, blocks, counters, masks)
}
