// The masks of holders (document 02, P7) where one processor gains or loses its copy of a block.
#![tactic(auto)]

ghost use Rattle.std.specs.Prelude.{◌≡◌, ◌<◌, length};
ghost use Rattle.protocol_types.specs.Lists.{at};
ghost use Rattle.protocol.specs.Tables.{directory};
ghost use Rattle.engine_masks.specs.Copies.{gained, lost, lost_at};

use protocol_types::Block;

// Processor i has a copy of a block from now on.
pub fn gain(block: Block, i: u32, masks: &mut [u8])
    requires { (i < 8) × (block.0 < length masks.old) }
    ensures { masks.new ≡ gained masks.old block i }
{
    let b = block.0 as usize;
    let mask = masks[b];
    masks[b] = bits::with_bit(mask, i as u8);
}

// Processor i has no copy of a block any more.
pub fn lose(block: Block, i: u32, masks: &mut [u8])
    requires { (i < 8) × (block.0 < length masks.old) }
    ensures { masks.new ≡ lost masks.old block i }
{
    let b = block.0 as usize;
    let mask = masks[b];
    masks[b] = bits::without_bit(mask, i as u8);
}

// Processor i has no copy any more of the block at slot k, if it had one there.
#[tactic(auto, unfolding(crate::specs::Copies::lost_at))]
pub fn lose_at(i: u32, k: usize, blocks: &[u32], counters: &[u32], masks: &mut [u8])
    requires i_bound { i < 8 }
    requires k_in_bounds { (k < length blocks.now) × (k < length counters.now) × (at blocks.now k < length masks.old) }
    ensures { masks.new ≡ lost_at (directory blocks.now counters.now) masks.old i k }
{
    if counters[k] == 0 {
        return;
    }
    lose(Block(blocks[k]), i, masks);
}
