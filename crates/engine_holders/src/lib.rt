// Who holds a block: the searches over processors, those over the set bits of a block's mask (document 02, P7), and the update of its copies.
#![tactic(auto)]

ghost use Rattle.std.specs.Prelude.{◌≡◌, List, ℕ, ◌^◌, ◌<◌, length, unwrap_or, IfSome};
ghost use Rattle.protocol_types.specs.Board.{Fits};
ghost use Rattle.protocol.specs.Tables.{holds_at, holds, sharing};
ghost use Rattle.protocol.specs.Masks.{holders};
ghost use Rattle.protocol.specs.Lent.{lent, PerSlot, PerSlotWord};
ghost use Rattle.protocol.specs.Rules.{payer, owner, updated_copies};
ghost use Rattle.engine_holders.specs.Searches.{other_holds, other_holder, weaker};

use bits::{lowest, without_bit, without_lowest};
use parts::set_word;
use protocol_types::{Block, Setup};

// Whether slot k holds a block. The block number is tested first: in a full cache it alone can differ.
#[tactic(auto, unfolding(protocol::specs::Tables::holds_at))]
fn line_holds(k: usize, block: Block, blocks: &[u32], counters: &[u32]) -> bool
    requires { (k < length blocks.now) × (k < length counters.now) }
    ensures { (m w g : List ℕ) → result ≡ holds_at (lent blocks.now counters.now m w g) k block }
{
    blocks[k] == block.0 && counters[k] > 0
}

// Whether a processor holds a block.
#[tactic(auto, unfolding(protocol::specs::Tables::holds))]
pub fn holds(setup: Setup, processor: u32, block: Block, blocks: &[u32], counters: &[u32]) -> bool
    requires fits { Fits setup }
    requires processor_lt_processors { processor < setup.processors }
    requires per_slot { PerSlot setup blocks.now × PerSlot setup counters.now }
    ensures { (m w g : List ℕ) → result ≡ holds setup (lent blocks.now counters.now m w g) processor block }
{
    line_holds(setup.slot(processor, block), block, blocks, counters)
}

// Whether processor j is another one and holds a block.
#[tactic(auto, unfolding(crate::specs::Searches::other_holds))]
fn other_holds(
    setup: Setup,
    processor: u32,
    block: Block,
    j: u32,
    blocks: &[u32],
    counters: &[u32],
) -> bool
    requires fits { Fits setup }
    requires j_lt_processors { j < setup.processors }
    requires per_slot { PerSlot setup blocks.now × PerSlot setup counters.now }
    ensures { (m w g : List ℕ) → result ≡ other_holds setup (lent blocks.now counters.now m w g) processor block j }
{
    j != processor && holds(setup, j, block, blocks, counters)
}

// The lowest-numbered other holder.
// It counts processors in a byte, as the search for the payer does (document 02, P3). A byte is enough, because the count ends at N and N is at most 8
// (`few-processors` of `Fits`): `overflow_cast-other-end` in proofs/other_holder proves that N always fits.
fn other_holder(
    setup: Setup,
    processor: u32,
    block: Block,
    blocks: &[u32],
    counters: &[u32],
) -> Option<u32>
    requires fits { Fits setup }
    requires per_slot { PerSlot setup blocks.now × PerSlot setup counters.now }
    ensures value { (m w g : List ℕ) → unwrap_or result setup.processors ≡ other_holder setup (lent blocks.now counters.now m w g) processor block }
    ensures in_range { IfSome result (λ j. j < setup.processors) }
{
    for other in 0..setup.processors as u8 {
        if other_holds(setup, processor, block, other as u32, blocks, counters) {
            return Some(other as u32);
        }
    }
    None // the count has come to N
}

// Whether another processor holds a block.
pub fn shares(setup: Setup, processor: u32, block: Block, blocks: &[u32], counters: &[u32]) -> bool
    requires fits { Fits setup }
    requires per_slot { PerSlot setup blocks.now × PerSlot setup counters.now }
    ensures { (m w g : List ℕ) → result ≡ sharing setup (lent blocks.now counters.now m w g) processor block }
{
    other_holder(setup, processor, block, blocks, counters).is_some()
}

// Of two processors the one whose line for a block has the smaller counter, `weakest` if they are equal; j where `weakest` is none.
#[tactic(auto, unfolding(crate::specs::Searches::weaker))]
fn weaker(setup: Setup, block: Block, weakest: Option<u32>, j: u32, counters: &[u32]) -> u32
    requires fits { Fits setup }
    requires weakest_lt_processors { IfSome weakest (λ k. k < setup.processors) × (j < setup.processors) }
    requires per_slot { PerSlot setup counters.now }
    ensures value { (b m w g : List ℕ) → result ≡ weaker setup (lent b counters.now m w g) block (unwrap_or weakest setup.processors) j }
    ensures upper_bound { result < setup.processors }
{
    let Some(k) = weakest else {
        return j;
    };
    if counters[setup.slot(k, block)] <= counters[setup.slot(j, block)] {
        return k;
    }
    j
}

// The payer of a write: the other holder with the smallest counter, the lowest processor among equals.
// The search visits the set bits of the mask only, from which the writer's is taken first, and counts processors in a byte (document 02, P3), which is
// enough for the number of a bit.
#[tactic(auto, using(bits::proofs::Bytes::without_less))]
pub fn payer(setup: Setup, processor: u32, block: Block, mask: u8, counters: &[u32]) -> Option<u32>
    requires fits { Fits setup }
    requires processor_lt_processors { processor < setup.processors }
    requires mask_bound { mask < 2 ^ setup.processors }
    requires per_slot { PerSlot setup counters.now }
    ensures value { (b m w g : List ℕ) → mask ≡ holders setup (lent b counters.now m w g) block
        → unwrap_or result setup.processors ≡ payer setup (lent b counters.now m w g) processor block }
    ensures in_range { IfSome result (λ j. j < setup.processors) }
{
    let mut weakest = None;
    let mut others = without_bit(mask, processor as u8);
    while let Some(j) = lowest(others) {
        weakest = Some(weaker(setup, block, weakest, j as u32, counters));
        others = without_lowest(others);
    }
    weakest
}

// The processor that has a block marked.
#[tactic(auto, using(bits::proofs::Bytes::without_less))]
pub fn owner(setup: Setup, block: Block, mask: u8, marks: &[u32]) -> Option<u32>
    requires fits { Fits setup }
    requires mask_bound { mask < 2 ^ setup.processors }
    requires per_slot { PerSlot setup marks.now }
    ensures value { (b c w g : List ℕ) → mask ≡ holders setup (lent b c marks.now w g) block
        → unwrap_or result setup.processors ≡ owner setup (lent b c marks.now w g) block }
    ensures in_range { IfSome result (λ j. j < setup.processors) }
{
    let mut holders = mask;
    while let Some(j) = lowest(holders) {
        let j = j as u32;
        if marks[setup.slot(j, block)] == 1 {
            return Some(j);
        }
        holders = without_lowest(holders);
    }
    None
}

// Every copy of a block takes a word.
#[tactic(auto, using(bits::proofs::Bytes::without_less))]
pub fn update_copies(
    setup: Setup,
    block: Block,
    offset: u32,
    value: u32,
    mask: u8,
    words: &mut [u32],
)
    requires fits { Fits setup }
    requires offset_lt_words { offset < setup.words }
    requires mask_bound { mask < 2 ^ setup.processors }
    requires per_slot_word { PerSlotWord setup words.old }
    ensures { (b c m g : List ℕ) → mask ≡ holders setup (lent b c m words.old g) block
        → words.new
        ≡ updated_copies setup (lent b c m words.old g) block offset value setup.processors }
{
    let mut copies = mask;
    while let Some(j) = lowest(copies) {
        let k = setup.slot(j as u32, block);
        set_word(setup, k, offset, value, words);
        copies = without_lowest(copies);
    }
}
