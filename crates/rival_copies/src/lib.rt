// A rival's copies: who has one, and what an entry does to them.
#![tactic(auto)]

ghost use Rattle.std.specs.Prelude.{◌≡◌, List, [], ◌∷◌, ℕ, ◌<◌, length};
ghost use Rattle.protocol_types.specs.Refusals.{no_refusal};
ghost use Rattle.protocol_types.specs.Board.{Fits, slots};
ghost use Rattle.protocol.specs.Rival.{rival, RivalSized, keeps_at, keeps, shared, unmarked, rival_fetched, rival_written_back, rival_dropped, played, refusal};
ghost use Rattle.rival_copies.specs.Copies.{rival_lent, rival_marked, another_keeps, copy_unmarked, lone_marked, completion};

use protocol_types::{Block, Entry, Operation, Request, Setup};

// ---- who has a copy

// Whether slot k has a copy of a block.
#[tactic(auto, unfolding(protocol::specs::Rival::keeps_at))]
pub fn keeps_at(k: usize, block: Block, blocks: &[u32], held: &[u32]) -> bool
    requires { (k < length blocks.now) × (k < length held.now) }
    ensures { (m : List ℕ) → result ≡ keeps_at (rival_marked blocks.now held.now m) k block }
{
    held[k] == 1 && blocks[k] == block.0
}

// Whether a processor has one.
#[tactic(auto, unfolding(protocol::specs::Rival::keeps))]
pub fn keeps(setup: Setup, processor: u32, block: Block, blocks: &[u32], held: &[u32]) -> bool
    requires fits { Fits setup }
    requires processor_lt_processors { processor < setup.processors }
    requires blocks_len { (length blocks.now ≡ slots setup) × (length held.now ≡ slots setup) }
    ensures { (m : List ℕ) → result ≡ keeps setup (rival_marked blocks.now held.now m) processor block }
{
    keeps_at(setup.slot(processor, block), block, blocks, held)
}

// Whether processor j is another one and has a copy.
#[tactic(auto, unfolding(crate::specs::Copies::another_keeps))]
fn another_keeps(
    setup: Setup,
    processor: u32,
    block: Block,
    j: u32,
    blocks: &[u32],
    held: &[u32],
) -> bool
    requires fits { Fits setup }
    requires j_lt_processors { j < setup.processors }
    requires blocks_len { (length blocks.now ≡ slots setup) × (length held.now ≡ slots setup) }
    ensures { (m : List ℕ) → result ≡ another_keeps setup (rival_marked blocks.now held.now m) processor block j }
{
    j != processor && keeps(setup, j, block, blocks, held)
}

// Whether another processor has a copy.
pub fn shared(setup: Setup, processor: u32, block: Block, blocks: &[u32], held: &[u32]) -> bool
    requires fits { Fits setup }
    requires blocks_len { (length blocks.now ≡ slots setup) × (length held.now ≡ slots setup) }
    ensures { (m : List ℕ) → result ≡ shared setup (rival_marked blocks.now held.now m) processor block }
{
    for j in 0..setup.processors {
        if another_keeps(setup, processor, block, j, blocks, held) {
            return true;
        }
    }
    false
}

// ---- what an entry does to the copies

// The mark of processor j's copy, if it has one, clears.
#[tactic(auto, unfolding(protocol::specs::Rival::keeps))]
fn unmark_copy(setup: Setup, block: Block, j: u32, blocks: &[u32], held: &[u32], marks: &mut [u32])
    requires fits { Fits setup }
    requires j_lt_processors { j < setup.processors }
    requires rival_sized { RivalSized setup (rival_lent blocks.now held.now marks.old) }
    ensures { (m : List ℕ) → marks.new ≡ copy_unmarked setup (rival_marked blocks.now held.now m) block j marks.old }
{
    let k = setup.slot(j, block);
    if keeps_at(k, block, blocks, held) {
        marks[k] = 0;
    }
}

// A block's mark clears at every processor.
fn unmark(setup: Setup, block: Block, blocks: &[u32], held: &[u32], marks: &mut [u32])
    requires fits { Fits setup }
    requires rival_sized { RivalSized setup (rival_lent blocks.now held.now marks.old) }
    ensures { marks.new ≡ unmarked setup (rival_lent blocks.now held.now marks.old) block setup.processors }
{
    for j in 0..setup.processors {
        unmark_copy(setup, block, j, blocks, held, marks);
    }
}

// A fetch clears the block's mark elsewhere, and the new copy is unmarked.
#[tactic(auto, unfolding(protocol::specs::Rival::rival_fetched))]
fn fetch(
    setup: Setup,
    processor: u32,
    block: Block,
    blocks: &mut [u32],
    held: &mut [u32],
    marks: &mut [u32],
)
    requires fits { Fits setup }
    requires processor_lt_processors { processor < setup.processors }
    requires rival_sized { RivalSized setup (rival_lent blocks.old held.old marks.old) }
    ensures { rival_lent blocks.new held.new marks.new ≡ rival_fetched setup (rival_lent blocks.old held.old marks.old) processor block }
{
    unmark(setup, block, &*blocks, &*held, marks);
    let k = setup.slot(processor, block);
    blocks[k] = block.0;
    held[k] = 1;
    marks[k] = 0;
}

// A write-back clears the mark.
#[tactic(auto, unfolding(protocol::specs::Rival::rival_written_back))]
fn write_back(setup: Setup, processor: u32, block: Block, marks: &mut [u32])
    requires fits { Fits setup }
    requires processor_lt_processors { processor < setup.processors }
    requires marks_len { length marks.old ≡ slots setup }
    ensures { (b h : List ℕ) → rival b h marks.new ≡ rival_written_back setup (rival b h marks.old) processor block }
{
    let k = setup.slot(processor, block);
    marks[k] = 0;
}

// A drop leaves an empty line.
#[tactic(auto, unfolding(protocol::specs::Rival::rival_dropped))]
fn drop(
    setup: Setup,
    processor: u32,
    block: Block,
    blocks: &mut [u32],
    held: &mut [u32],
    marks: &mut [u32],
)
    requires fits { Fits setup }
    requires processor_lt_processors { processor < setup.processors }
    requires rival_sized { RivalSized setup (rival_lent blocks.old held.old marks.old) }
    ensures { rival_lent blocks.new held.new marks.new ≡ rival_dropped setup (rival_lent blocks.old held.old marks.old) processor block }
{
    let k = setup.slot(processor, block);
    blocks[k] = 0;
    held[k] = 0;
    marks[k] = 0;
}

// A fetch, a write-back or a drop; a completion that has no request changes nothing.
#[tactic(auto, using(crate::proofs::Laws::names_processor))]
pub fn play(setup: Setup, entry: Entry, blocks: &mut [u32], held: &mut [u32], marks: &mut [u32])
    requires fits { Fits setup }
    requires rival_sized { RivalSized setup (rival_lent blocks.old held.old marks.old) }
    requires value { refusal setup (rival_lent blocks.old held.old marks.old) [] entry ≡ no_refusal }
    ensures { rival_lent blocks.new held.new marks.new ≡ played setup (rival_lent blocks.old held.old marks.old) [] entry }
{
    match entry {
        Entry::Fetch(i, b) => fetch(setup, i, b, blocks, held, marks),
        Entry::WriteBack(i, b) => write_back(setup, i, b, marks),
        Entry::Drop(i, b) => drop(setup, i, b, blocks, held, marks),
        Entry::Complete | Entry::CompleteByBroadcast => {}
    }
}

// The block is marked at a processor, unless another has a copy.
fn mark_lone(
    setup: Setup,
    processor: u32,
    block: Block,
    blocks: &[u32],
    held: &[u32],
    marks: &mut [u32],
)
    requires fits { Fits setup }
    requires processor_lt_processors { processor < setup.processors }
    requires rival_sized { RivalSized setup (rival_lent blocks.now held.now marks.old) }
    ensures { marks.new ≡ lone_marked setup (rival_lent blocks.now held.now marks.old) processor block }
{
    if !shared(setup, processor, block, blocks, held) {
        let k = setup.slot(processor, block);
        marks[k] = 1;
    }
}

// A completed write marks the block where it has one holder; a read, a clear, and a completion by broadcast change nothing.
#[tactic(auto, unfolding(protocol::specs::Rival::rival_completed))]
pub fn play_completion(
    setup: Setup,
    request: Request,
    broadcast: bool,
    blocks: &[u32],
    held: &[u32],
    marks: &mut [u32],
)
    requires fits { Fits setup }
    requires processor_lt_processors { request.processor < setup.processors }
    requires rival_sized { RivalSized setup (rival_lent blocks.now held.now marks.old) }
    ensures { rival_marked blocks.now held.now marks.new ≡ played setup (rival_lent blocks.now held.now marks.old) (request ∷ []) (completion broadcast) }
{
    if broadcast {
        return;
    }
    match request.operation {
        Operation::Read(_) | Operation::Clear => {}
        Operation::Write(v, _) => {
            let block = setup.block_of(v);
            mark_lone(setup, request.processor, block, blocks, held, marks);
        }
    }
}
