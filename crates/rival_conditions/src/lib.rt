// What an entry costs, and when it is refused.
#![tactic(auto)]

ghost use Rattle.std.specs.Prelude.{◌≡◌, cond, List, [], ℕ, ◌<◌, length};
ghost use Rattle.protocol_types.specs.Refusals.{no_refusal, unless, completion_not_held, refusal_number, refusal_before};
ghost use Rattle.protocol_types.specs.Board.{Fits, slots};
ghost use Rattle.protocol.specs.Accounts.{cycles};
ghost use Rattle.protocol.specs.Rival.{Rival, rival, RivalSized, keeps, shared, empty_cache, completion_cycles, cost, move_refusal, ready_refusal, completion_refusal, refusal};
ghost use Rattle.rival_copies.specs.Copies.{rival_lent, rival_marked};

use protocol_types::{Block, Entry, Operation, Refusal, Request, Setup};
use rival_copies::{keeps, keeps_at, shared};

// ---- what an entry costs

// The cycles of a fetch, a write-back or a drop.
pub fn cost(setup: Setup, entry: Entry) -> u32
    ensures { (x : Rival) → result ≡ cycles (cost setup x [] entry) }
{
    match entry {
        Entry::Fetch(_, _) => setup.fetch_price(),
        Entry::WriteBack(_, _) => setup.write_back_price(),
        Entry::Drop(_, _) | Entry::Complete | Entry::CompleteByBroadcast => 0,
    }
}

// The cycles of a completed write of a block.
fn write_cycles(
    setup: Setup,
    processor: u32,
    block: Block,
    broadcast: bool,
    blocks: &[u32],
    held: &[u32],
) -> u32
    requires fits { Fits setup }
    requires blocks_len { (length blocks.now ≡ slots setup) × (length held.now ≡ slots setup) }
    ensures { (m : List ℕ) → result ≡ cond broadcast 1 (cond (shared setup (rival_marked blocks.now held.now m) processor block) 1 0) }
{
    if broadcast {
        return 1;
    }
    if !shared(setup, processor, block, blocks, held) {
        return 0;
    }
    1
}

// The cycles of a completion.
#[tactic(auto, unfolding(protocol::specs::Rival::completion_cycles))]
pub fn completion_cycles(
    setup: Setup,
    request: Request,
    broadcast: bool,
    blocks: &[u32],
    held: &[u32],
) -> u32
    requires fits { Fits setup }
    requires blocks_len { (length blocks.now ≡ slots setup) × (length held.now ≡ slots setup) }
    ensures { (m : List ℕ) → result ≡ completion_cycles setup (rival_marked blocks.now held.now m) request broadcast }
{
    match request.operation {
        Operation::Read(_) | Operation::Clear => 0,
        Operation::Write(v, _) => {
            let block = setup.block_of(v);
            write_cycles(setup, request.processor, block, broadcast, blocks, held)
        }
    }
}

// ---- the conditions, in the order of checks

// At a fetch, a write-back or a drop 3, then 8.
#[tactic(auto, unfolding(protocol::specs::Rival::move_refusal))]
fn check_move(setup: Setup, processor: u32, block: Block) -> Result<(), Refusal>
    ensures { (after : ℕ) → refusal_before result after ≡ move_refusal setup processor block after }
{
    if processor >= setup.processors {
        return Err(Refusal::NoSuchProcessor);
    }
    if block.0 >= setup.blocks {
        return Err(Refusal::NoSuchBlock);
    }
    Ok(())
}

// Then 23 at a fetch.
fn check_fetch(setup: Setup, processor: u32, block: Block, held: &[u32]) -> Result<(), Refusal>
    requires fits { Fits setup }
    requires held_len { length held.now ≡ slots setup }
    ensures { (b m : List ℕ) → refusal_number result ≡ refusal setup (rival b held.now m) [] (Entry.Fetch processor block) }
{
    check_move(setup, processor, block)?;
    let k = setup.slot(processor, block);
    if held[k] != 0 {
        return Err(Refusal::LineInUse);
    }
    Ok(())
}

// 24 at a write-back.
fn check_write_back(
    setup: Setup,
    processor: u32,
    block: Block,
    blocks: &[u32],
    held: &[u32],
) -> Result<(), Refusal>
    requires fits { Fits setup }
    requires blocks_len { (length blocks.now ≡ slots setup) × (length held.now ≡ slots setup) }
    ensures { (m : List ℕ) → refusal_number result ≡ refusal setup (rival_marked blocks.now held.now m) [] (Entry.WriteBack processor block) }
{
    check_move(setup, processor, block)?;
    if !keeps(setup, processor, block, blocks, held) {
        return Err(Refusal::BlockNotHeld);
    }
    Ok(())
}

// 24, then 25 at a drop.
#[tactic(auto, unfolding(protocol::specs::Rival::keeps))]
fn check_drop(
    setup: Setup,
    processor: u32,
    block: Block,
    blocks: &[u32],
    held: &[u32],
    marks: &[u32],
) -> Result<(), Refusal>
    requires fits { Fits setup }
    requires rival_sized { RivalSized setup (rival_lent blocks.now held.now marks.now) }
    ensures { refusal_number result ≡ refusal setup (rival_lent blocks.now held.now marks.now) [] (Entry.Drop processor block) }
{
    check_move(setup, processor, block)?;
    let k = setup.slot(processor, block);
    if !keeps_at(k, block, blocks, held) {
        return Err(Refusal::BlockNotHeld);
    }
    if marks[k] != 0 {
        return Err(Refusal::DropOfMarked);
    }
    Ok(())
}

// Whether an entry is refused where no request is left: 26 at a completion.
pub fn check(
    setup: Setup,
    entry: Entry,
    blocks: &[u32],
    held: &[u32],
    marks: &[u32],
) -> Result<(), Refusal>
    requires fits { Fits setup }
    requires rival_sized { RivalSized setup (rival_lent blocks.now held.now marks.now) }
    ensures { refusal_number result ≡ refusal setup (rival_lent blocks.now held.now marks.now) [] entry }
{
    match entry {
        Entry::Fetch(i, b) => check_fetch(setup, i, b, held),
        Entry::WriteBack(i, b) => check_write_back(setup, i, b, blocks, held),
        Entry::Drop(i, b) => check_drop(setup, i, b, blocks, held, marks),
        Entry::Complete | Entry::CompleteByBroadcast => Err(Refusal::NoRequestLeft),
    }
}

// 27 at the completion of an operation on a block.
fn check_held(
    setup: Setup,
    processor: u32,
    block: Block,
    blocks: &[u32],
    held: &[u32],
) -> Result<(), Refusal>
    requires fits { Fits setup }
    requires processor_lt_processors { processor < setup.processors }
    requires blocks_len { (length blocks.now ≡ slots setup) × (length held.now ≡ slots setup) }
    ensures { (m : List ℕ) → refusal_number result ≡ unless (keeps setup (rival_marked blocks.now held.now m) processor block) completion_not_held no_refusal }
{
    if !keeps(setup, processor, block, blocks, held) {
        return Err(Refusal::CompletionNotHeld);
    }
    Ok(())
}

// Whether no line of a processor's cache holds a block.
fn cache_empty(setup: Setup, processor: u32, held: &[u32]) -> bool
    requires fits { Fits setup }
    requires processor_lt_processors { processor < setup.processors }
    requires held_len { length held.now ≡ slots setup }
    ensures { (b m : List ℕ) → result ≡ empty_cache setup (rival b held.now m) processor }
{
    for line in 0..setup.lines {
        let k = setup.line_slot(processor, line);
        if held[k] != 0 {
            return false;
        }
    }
    true
}

// At the completion of a clear 9, then 29.
fn check_clear(setup: Setup, processor: u32, broadcast: bool, held: &[u32]) -> Result<(), Refusal>
    requires fits { Fits setup }
    requires processor_lt_processors { processor < setup.processors }
    requires held_len { length held.now ≡ slots setup }
    ensures { (b m : List ℕ) → refusal_number result ≡ ready_refusal setup (rival b held.now m) processor Operation.Clear broadcast }
{
    if broadcast {
        return Err(Refusal::BroadcastWithoutWrite);
    }
    if !cache_empty(setup, processor, held) {
        return Err(Refusal::CacheNotEmpty);
    }
    Ok(())
}

// At a completion 9, then 27, or 29 at a clear.
fn check_ready(
    setup: Setup,
    processor: u32,
    operation: Operation,
    broadcast: bool,
    blocks: &[u32],
    held: &[u32],
) -> Result<(), Refusal>
    requires fits { Fits setup }
    requires processor_lt_processors { processor < setup.processors }
    requires blocks_len { (length blocks.now ≡ slots setup) × (length held.now ≡ slots setup) }
    ensures { (m : List ℕ) → refusal_number result ≡ ready_refusal setup (rival_marked blocks.now held.now m) processor operation broadcast }
{
    match operation {
        Operation::Read(v) => {
            if broadcast {
                return Err(Refusal::BroadcastWithoutWrite);
            }
            let block = setup.block_of(v);
            check_held(setup, processor, block, blocks, held)
        }
        Operation::Write(v, _) => {
            let block = setup.block_of(v);
            check_held(setup, processor, block, blocks, held)
        }
        Operation::Clear => check_clear(setup, processor, broadcast, held),
    }
}

// At a completion 3, 4, then these.
#[tactic(auto, unfolding(protocol::specs::Rival::completion_refusal))]
pub fn check_completion(
    setup: Setup,
    request: Request,
    broadcast: bool,
    blocks: &[u32],
    held: &[u32],
) -> Result<(), Refusal>
    requires fits { Fits setup }
    requires blocks_len { (length blocks.now ≡ slots setup) × (length held.now ≡ slots setup) }
    ensures { (m : List ℕ) → refusal_number result ≡ completion_refusal setup (rival_marked blocks.now held.now m) request broadcast }
{
    if request.processor >= setup.processors {
        return Err(Refusal::NoSuchProcessor);
    }
    setup.check_named(request.operation)?;
    check_ready(
        setup,
        request.processor,
        request.operation,
        broadcast,
        blocks,
        held,
    )
}
