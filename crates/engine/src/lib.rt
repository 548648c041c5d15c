// One request, served on the lent tables.
#![tactic(auto)]

ghost use Rattle.std.specs.Prelude.{◌≡◌, ◌<◌};
ghost use Rattle.protocol_types.specs.Board.{Fits, variables};
ghost use Rattle.protocol.specs.Lent.{lent, TrueMasks};
ghost use Rattle.protocol.specs.Masks.{masks_of};
ghost use Rattle.protocol.specs.Rules.{obtained};
ghost use Rattle.protocol_types.specs.Conditions.{Valid};
ghost use Rattle.protocol.specs.Requests.{value_by, bill_by, served_by, value, bill, served};
ghost use Rattle.engine.specs.Usable.{Usable, obtain_bill, operation_by};

use engine_evictions::{clear, evict};
use engine_holders::holds;
use engine_lines::fetch;
use engine_masks::gain;
use engine_writes::write;
use parts::word_of;
use protocol_types::{Bill, Block, Operation, Request, Setup, Variable};

// The value that a request supplies or writes, and its cycles.
#[derive(Clone, Copy)]
pub struct Served {
    pub value: u32,
    pub bill: Bill,
}

// On a miss a processor gets a block; on a hit nothing changes. Returns the cycles.
fn obtain(
    setup: Setup,
    processor: u32,
    block: Block,
    blocks: &mut [u32],
    counters: &mut [u32],
    marks: &mut [u32],
    words: &mut [u32],
    memory: &mut [u32],
    masks: &mut [u8],
) -> Bill
    requires fits { Fits setup }
    requires processor_lt_processors { processor < setup.processors }
    requires block_lt_blocks { block.0 < setup.blocks }
    requires usable { Usable setup (lent blocks.old counters.old marks.old words.old memory.old) }
    requires true_masks { TrueMasks setup (lent blocks.old counters.old marks.old words.old memory.old) masks.old }
    ensures value { result ≡ obtain_bill setup (lent blocks.old counters.old marks.old words.old memory.old) processor block }
    ensures memory_value { lent blocks.new counters.new marks.new words.new memory.new ≡ obtained setup (lent blocks.old counters.old marks.old words.old memory.old) processor block }
    ensures masks_after { masks.new ≡ masks_of setup (lent blocks.new counters.new marks.new words.new memory.new) }
{
    if holds(setup, processor, block, blocks, counters) {
        return Bill {
            fetch: 0,
            write_back: 0,
            update: 0,
        };
    }
    let k = setup.slot(processor, block);
    let write_back = evict(
        setup, processor, k, blocks, counters, marks, words, memory, masks,
    );
    let b = block.0 as usize;
    let mask = masks[b];
    fetch(
        setup, k, block, mask, blocks, counters, marks, words, memory,
    );
    gain(block, processor, masks);
    Bill {
        fetch: setup.fetch_price(),
        write_back,
        update: 0,
    }
}

// Processor i reads a variable, or, where there is a value to store, writes it.
#[tactic(auto, unfolding(crate::specs::Usable::obtain_bill))]
fn serve_access(
    setup: Setup,
    i: u32,
    variable: Variable,
    stored: Option<u32>,
    blocks: &mut [u32],
    counters: &mut [u32],
    marks: &mut [u32],
    words: &mut [u32],
    memory: &mut [u32],
    masks: &mut [u8],
) -> Served
    requires fits { Fits setup }
    requires i_lt_processors { i < setup.processors }
    requires variable_bound { variable.0 < variables setup }
    requires usable { Usable setup (lent blocks.old counters.old marks.old words.old memory.old) }
    requires true_masks { TrueMasks setup (lent blocks.old counters.old marks.old words.old memory.old) masks.old }
    ensures value_value { result.value ≡ value_by setup (lent blocks.old counters.old marks.old words.old memory.old) i (operation_by variable stored) }
    ensures bill_value { result.bill ≡ bill_by setup (lent blocks.old counters.old marks.old words.old memory.old) i (operation_by variable stored) }
    ensures memory_value { lent blocks.new counters.new marks.new words.new memory.new ≡ served_by setup (lent blocks.old counters.old marks.old words.old memory.old) i (operation_by variable stored) }
    ensures masks_after { masks.new ≡ masks_of setup (lent blocks.new counters.new marks.new words.new memory.new) }
{
    let block = setup.block_of(variable);
    let offset = setup.offset_of(variable);
    let bill = obtain(
        setup, i, block, blocks, counters, marks, words, memory, masks,
    );
    match stored {
        None => {
            let word = word_of(setup, setup.slot(i, block), offset, words);
            Served { value: word, bill }
        }
        Some(value) => {
            let update = write(
                setup, i, block, offset, value, blocks, counters, marks, words, memory, masks,
            );
            Served {
                value,
                bill: Bill { update, ..bill },
            }
        }
    }
}

// Processor i's cache is cleared.
fn serve_clear(
    setup: Setup,
    i: u32,
    blocks: &mut [u32],
    counters: &mut [u32],
    marks: &mut [u32],
    words: &mut [u32],
    memory: &mut [u32],
    masks: &mut [u8],
) -> Served
    requires fits { Fits setup }
    requires i_lt_processors { i < setup.processors }
    requires usable { Usable setup (lent blocks.old counters.old marks.old words.old memory.old) }
    requires true_masks { TrueMasks setup (lent blocks.old counters.old marks.old words.old memory.old) masks.old }
    ensures value_value { result.value ≡ value_by setup (lent blocks.old counters.old marks.old words.old memory.old) i Operation.Clear }
    ensures bill_value { result.bill ≡ bill_by setup (lent blocks.old counters.old marks.old words.old memory.old) i Operation.Clear }
    ensures memory_value { lent blocks.new counters.new marks.new words.new memory.new ≡ served_by setup (lent blocks.old counters.old marks.old words.old memory.old) i Operation.Clear }
    ensures masks_after { masks.new ≡ masks_of setup (lent blocks.new counters.new marks.new words.new memory.new) }
{
    let write_back = clear(setup, i, blocks, counters, marks, words, memory, masks);
    Served {
        value: 0,
        bill: Bill {
            fetch: 0,
            write_back,
            update: 0,
        },
    }
}

// One request is served.
#[tactic(auto, unfolding(protocol::specs::Requests::bill, protocol::specs::Requests::served, protocol::specs::Requests::value))]
pub fn serve(
    setup: Setup,
    request: Request,
    blocks: &mut [u32],
    counters: &mut [u32],
    marks: &mut [u32],
    words: &mut [u32],
    memory: &mut [u32],
    masks: &mut [u8],
) -> Served
    requires fits { Fits setup }
    requires valid { Valid setup request }
    requires usable { Usable setup (lent blocks.old counters.old marks.old words.old memory.old) }
    requires true_masks { TrueMasks setup (lent blocks.old counters.old marks.old words.old memory.old) masks.old }
    ensures value_value { result.value ≡ value setup (lent blocks.old counters.old marks.old words.old memory.old) request }
    ensures bill_value { result.bill ≡ bill setup (lent blocks.old counters.old marks.old words.old memory.old) request }
    ensures memory_value { lent blocks.new counters.new marks.new words.new memory.new ≡ served setup (lent blocks.old counters.old marks.old words.old memory.old) request }
    ensures masks_after { masks.new ≡ masks_of setup (lent blocks.new counters.new marks.new words.new memory.new) }
{
    let (variable, stored) = match request.operation {
        Operation::Read(variable) => (variable, None),
        Operation::Write(variable, value) => (variable, Some(value)),
        Operation::Clear => {
            return serve_clear(
                setup,
                request.processor,
                blocks,
                counters,
                marks,
                words,
                memory,
                masks,
            );
        }
    };
    serve_access(
        setup,
        request.processor,
        variable,
        stored,
        blocks,
        counters,
        marks,
        words,
        memory,
        masks,
    )
}
