// What the pricer checks before a schedule's first entry, and its tables cleared.
#![tactic(auto)]

ghost use Rattle.std.specs.Prelude.{◌≡◌, ◌&&◌, leb};
ghost use Rattle.protocol_types.specs.Refusals.{refusal_number};
ghost use Rattle.protocol_types.specs.Board.{Fits};
ghost use Rattle.protocol.specs.Rival.{rival_sized, RivalSized, no_copies};
ghost use Rattle.protocol.specs.Pricer.{price_request_limit, price_entry_limit, price_refusal};
ghost use Rattle.rival_copies.specs.Copies.{rival_lent};

use protocol_types::{Refusal, Setup};

// The entries that the pricer takes.
const PRICE_ENTRY_LIMIT: usize = 4000000;

// Every table becomes 0.
#[tactic(auto, unfolding(protocol::specs::Rival::no_copies))]
pub fn clear_all(setup: Setup, blocks: &mut [u32], held: &mut [u32], marks: &mut [u32])
    requires { RivalSized setup (rival_lent blocks.old held.old marks.old) }
    ensures { rival_lent blocks.new held.new marks.new ≡ no_copies setup }
{
    blocks.fill(0);
    held.fill(0);
    marks.fill(0);
}

// Whether condition 2 lets the tables through.
#[tactic(auto, unfolding(protocol::specs::Rival::rival_sized))]
fn is_sized(setup: Setup, blocks: &[u32], held: &[u32], marks: &[u32]) -> bool
    requires { Fits setup }
    ensures { result ≡ rival_sized setup (rival_lent blocks.now held.now marks.now) }
{
    let count = setup.slot_count();
    blocks.len() == count && held.len() == count && marks.len() == count
}

// Whether condition 5 lets lists of these lengths through.
fn few_enough(entries: usize, requests: usize) -> bool
    ensures { result ≡ leb requests price_request_limit && leb entries price_entry_limit }
{
    requests <= protocol_types::REQUEST_LIMIT as usize && entries <= PRICE_ENTRY_LIMIT
}

// Whether lists of these lengths are refused: 1, 10, 2, 5 in this order.
#[tactic(auto, unfolding(protocol::specs::Pricer::price_refusal))]
pub fn price_refusal(
    setup: Setup,
    blocks: &[u32],
    held: &[u32],
    marks: &[u32],
    entries: usize,
    requests: usize,
) -> Result<(), Refusal>
    ensures { refusal_number result ≡ price_refusal setup (rival_lent blocks.now held.now marks.now) entries requests }
{
    setup.check()?;
    let fit = is_sized(setup, blocks, held, marks);
    let few = few_enough(entries, requests);
    if !fit {
        return Err(Refusal::WrongLength);
    }
    if !few {
        return Err(Refusal::TooMany);
    }
    Ok(())
}
