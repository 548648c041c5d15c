// Requests and a schedule's entries, read from lists of numbers, and the check that refuses a list that is not whole.
#![tactic(auto)]

ghost use Rattle.std.specs.Prelude.{◌≡◌, ◌/◌, ◌<◌, cond, length};
ghost use Rattle.protocol_types.specs.Board.{setup_refusal};
ghost use Rattle.protocol_types.specs.Refusals.{refusal_number};
ghost use Rattle.host_decoding.specs.Records.{request_width, entry_width, whole, partial_refusal, operation_of, request_of, request_at, requests_of, entry_of, entry_at, entries_of};

use protocol_types::{Block, Entry, Operation, Refusal, Request, Setup, Variable};

// How many numbers name a request.
pub const REQUEST_WIDTH: usize = 4;

// How many numbers name an entry.
pub const ENTRY_WIDTH: usize = 3;

// Whether a list of numbers is a whole number of records of `width` numbers each.
#[tactic(auto, unfolding(crate::specs::Records::whole))]
pub fn is_whole(numbers: &[u32], width: usize) -> bool
    requires { 0 < width }
    ensures { result ≡ whole width numbers.now }
{
    numbers.len() % width == 0
}

// Whether the setup is refused, or else, by 2, a list that is not whole.
#[tactic(auto, unfolding(crate::specs::Records::partial_refusal))]
pub fn check_whole(setup: Setup, whole: bool) -> Result<(), Refusal>
    ensures { refusal_number result ≡ cond whole (setup_refusal setup) (partial_refusal setup) }
{
    setup.check()?;
    if !whole {
        return Err(Refusal::WrongLength);
    }
    Ok(())
}

// How many requests a list of numbers names.
#[tactic(auto, using(crate::proofs::Decoding::requests_counted))]
pub fn request_count(numbers: &[u32]) -> usize
    ensures { result ≡ length (requests_of numbers.now) }
{
    numbers.len() / REQUEST_WIDTH
}

// An operation by its number, its variable and its value: 1 writes, 2 clears, any other number reads.
#[tactic(auto, unfolding(crate::specs::Records::operation_of))]
fn operation_of(operation: u32, variable: u32, value: u32) -> Operation
    ensures { result ≡ operation_of operation variable value }
{
    match operation {
        1 => Operation::Write(Variable(variable), value),
        2 => Operation::Clear,
        _ => Operation::Read(Variable(variable)),
    }
}

// A request by its four numbers.
#[tactic(auto, unfolding(crate::specs::Records::request_of))]
fn request_of(processor: u32, operation: u32, variable: u32, value: u32) -> Request
    ensures { result ≡ request_of processor operation variable value }
{
    Request {
        processor,
        operation: operation_of(operation, variable, value),
    }
}

// Request i of a list of numbers.
pub fn request_at(numbers: &[u32], i: usize) -> Request
    requires { i < length numbers.now / request_width }
    ensures { result ≡ request_at numbers.now i }
{
    let k = i * REQUEST_WIDTH;
    request_of(numbers[k], numbers[k + 1], numbers[k + 2], numbers[k + 3])
}

// How many entries a list of numbers names.
#[tactic(auto, using(crate::proofs::Decoding::entries_counted))]
pub fn entry_count(numbers: &[u32]) -> usize
    ensures { result ≡ length (entries_of numbers.now) }
{
    numbers.len() / ENTRY_WIDTH
}

// An entry by its three numbers.
#[tactic(auto, unfolding(crate::specs::Records::entry_of))]
fn entry_of(kind: u32, processor: u32, block: u32) -> Entry
    ensures { result ≡ entry_of kind processor block }
{
    match kind {
        0 => Entry::Fetch(processor, Block(block)),
        1 => Entry::WriteBack(processor, Block(block)),
        2 => Entry::Drop(processor, Block(block)),
        3 => Entry::Complete,
        _ => Entry::CompleteByBroadcast,
    }
}

// Entry i of a list of numbers.
pub fn entry_at(numbers: &[u32], i: usize) -> Entry
    requires { i < length numbers.now / entry_width }
    ensures { result ≡ entry_at numbers.now i }
{
    let k = i * ENTRY_WIDTH;
    entry_of(numbers[k], numbers[k + 1], numbers[k + 2])
}
