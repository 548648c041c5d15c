// What goes before and after the search for the best schedule: the checks, the requests as the search's numbers, and its numbers as entries.
#![tactic(auto)]

ghost use Rattle.std.specs.Prelude.{◌≡◌, ◌*◌, ◌<◌, ◌≤◌, length, MatchResult};
ghost use Rattle.protocol_types.specs.Refusals.{refusal_number};
ghost use Rattle.protocol_types.specs.Board.{Fits, variables, block_of};
ghost use Rattle.protocol_types.specs.Conditions.{Named};
ghost use Rattle.best_positions.specs.Position.{asked_by, entries_from};
ghost use Rattle.best_positions.specs.Best.{searchable, search_refusal};
ghost use Rattle.stored_lists.specs.Lists.{filled};
ghost use Rattle.best_steps.specs.Steps.{lengths_fit, AreAsked, IsFirstRefused};

use protocol_types::{Entry, Operation, PlacedRefusal, Refusal, Request, Setup, Variable};
use stored_lists::Stores;

// The positions of the search, each of which has an entry in the list.
const POSITION_COUNT: usize = 32400;

// The groups of 36 positions.
const GROUP_COUNT: usize = 900;

// The longest list of requests.
const REQUEST_COUNT: usize = 24;

// ---- what is checked before the first request

// Whether 12 lets the setup and the number of requests through.
#[tactic(auto, unfolding(best_positions::specs::Best::searchable))]
fn is_searchable(setup: Setup, count: usize) -> bool
    ensures { result ≡ searchable setup count }
{
    setup.processors == 2 && setup.blocks <= 4 && count <= REQUEST_COUNT
}

// Whether 2 lets the lent tables and the list through, by their lengths.
pub fn lengths_fit(
    distances: usize,
    order: usize,
    predecessors: usize,
    lowest: usize,
    entries: usize,
) -> bool
    ensures { result ≡ lengths_fit distances order predecessors lowest entries }
{
    distances == POSITION_COUNT
        && order == POSITION_COUNT
        && predecessors == POSITION_COUNT
        && lowest == GROUP_COUNT
        && entries == POSITION_COUNT
}

// Whether a search of `count` requests is refused before the first: 1, 10, 12, 2 in this order.
#[tactic(auto, unfolding(best_positions::specs::Best::search_refusal))]
pub fn check_search(setup: Setup, count: usize, fits: bool) -> Result<(), Refusal>
    ensures { refusal_number result ≡ search_refusal setup count fits }
{
    setup.check()?;
    if !is_searchable(setup, count) {
        return Err(Refusal::NotSearchable);
    }
    if !fits {
        return Err(Refusal::WrongLength);
    }
    Ok(())
}

// ---- the requests

// 4 times the number of a variable's block.
fn block_number(setup: Setup, variable: Variable) -> u32
    requires { Fits setup × (setup.blocks ≤ 4) × (variable.0 < variables setup) }
    ensures { (result ≡ 4 * (block_of setup variable).0) × (result ≤ 12) }
{
    let block = setup.block_of(variable);
    4 * block.0
}

// The number of an operation by a processor.
fn number_of(setup: Setup, processor: u32, operation: Operation) -> u32
    requires { Fits setup × (setup.blocks ≤ 4) × (processor < 2) × Named setup operation }
    ensures { result ≡ asked_by setup processor operation }
{
    match operation {
        Operation::Read(v) => block_number(setup, v) + processor,
        Operation::Write(v, _) => block_number(setup, v) + 2 + processor,
        Operation::Clear => best_moves::CLEAR as u32 + processor,
    }
}

// The requests as numbers, or the first that is refused.
pub fn numbers_of<C: Stores<Request>>(
    setup: Setup,
    requests: &[C],
) -> Result<[u32; REQUEST_COUNT], PlacedRefusal>
    requires { Fits setup × (setup.processors ≡ 2) × (setup.blocks ≤ 4) × (length (C.records requests.now) ≤ 24) }
    ensures { MatchResult result (λ asks. AreAsked setup (C.records requests.now) asks) (λ r. IsFirstRefused setup (C.records requests.now) r) }
{
    let count = C::count(requests);
    let mut asks = [0; REQUEST_COUNT];
    for i in 0..count {
        let request = C::record_at(requests, i);
        if let Err(refusal) = setup.check_request(0, request) {
            return Err(PlacedRefusal { refusal, place: i });
        }
        let number = number_of(setup, request.processor, request.operation);
        asks[i] = number;
    }
    Ok(asks)
}

// ---- the schedule

// The entries that these numbers tell are stored from the front of the list on.
pub fn store_entries<D: Stores<Entry>>(numbers: &[u32], list: &mut [D])
    requires { length numbers.now ≤ length (D.records list.old) }
    ensures { list.new ≡ filled D.stored list.old (entries_from numbers.now) }
{
    for (i, number) in numbers.iter().enumerate() {
        let entry = best_moves::entry_from(*number);
        D::store(list, i, entry);
    }
}
