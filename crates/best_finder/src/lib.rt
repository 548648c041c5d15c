// The search for the best schedule, over lent tables: distances, the order of settling, predecessors, and the smallest distance of each group.
#![tactic(auto)]

ghost use Rattle.std.specs.Prelude.{◌≡◌, List, ℕ, ◌≤◌, ◌<◌, length, set};
ghost use Rattle.protocol_types.specs.Lists.{at, zeros};
ghost use Rattle.protocol_types.specs.Board.{Fits};
ghost use Rattle.best_search.specs.Search.{Tried, halts, searched, initial};
ghost use Rattle.best_positions.specs.Position.{board};
ghost use Rattle.best_lowest.specs.Lowest.{lowest_of};
ghost use Rattle.best_tries.specs.Progress.{state_at};
ghost use Rattle.best_finder.specs.Moves.{Moved, OpenNext};

use best_moves::{legal_at, next_at, price_at};
use best_tries::{ENTRY_COUNT, LAYER_SIZE, POSITION_COUNT, Progress};
use protocol_types::Setup;

// One move of the search: an entry is tried or passed over, or the current position is settled.
fn advance(
    setup: Setup,
    asks: &[u32],
    p: Progress,
    distances: &mut [u32],
    order: &mut [u32],
    predecessors: &mut [u32],
    lowest: &mut [u32],
) -> Progress
    requires fits { Fits setup × (length asks.now ≤ 24) }
    requires sized { (length distances.old ≡ 32400) × (length order.old ≡ 32400) × (length predecessors.old ≡ 32400) × (length lowest.old ≡ 900) }
    requires few { (p.current < 32400) × (p.settled < 32400) × (p.used < 583201) }
    requires reached { (1 ≤ at distances.old p.current) × (at distances.old p.current ≤ 60001) }
    requires next { OpenNext (board setup asks.now) distances.old order.old p.current p.code }
    requires table { lowest.old ≡ lowest_of distances.old order.old }
    ensures moved { (ts : List Tried) → length ts ≡ p.used → Moved (board setup asks.now) (state_at distances.old order.old predecessors.old p ts)
        distances.new order.new predecessors.new result }
    ensures table { lowest.new ≡ lowest_of distances.new order.new }
{
    if ENTRY_COUNT <= p.code {
        return best_tries::settle_current(p, distances, order, lowest);
    }
    if !legal_at(setup, asks, p.current, p.code) {
        return p.passed(p.used);
    }
    let next = next_at(asks, p.current, p.code);
    let price = price_at(setup, asks, p.current, p.code);
    let last = next / LAYER_SIZE == asks.len();
    best_tries::try_entry(p, next, price, last, distances, predecessors, lowest)
}

// Whether the search is over, or before a try with no step left.
fn halted(setup: Setup, asks: &[u32], p: Progress, steps: u32) -> bool
    requires { Fits setup }
    ensures { (d o v : List ℕ) (ts : List Tried) → length ts ≡ p.used → result ≡ halts (board setup asks.now) steps (state_at d o v p ts) }
{
    if POSITION_COUNT <= p.current {
        return true;
    }
    if p.used < steps || ENTRY_COUNT <= p.code {
        return false;
    }
    legal_at(setup, asks, p.current, p.code)
}

// The search, from tables in which only position 0 is reached.
fn search_from_start(
    setup: Setup,
    asks: &[u32],
    steps: u32,
    own: u32,
    distances: &mut [u32],
    order: &mut [u32],
    predecessors: &mut [u32],
    lowest: &mut [u32],
) -> Progress
    requires fits { Fits setup × (length asks.now ≤ 24) }
    requires own_cost { (own ≤ 60000) × (length asks.now ≡ 0 → own ≡ 0) }
    requires distances { distances.old ≡ (initial (board setup asks.now) own).dist }
    requires order { order.old ≡ (initial (board setup asks.now) own).order }
    requires predecessors { predecessors.old ≡ (initial (board setup asks.now) own).via }
    requires lowest { (length lowest.old ≡ 900) × (lowest.old ≡ lowest_of distances.old order.old) }
    ensures state { state_at distances.new order.new predecessors.new result (searched (board setup asks.now) own steps).tries
        ≡ searched (board setup asks.now) own steps }
    ensures count { result.used ≡ length (searched (board setup asks.now) own steps).tries }
    ensures table { lowest.new ≡ lowest_of distances.new order.new }
{
    let mut p = Progress {
        current: 0,
        code: 0,
        settled: 0,
        limit: own,
        goal: POSITION_COUNT,
        used: 0,
    };
    while !halted(setup, asks, p, steps) {
        p = advance(setup, asks, p, distances, order, predecessors, lowest);
    }
    p
}

// Only position 0, or its group, has a distance, which is 1.
fn begin(table: &mut [u32])
    requires { 1 ≤ length table.old }
    ensures { table.new ≡ set (zeros (length table.old)) 0 1 }
{
    table.fill(0);
    table[0] = 1;
}

// The search from empty caches on, with at most this many tries, whatever the tables held. `own` is the cost that it is to undercut.
pub fn search(
    setup: Setup,
    asks: &[u32],
    steps: u32,
    own: u32,
    distances: &mut [u32],
    order: &mut [u32],
    predecessors: &mut [u32],
    lowest: &mut [u32],
) -> Progress
    requires fits { Fits setup × (length asks.now ≤ 24) }
    requires own_cost { (own ≤ 60000) × (length asks.now ≡ 0 → own ≡ 0) }
    requires sized { (length distances.old ≡ 32400) × (length order.old ≡ 32400) × (length predecessors.old ≡ 32400) × (length lowest.old ≡ 900) }
    ensures state { state_at distances.new order.new predecessors.new result (searched (board setup asks.now) own steps).tries
        ≡ searched (board setup asks.now) own steps }
    ensures count { result.used ≡ length (searched (board setup asks.now) own steps).tries }
    ensures table { lowest.new ≡ lowest_of distances.new order.new }
{
    begin(distances);
    order.fill(0);
    predecessors.fill(0);
    begin(lowest);
    search_from_start(
        setup,
        asks,
        steps,
        own,
        distances,
        order,
        predecessors,
        lowest,
    )
}
