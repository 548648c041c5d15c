// The best schedule found in so many steps, as numbers at the front of a lent table: the engine's own actions, or the way to the goal of the search.
#![tactic(auto)]

ghost use Rattle.std.specs.Prelude.{◌≡◌, ◌≢◌, ◌++◌, ℕ, ◌-◌, ◌+◌, ◌/◌, ◌≤◌, ◌<◌, length, drop};
ghost use Rattle.protocol_types.specs.Board.{Fits};
ghost use Rattle.protocol_types.specs.Lists.{at};
ghost use Rattle.best_way.specs.Hops.{hops};
ghost use Rattle.best_schedule.specs.Lent.{search_lent, TablesFit};
ghost use Rattle.best_schedule.specs.Found.{numbers_to, best_found, tables_after};

use best_tries::POSITION_COUNT;
use protocol_types::{BestSchedule, Setup};

// The cost less half the engine's cycles, that half rounded up; 0 if it is not above it.
fn excess(cost: u32, engine: u32) -> u32
    requires { engine ≤ 60000 }
    ensures { result ≡ cost - (engine + 1) / 2 }
{
    let half = (engine + 1) / 2;
    cost.saturating_sub(half)
}

// The schedule's numbers are written at the front of the lent ones, whose others stay: the way to the goal, or the engine's own actions. Their count.
fn write_schedule(
    setup: Setup,
    asks: &[u32],
    goal: usize,
    predecessors: &[u32],
    numbers: &mut [u32],
) -> usize
    requires fits { Fits setup × (setup.blocks ≤ 4) × (length asks.now ≤ 24) }
    requires sized { (length predecessors.now ≡ 32400) × (length numbers.old ≡ 32400) }
    requires before { (j : ℕ) → at predecessors.now j / 18 < 32400 }
    requires goal { goal ≢ 32400 → (goal < 32400) × (hops 32401 predecessors.now goal ≤ 32400) }
    ensures count { result ≡ length (numbers_to setup asks.now predecessors.now goal) }
    ensures written { numbers.new ≡ numbers_to setup asks.now predecessors.now goal ++ drop result numbers.old }
{
    if goal == POSITION_COUNT {
        let own = best_own::own_actions(setup, asks, numbers);
        return own.length;
    }
    let count = best_way::way_length(goal, predecessors);
    best_way::write_way(goal, count, predecessors, numbers);
    count
}

// The best schedule that so many steps find, for the requests with these numbers; the tables may hold anything before.
pub fn find(
    setup: Setup,
    asks: &[u32],
    steps: u32,
    distances: &mut [u32],
    order: &mut [u32],
    predecessors: &mut [u32],
    lowest: &mut [u32],
) -> BestSchedule
    requires fits { Fits setup × (setup.blocks ≤ 4) × (length asks.now ≤ 24) }
    requires tables_fit { TablesFit (search_lent distances.old order.old predecessors.old lowest.old) }
    ensures value { result ≡ best_found setup asks.now steps }
    ensures tables { search_lent distances.new order.new predecessors.new lowest.new ≡ tables_after setup asks.now steps }
{
    let own = best_own::own_actions(setup, asks, distances);
    let p = best_finder::search(
        setup,
        asks,
        steps,
        own.cost,
        distances,
        order,
        predecessors,
        lowest,
    );
    let count = write_schedule(setup, asks, p.goal, &*predecessors, distances);
    BestSchedule {
        length: count,
        cost: p.limit,
        steps: p.used,
        least: POSITION_COUNT <= p.current,
        excess: excess(p.limit, own.cost),
    }
}
