// The best schedule found so far, for a lent list of requests, at the front of a lent list of entries, whatever the cells of the lists are.
#![tactic(auto)]

ghost use Rattle.std.specs.Prelude.{◌≡◌, ◌≢◌, ◌&&◌, length};
ghost use Rattle.protocol_types.specs.Refusals.{no_refusal};
ghost use Rattle.protocol_types.specs.SearchAnswers.{search_answer};
ghost use Rattle.best_positions.specs.Best.{best_refusal, best_answer};
ghost use Rattle.best_schedule.specs.Lent.{search_lent};
ghost use Rattle.best.specs.Lists.{entries_lent, lists_sized, best_stored};

use protocol_types::{BestSchedule, Entry, PlacedRefusal, Request, Setup};
use stored_lists::Stores;

// How many entries the list has room for; 0 where a list is not whole.
fn entries_lent<C: Stores<Request>, D: Stores<Entry>>(requests: &[C], list: &[D]) -> usize
    ensures { result ≡ entries_lent (C.whole requests.now && D.whole list.now) (length (D.records list.now)) }
{
    if !C::is_whole(requests) || !D::is_whole(list) {
        return 0;
    }
    D::count(list)
}

// The requests in turn, to the first refused one; then the search, and the entries of its schedule in turn.
pub fn best<C: Stores<Request>, D: Stores<Entry>>(
    setup: Setup,
    requests: &[C],
    distances: &mut [u32],
    order: &mut [u32],
    predecessors: &mut [u32],
    lowest: &mut [u32],
    list: &mut [D],
    steps: u32,
) -> Result<BestSchedule, PlacedRefusal>
    ensures { let sized = lists_sized (search_lent distances.old order.old predecessors.old lowest.old) (C.whole requests.now) (D.whole list.old) (length (D.records list.old)) in
        (search_answer result ≡ best_answer setup (C.records requests.now) steps sized)
        × (list.new ≡ best_stored D.stored setup (C.records requests.now) steps sized list.old)
        × (best_refusal setup (C.records requests.now) sized ≢ no_refusal
        → search_lent distances.new order.new predecessors.new lowest.new ≡ search_lent distances.old order.old predecessors.old lowest.old) }
{
    let count = C::count(requests);
    let entries = entries_lent(requests, &*list);
    let fits = best_steps::lengths_fit(
        distances.len(),
        order.len(),
        predecessors.len(),
        lowest.len(),
        entries,
    );
    if let Err(refusal) = best_steps::check_search(setup, count, fits) {
        return Err(PlacedRefusal { refusal, place: 0 });
    }
    let asks = best_steps::numbers_of(setup, requests)?;
    let found = best_schedule::find(
        setup,
        &asks[..count],
        steps,
        distances,
        order,
        predecessors,
        lowest,
    );
    best_steps::store_entries(&distances[..found.length], list);
    Ok(found)
}
