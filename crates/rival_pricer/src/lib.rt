// The price of a rival's schedule for a list of requests, in records or in numbers.
#![tactic(auto)]

ghost use Rattle.std.specs.Prelude.{◌≡◌, ◌≤◌, ◌&&◌, length, take, drop};
ghost use Rattle.protocol_types.specs.Board.{Fits};
ghost use Rattle.protocol_types.specs.Answers.{price_answer};
ghost use Rattle.protocol.specs.Rival.{no_copies};
ghost use Rattle.protocol.specs.Pricer.{price_entry_limit, verdict, price as priced, price_tables, in_numbers};
ghost use Rattle.rival_copies.specs.Copies.{rival_lent};
ghost use Rattle.rival_schedule.specs.Played.{next_alone};
ghost use Rattle.rival_pricer.specs.Priced.{completes, Judged, price_of_lists, price_in_numbers_of_lists, price_tables_of_lists};

use protocol_types::{Entry, PlacedRefusal, Refusal, Request, Setup};
use rival_pricing::{clear_all, price_refusal};
use rival_schedule::play_entry;
use stored_lists::Stores;

// Whether an entry is a completion.
fn completes(entry: Entry) -> bool
    ensures { result ≡ completes entry }
{
    matches!(entry, Entry::Complete | Entry::CompleteByBroadcast)
}

// The next request, if one is left.
fn next_request<C: Stores<Request>>(requests: &[C], next: usize) -> Option<Request>
    ensures { next_alone result ≡ take 1 (drop next (C.records requests.now)) }
{
    if next >= C::count(requests) {
        return None;
    }
    Some(C::record_at(requests, next))
}

// From empty caches, entry by entry, to the first refused one.
fn play_all<C: Stores<Request>, D: Stores<Entry>>(
    setup: Setup,
    blocks: &mut [u32],
    held: &mut [u32],
    marks: &mut [u32],
    entries: &[D],
    requests: &[C],
) -> Result<u32, PlacedRefusal>
    requires fits { Fits setup }
    requires few { length (D.records entries.now) ≤ price_entry_limit }
    requires empty { rival_lent blocks.old held.old marks.old ≡ no_copies setup }
    ensures { Judged setup (verdict setup (C.records requests.now) (D.records entries.now)) result (rival_lent blocks.new held.new marks.new) }
{
    let entry_count = D::count(entries);
    let request_count = C::count(requests);
    let mut next = 0;
    let mut cost = 0;
    for at in 0..entry_count {
        let entry = D::record_at(entries, at);
        let request = next_request(requests, next);
        let cycles = play_entry(setup, entry, request, blocks, held, marks).map_err(
            move |refusal| PlacedRefusal { refusal, place: at },
        )?;
        cost += cycles;
        if completes(entry) {
            next += 1;
        }
    }
    if next < request_count {
        let left = PlacedRefusal {
            refusal: Refusal::RequestsLeft,
            place: entry_count,
        };
        return Err(left);
    }
    Ok(cost)
}

// The price for lists that are whole.
fn price_whole<C: Stores<Request>, D: Stores<Entry>>(
    setup: Setup,
    blocks: &mut [u32],
    held: &mut [u32],
    marks: &mut [u32],
    entries: &[D],
    requests: &[C],
) -> Result<u32, PlacedRefusal>
    ensures { (price_answer result ≡ priced setup (rival_lent blocks.old held.old marks.old) (C.records requests.now) (D.records entries.now))
        × (rival_lent blocks.new held.new marks.new ≡ price_tables setup (rival_lent blocks.old held.old marks.old) (C.records requests.now) (D.records entries.now)) }
{
    let entry_count = D::count(entries);
    let request_count = C::count(requests);
    price_refusal(setup, &*blocks, &*held, &*marks, entry_count, request_count).map_err(
        |refusal| PlacedRefusal { refusal, place: 0 },
    )?;
    clear_all(setup, blocks, held, marks);
    match play_all(setup, blocks, held, marks, entries, requests) {
        Ok(price) => Ok(price),
        Err(refused) => {
            clear_all(setup, blocks, held, marks);
            Err(refused)
        }
    }
}

// Whether both lists are whole.
fn are_whole<C: Stores<Request>, D: Stores<Entry>>(entries: &[D], requests: &[C]) -> bool
    ensures { result ≡ C.whole requests.now && D.whole entries.now }
{
    C::is_whole(requests) && D::is_whole(entries)
}

// The price of a schedule for the requests; lists that are not whole are refused.
pub fn price<C: Stores<Request>, D: Stores<Entry>>(
    setup: Setup,
    blocks: &mut [u32],
    held: &mut [u32],
    marks: &mut [u32],
    entries: &[D],
    requests: &[C],
) -> Result<u32, PlacedRefusal>
    ensures { (price_answer result ≡ price_of_lists setup (rival_lent blocks.old held.old marks.old) (C.whole requests.now && D.whole entries.now) (C.records requests.now) (D.records entries.now))
        × (in_numbers (price_answer result) ≡ price_in_numbers_of_lists setup (rival_lent blocks.old held.old marks.old) (C.whole requests.now && D.whole entries.now) (C.records requests.now) (D.records entries.now))
        × (rival_lent blocks.new held.new marks.new ≡ price_tables_of_lists setup (rival_lent blocks.old held.old marks.old) (C.whole requests.now && D.whole entries.now) (C.records requests.now) (D.records entries.now)) }
{
    if let Err(refusal) = host_decoding::check_whole(setup, are_whole(entries, requests)) {
        return Err(PlacedRefusal { refusal, place: 0 });
    }
    price_whole(setup, blocks, held, marks, entries, requests)
}
