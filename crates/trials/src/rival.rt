// A rival's schedule, played over facts by processor and block: a counter is 1 where the rival has a copy.
use crate::board::{
    clear, clear_owner, counter, first_held, in_the_way, owns, set_counter, set_owner, shared,
};
use crate::layout::ENTRIES;
use crate::lent;
use crate::lists::{Operation, REQUEST_WIDTH, Request, partial, request_at};
use crate::served::check_named;
use protocol_types::{PlacedRefusal, Refusal, Setup};
use trials_cells::cells::{Cells, get, product, put, quotient, sum};

// The numbers of an entry.
pub const ENTRY_WIDTH: u32 = 3;

// The kinds of entries by number. Any number above that of a broadcast completes by broadcast too.
#[derive(Clone, Copy, PartialEq, Eq)]
pub enum EntryKind {
    Fetch = 0,
    WriteBack = 1,
    Drop = 2,
    Complete = 3,
    Broadcast = 4,
    OtherBroadcast = 5,
}

pub(crate) fn kind_of(number: u32) -> EntryKind {
    match number {
        0 => EntryKind::Fetch,
        1 => EntryKind::WriteBack,
        2 => EntryKind::Drop,
        3 => EntryKind::Complete,
        4 => EntryKind::Broadcast,
        _ => EntryKind::OtherBroadcast,
    }
}

// An entry of a schedule. A completion has no use for the processor and the block.
#[derive(Clone, Copy)]
pub struct Move {
    pub kind: EntryKind,
    pub processor: u32,
    pub block: u32,
}

// A schedule so far: its cost, how much of that is for write-backs, the requests completed, and what refused it.
#[derive(Clone, Copy)]
pub struct Play {
    pub cost: u32,
    pub write_back: u32,
    pub done: u32,
    pub refused: Option<PlacedRefusal>,
}

pub(crate) fn new_play() -> Play {
    Play {
        cost: 0,
        write_back: 0,
        done: 0,
        refused: None,
    }
}

fn refused(play: Play, refusal: Refusal, place: u32) -> Play {
    let place = place as usize;
    Play {
        refused: Some(PlacedRefusal { refusal, place }),
        ..play
    }
}

// The schedule with one more entry, of this kind and at this cost.
fn paid(play: Play, kind: EntryKind, cost: u32) -> Play {
    let with_cost = Play {
        cost: sum(play.cost, cost),
        ..play
    };
    match kind {
        EntryKind::Fetch | EntryKind::Drop => with_cost,
        EntryKind::WriteBack => Play {
            write_back: sum(play.write_back, cost),
            ..with_cost
        },
        EntryKind::Complete | EntryKind::Broadcast | EntryKind::OtherBroadcast => Play {
            done: sum(play.done, 1),
            ..with_cost
        },
    }
}

// Whether a fetch, a write-back or a drop is refused.
fn check_move(cells: &Cells, setup: Setup, entry: Move) -> Result<(), Refusal> {
    let i = entry.processor;
    let b = entry.block;
    if i >= setup.processors {
        return Err(Refusal::NoSuchProcessor);
    }
    if b >= setup.blocks {
        return Err(Refusal::NoSuchBlock);
    }
    if entry.kind == EntryKind::Fetch {
        return check_fetch(cells, setup, i, b);
    }
    if counter(cells, i, b) == 0 {
        return Err(Refusal::BlockNotHeld);
    }
    if entry.kind == EntryKind::Drop && owns(cells, i, b) {
        return Err(Refusal::DropOfMarked);
    }
    Ok(())
}

fn check_fetch(cells: &Cells, setup: Setup, i: u32, b: u32) -> Result<(), Refusal> {
    if in_the_way(cells, setup.lines, i, b).is_some() {
        return Err(Refusal::LineInUse);
    }
    Ok(())
}

// Processor i has a copy of block b that is not marked.
fn set_unmarked(cells: &mut Cells, i: u32, b: u32) {
    clear_owner(cells, b);
    set_counter(cells, i, b, 1);
}

// The cost of a write by processor i, which has block b: alone it marks the block.
fn written(cells: &mut Cells, i: u32, b: u32, broadcast: bool) -> u32 {
    if broadcast || shared(cells, i, b) {
        return 1;
    }
    set_owner(cells, b, i);
    0
}

// Whether a completion is refused by what the processor has: a clear needs an empty cache, another request its block.
fn check_held(cells: &Cells, p: u32, request: Request) -> Result<(), Refusal> {
    let i = request.processor;
    if request.operation == Operation::Clear {
        if first_held(cells, i).is_some() {
            return Err(Refusal::CacheNotEmpty);
        }
        return Ok(());
    }
    if counter(cells, i, quotient(request.variable, p)) == 0 {
        return Err(Refusal::CompletionNotHeld);
    }
    Ok(())
}

// Whether the completion of request t of n is refused.
fn check_completion(
    cells: &Cells,
    setup: Setup,
    n: u32,
    t: u32,
    broadcast: bool,
) -> Result<(), Refusal> {
    if t >= n {
        return Err(Refusal::NoRequestLeft);
    }
    let request = request_at(cells, t);
    check_named(setup, request)?;
    if broadcast && request.operation != Operation::Write {
        return Err(Refusal::BroadcastWithoutWrite);
    }
    check_held(cells, setup.words, request)
}

fn check(cells: &Cells, setup: Setup, n: u32, t: u32, entry: Move) -> Result<(), Refusal> {
    match entry.kind {
        EntryKind::Fetch | EntryKind::WriteBack | EntryKind::Drop => {
            check_move(cells, setup, entry)
        }
        EntryKind::Complete => check_completion(cells, setup, n, t, false),
        EntryKind::Broadcast | EntryKind::OtherBroadcast => {
            check_completion(cells, setup, n, t, true)
        }
    }
}

// The completion of request t, which nothing refuses: its cost.
fn complete(cells: &mut Cells, p: u32, t: u32, broadcast: bool) -> u32 {
    let request = request_at(cells, t);
    if request.operation != Operation::Write {
        return 0;
    }
    let b = quotient(request.variable, p);
    written(cells, request.processor, b, broadcast)
}

// An entry that nothing refuses, where t requests are completed: its cost.
fn enter(cells: &mut Cells, setup: Setup, t: u32, entry: Move) -> u32 {
    let i = entry.processor;
    let b = entry.block;
    match entry.kind {
        EntryKind::Fetch => {
            set_unmarked(cells, i, b);
            setup.fetch_price
        }
        EntryKind::WriteBack => {
            set_unmarked(cells, i, b);
            setup.write_back_price
        }
        EntryKind::Drop => {
            set_counter(cells, i, b, 0);
            0
        }
        EntryKind::Complete => complete(cells, setup.words, t, false),
        EntryKind::Broadcast | EntryKind::OtherBroadcast => complete(cells, setup.words, t, true),
    }
}

// Plays one entry, for n requests; after a refusal nothing changes.
pub(crate) fn play_entry(
    cells: &mut Cells,
    setup: Setup,
    n: u32,
    entry: Move,
    place: u32,
    play: Play,
) -> Play {
    if play.refused.is_some() {
        return play;
    }
    if let Err(refusal) = check(cells, setup, n, play.done, entry) {
        return refused(play, refusal, place);
    }
    let cost = enter(cells, setup, play.done, entry);
    paid(play, entry.kind, cost)
}

fn entry_place(t: u32) -> u32 {
    sum(ENTRIES, product(t, ENTRY_WIDTH))
}

// Entry t of the list.
fn entry_at(cells: &Cells, t: u32) -> Move {
    let first = entry_place(t);
    Move {
        kind: kind_of(get(cells, first, 0)),
        processor: get(cells, first, 1),
        block: get(cells, first, 2),
    }
}

pub(crate) fn put_entry(cells: &mut Cells, t: u32, entry: Move) {
    let first = entry_place(t);
    put(cells, first, 0, entry.kind as u32);
    put(cells, first, 1, entry.processor);
    put(cells, first, 2, entry.block);
}

// Plays entry t of the list.
fn play_next(cells: &mut Cells, setup: Setup, n: u32, t: u32, play: Play) -> Play {
    let entry = entry_at(cells, t);
    play_entry(cells, setup, n, entry, t, play)
}

fn play_all(cells: &mut Cells, setup: Setup, count: u32, n: u32) -> Play {
    let mut play = new_play();
    for t in 0..count {
        play = play_next(cells, setup, n, t, play);
    }
    play
}

// Requests may be left at the end.
fn ended(play: Play, count: u32, n: u32) -> Play {
    if play.refused.is_none() && play.done < n {
        return refused(play, Refusal::RequestsLeft, count);
    }
    play
}

// Whether the setup, m numbers of entries and n of requests, or the pricer's tables are refused.
fn check_price(cells: &Cells, setup: Setup, m: u32, n: u32) -> Result<(), Refusal> {
    lent::check_setup(setup)?;
    if partial(m, ENTRY_WIDTH)
        || partial(n, REQUEST_WIDTH)
        || lent::lengths_wrong(cells, setup, 0, lent::PRICED)
    {
        return Err(Refusal::WrongLength);
    }
    Ok(())
}

// A schedule of `count` entries for n requests, played from empty caches to its end.
fn played(cells: &mut Cells, setup: Setup, count: u32, n: u32) -> Play {
    clear(cells);
    ended(play_all(cells, setup, count, n), count, n)
}

// The price of a schedule of m numbers for requests of n numbers, both too few to be refused by 5. The lent tables become what they should
// be after it: the rival's position, or 0 after a refusal.
pub(crate) fn price(cells: &mut Cells, setup: Setup, m: u32, n: u32) -> Play {
    if let Err(refusal) = check_price(cells, setup, m, n) {
        return refused(new_play(), refusal, 0);
    }
    lent::wipe_tables(cells, lent::PRICED);
    let play = played(
        cells,
        setup,
        quotient(m, ENTRY_WIDTH),
        quotient(n, REQUEST_WIDTH),
    );
    if play.refused.is_none() {
        lent::lay_lines(cells, setup);
    }
    play
}
