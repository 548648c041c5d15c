// What one request does, and a run of requests.
use crate::board::{
    BLOCKS, counter, current, in_the_way, owner, owns, payer, save, set_counter, set_current,
    set_owner, set_stored,
};
use crate::layout::{MOST_REQUESTS, WANTED};
use crate::lent;
use crate::lists::{Operation, REQUEST_WIDTH, Request, partial, request_at};
use protocol_types::{Account, PlacedRefusal, Refusal, Setup};
use trials_cells::cells::{Cells, less, product, put, quotient, sum};
use trials_cells::state;

// Where the model's values go.
const VALUES: u32 = WANTED + lent::VALUES;

// The cycles of blocks that come and go.
#[derive(Clone, Copy)]
struct Moved {
    fetch: u32,
    write_back: u32,
}

// The value that a request supplied or wrote, and its cycles.
#[derive(Clone, Copy)]
pub struct Served {
    pub value: u32,
    pub fetch: u32,
    pub write_back: u32,
    pub update: u32,
}

// What a run came to.
#[derive(Clone, Copy)]
pub struct Outcome {
    pub taken: u32,
    pub refused: Option<PlacedRefusal>,
    pub account: Account,
}

// Block a leaves processor i: the cycles of writing it back if it was marked.
fn leave(cells: &mut Cells, setup: Setup, i: u32, a: u32) -> u32 {
    set_counter(cells, i, a, 0);
    if !owns(cells, i, a) {
        return 0;
    }
    save(cells, setup.words, a);
    setup.write_back_price
}

// Whatever processor i has leaves: the cycles of writing back what was marked.
fn leave_all(cells: &mut Cells, setup: Setup, i: u32) -> u32 {
    let mut cycles = 0;
    for a in 0..BLOCKS {
        cycles = sum(cycles, leave(cells, setup, i, a));
    }
    cycles
}

// A block in the way of b leaves.
fn make_room(cells: &mut Cells, setup: Setup, i: u32, b: u32) -> u32 {
    match in_the_way(cells, setup.lines, i, b) {
        Some(a) => leave(cells, setup, i, a),
        None => 0,
    }
}

// Whoever has b marked gives its words to main memory.
fn reclaim(cells: &mut Cells, p: u32, b: u32) {
    if owner(cells, b).is_some() {
        save(cells, p, b);
    }
}

// Block b comes to processor i, if it is not there.
fn bring(cells: &mut Cells, setup: Setup, i: u32, b: u32) -> Moved {
    if counter(cells, i, b) > 0 {
        return Moved {
            fetch: 0,
            write_back: 0,
        };
    }
    let write_back = make_room(cells, setup, i, b);
    reclaim(cells, setup.words, b);
    set_counter(cells, i, b, setup.fetch_price);
    Moved {
        fetch: setup.fetch_price,
        write_back,
    }
}

// Processor i, which has block b, writes x to variable v: the update cycles.
fn change(cells: &mut Cells, fetch_price: u32, i: u32, b: u32, v: u32, x: u32) -> u32 {
    set_counter(cells, i, b, fetch_price);
    set_current(cells, v, x);
    let Some(j) = payer(cells, i, b) else {
        set_owner(cells, b, i);
        return 0;
    };
    set_stored(cells, v, x);
    let left = less(counter(cells, j, b), 1);
    set_counter(cells, j, b, left);
    1
}

// Serves one request, which nothing refuses.
pub(crate) fn serve(cells: &mut Cells, setup: Setup, request: Request) -> Served {
    let i = request.processor;
    let v = request.variable;
    let b = quotient(v, setup.words);
    match request.operation {
        Operation::Clear => {
            let write_back = leave_all(cells, setup, i);
            let moved = Moved {
                fetch: 0,
                write_back,
            };
            served_at(moved, 0, 0)
        }
        Operation::Write => {
            let moved = bring(cells, setup, i, b);
            let update = change(cells, setup.fetch_price, i, b, v, request.value);
            served_at(moved, request.value, update)
        }
        Operation::Read => {
            let moved = bring(cells, setup, i, b);
            served_at(moved, current(cells, v), 0)
        }
    }
}

fn served_at(moved: Moved, value: u32, update: u32) -> Served {
    Served {
        value,
        fetch: moved.fetch,
        write_back: moved.write_back,
        update,
    }
}

// The account with one request more.
pub(crate) fn entered(account: Account, served: Served) -> Account {
    Account {
        requests: sum(account.requests, 1),
        fetch: sum(account.fetch, served.fetch),
        write_back: sum(account.write_back, served.write_back),
        update: sum(account.update, served.update),
    }
}

// Whether a request is refused for a processor or a variable that there is not. A clear names no variable.
pub(crate) fn check_named(setup: Setup, request: Request) -> Result<(), Refusal> {
    if request.processor >= setup.processors {
        return Err(Refusal::NoSuchProcessor);
    }
    let variables = product(setup.blocks, setup.words);
    if request.operation != Operation::Clear && request.variable >= variables {
        return Err(Refusal::NoSuchVariable);
    }
    Ok(())
}

// Whether a request is refused.
fn check(setup: Setup, account: Account, request: Request) -> Result<(), Refusal> {
    check_named(setup, request)?;
    if account.requests >= MOST_REQUESTS {
        return Err(Refusal::AccountFull);
    }
    Ok(())
}

// Whether the cycles of a kind are more than `most` × requests, in 64 bits.
fn over(cycles: u32, most: u32, requests: u32) -> bool {
    u64::from(cycles) > times(requests, most)
}

// `most` × requests, by adding.
fn times(requests: u32, most: u32) -> u64 {
    let mut all: u64 = 0;
    for _ in 0..most {
        all = all.wrapping_add(u64::from(requests));
    }
    all
}

// Whether an account is impossible. One request may write back every line of a cache.
fn impossible(setup: Setup, account: Account) -> bool {
    let whole_cache = product(setup.write_back_price, setup.lines);
    over(account.fetch, setup.fetch_price, account.requests)
        || over(account.write_back, whole_cache, account.requests)
        || account.update > account.requests
}

// The run with one request more.
fn taken(so_far: Outcome, served: Served) -> Outcome {
    Outcome {
        taken: sum(so_far.taken, 1),
        account: entered(so_far.account, served),
        ..so_far
    }
}

// The run after its next request; after a refusal nothing changes.
fn taken_next(cells: &mut Cells, setup: Setup, so_far: Outcome) -> Outcome {
    if so_far.refused.is_some() {
        return so_far;
    }
    let request = request_at(cells, so_far.taken);
    if let Err(refusal) = check(setup, so_far.account, request) {
        return refused(so_far, refusal);
    }
    let served = serve(cells, setup, request);
    put(cells, VALUES, so_far.taken, served.value);
    taken(so_far, served)
}

// A run before its first request.
fn new_outcome(account: Account) -> Outcome {
    Outcome {
        taken: 0,
        refused: None,
        account,
    }
}

// The run refused at its next request.
fn refused(so_far: Outcome, refusal: Refusal) -> Outcome {
    let place = so_far.taken as usize;
    Outcome {
        refused: Some(PlacedRefusal { refusal, place }),
        ..so_far
    }
}

// The requests in turn.
fn take_all(cells: &mut Cells, setup: Setup, n: u32, account: Account) -> Outcome {
    let mut so_far = new_outcome(account);
    for _ in 0..n {
        so_far = taken_next(cells, setup, so_far);
    }
    so_far
}

// Whether a run of so many numbers is refused as a whole; the facts become what the tables show. A mask that alone is false
// is counted.
fn check_run(
    cells: &mut Cells,
    setup: Setup,
    account: Account,
    numbers: u32,
) -> Result<(), Refusal> {
    let n = quotient(numbers, REQUEST_WIDTH);
    lent::check_setup(setup)?;
    if partial(numbers, REQUEST_WIDTH) || lent::lengths_wrong(cells, setup, n, lent::ALL) {
        return Err(Refusal::WrongLength);
    }
    if lent::load(cells, setup) > 0 {
        return Err(Refusal::UnsoundTables);
    }
    if lent::false_masks(cells, setup.blocks) > 0 {
        state::add(cells, state::FALSE_MASKS, 1);
        return Err(Refusal::UnsoundTables);
    }
    if impossible(setup, account) {
        return Err(Refusal::ImpossibleAccount);
    }
    Ok(())
}

// A run of so many numbers over lent tables, which become what they should be after it.
pub(crate) fn run(cells: &mut Cells, setup: Setup, account: Account, numbers: u32) -> Outcome {
    if let Err(refusal) = check_run(cells, setup, account, numbers) {
        return refused(new_outcome(account), refusal);
    }
    let after = take_all(cells, setup, quotient(numbers, REQUEST_WIDTH), account);
    lent::lay_out(cells, setup);
    after
}
