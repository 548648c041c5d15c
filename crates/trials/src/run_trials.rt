// Starting, runs and looks.
use crate::asked::{Answer, Shown};
use crate::layout::{REAL, WANTED};
use crate::served::Outcome;
use crate::{asked, damage, lent, lists, served, setups};
use protocol_types::{Account, PlacedRefusal, Refusal, Setup, placed_number};
use trials_cells::cells::{Cells, copy, differences, less, put, quotient, remainder, sum};
use trials_cells::state;
use trials_cells::state::{Difference, Kind, draw, word};

const REAL_MEMORY: u32 = REAL + lent::MEMORY;

const REAL_MASKS: u32 = REAL + lent::MASKS;

// Numbers below this are scattered, or below that of a byte.
const WORDS: u32 = u32::MAX;

const BYTES: u32 = 256;

// The n cells from `first` on get a number below `below` each, counted from `from`.
fn scatter(cells: &mut Cells, first: u32, n: u32, from: u32, below: u32) {
    for k in 0..n {
        put(cells, first, k, remainder(sum(from, k), below));
    }
}

// The model works on tables that are the real ones so far.
pub(crate) fn copy_tables(cells: &mut Cells) {
    copy(cells, REAL, WANTED, lent::CELLS);
}

// What a trial differed in: the answer, or else the tables.
fn with_tables(cells: &Cells, what: Option<Difference>) -> Option<Difference> {
    if what.is_none() && differences(cells, REAL, WANTED, lent::CELLS) > 0 {
        return Some(Difference::Buffers);
    }
    what
}

// What an answer differs in from the model's.
fn answers_differ(expected: Answer, answer: Answer) -> Option<Difference> {
    if placed_number(answer.refused) != placed_number(expected.refused) {
        return Some(Difference::Refusal);
    }
    if answer.refused != expected.refused {
        return Some(Difference::Place);
    }
    if answer.taken != expected.taken {
        return Some(Difference::Taken);
    }
    if answer.cost != expected.cost {
        return Some(Difference::Cost);
    }
    if answer.account != expected.account {
        return Some(Difference::Account);
    }
    None
}

// Calls an entry, after the model: what differs.
pub(crate) fn compare(
    cells: &mut Cells,
    kind: Kind,
    setup: Setup,
    account: Account,
    m: u32,
    n: u32,
    expected: Answer,
) -> Option<Difference> {
    let answer = asked::ask(cells, kind, setup, account, m, n);
    with_tables(cells, answers_differ(expected, answer))
}

// Starts the tables, in the model and by the entry.
fn start_both(rt: &impl Print, cells: &mut Cells, setup: Setup, case: u32) {
    let fresh = setups::fresh_account();
    copy_tables(cells);
    let expected = Answer::started(lent::start(cells, setup), fresh);
    let what = compare(cells, Kind::Start, setup, fresh, 0, 0, expected);
    let number = placed_number(expected.refused);
    state::record(rt, cells, Kind::Start, case, number, what);
}

// Each number at 0, 1, its largest and one more.
fn chosen_setup(setup: Setup, case: u32) -> Setup {
    let which = case / 4 % setups::NUMBERS;
    let most = setups::most(setup, which);
    match case % 4 {
        0 => setups::with_number(setup, which, 0),
        1 => setups::with_number(setup, which, 1),
        2 => setups::with_number(setup, which, most),
        _ => setups::with_number(setup, which, sum(most, 1)),
    }
}

// The first cases have chosen setups; the others are drawn.
fn start_setup(cells: &mut Cells, setup: Setup, case: u32) -> Setup {
    let drawn = setups::perhaps_wrong_setup(cells, setup, 6);
    if case >= 4 * setups::NUMBERS {
        return drawn;
    }
    chosen_setup(setup, case)
}

// The lengths for a setup; those of another one where it is out of range.
fn put_start_lengths(cells: &mut Cells, setup: Setup, other: Setup) {
    let right = if lent::check_setup(setup).is_ok() {
        setup
    } else {
        other
    };
    lent::put_lengths(cells, right, 0);
}

// A setup and lengths for starting.
fn pick_start(cells: &mut Cells, case: u32) -> Setup {
    let right = setups::new_setup(cells);
    let setup = start_setup(cells, right, case);
    put_start_lengths(cells, setup, right);
    setups::perhaps_wrong_lengths(cells, 4);
    setup
}

// Every cell of the real tables gets a number of its own; that of a mask is a byte.
fn scatter_tables(cells: &mut Cells, from: u32) {
    scatter(cells, REAL, lent::CELLS, from, WORDS);
    scatter(cells, REAL_MASKS, lent::MASK_CELLS, from, BYTES);
}

pub(crate) fn start_case(rt: &impl Print, cells: &mut Cells, case: u32) {
    let setup = pick_start(cells, case);
    let from = word(cells);
    scatter_tables(cells, from);
    start_both(rt, cells, setup, case);
}

// A list of runs over the same tables and account, and how many are left of it.
#[derive(Clone, Copy)]
pub struct Series {
    pub setup: Setup,
    pub account: Account,
    pub left: u32,
}

// A run: its setup and account, and how many numbers of the requests are lent.
#[derive(Clone, Copy)]
pub struct Plan {
    pub setup: Setup,
    pub account: Account,
    pub numbers: u32,
}

// What a run came to in the model: the account and what refused it; and what differed from it.
#[derive(Clone, Copy)]
pub struct Judged {
    pub account: Account,
    pub refused: Option<PlacedRefusal>,
    pub what: Option<Difference>,
}

fn run_answer(outcome: Outcome) -> Answer {
    Answer {
        refused: outcome.refused,
        taken: outcome.taken as usize,
        cost: 0,
        account: outcome.account,
    }
}

// A run in the model and by the entry.
pub(crate) fn run_both(cells: &mut Cells, plan: Plan) -> Judged {
    let setup = plan.setup;
    let account = plan.account;
    copy_tables(cells);
    let n = plan.numbers;
    let outcome = served::run(cells, setup, account, n);
    let what = compare(cells, Kind::Run, setup, account, 0, n, run_answer(outcome));
    Judged {
        account: outcome.account,
        refused: outcome.refused,
        what,
    }
}

pub(crate) fn cycles(account: Account) -> u32 {
    sum(sum(account.fetch, account.write_back), account.update)
}

// A setup at which tables are lent, and what of them is looked at.
#[derive(Clone, Copy)]
struct Sight {
    setup: Setup,
    processor: u32,
    block: u32,
}

// A look at a block of a cache, in the model and by the entry.
fn look_both(rt: &impl Print, cells: &mut Cells, sight: Sight, case: u32) {
    let setup = sight.setup;
    let i = sight.processor;
    let b = sight.block;
    let seen = asked::look(cells, setup, i, b);
    let shows = lent::shows(cells, setup, i, b);
    let what = look_differs(seen, shows, setup.words);
    state::record(rt, cells, Kind::Look, case, u32::from(shows), what);
}

// A look shows p words, those of the block, or none.
fn look_differs(seen: Shown, shows: bool, p: u32) -> Option<Difference> {
    let count = if shows { p as usize } else { 0 };
    if seen.count != count || shows && seen.unlike != 0 {
        return Some(Difference::Shown);
    }
    None
}

// A look: at the block in the first filled slot from k on, or at any.
fn sight_at(cells: &Cells, setup: Setup, right: Setup, k: u32) -> Sight {
    let held = damage::held_slot(cells, lent::slots(right), k);
    Sight {
        setup,
        processor: quotient(held, right.lines),
        block: damage::block_at(cells, held),
    }
}

fn pick_look(cells: &mut Cells, right: Setup) -> Sight {
    let setup = setups::pick_lending(cells, right, 0, 20, 10);
    let k = draw(cells, lent::slots(right));
    let any = draw(cells, sum(right.blocks, 2));
    let i = draw(cells, sum(right.processors, 1));
    let roll = draw(cells, 3);
    if roll != 0 {
        return sight_at(cells, setup, right, k);
    }
    Sight {
        setup,
        processor: i,
        block: any,
    }
}

fn look_case(rt: &impl Print, cells: &mut Cells, right: Setup, case: u32) {
    let sight = pick_look(cells, right);
    look_both(rt, cells, sight, case);
}

// A new list: its setup, its account, and how many runs it has.
fn pick_series(cells: &mut Cells) -> Series {
    let setup = setups::pick_setup(cells);
    let account = setups::pick_account(cells, setup);
    let left = draw(cells, 8);
    Series {
        setup,
        account,
        left: sum(left, 1),
    }
}

// The tables are started, whatever they held, and perhaps damaged. Main memory may hold anything; the started caches are
// empty.
fn begin_tables(rt: &impl Print, cells: &mut Cells, setup: Setup, case: u32) {
    let from = word(cells);
    scatter_tables(cells, from);
    lent::put_lengths(cells, setup, 0);
    start_both(rt, cells, setup, case);
    scatter(cells, REAL_MEMORY, lent::variables(setup), from, WORDS);
    damage::perhaps_damage(cells, setup);
}

// A list goes on, or a new one begins.
fn next_series(rt: &impl Print, cells: &mut Cells, at: Series, case: u32) -> Series {
    state::begin(cells);
    if at.left > 0 {
        return at;
    }
    let next = pick_series(cells);
    let setup = next.setup;
    begin_tables(rt, cells, setup, case);
    next
}

// The next run of a list: perhaps with a list that is not whole, with a wrong length, or at a wrong setup.
fn pick_plan(cells: &mut Cells, at: Series) -> Plan {
    let right = at.setup;
    let account = at.account;
    let n = draw(cells, lists::LISTS);
    let numbers = lists::perhaps_partial(cells, lists::numbers_of(n), 8);
    lists::pick_requests(cells, right, n, 100);
    let setup = setups::pick_lending(cells, right, n, 24, 12);
    Plan {
        setup,
        account,
        numbers,
    }
}

// What a run came to is noted.
pub(crate) fn note_run(
    rt: &impl Print,
    cells: &mut Cells,
    judged: Judged,
    before: Account,
    case: u32,
) {
    let after = judged.account;
    let number = placed_number(judged.refused);
    state::record(rt, cells, Kind::Run, case, number, judged.what);
    state::add(
        cells,
        state::REQUESTS,
        less(after.requests, before.requests),
    );
    state::add(cells, state::CYCLES, less(cycles(after), cycles(before)));
}

// Two looks, before and after the tables are perhaps damaged.
fn look_around(rt: &impl Print, cells: &mut Cells, setup: Setup, case: u32) {
    look_case(rt, cells, setup, case);
    damage::perhaps_damage(cells, setup);
    look_case(rt, cells, setup, case);
}

// The next run of a list.
fn run_next(rt: &impl Print, cells: &mut Cells, at: Series, case: u32) -> Judged {
    let before = at.account;
    let plan = pick_plan(cells, at);
    let judged = run_both(cells, plan);
    note_run(rt, cells, judged, before, case);
    judged
}

// One run of a list, and two looks at what it left.
pub(crate) fn run_case(rt: &impl Print, cells: &mut Cells, last: Series, case: u32) -> Series {
    let at = next_series(rt, cells, last, case);
    let setup = at.setup;
    let judged = run_next(rt, cells, at, case);
    look_around(rt, cells, setup, case);
    series_after(at, judged)
}

// A list whose tables or account were refused ends there.
fn series_after(at: Series, judged: Judged) -> Series {
    Series {
        account: judged.account,
        left: left_after(judged.refused, at.left),
        ..at
    }
}

fn left_after(refused: Option<PlacedRefusal>, left: u32) -> u32 {
    match refused {
        Some(refused)
            if refused.refusal == Refusal::UnsoundTables
                || refused.refusal == Refusal::ImpossibleAccount => { 0 }
        _ => less(left, 1),
    }
}
