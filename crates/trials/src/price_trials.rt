// Rival schedules: played at random from the model's own position, mostly by legal entries, and then priced.
use crate::asked::Answer;
use crate::board::{BLOCKS, clear, counter, first_held, in_the_way, owner, owns};
use crate::lists::Operation;
use crate::rival::{EntryKind, Move, Play};
use crate::run_trials::{Judged, Plan};
use crate::served::check_named;
use crate::{asked, lent, lists, rival, run_trials, setups};
use protocol_types::{Account, Setup, placed_number};
use trials_cells::cells::{Cells, product, quotient, remainder, sum};
use trials_cells::state;
use trials_cells::state::{Difference, Kind, draw, word};

// A schedule being built: what the model makes of it, and its entries.
#[derive(Clone, Copy)]
struct Draft {
    play: Play,
    count: u32,
}

fn move_of(kind: EntryKind, processor: u32, block: u32) -> Move {
    Move {
        kind,
        processor,
        block,
    }
}

fn completion(kind: EntryKind) -> Move {
    move_of(kind, 0, 0)
}

// A legal entry by which block a leaves processor i, or comes nearer to that.
fn step_out(cells: &Cells, i: u32, a: u32) -> Move {
    let kind = if owns(cells, i, a) {
        EntryKind::WriteBack
    } else {
        EntryKind::Drop
    };
    move_of(kind, i, a)
}

// A legal entry that brings block b nearer to processor i, which does not have it.
fn step_toward(cells: &Cells, setup: Setup, i: u32, b: u32) -> Move {
    match in_the_way(cells, setup.lines, i, b) {
        Some(a) => step_out(cells, i, a),
        None => move_of(EntryKind::Fetch, i, b),
    }
}

// How a schedule is built: once in `wild` times an entry may be anything, once in `idle` times it is one that no request
// asks for; never where the number is 0.
#[derive(Clone, Copy)]
struct Style {
    wild: u32,
    idle: u32,
}

// A legal entry that no request asks for, of processor i and block b.
fn idle_entry(cells: &Cells, setup: Setup, i: u32, b: u32, roll: u32) -> Move {
    if counter(cells, i, b) == 0 {
        return step_toward(cells, setup, i, b);
    }
    if owns(cells, i, b) || roll == 0 {
        return move_of(EntryKind::WriteBack, i, b);
    }
    move_of(EntryKind::Drop, i, b)
}

fn idle_move(cells: &mut Cells, setup: Setup) -> Move {
    let i = draw(cells, setup.processors);
    let b = draw(cells, setup.blocks);
    let roll = draw(cells, 3);
    idle_entry(cells, setup, i, b, roll)
}

// The first marked block from b on, in turn; b if none is.
fn marked_block(cells: &Cells, b: u32) -> u32 {
    (0..BLOCKS)
        .map(|t| remainder(sum(b, t), BLOCKS))
        .find(|at| owner(cells, *at).is_some())
        .unwrap_or(b)
}

// The first block from b on that processor i has, in turn; b if it has none.
fn held_block(cells: &Cells, i: u32, b: u32) -> u32 {
    (0..BLOCKS)
        .map(|t| remainder(sum(b, t), BLOCKS))
        .find(|at| counter(cells, i, *at) > 0)
        .unwrap_or(b)
}

// The mark that is found from block b on is dropped.
fn drop_marked(cells: &Cells, b: u32) -> Move {
    let marked = marked_block(cells, b);
    move_of(EntryKind::Drop, owner(cells, marked).unwrap_or(0), marked)
}

// An entry that may meet any condition: a block that is marked is dropped, a line that is in use is fetched into, the next
// request is completed, or the numbers are as drawn.
fn wild_entry(cells: &Cells, lines: u32, drawn: Move, far: u32, roll: u32) -> Move {
    let i = drawn.processor;
    let b = drawn.block;
    match roll {
        0 => move_of(drawn.kind, i, far),
        1 => move_of(drawn.kind, far, b),
        2 | 3 => drop_marked(cells, b),
        4 => move_of(EntryKind::Fetch, i, held_block(cells, i, b)),
        5 => move_of(EntryKind::Fetch, i, sum(held_block(cells, i, b), lines)),
        6 => move_of(EntryKind::Complete, i, b),
        _ => drawn,
    }
}

// The numbers are drawn from a little more than their range, or from far out of it.
fn wild_move(cells: &mut Cells, setup: Setup) -> Move {
    let kind = rival::kind_of(draw(cells, 6));
    let i = draw(cells, sum(setup.processors, 1));
    let b = draw(cells, sum(setup.blocks, 2));
    let far = word(cells);
    let roll = draw(cells, 10);
    wild_entry(cells, setup.lines, move_of(kind, i, b), far, roll)
}

// The entry that serves a clear of processor i: its completion, or a step toward it.
fn clearing_entry(cells: &Cells, i: u32) -> Move {
    match first_held(cells, i) {
        Some(a) => step_out(cells, i, a),
        None => completion(EntryKind::Complete),
    }
}

// The entry that serves request `next`: its completion, or a step toward it.
fn serving_entry(cells: &Cells, setup: Setup, next: u32, roll: u32) -> Move {
    let request = lists::request_at(cells, next);
    let i = request.processor;
    if check_named(setup, request).is_err() {
        return completion(EntryKind::Complete);
    }
    if request.operation == Operation::Clear {
        return clearing_entry(cells, i);
    }
    let b = quotient(request.variable, setup.words);
    if counter(cells, i, b) == 0 {
        return step_toward(cells, setup, i, b);
    }
    if request.operation == Operation::Write && roll == 0 {
        return completion(EntryKind::Broadcast);
    }
    completion(EntryKind::Complete)
}

fn serving_move(cells: &mut Cells, setup: Setup, next: u32) -> Move {
    let roll = draw(cells, 3);
    serving_entry(cells, setup, next, roll)
}

// Whether once in `every` times is now; never where it is 0.
fn falls(every: u32, roll: u32) -> bool {
    every != 0 && roll == 0
}

// The next entry of a schedule for n requests.
fn next_move(cells: &mut Cells, setup: Setup, n: u32, done: u32, style: Style) -> Move {
    let wild = draw(cells, style.wild);
    let idle = draw(cells, style.idle);
    if falls(style.wild, wild) {
        return wild_move(cells, setup);
    }
    if done >= n || falls(style.idle, idle) {
        return idle_move(cells, setup);
    }
    serving_move(cells, setup, done)
}

// Writes an entry down and plays it.
fn push(cells: &mut Cells, setup: Setup, n: u32, entry: Move, at: Draft) -> Draft {
    let play = at.play;
    rival::put_entry(cells, at.count, entry);
    Draft {
        play: rival::play_entry(cells, setup, n, entry, at.count, play),
        count: sum(at.count, 1),
    }
}

// One entry more; once all requests are completed mostly none, and none in a schedule without idle entries.
fn extend(cells: &mut Cells, setup: Setup, n: u32, style: Style, at: Draft) -> Draft {
    let play = at.play;
    let more = draw(cells, 8);
    if play.done >= n && (more != 0 || style.idle == 0) {
        return at;
    }
    let entry = next_move(cells, setup, n, play.done, style);
    push(cells, setup, n, entry, at)
}

// A schedule for n requests, of at most `turns` entries: how many it has.
fn build(cells: &mut Cells, setup: Setup, n: u32, style: Style, turns: u32) -> u32 {
    clear(cells);
    let mut at = Draft {
        play: rival::new_play(),
        count: 0,
    };
    for _ in 0..turns {
        at = extend(cells, setup, n, style, at);
    }
    at.count
}

#[derive(Clone, Copy)]
struct Priced {
    play: Play,
    what: Option<Difference>,
}

// How many numbers `count` entries have.
fn numbers_of(count: u32) -> u32 {
    product(count, rival::ENTRY_WIDTH)
}

// A legal schedule has no place, and a refused one no cost.
fn price_answer(play: Play) -> Answer {
    match play.refused {
        Some(refused) => Answer::refused(refused, setups::fresh_account()),
        None => Answer::priced(play.cost, setups::fresh_account()),
    }
}

// The price of m numbers of entries in the model and by the entry.
fn price_both(cells: &mut Cells, question: Question, m: u32) -> Priced {
    let setup = question.setup;
    let n = question.numbers;
    run_trials::copy_tables(cells);
    let play = rival::price(cells, setup, m, n);
    let what = run_trials::compare(
        cells,
        Kind::Price,
        setup,
        setups::fresh_account(),
        m,
        n,
        price_answer(play),
    );
    Priced { play, what }
}

// A run from fresh tables with a fresh account.
fn run_fresh(cells: &mut Cells, setup: Setup, n: u32) -> Judged {
    lent::put_lengths(cells, setup, n);
    asked::ask(cells, Kind::Start, setup, setups::fresh_account(), 0, 0);
    let plan = Plan {
        setup,
        account: setups::fresh_account(),
        numbers: lists::numbers_of(n),
    };
    run_trials::run_both(cells, plan)
}

// All n requests are taken, twice the schedule's cost is at least the engine's bill, and the schedule's cost without its write-backs is at
// least the engine's fetch cycles, and at least the engine's update plus write-back cycles: what is otherwise.
fn bound_differs(account: Account, n: u32, play: Play) -> Option<Difference> {
    if account.requests != n {
        return Some(Difference::Taken);
    }
    if run_trials::cycles(account) > product(play.cost, 2) {
        return Some(Difference::Factor);
    }
    let rest = sum(account.update, account.write_back);
    if sum(account.fetch, play.write_back) > play.cost || sum(rest, play.write_back) > play.cost {
        return Some(Difference::Split);
    }
    None
}

// There are cycles, and they are the schedule's cost without its write-backs.
fn met(cycles: u32, play: Play) -> bool {
    cycles != 0 && sum(cycles, play.write_back) == play.cost
}

// The engine's bill for n requests beside the cost of a legal schedule for them. The account is the model's, which the
// entry's was compared with.
fn note_compared(
    rt: &impl Print,
    cells: &mut Cells,
    judged: Judged,
    n: u32,
    play: Play,
    case: u32,
) {
    let account = judged.account;
    run_trials::note_run(rt, cells, judged, setups::fresh_account(), case);
    state::add(cells, state::COMPARED, 1);
    let cheaper = run_trials::cycles(account) > play.cost;
    state::add(cells, state::CHEAPER, u32::from(cheaper));
    let rest = sum(account.update, account.write_back);
    state::add(cells, state::MET, u32::from(met(account.fetch, play)));
    state::add(cells, state::MET_UPDATES, u32::from(met(rest, play)));
    let what = bound_differs(account, n, play);
    state::judge(rt, cells, Kind::Price, case, what);
}

fn style_of(wild: u32, idle: u32) -> Style {
    Style { wild, idle }
}

fn pick_style(cells: &mut Cells) -> Style {
    let roll = draw(cells, 8);
    let idle = product(draw(cells, 2), 5);
    match roll {
        0 | 1 => style_of(12, 5),
        2 | 3 => style_of(60, idle),
        _ => style_of(0, idle),
    }
}

// The turns in which a schedule for n requests is built: enough as a rule.
fn pick_turns(cells: &mut Cells, n: u32) -> u32 {
    let roll = draw(cells, 10);
    let few = draw(cells, sum(product(n, 2), 1));
    if roll == 0 {
        return few;
    }
    sum(product(n, 6), 8)
}

// The shape of a list that is tight by clears.
const TIGHT_CLEARS: u32 = 2;

// Whether a list of this shape is tight. Without clears it needs two processors.
fn is_tight(setup: Setup, shape: u32) -> bool {
    shape == TIGHT_CLEARS || shape < TIGHT_CLEARS && setup.processors > 1
}

// A list of n requests, and a schedule for it: its entries.
fn pick_schedule(cells: &mut Cells, setup: Setup, n: u32) -> u32 {
    let style = pick_style(cells);
    let turns = pick_turns(cells, n);
    let shape = draw(cells, 12);
    if is_tight(setup, shape) {
        lists::tight_requests(cells, setup.fetch_price, n, shape == TIGHT_CLEARS);
        return build(cells, setup, n, style_of(style.wild, 0), turns);
    }
    lists::pick_requests(cells, setup, n, product(style.wild, 10));
    build(cells, setup, n, style, turns)
}

// What a schedule is drawn and priced for: n requests, and how many numbers of them are lent. `right` may be another setup than the one that
// the pricer is given.
#[derive(Clone, Copy)]
struct Question {
    right: Setup,
    setup: Setup,
    n: u32,
    numbers: u32,
}

fn pick_question(cells: &mut Cells) -> Question {
    let right = setups::new_setup(cells);
    let n = draw(cells, lists::LISTS);
    let numbers = lists::perhaps_partial(cells, lists::numbers_of(n), 16);
    let setup = setups::pick_lending(cells, right, n, 30, 20);
    Question {
        right,
        setup,
        n,
        numbers,
    }
}

// A schedule of m numbers is priced, and if it is legal the engine's bill is compared with its cost.
fn judge_schedule(rt: &impl Print, cells: &mut Cells, question: Question, m: u32, case: u32) {
    let right = question.right;
    let priced = price_both(cells, question, m);
    let play = priced.play;
    let number = placed_number(play.refused);
    state::record(rt, cells, Kind::Price, case, number, priced.what);
    if play.refused.is_none() {
        let judged = run_fresh(cells, right, question.n);
        note_compared(rt, cells, judged, question.n, play, case);
    }
}

pub(crate) fn price_case(rt: &impl Print, cells: &mut Cells, case: u32) {
    let question = pick_question(cells);
    let right = question.right;
    let count = pick_schedule(cells, right, question.n);
    let m = lists::perhaps_partial(cells, numbers_of(count), 16);
    judge_schedule(rt, cells, question, m, case);
}
