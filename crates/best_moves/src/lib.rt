// What an entry does at a position of the search (document 02, P8), by the digits of the position's number. The search's inner loop: no division by a variable.
#![tactic(auto)]

ghost use Rattle.std.specs.Prelude.{◌≡◌, Bool, true, ℕ, ◌%◌, ◌/◌, ◌<◌, ◌≤◌, length, eqb, unwrap_or, IfSome};
ghost use Rattle.protocol_types.specs.Lists.{at};
ghost use Rattle.protocol_types.specs.Board.{Fits};
ghost use Rattle.best_positions.specs.Position.{weight, digit, with_digit, has, stands_in, in_line, holds_none, move_legal, moved_state, move_price, completion_legal, completed_state, completed, completion_price, legal_at, next_at, price_at, moving_processor, moved_block, is_drop, entry_number, entry_from};

use protocol_types::{Block, Entry, Setup};

// The positions of a layer, which have served equally many requests.
const LAYER_SIZE: usize = 1296;

// Requests by number: those below are reads and writes.
pub const CLEAR: usize = 16;

// Entries by number: those below fetch, write back or drop.
pub const COMPLETE: usize = 16;

const COMPLETE_BY_BROADCAST: usize = 17;

// What a write-back's number has above that of a fetch of the block, where a number tells all of an entry.
const WRITE_BACK: u32 = 18;

// ---- the digits of a position

// The weight of block b's digit in the number of a position.
#[tactic(auto, unfolding(best_positions::specs::Position::weight))]
fn digit_weight(b: usize) -> usize
    ensures value { result ≡ weight b }
    ensures bound { result ≤ 216 }
{
    match b {
        0 => 1,
        1 => 6,
        2 => 36,
        _ => 216,
    }
}

// The state of block b in position u: a constant divisor for each block.
#[tactic(auto, unfolding(best_positions::specs::Position::digit, best_positions::specs::Position::weight))]
pub fn digit_at(u: usize, b: usize) -> usize
    ensures value { result ≡ digit u b }
    ensures bound { result < 6 }
{
    match b {
        0 => u % 6,
        1 => u / 6 % 6,
        2 => u / 36 % 6,
        _ => u / 216 % 6,
    }
}

// Position u with state d for block b.
#[tactic(auto, unfolding(best_positions::specs::Position::with_digit))]
pub fn put_digit(u: usize, b: usize, d: usize) -> usize
    requires position { u < 32400 }
    requires state { d < 6 }
    ensures value { result ≡ with_digit u b d }
    ensures bound { result < 32400 }
{
    let w = digit_weight(b);
    u - digit_at(u, b) * w + d * w
}

// Whether a block in state d has a copy in processor i.
#[tactic(auto, unfolding(best_positions::specs::Position::has))]
pub fn has_copy(i: usize, d: usize) -> bool
    requires { i < 2 }
    ensures { result ≡ has i d }
{
    d == 1 + i || d == 3 || d == 4 + i
}

// Whether processor i holds block b in position u.
pub fn holds_block(u: usize, i: usize, b: usize) -> bool
    requires { i < 2 }
    ensures { result ≡ has i (digit u b) }
{
    has_copy(i, digit_at(u, b))
}

// Whether processor i holds no block.
#[tactic(auto, unfolding(best_positions::specs::Position::holds_none))]
fn holds_none(u: usize, i: usize) -> bool
    requires { i < 2 }
    ensures { result ≡ holds_none u i }
{
    (0..4).all(|b| !holds_block(u, i, b))
}

// The line of block b among so many lines. Only a block that is not below 2 × lines comes to the division: no block of a search does.
pub fn line_of(lines: usize, b: usize) -> usize
    requires { (1 ≤ lines) × (lines ≤ 64) }
    ensures { result ≡ b % lines }
{
    if b < lines {
        b
    } else if lines == 1 {
        0
    } else if b < 2 * lines {
        b - lines
    } else {
        b % lines
    }
}

// Whether block b stands in this line, with a copy in processor i.
#[tactic(auto, unfolding(protocol_types::specs::Board::line_of))]
fn stands(setup: Setup, u: usize, i: usize, line: usize, b: usize) -> bool
    requires fits { Fits setup }
    requires processor { i < 2 }
    ensures { result ≡ stands_in setup u i line b }
{
    line_of(setup.lines as usize, b) == line && holds_block(u, i, b)
}

// The block in a line of processor i, if there is one.
#[tactic(auto, unfolding(best_positions::specs::Position::in_line))]
pub fn block_in_line(setup: Setup, u: usize, i: usize, line: usize) -> Option<usize>
    requires fits { Fits setup }
    requires processor { i < 2 }
    ensures value { unwrap_or result setup.blocks ≡ in_line setup u i line }
    ensures bound { IfSome result (λ b. b < setup.blocks) }
{
    for b in 0..setup.blocks as usize {
        if stands(setup, u, i, line, b) {
            return Some(b);
        }
    }
    None
}

// ---- a fetch, a write-back or a drop

// Whether processor i may drop block b, or else write it back or fetch it.
#[tactic(auto, unfolding(best_positions::specs::Position::move_legal, protocol_types::specs::Board::line_of))]
fn move_legal(setup: Setup, u: usize, i: usize, b: usize, dropped: bool) -> bool
    requires fits { Fits setup }
    requires processor { i < 2 }
    ensures { result ≡ move_legal setup u i b dropped }
{
    if setup.blocks as usize <= b {
        return false;
    }
    let d = digit_at(u, b);
    let held = has_copy(i, d);
    if dropped {
        return held && d != 4 + i;
    }
    held || block_in_line(setup, u, i, line_of(setup.lines as usize, b)).is_none()
}

// The block's state after that.
#[tactic(auto, unfolding(best_positions::specs::Position::moved_state, best_positions::specs::Position::dropped_state, best_positions::specs::Position::written_back_state, best_positions::specs::Position::fetched_state))]
fn moved_state(i: usize, d: usize, dropped: bool) -> usize
    requires processor { i < 2 }
    requires state { d < 6 }
    ensures value { result ≡ moved_state i d dropped }
    ensures bound { result < 6 }
{
    if dropped {
        if d == 3 { 2 - i } else { 0 }
    } else if has_copy(i, d) {
        if d == 4 + i { 1 + i } else { d }
    } else if d == 0 {
        1 + i
    } else {
        3
    }
}

// What it costs.
#[tactic(auto, unfolding(best_positions::specs::Position::move_price))]
fn move_price(setup: Setup, i: usize, d: usize, dropped: bool) -> u32
    requires fits { Fits setup }
    requires processor { i < 2 }
    ensures value { result ≡ move_price setup i d dropped }
    ensures bound { result ≤ 32 }
{
    if dropped {
        0
    } else if has_copy(i, d) {
        setup.write_back_price()
    } else {
        setup.fetch_price()
    }
}

// ---- the completion of a request

// Whether request a, which is no clear, is a write.
pub fn is_write(a: usize) -> bool
    ensures { result ≡ eqb (a / 2 % 2) 1 }
{
    a / 2 % 2 == 1
}

// Whether request a may be completed, by broadcast or not.
#[tactic(auto, unfolding(best_positions::specs::Position::completion_legal))]
fn completion_legal(u: usize, a: usize, by_broadcast: bool) -> bool
    ensures { result ≡ completion_legal u a by_broadcast }
{
    if a < CLEAR {
        holds_block(u, a % 2, a / 4) && (!by_broadcast || is_write(a))
    } else {
        !by_broadcast && holds_none(u, a % 2)
    }
}

// The state of its block, now d, once request a is completed.
#[tactic(auto, unfolding(best_positions::specs::Position::completed_state))]
fn completed_state(a: usize, d: usize) -> usize
    requires { d < 6 }
    ensures value { result ≡ completed_state a d }
    ensures bound { result < 6 }
{
    if is_write(a) && d != 3 { 4 + a % 2 } else { d }
}

// The position once request a is completed, by broadcast or not.
#[tactic(auto, unfolding(best_positions::specs::Position::completed))]
fn completed_position(u: usize, a: usize, by_broadcast: bool) -> usize
    requires { u < 32400 }
    ensures { result ≡ completed u a by_broadcast }
{
    if CLEAR <= a || by_broadcast {
        return u + LAYER_SIZE;
    }
    let b = a / 4;
    put_digit(u, b, completed_state(a, digit_at(u, b))) + LAYER_SIZE
}

// What completing request a costs.
#[tactic(auto, unfolding(best_positions::specs::Position::completion_price))]
fn completion_price(u: usize, a: usize, by_broadcast: bool) -> u32
    ensures value { result ≡ completion_price u a by_broadcast }
    ensures bound { result ≤ 32 }
{
    let shared = digit_at(u, a / 4) == 3;
    if a < CLEAR && is_write(a) && (by_broadcast || shared) {
        1
    } else {
        0
    }
}

// ---- the entries of a position by number

// Request n of the list, or 0.
pub fn ask_at(asks: &[u32], n: usize) -> usize
    ensures { result ≡ at asks.now n }
{
    if n < asks.len() { asks[n] as usize } else { 0 }
}

// The processor and the block of entry k, a fetch, a write-back or a drop, and whether it is a drop.
fn move_parts(k: usize) -> (usize, usize, bool)
    ensures processor { result.0 ≡ moving_processor k }
    ensures block { result.1 ≡ moved_block k }
    ensures dropped { result.2 ≡ is_drop k }
{
    (k / 8, k / 2 % 4, k % 2 == 1)
}

// Whether entry k is legal at position u.
#[tactic(auto, unfolding(best_positions::specs::Position::legal_at, best_positions::specs::Position::served_of))]
pub fn legal_at(setup: Setup, asks: &[u32], u: usize, k: usize) -> bool
    requires { Fits setup }
    ensures { result ≡ legal_at setup asks.now u k }
{
    if k < COMPLETE {
        let (i, b, dropped) = move_parts(k);
        return move_legal(setup, u, i, b, dropped);
    }
    let n = u / LAYER_SIZE;
    n < asks.len() && completion_legal(u, ask_at(asks, n), k == COMPLETE_BY_BROADCAST)
}

// Where entry k of position u leads.
#[tactic(auto, unfolding(best_positions::specs::Position::next_at, best_positions::specs::Position::served_of))]
pub fn next_at(asks: &[u32], u: usize, k: usize) -> usize
    requires { u < 32400 }
    ensures { result ≡ next_at asks.now u k }
{
    if k < COMPLETE {
        let (i, b, dropped) = move_parts(k);
        return put_digit(u, b, moved_state(i, digit_at(u, b), dropped));
    }
    completed_position(u, ask_at(asks, u / LAYER_SIZE), k == COMPLETE_BY_BROADCAST)
}

// What entry k of position u costs.
#[tactic(auto, unfolding(best_positions::specs::Position::price_at, best_positions::specs::Position::served_of))]
pub fn price_at(setup: Setup, asks: &[u32], u: usize, k: usize) -> u32
    requires { Fits setup }
    ensures value { result ≡ price_at setup asks.now u k }
    ensures bound { result ≤ 32 }
{
    if k < COMPLETE {
        let (i, b, dropped) = move_parts(k);
        return move_price(setup, i, digit_at(u, b), dropped);
    }
    completion_price(u, ask_at(asks, u / LAYER_SIZE), k == COMPLETE_BY_BROADCAST)
}

// ---- an entry as a number that tells all

// The number of entry k of position u.
#[tactic(auto, unfolding(best_positions::specs::Position::entry_number))]
pub fn entry_number(u: usize, k: u32) -> u32
    ensures { result ≡ entry_number u k }
{
    let n = k as usize;
    let (i, b, dropped) = move_parts(n);
    if n < COMPLETE && !dropped && holds_block(u, i, b) {
        k + WRITE_BACK
    } else {
        k
    }
}

// The entry that a number tells.
#[tactic(auto, unfolding(best_positions::specs::Position::entry_from))]
pub fn entry_from(n: u32) -> Entry
    ensures { result ≡ entry_from n }
{
    match n {
        0..=15 if n % 2 == 1 => Entry::Drop(n / 8, Block(n / 2 % 4)),
        0..=15 => Entry::Fetch(n / 8, Block(n / 2 % 4)),
        16 => Entry::Complete,
        17 => Entry::CompleteByBroadcast,
        _ => Entry::WriteBack((n - WRITE_BACK) / 8, Block((n - WRITE_BACK) / 2 % 4)),
    }
}
