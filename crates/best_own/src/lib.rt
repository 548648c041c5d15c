// The engine's own actions for a list of requests as numbers that tell a schedule's entries, and their cost: the schedule that the search starts from (document 02, P8).
#![tactic(auto)]

ghost use Rattle.std.specs.Prelude.{◌≡◌, ◌-◌, ◌<◌, ◌≤◌, length};
ghost use Rattle.protocol_types.specs.Board.{Fits};
ghost use Rattle.best_own_parts.specs.Playing.{Ready, Moved};
ghost use Rattle.best_own.specs.Own.{paying_codes, serving_codes, read_counters, written_counters, served_counters};
ghost use Rattle.best_own.specs.Written.{OwnWritten};

use best_moves::{CLEAR, holds_block, is_write};
use best_own_parts::Playing;
use protocol_types::Setup;

// The engine's own actions: how many, and what they cost.
#[derive(Clone, Copy)]
pub struct Own {
    pub length: usize,
    pub cost: u32,
}

// ---- one request

// The other processor, where it shares block b with the writer i, drops it if its counter was 1.
#[tactic(auto, unfolding(crate::specs::Own::paying_codes))]
fn pay(
    setup: Setup,
    asks: &[u32],
    u: usize,
    counters: [u32; 8],
    i: usize,
    b: usize,
    a: Playing,
    numbers: &mut [u32],
) -> Playing
    requires ready { Ready setup a numbers.old 1 }
    requires processor { i < 2 }
    requires block { b < 4 }
    ensures { Moved setup asks.now (paying_codes u counters i b) 1 0 0 a result numbers.old numbers.new }
{
    let payer = 1 - i;
    if holds_block(u, payer, b) && counters[4 * payer + b] == 1 {
        a.play_drop(setup, asks, payer, b, numbers)
    } else {
        a
    }
}

// Request ask, which finds the engine at a with these counters, is served.
fn serve(
    setup: Setup,
    asks: &[u32],
    counters: [u32; 8],
    ask: usize,
    a: Playing,
    numbers: &mut [u32],
) -> Playing
    requires ready { Ready setup a numbers.old 129 }
    requires left { a.position < 31104 }
    ensures { Moved setup asks.now (serving_codes setup a.position counters ask) 129 2080 1 a result numbers.old numbers.new }
{
    let i = ask % 2;
    if CLEAR <= ask {
        let emptied = a.clear(setup, asks, i, numbers);
        return emptied.play_completion(setup, asks, numbers);
    }
    let b = ask / 4;
    let obtained = a.obtain(setup, asks, i, b, numbers);
    let completed = obtained.play_completion(setup, asks, numbers);
    if is_write(ask) {
        return pay(setup, asks, a.position, counters, i, b, completed, numbers);
    }
    completed
}

// The counters once processor i has read block b: a fetch fills its own.
#[tactic(auto, unfolding(crate::specs::Own::read_counters, crate::specs::Own::refilled))]
fn read_counters(setup: Setup, u: usize, mut counters: [u32; 8], i: usize, b: usize) -> [u32; 8]
    requires processor { i < 2 }
    requires block { b < 4 }
    ensures { result ≡ read_counters setup u counters i b }
{
    if !holds_block(u, i, b) {
        counters[4 * i + b] = setup.fetch_price();
    }
    counters
}

// The counters once processor i has written block b: its own is full, and the payer's falls by 1.
#[tactic(auto, unfolding(crate::specs::Own::written_counters, crate::specs::Own::refilled))]
fn written_counters(setup: Setup, u: usize, mut counters: [u32; 8], i: usize, b: usize) -> [u32; 8]
    requires processor { i < 2 }
    requires block { b < 4 }
    ensures { result ≡ written_counters setup u counters i b }
{
    let payer = 1 - i;
    let own = 4 * i + b;
    let paid = 4 * payer + b;
    let old = counters[paid];
    counters[own] = setup.fetch_price();
    if holds_block(u, payer, b) {
        counters[paid] = old.saturating_sub(1);
    }
    counters
}

// The counters once request ask, which found the engine at position u, is served.
#[tactic(auto, unfolding(crate::specs::Own::served_counters))]
fn served_counters(setup: Setup, u: usize, counters: [u32; 8], ask: usize) -> [u32; 8]
    ensures { result ≡ served_counters setup u counters ask }
{
    if CLEAR <= ask {
        counters
    } else if is_write(ask) {
        written_counters(setup, u, counters, ask % 2, ask / 4)
    } else {
        read_counters(setup, u, counters, ask % 2, ask / 4)
    }
}

// ---- the list

// The numbers of the engine's own actions are written at the front of the lent list, whose other numbers stay.
pub fn own_actions(setup: Setup, asks: &[u32], numbers: &mut [u32]) -> Own
    requires fits { Fits setup × (setup.blocks ≤ 4) }
    requires asks_len_bound { length asks.now ≤ 24 }
    requires sized { length numbers.old ≡ 32400 }
    ensures { OwnWritten setup asks.now result numbers.old numbers.new }
{
    let mut a = Playing {
        position: 0,
        length: 0,
        cost: 0,
    };
    let mut counters = [0; 8];
    for ask in asks {
        let ask = *ask as usize;
        let u = a.position;
        a = serve(setup, asks, counters, ask, a, numbers);
        let next = served_counters(setup, u, counters, ask);
        counters = next;
    }
    Own {
        length: a.length,
        cost: a.cost,
    }
}
