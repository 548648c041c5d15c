// The least cost of a legal schedule: costs of all positions, lowered by each entry until nothing changes, then carried over by the completions
// of the next request.
use crate::layout::{COSTS, LEAST_COST, NEXT_COSTS, POSITIONS, set_value};
use crate::requests::Asked;
use crate::rules::{EntryKind, Step};
use crate::{requests, rules};
use trials_cells::cells::{Cells, copy, get, put, sum};

// The cost of a position that is not reached; no schedule needs as much.
const NOT_REACHED: u32 = 1000000;

// No way between two completions needs as many entries, and each sweep brings every way on by an entry or more.
const SWEEPS: u32 = 40;

// No position of a table is reached.
fn wipe_costs(cells: &mut Cells, table: u32) {
    for u in 0..POSITIONS {
        put(cells, table, u, NOT_REACHED);
    }
}

// Where a step from a position of this cost leads, the cost in the table becomes no higher: 1 if it was.
fn lower(cells: &mut Cells, table: u32, cost: u32, step: Option<Step>) -> u32 {
    let Some(step) = step else {
        return 0;
    };
    let total = sum(cost, step.cost);
    if total >= get(cells, table, step.next) {
        return 0;
    }
    put(cells, table, step.next, total);
    1
}

// An entry of this kind for processor i and block b, from position u.
fn lower_entry(cells: &mut Cells, u: u32, kind: EntryKind, i: u32, b: u32) -> u32 {
    let cost = get(cells, COSTS, u);
    let step = rules::change(cells, u, kind, i, b);
    lower(cells, COSTS, cost, step)
}

// One for each processor and block.
fn lower_by(cells: &mut Cells, u: u32, kind: EntryKind) -> u32 {
    let mut lowered = 0;
    for i in 0..2 {
        for b in 0..4 {
            lowered = sum(lowered, lower_entry(cells, u, kind, i, b));
        }
    }
    lowered
}

// Fetches, write-backs and drops from position u: how many costs they lower.
fn lower_from(cells: &mut Cells, u: u32) -> u32 {
    if get(cells, COSTS, u) == NOT_REACHED {
        return 0;
    }
    let fetches = lower_by(cells, u, EntryKind::Fetch);
    let write_backs = lower_by(cells, u, EntryKind::WriteBack);
    let drops = lower_by(cells, u, EntryKind::Drop);
    sum(sum(fetches, write_backs), drops)
}

// The same from every position.
fn sweep(cells: &mut Cells) -> u32 {
    let mut lowered = 0;
    for u in 0..POSITIONS {
        lowered = sum(lowered, lower_from(cells, u));
    }
    lowered
}

// Sweeps until nothing changes.
fn settle(cells: &mut Cells) {
    for _ in 0..SWEEPS {
        if sweep(cells) == 0 {
            return;
        }
    }
}

// Both completions from position u.
fn complete_from(cells: &mut Cells, asked: Asked, u: u32) {
    let cost = get(cells, COSTS, u);
    if cost == NOT_REACHED {
        return;
    }
    lower(cells, NEXT_COSTS, cost, rules::complete(u, asked, false));
    lower(cells, NEXT_COSTS, cost, rules::complete(u, asked, true));
}

// The next request is completed.
fn complete_all(cells: &mut Cells, asked: Asked) {
    for u in 0..POSITIONS {
        complete_from(cells, asked, u);
    }
}

fn serve(cells: &mut Cells, t: u32) {
    settle(cells);
    wipe_costs(cells, NEXT_COSTS);
    complete_all(cells, requests::asked_at(cells, t));
    copy(cells, NEXT_COSTS, COSTS, POSITIONS);
}

fn lowest(cells: &Cells) -> u32 {
    let mut least = NOT_REACHED;
    for u in 0..POSITIONS {
        least = least.min(get(cells, COSTS, u));
    }
    least
}

// The least cost of a legal schedule for the n requests, which starts with no copies.
pub(crate) fn find(cells: &mut Cells, n: u32) {
    wipe_costs(cells, COSTS);
    put(cells, COSTS, 0, 0);
    for t in 0..n {
        serve(cells, t);
    }
    set_value(cells, LEAST_COST, lowest(cells));
}
