// A schedule of the lent list, played entry by entry from empty caches.
use crate::layout::ENTRY_WIDTH;
use crate::lent::{Table, element};
use crate::rules::{EntryKind, Step};
use crate::{requests, rules};
use trials_cells::cells::{Cells, product, sum};

// A schedule so far: where it leads, the requests completed, and its cost.
#[derive(Clone, Copy)]
pub struct Play {
    pub position: u32,
    pub done: u32,
    pub cost: u32,
}

// The completion of the next of n requests. It names no processor and no block.
fn completion(cells: &Cells, n: u32, play: Play, broadcast: bool, named: u32) -> Option<Step> {
    if play.done >= n || named != 0 {
        return None;
    }
    let asked = requests::asked_at(cells, play.done);
    rules::complete(play.position, asked, broadcast)
}

// The schedule after entry t of the list, where n requests are to be completed; None if that is not legal.
fn play_entry(cells: &Cells, n: u32, schedule: &Table, t: u32, play: Play) -> Option<Play> {
    let first = product(t, ENTRY_WIDTH);
    let kind = rules::kind_of(element(schedule, first))?;
    let i = element(schedule, sum(first, 1));
    let b = element(schedule, sum(first, 2));
    match kind {
        EntryKind::Fetch | EntryKind::WriteBack | EntryKind::Drop => {
            let step = rules::change(cells, play.position, kind, i, b)?;
            Some(after(play, step, 0))
        }
        EntryKind::Complete | EntryKind::Broadcast => {
            let broadcast = kind == EntryKind::Broadcast;
            let step = completion(cells, n, play, broadcast, i | b)?;
            Some(after(play, step, 1))
        }
    }
}

fn after(play: Play, step: Step, completed: u32) -> Play {
    Play {
        position: step.next,
        done: sum(play.done, completed),
        cost: sum(play.cost, step.cost),
    }
}

// The first `count` entries of the list; None if one of them is not legal.
pub(crate) fn play_all(cells: &Cells, n: u32, schedule: &Table, count: u32) -> Option<Play> {
    let mut play = Play {
        position: 0,
        done: 0,
        cost: 0,
    };
    for t in 0..count {
        play = play_entry(cells, n, schedule, t, play)?;
    }
    Some(play)
}
