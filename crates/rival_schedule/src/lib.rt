// An entry of a rival's schedule, refused or played.
#![tactic(auto)]

ghost use Rattle.std.specs.Prelude.{[], ◌∷◌};
ghost use Rattle.protocol_types.specs.Board.{Fits};
ghost use Rattle.protocol.specs.Rival.{RivalSized};
ghost use Rattle.rival_copies.specs.Copies.{rival_lent, completion};
ghost use Rattle.rival_schedule.specs.Played.{next_alone, Played};

use protocol_types::{Entry, Refusal, Request, Setup};
use rival_conditions::{check, check_completion, completion_cycles, cost};
use rival_copies::{play, play_completion};

// An entry where no request is left: its cycles.
fn take<'a>(
    setup: Setup,
    entry: Entry,
    blocks: &'a mut [u32],
    held: &'a mut [u32],
    marks: &'a mut [u32],
) -> Result<u32, Refusal>
    requires fits { Fits setup }
    requires rival_sized { RivalSized setup (rival_lent blocks.old held.old marks.old) }
    ensures { Played setup (rival_lent blocks.old held.old marks.old) [] entry result (rival_lent blocks.new held.new marks.new) }
{
    check(setup, entry, &*blocks, &*held, &*marks)?;
    play(setup, entry, blocks, held, marks);
    Ok(cost(setup, entry))
}

// The completion of a request: its cycles.
fn complete(
    setup: Setup,
    request: Request,
    broadcast: bool,
    blocks: &[u32],
    held: &[u32],
    marks: &mut [u32],
) -> Result<u32, Refusal>
    requires fits { Fits setup }
    requires rival_sized { RivalSized setup (rival_lent blocks.now held.now marks.old) }
    ensures { Played setup (rival_lent blocks.now held.now marks.old) (request ∷ []) (completion broadcast) result (rival_lent blocks.now held.now marks.new) }
{
    check_completion(setup, request, broadcast, blocks, held)?;
    let cycles = completion_cycles(setup, request, broadcast, blocks, held);
    play_completion(setup, request, broadcast, blocks, held, marks);
    Ok(cycles)
}

// An entry, and the next request if one is left: its cycles.
pub fn play_entry<'a>(
    setup: Setup,
    entry: Entry,
    next: Option<Request>,
    blocks: &'a mut [u32],
    held: &'a mut [u32],
    marks: &'a mut [u32],
) -> Result<u32, Refusal>
    requires fits { Fits setup }
    requires rival_sized { RivalSized setup (rival_lent blocks.old held.old marks.old) }
    ensures { Played setup (rival_lent blocks.old held.old marks.old) (next_alone next) entry result (rival_lent blocks.new held.new marks.new) }
{
    match (entry, next) {
        (Entry::Complete, Some(request)) => {
            complete(setup, request, false, &*blocks, &*held, marks)
        }
        (Entry::CompleteByBroadcast, Some(request)) => {
            complete(setup, request, true, &*blocks, &*held, marks)
        }
        _ => take(setup, entry, blocks, held, marks),
    }
}
