// A run over a lent list of requests, on the lent tables and the lent account.
#![tactic(auto)]

ghost use Rattle.std.specs.Prelude.{◌≡◌};
ghost use Rattle.protocol_types.specs.Answers.{run_answer};
ghost use Rattle.protocol.specs.Lent.{lent_masked};
ghost use Rattle.protocol.specs.Engines.{answered};
ghost use Rattle.protocol_types.specs.Refusals.{number};
ghost use Rattle.run_progress.specs.Progress.{outcome};
ghost use Rattle.run.specs.Stored.{run_stored};

use protocol_types::{Account, PlacedRefusal, Refusal, Request, RunAnswer, Setup};
use stored_lists::Stores;

// The answer of a run of which the request at `place`, or its start, is refused.
fn refused_at(place: usize, refusal: Refusal) -> RunAnswer
    ensures { run_answer result ≡ answered place (number refusal) place }
{
    RunAnswer {
        taken: place,
        refused: Some(PlacedRefusal { refusal, place }),
    }
}

// The number and the place of what refused a run, for those who know numbers alone; 0 and 0 where nothing did.
pub fn refusal_numbers(answer: RunAnswer) -> (u32, usize)
    ensures { answered answer.taken result.0 result.1 ≡ run_answer answer }
{
    match answer.refused {
        None => (0, 0),
        Some(refused) => (refused.refusal.number(), refused.place),
    }
}

// A run: the requests in turn, to the first refused one. A list that is not whole is refused.
pub fn run<C: Stores<Request>>(
    setup: Setup,
    blocks: &mut [u32],
    counters: &mut [u32],
    marks: &mut [u32],
    words: &mut [u32],
    memory: &mut [u32],
    masks: &mut [u8],
    account: &mut Account,
    requests: &[C],
    values: &mut [u32],
) -> RunAnswer
    ensures { outcome (run_answer result) (lent_masked blocks.new counters.new marks.new words.new memory.new masks.new) account.new values.new
        ≡ run_stored setup (lent_masked blocks.old counters.old marks.old words.old memory.old masks.old) account.old (C.whole requests.now) (C.records requests.now) values.old }
{
    let whole = C::is_whole(requests);
    let count = C::count(requests);
    if let Err(refusal) = run_steps::check(
        setup, blocks, counters, marks, words, memory, masks, values, *account, whole, count,
    ) {
        return refused_at(0, refusal);
    }
    for i in 0..count {
        let request = C::record_at(requests, i);
        match run_steps::turn(
            setup, blocks, counters, marks, words, memory, masks, account, request,
        ) {
            Ok(value) => values[i] = value,
            Err(refusal) => return refused_at(i, refusal),
        }
    }
    RunAnswer {
        taken: count,
        refused: None,
    }
}
