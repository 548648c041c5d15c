// The parts of a run: what is checked before its first request, and one request.
#![tactic(auto)]

ghost use Rattle.std.specs.Prelude.{◌≡◌, MatchResult};
ghost use Rattle.protocol_types.specs.Refusals.{number, refusal_number};
ghost use Rattle.protocol.specs.Lent.{lent_masked};
ghost use Rattle.protocol.specs.Runs.{masked_engine};
ghost use Rattle.engine.specs.Usable.{UsableMasked};
ghost use Rattle.run_progress.specs.Progress.{Ready, Taken, Refused};
ghost use Rattle.run_steps.specs.Stored.{stored_refusal};

use protocol_types::{Account, Refusal, Request, Setup};

// Whether a run of `count` requests is refused before its first one: 1, 10, 2, 20, 21 in this order. A list that is not
// whole is refused by 2.
pub fn check(
    setup: Setup,
    blocks: &[u32],
    counters: &[u32],
    marks: &[u32],
    words: &[u32],
    memory: &[u32],
    masks: &[u8],
    values: &[u32],
    account: Account,
    whole: bool,
    count: usize,
) -> Result<(), Refusal>
    ensures { refusal_number result ≡ stored_refusal setup (lent_masked blocks.now counters.now marks.now words.now memory.now masks.now) account whole count values.now }
{
    host_decoding::check_whole(setup, whole)?;
    if !engine_tables::lengths_fit(
        setup,
        blocks.len(),
        counters.len(),
        marks.len(),
        words.len(),
        memory.len(),
        masks.len(),
    ) {
        return Err(Refusal::WrongLength);
    }
    if values.len() != count {
        return Err(Refusal::WrongLength);
    }
    if !engine_soundness::is_sound(setup, blocks, counters, marks, words, memory, masks) {
        return Err(Refusal::UnsoundTables);
    }
    if !run_progress::is_possible(setup, account) {
        return Err(Refusal::ImpossibleAccount);
    }
    Ok(())
}

// One request: it is served and its bill entered, and its value is what it supplies or writes; or it is refused, and
// nothing changes.
pub fn turn(
    setup: Setup,
    blocks: &mut [u32],
    counters: &mut [u32],
    marks: &mut [u32],
    words: &mut [u32],
    memory: &mut [u32],
    masks: &mut [u8],
    account: &mut Account,
    request: Request,
) -> Result<u32, Refusal>
    requires { Ready setup (UsableMasked setup) (lent_masked blocks.old counters.old marks.old words.old memory.old masks.old) account.old }
    ensures { MatchResult result
        (λ v. Taken (masked_engine setup) (lent_masked blocks.old counters.old marks.old words.old memory.old masks.old) account.old request (lent_masked blocks.new counters.new marks.new words.new memory.new masks.new) account.new v)
        (λ r. Refused (masked_engine setup) (lent_masked blocks.old counters.old marks.old words.old memory.old masks.old) account.old request (lent_masked blocks.new counters.new marks.new words.new memory.new masks.new) account.new (number r)) }
{
    setup.check_request(account.requests, request)?;
    let served = engine::serve(
        setup, request, blocks, counters, marks, words, memory, masks,
    );
    run_progress::enter(account, served.bill);
    Ok(served.value)
}
