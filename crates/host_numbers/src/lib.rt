// A run and a schedule's price over plain numbers: lists that are not whole are refused, requests and entries are decoded as they are reached.
#![tactic(auto)]

ghost use Rattle.std.specs.Prelude.{◌≡◌};
ghost use Rattle.protocol_types.specs.Answers.{run_answer, price_answer};
ghost use Rattle.protocol.specs.Lent.{lent_masked};
ghost use Rattle.protocol.specs.Pricer.{in_numbers};
ghost use Rattle.rival_copies.specs.Copies.{rival_lent};
ghost use Rattle.run_progress.specs.Progress.{outcome};
ghost use Rattle.host_numbers.specs.Numbers.{run_numbers, price_of_numbers, price_in_numbers, price_tables_of_numbers};

use protocol_types::{Account, PlacedRefusal, RunAnswer, Setup};

// A run of the requests that the numbers name; a list that is not whole is refused.
#[tactic(auto, unfolding(crate::specs::Numbers::run_numbers))]
pub fn run(
    setup: Setup,
    blocks: &mut [u32],
    counters: &mut [u32],
    marks: &mut [u32],
    words: &mut [u32],
    memory: &mut [u32],
    masks: &mut [u8],
    account: &mut Account,
    requests: &[u32],
    values: &mut [u32],
) -> RunAnswer
    ensures { outcome (run_answer result) (lent_masked blocks.new counters.new marks.new words.new memory.new masks.new) account.new values.new
        ≡ run_numbers setup (lent_masked blocks.old counters.old marks.old words.old memory.old masks.old) account.old requests.now values.old }
{
    run::run(
        setup, blocks, counters, marks, words, memory, masks, account, requests, values,
    )
}

// The price of a schedule for the requests; lists that are not whole are refused.
#[tactic(auto, unfolding(crate::specs::Numbers::price_in_numbers, crate::specs::Numbers::price_of_numbers, crate::specs::Numbers::price_tables_of_numbers))]
pub fn price(
    setup: Setup,
    blocks: &mut [u32],
    held: &mut [u32],
    marks: &mut [u32],
    entries: &[u32],
    requests: &[u32],
) -> Result<u32, PlacedRefusal>
    ensures { (price_answer result ≡ price_of_numbers setup (rival_lent blocks.old held.old marks.old) requests.now entries.now)
        × (in_numbers (price_answer result) ≡ price_in_numbers setup (rival_lent blocks.old held.old marks.old) requests.now entries.now)
        × (rival_lent blocks.new held.new marks.new ≡ price_tables_of_numbers setup (rival_lent blocks.old held.old marks.old) requests.now entries.now) }
{
    rival_pricer::price(setup, blocks, held, marks, entries, requests)
}
