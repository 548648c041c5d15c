// The entries that are lent records, called as a host in the language calls them: the records stand in local arrays, and the
// account in a local, which are lent for the call.
#![tactic(auto)]

ghost use Rattle.std.specs.Prelude.{◌≡◌, length};
ghost use Rattle.protocol_types.specs.Answers.{run_answer, price_answer};
ghost use Rattle.protocol_types.specs.Refusals.{refusal_number};
ghost use Rattle.protocol.specs.Lent.{lent_masked};
ghost use Rattle.protocol.specs.Engines.{run as ran};
ghost use Rattle.protocol.specs.Runs.{masked_engine};
ghost use Rattle.protocol.specs.Pricer.{price as priced, price_tables, in_numbers, price_numbers};
ghost use Rattle.protocol.specs.Generator.{generate_refusal, generated};
ghost use Rattle.rival_copies.specs.Copies.{rival_lent};
ghost use Rattle.run_progress.specs.Progress.{outcome};

use protocol_types::{Account, Entry, PlacedRefusal, Refusal, Request, RunAnswer, Setup};

// How many requests a list has, and how many entries a schedule.
pub const REQUESTS: usize = 8;

pub const ENTRIES: usize = 20;

// What a run answers, and the account after it.
#[derive(Clone, Copy)]
pub struct Ran {
    pub answer: RunAnswer,
    pub account: Account,
}

// A run of the requests in an array, by the entry `run`.
pub fn run_array(
    setup: Setup,
    blocks: &mut [u32],
    counters: &mut [u32],
    marks: &mut [u32],
    words: &mut [u32],
    memory: &mut [u32],
    masks: &mut [u8],
    mut account: Account,
    requests: [Request; REQUESTS],
    values: &mut [u32],
) -> Ran
    ensures { outcome (run_answer result.answer) (lent_masked blocks.new counters.new marks.new words.new memory.new masks.new) result.account values.new
        ≡ ran (masked_engine setup) (lent_masked blocks.old counters.old marks.old words.old memory.old masks.old) account requests values.old }
{
    let answer = run::run(
        setup,
        blocks,
        counters,
        marks,
        words,
        memory,
        masks,
        &mut account,
        &requests,
        values,
    );
    Ran { answer, account }
}

// The price of the schedule in an array for the requests in another, by the entry `price`.
pub fn price_arrays(
    setup: Setup,
    blocks: &mut [u32],
    held: &mut [u32],
    marks: &mut [u32],
    entries: [Entry; ENTRIES],
    requests: [Request; REQUESTS],
) -> Result<u32, PlacedRefusal>
    ensures { (price_answer result ≡ priced setup (rival_lent blocks.old held.old marks.old) requests entries)
        × (in_numbers (price_answer result) ≡ price_numbers setup (rival_lent blocks.old held.old marks.old) requests entries)
        × (rival_lent blocks.new held.new marks.new ≡ price_tables setup (rival_lent blocks.old held.old marks.old) requests entries) }
{
    rival_pricer::price(setup, blocks, held, marks, &entries, &requests)
}

// What the generator answered, and the requests that it left.
#[derive(Clone, Copy)]
pub struct Generated {
    pub answer: Result<(), Refusal>,
    pub requests: [Request; REQUESTS],
}

// The requests of a seed in an array, by the entry `generate`.
pub fn generate_array(setup: Setup, seed: u32, mut requests: [Request; REQUESTS]) -> Generated
    ensures { (refusal_number result.answer ≡ generate_refusal setup seed (length requests)) × (result.requests ≡ generated setup seed requests) }
{
    let answer = generator::generate(setup, seed, &mut requests);
    Generated { answer, requests }
}
