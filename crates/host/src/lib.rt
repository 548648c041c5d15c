// The product for hosts in C and Rust: functions of numbers and slices of numbers alone. Every out-parameter is always written.
#![tactic(auto)]

ghost use Rattle.std.specs.Prelude.{◌≡◌, ◌≢◌};
ghost use Rattle.protocol_types.specs.Refusals.{no_refusal};
ghost use Rattle.protocol_types.specs.Answers.{price_answer};
ghost use Rattle.protocol.specs.Lent.{lent, lent_masked};
ghost use Rattle.protocol.specs.Engines.{answered};
ghost use Rattle.protocol.specs.Runs.{start_refusal, started};
ghost use Rattle.protocol.specs.Pricer.{numbered, number_of, place_of, cost_of};
ghost use Rattle.rival_copies.specs.Copies.{rival_lent};
ghost use Rattle.run_progress.specs.Progress.{outcome};
ghost use Rattle.trace_lines.specs.Trace.{ended_on};
ghost use Rattle.host_looks.specs.Looks.{look_length, look_offset};
ghost use Rattle.generator.specs.Numbers.{generate_numbers_refusal, generated_numbers};
ghost use Rattle.host_best.specs.Numbers.{best_numbers_refusal, best_of_numbers, best_numbers, numbered as bestNumbered, in_numbers as bestInNumbers};
ghost use Rattle.best_schedule.specs.Lent.{search_lent};
ghost use Rattle.host_numbers.specs.Numbers.{account_of, run_numbers, price_in_numbers, price_tables_of_numbers};
ghost use Rattle.host.specs.Host.{host_version, setup_of, block_numbered, report_of};

use protocol_types::{Account, Block, PlacedRefusal, Setup, refusal_number};

// It counts the changes of these functions' signatures and meanings, and the functions that are added.
const VERSION: u32 = 6;

// The version of these functions, by which a host can tell whether it was built for them.
#[unsafe(no_mangle)]
pub extern "C" fn cuzkelor_version() -> u32
    ensures { result ≡ host_version }
{
    VERSION
}

// A setup by its six numbers.
fn setup_of(
    processors: u32,
    lines: u32,
    block_words: u32,
    block_count: u32,
    fetch_price: u32,
    write_back_price: u32,
) -> Setup
    ensures { result ≡ setup_of processors lines block_words block_count fetch_price write_back_price }
{
    Setup {
        processors: processors,
        lines: lines,
        words: block_words,
        blocks: block_count,
        fetch_price: fetch_price,
        write_back_price: write_back_price,
    }
}

// Fills all tables and masks with 0. The refusal number, or 0.
#[unsafe(no_mangle)]
pub extern "C" fn cuzkelor_start(
    processors: u32,
    lines: u32,
    block_words: u32,
    block_count: u32,
    fetch_price: u32,
    write_back_price: u32,
    blocks: &mut [u32],
    counters: &mut [u32],
    marks: &mut [u32],
    words: &mut [u32],
    memory: &mut [u32],
    masks: &mut [u8],
) -> u32
    ensures value { result ≡ start_refusal (setup_of processors lines block_words block_count fetch_price write_back_price) (lent_masked blocks.old counters.old marks.old words.old memory.old masks.old) }
    ensures masks_value { lent_masked blocks.new counters.new marks.new words.new memory.new masks.new
        ≡ started (setup_of processors lines block_words block_count fetch_price write_back_price) (lent_masked blocks.old counters.old marks.old words.old memory.old masks.old) }
{
    let setup = setup_of(
        processors,
        lines,
        block_words,
        block_count,
        fetch_price,
        write_back_price,
    );
    let answer = engine_tables::start(setup, blocks, counters, marks, words, memory, masks);
    refusal_number(answer)
}

// The length of the part of the words that a look at a block shows; 0 where it is not held.
#[unsafe(no_mangle)]
pub extern "C" fn cuzkelor_look_length(
    processors: u32,
    lines: u32,
    block_words: u32,
    block_count: u32,
    fetch_price: u32,
    write_back_price: u32,
    blocks: &[u32],
    counters: &[u32],
    words: &[u32],
    processor: u32,
    block: u32,
) -> usize
    ensures { result ≡ look_length (setup_of processors lines block_words block_count fetch_price write_back_price)
        blocks.now counters.now words.now processor (block_numbered block) }
{
    let setup = setup_of(
        processors,
        lines,
        block_words,
        block_count,
        fetch_price,
        write_back_price,
    );
    host_looks::look_length(setup, processor, Block(block), blocks, counters, words)
}

// Where that part begins.
#[unsafe(no_mangle)]
pub extern "C" fn cuzkelor_look_offset(
    processors: u32,
    lines: u32,
    block_words: u32,
    block_count: u32,
    fetch_price: u32,
    write_back_price: u32,
    blocks: &[u32],
    counters: &[u32],
    words: &[u32],
    processor: u32,
    block: u32,
) -> usize
    ensures { result ≡ look_offset (setup_of processors lines block_words block_count fetch_price write_back_price)
        blocks.now counters.now words.now processor (block_numbered block) }
{
    let setup = setup_of(
        processors,
        lines,
        block_words,
        block_count,
        fetch_price,
        write_back_price,
    );
    host_looks::look_offset(setup, processor, Block(block), blocks, counters, words)
}

// A run of the requests, four numbers each. The refusal number, or 0.
#[unsafe(no_mangle)]
pub extern "C" fn cuzkelor_run(
    processors: u32,
    lines: u32,
    block_words: u32,
    block_count: u32,
    fetch_price: u32,
    write_back_price: u32,
    blocks: &mut [u32],
    counters: &mut [u32],
    marks: &mut [u32],
    words: &mut [u32],
    memory: &mut [u32],
    masks: &mut [u8],
    account_requests: &mut u32,
    account_fetch: &mut u32,
    account_write_back: &mut u32,
    account_update: &mut u32,
    requests: &[u32],
    values: &mut [u32],
    taken: &mut usize,
    place: &mut usize,
) -> u32
    ensures { outcome (answered taken.new result place.new)
        (lent_masked blocks.new counters.new marks.new words.new memory.new masks.new) (account_of account_requests.new account_fetch.new account_write_back.new account_update.new) values.new
        ≡ run_numbers (setup_of processors lines block_words block_count fetch_price write_back_price)
        (lent_masked blocks.old counters.old marks.old words.old memory.old masks.old) (account_of account_requests.old account_fetch.old account_write_back.old account_update.old)
        requests.now values.old }
{
    let setup = setup_of(
        processors,
        lines,
        block_words,
        block_count,
        fetch_price,
        write_back_price,
    );
    let mut account = Account {
        requests: *account_requests,
        fetch: *account_fetch,
        write_back: *account_write_back,
        update: *account_update,
    };
    let answer = host_numbers::run(
        setup,
        blocks,
        counters,
        marks,
        words,
        memory,
        masks,
        &mut account,
        requests,
        values,
    );
    *account_requests = account.requests;
    *account_fetch = account.fetch;
    *account_write_back = account.write_back;
    *account_update = account.update;
    let (number, refused_place) = run::refusal_numbers(answer);
    *taken = answer.taken;
    *place = refused_place;
    number
}

// The refusal number of an answer, or 0.
fn number_of(answer: Result<u32, PlacedRefusal>) -> u32
    ensures { result ≡ number_of (price_answer answer) }
{
    match answer {
        Ok(_) => 0,
        Err(refused) => refused.refusal.number(),
    }
}

// Its place; 0 with no refusal.
fn place_of(answer: Result<u32, PlacedRefusal>) -> usize
    ensures { result ≡ place_of (price_answer answer) }
{
    match answer {
        Ok(_) => 0,
        Err(refused) => refused.place,
    }
}

// Its cost; 0 with a refusal.
fn cost_of(answer: Result<u32, PlacedRefusal>) -> u32
    ensures { result ≡ cost_of (price_answer answer) }
{
    answer.unwrap_or(0)
}

// The price of a schedule, three numbers an entry, for the requests, four numbers each. The refusal number, or 0.
#[unsafe(no_mangle)]
pub extern "C" fn cuzkelor_price(
    processors: u32,
    lines: u32,
    block_words: u32,
    block_count: u32,
    fetch_price: u32,
    write_back_price: u32,
    blocks: &mut [u32],
    held: &mut [u32],
    marks: &mut [u32],
    entries: &[u32],
    requests: &[u32],
    place: &mut usize,
    cost: &mut u32,
) -> u32
    ensures cost_after { numbered result place.new cost.new
        ≡ price_in_numbers (setup_of processors lines block_words block_count fetch_price write_back_price) (rival_lent blocks.old held.old marks.old)
        requests.now entries.now }
    ensures marks_value { rival_lent blocks.new held.new marks.new ≡ price_tables_of_numbers (setup_of processors lines block_words block_count fetch_price write_back_price) (rival_lent blocks.old held.old marks.old)
        requests.now entries.now }
{
    let setup = setup_of(
        processors,
        lines,
        block_words,
        block_count,
        fetch_price,
        write_back_price,
    );
    let answer = host_numbers::price(setup, blocks, held, marks, entries, requests);
    *place = place_of(answer);
    *cost = cost_of(answer);
    number_of(answer)
}

// The best schedule found so far, three numbers an entry, for the requests, four numbers each; `least` is 1 where it is called least, or else 0. The refusal number, or 0.
#[unsafe(no_mangle)]
pub extern "C" fn cuzkelor_best(
    processors: u32,
    lines: u32,
    block_words: u32,
    block_count: u32,
    fetch_price: u32,
    write_back_price: u32,
    requests: &[u32],
    distances: &mut [u32],
    order: &mut [u32],
    predecessors: &mut [u32],
    lowest: &mut [u32],
    schedule: &mut [u32],
    steps: u32,
    place: &mut usize,
    schedule_length: &mut usize,
    cost: &mut u32,
    steps_used: &mut u32,
    least: &mut u32,
    excess: &mut u32,
) -> u32
    ensures excess_after { bestNumbered result place.new schedule_length.new cost.new steps_used.new least.new excess.new
        ≡ bestInNumbers (best_of_numbers (setup_of processors lines block_words block_count fetch_price write_back_price) (search_lent distances.old order.old predecessors.old lowest.old)
        requests.now schedule.old steps) }
    ensures schedule_after { schedule.new ≡ best_numbers (setup_of processors lines block_words block_count fetch_price write_back_price) (search_lent distances.old order.old predecessors.old lowest.old)
        requests.now schedule.old steps }
    ensures lowest_value { best_numbers_refusal (setup_of processors lines block_words block_count fetch_price write_back_price) (search_lent distances.old order.old predecessors.old lowest.old)
        requests.now schedule.old ≢ no_refusal → search_lent distances.new order.new predecessors.new lowest.new ≡ search_lent distances.old order.old predecessors.old lowest.old }
{
    let setup = setup_of(
        processors,
        lines,
        block_words,
        block_count,
        fetch_price,
        write_back_price,
    );
    let answer = best::best(
        setup,
        requests,
        distances,
        order,
        predecessors,
        lowest,
        schedule,
        steps,
    );
    let best = host_best::in_numbers(answer);
    *place = best.place;
    *schedule_length = best.length;
    *cost = best.cost;
    *steps_used = best.steps;
    *least = best.least;
    *excess = best.excess;
    best.refusal
}

// The requests of a seed, four numbers each, as many as the list has room for. The refusal number, or 0.
#[unsafe(no_mangle)]
pub extern "C" fn cuzkelor_generate(
    processors: u32,
    lines: u32,
    block_words: u32,
    block_count: u32,
    fetch_price: u32,
    write_back_price: u32,
    seed: u32,
    requests: &mut [u32],
) -> u32
    ensures { (result ≡ generate_numbers_refusal (setup_of processors lines block_words block_count fetch_price write_back_price) seed requests.old)
        × (requests.new ≡ generated_numbers (setup_of processors lines block_words block_count fetch_price write_back_price) seed requests.old) }
{
    let setup = setup_of(
        processors,
        lines,
        block_words,
        block_count,
        fetch_price,
        write_back_price,
    );
    refusal_number(generator::generate(setup, seed, requests))
}

// A whole trace on tables that are started here. The refusal number, or 0.
#[unsafe(no_mangle)]
pub extern "C" fn cuzkelor_count_trace(
    bytes: &[u8],
    blocks: &mut [u32],
    counters: &mut [u32],
    marks: &mut [u32],
    words: &mut [u32],
    memory: &mut [u32],
    account_requests: &mut u32,
    account_fetch: &mut u32,
    account_write_back: &mut u32,
    account_update: &mut u32,
    line: &mut u32,
) -> u32
    ensures { report_of (account_of account_requests.new account_fetch.new account_write_back.new account_update.new) result line.new (lent blocks.new counters.new marks.new words.new memory.new)
        ≡ ended_on (lent blocks.old counters.old marks.old words.old memory.old) bytes.now }
{
    let counted = trace::count_trace(bytes, blocks, counters, marks, words, memory);
    let report = trace_lines::answer_numbers(counted);
    *account_requests = report.account.requests;
    *account_fetch = report.account.fetch;
    *account_write_back = report.account.write_back;
    *account_update = report.account.update;
    *line = report.line;
    report.refusal
}
