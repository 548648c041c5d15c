// A list generated over records and the same list over numbers.
use crate::sides::Side;
use crate::{board, lists, numbers, sides};
use protocol_types::{PlacedRefusal, Refusal, Setup};
use trials_cells::cells::Cells;
use trials_cells::state;
use trials_cells::state::{Kind, between, draw, word};

// A setup whose sizes and fetch price are now and then one too many, and whose write-back price is now and then 0.
fn any_setup(cells: &mut Cells) -> Setup {
    let fetch_price = between(cells, 1, 33);
    Setup {
        processors: between(cells, 1, 9),
        lines: between(cells, 1, 65),
        words: between(cells, 1, 17),
        blocks: between(cells, 1, 257),
        fetch_price,
        write_back_price: between(cells, 0, fetch_price),
    }
}

// A seed, once in eight times 0.
fn any_seed(cells: &mut Cells) -> u32 {
    let roll = draw(cells, 8);
    let seed = word(cells);
    if roll == 0 { 0 } else { seed }
}

fn side_of(answer: Result<(), Refusal>) -> Side {
    let refused = match answer {
        Ok(()) => None,
        Err(refusal) => Some(PlacedRefusal { refusal, place: 0 }),
    };
    Side {
        refused,
        taken: 0,
        cost: 0,
        account: board::account_of(0),
    }
}

// The k-th list, both ways; what is lent is a list that is drawn.
pub(crate) fn generate_case(rt: &impl Print, cells: &mut Cells, k: u32) {
    state::begin(cells);
    let setup = any_setup(cells);
    let seed = any_seed(cells);
    let requests = lists::any_requests(cells);
    let mut list = numbers::of_requests(requests);
    let answer = generator::generate(setup, seed, &mut list);
    let generated = trials_lending::generate_array(setup, seed, requests);
    let same = numbers::of_requests(generated.requests) == list;
    sides::judge(
        rt,
        cells,
        Kind::Generate,
        k,
        side_of(generated.answer),
        side_of(answer),
        same,
    );
}
