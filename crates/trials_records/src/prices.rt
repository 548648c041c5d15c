// A schedule priced over records, and the same over numbers.
use crate::board::Copies;
use crate::sides::Side;
use crate::{board, lists, numbers, sides};
use protocol_types::{Entry, PlacedRefusal, Request};
use trials_cells::cells::Cells;
use trials_cells::state;
use trials_cells::state::Kind;
use trials_lending::{ENTRIES, REQUESTS};

// What a price answered, and the copies that it left.
#[derive(Clone, Copy)]
pub struct Priced {
    pub answer: Result<u32, PlacedRefusal>,
    pub copies: Copies,
}

fn by_records(entries: [Entry; ENTRIES], requests: [Request; REQUESTS]) -> Priced {
    let mut copies = board::worn_copies();
    let answer = trials_lending::price_arrays(
        board::setup(),
        &mut copies.blocks,
        &mut copies.held,
        &mut copies.marks,
        entries,
        requests,
    );
    Priced { answer, copies }
}

fn by_numbers(entries: [Entry; ENTRIES], requests: [Request; REQUESTS]) -> Priced {
    let schedule = numbers::of_entries(entries);
    let list = numbers::of_requests(requests);
    let mut copies = board::worn_copies();
    let answer = host_numbers::price(
        board::setup(),
        &mut copies.blocks,
        &mut copies.held,
        &mut copies.marks,
        &schedule,
        &list,
    );
    Priced { answer, copies }
}

fn side_of(answer: Result<u32, PlacedRefusal>) -> Side {
    let account = board::account_of(0);
    match answer {
        Ok(cost) => Side {
            refused: None,
            taken: 0,
            cost,
            account,
        },
        Err(refused) => Side {
            refused: Some(refused),
            taken: 0,
            cost: 0,
            account,
        },
    }
}

// The k-th price, both ways.
pub(crate) fn price_case(rt: &impl Print, cells: &mut Cells, k: u32) {
    state::begin(cells);
    let entries = lists::price_schedule(cells, k);
    let requests = lists::price_list(cells, k);
    let other = by_numbers(entries, requests);
    let priced = by_records(entries, requests);
    let same = priced.copies == other.copies;
    sides::judge(
        rt,
        cells,
        Kind::Price,
        k,
        side_of(priced.answer),
        side_of(other.answer),
        same,
    );
}
