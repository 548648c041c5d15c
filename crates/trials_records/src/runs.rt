// A run over records and the same run over numbers.
use crate::board::Tables;
use crate::numbers::RequestNumbers;
use crate::sides::Side;
use crate::{board, lists, numbers, sides};
use protocol_types::{Account, REQUEST_LIMIT, Request, RunAnswer};
use trials_cells::cells::{Cells, less};
use trials_cells::state;
use trials_cells::state::{Kind, draw};
use trials_lending::REQUESTS;

// Runs before the tables and the account are fresh again.
const SERIES: u32 = 16;

// The tables that runs go on over, and the account.
#[derive(Clone, Copy)]
pub struct Series {
    pub tables: Tables,
    pub account: Account,
}

// What a run answered, and what it left.
#[derive(Clone, Copy)]
pub struct Done {
    pub answer: RunAnswer,
    pub at: Series,
}

fn by_records(at: Series, requests: [Request; REQUESTS]) -> Done {
    let mut tables = at.tables;
    let ran = trials_lending::run_array(
        board::setup(),
        &mut tables.blocks,
        &mut tables.counters,
        &mut tables.marks,
        &mut tables.words,
        &mut tables.memory,
        &mut tables.masks,
        at.account,
        requests,
        &mut tables.values,
    );
    Done {
        answer: ran.answer,
        at: Series {
            tables,
            account: ran.account,
        },
    }
}

fn by_numbers(at: Series, list: RequestNumbers) -> Done {
    let mut tables = at.tables;
    let mut account = at.account;
    let answer = host_numbers::run(
        board::setup(),
        &mut tables.blocks,
        &mut tables.counters,
        &mut tables.marks,
        &mut tables.words,
        &mut tables.memory,
        &mut tables.masks,
        &mut account,
        &list,
        &mut tables.values,
    );
    Done {
        answer,
        at: Series { tables, account },
    }
}

fn side_of(done: Done) -> Side {
    Side {
        refused: done.answer.refused,
        taken: done.answer.taken,
        cost: 0,
        account: done.at.account,
    }
}

// The account of the k-th run, where a list begins: a fresh one, or one that some runs fill.
fn first_account(cells: &mut Cells, k: u32) -> Account {
    let left = draw(cells, 400);
    let requests = if k == 0 { 0 } else { less(REQUEST_LIMIT, left) };
    board::account_of(requests)
}

// What the k-th run goes on over: what the last one left, or empty caches.
fn before_run(cells: &mut Cells, k: u32, last: Series) -> Series {
    if k % SERIES != 0 {
        return last;
    }
    Series {
        tables: board::fresh_tables(),
        account: first_account(cells, k),
    }
}

// The k-th run, both ways: what the one over records leaves.
pub(crate) fn run_case(rt: &impl Print, cells: &mut Cells, k: u32, last: Series) -> Series {
    state::begin(cells);
    let at = before_run(cells, k, last);
    let requests = lists::run_list(cells, k);
    let other = by_numbers(at, numbers::of_requests(requests));
    let done = by_records(at, requests);
    let same = done.at.tables == other.at.tables;
    sides::judge(rt, cells, Kind::Run, k, side_of(done), side_of(other), same);
    done.at
}
