// The entries, called over the real tables: each table is copied to an array of its own, the masks to one of bytes, a part
// of which, as long as the case wants it, is lent, and then copied back. Lists are lent in the same way.
use crate::layout::{ENTRIES, REAL, REQUESTS};
use crate::{lent, setups};
use protocol_types::{Account, Block, PlacedRefusal, Refusal, Setup};
use trials_cells::cells::{Cells, get, put, sum};
use trials_cells::state::Kind;

// Room for the longest table.
const ROOM: usize = 8200;

type Table = [u32; ROOM];

// Room for the most masks and a few more.
const MASK_ROOM: usize = 264;

type Masks = [u8; MASK_ROOM];

// What an entry answered, or the model; 0 and a fresh account stand where a kind has no such part.
#[derive(Clone, Copy)]
pub struct Answer {
    pub refused: Option<PlacedRefusal>,
    pub taken: usize,
    pub cost: u32,
    pub account: Account,
}

impl Answer {
    // A legal schedule has no place.
    pub(crate) fn priced(cost: u32, account: Account) -> Answer {
        Answer {
            refused: None,
            taken: 0,
            cost,
            account,
        }
    }

    // Where no request was taken and nothing cost anything.
    pub(crate) fn refused(refused: PlacedRefusal, account: Account) -> Answer {
        Answer {
            refused: Some(refused),
            taken: 0,
            cost: 0,
            account,
        }
    }

    pub(crate) fn started(started: Result<(), Refusal>, account: Account) -> Answer {
        match started {
            Ok(()) => Answer::priced(0, account),
            Err(refusal) => Answer::refused(PlacedRefusal { refusal, place: 0 }, account),
        }
    }
}

// An element of a lent table: a number, or the byte of a mask.
trait Element: Copy {
    fn from_cell(x: u32) -> Self;

    fn to_cell(self) -> u32;
}

impl Element for u32 {
    fn from_cell(x: u32) -> u32 {
        x
    }

    fn to_cell(self) -> u32 {
        self
    }
}

impl Element for u8 {
    fn from_cell(x: u32) -> u8 {
        (x % 256) as u8
    }

    fn to_cell(self) -> u32 {
        u32::from(self)
    }
}

fn set<T: Element>(table: &mut [T], k: u32, x: u32) {
    if let Some(element) = table.get_mut(k as usize) {
        *element = T::from_cell(x);
    }
}

fn number_at<T: Element>(table: &[T], k: u32) -> u32 {
    match table.get(k as usize) {
        Some(element) => element.to_cell(),
        None => 0,
    }
}

// The n cells from `first` on go to an array.
fn fill<T: Element>(cells: &Cells, first: u32, n: u32, to: &mut [T]) {
    for k in 0..n {
        set(to, k, get(cells, first, k));
    }
}

// A table comes back from its array.
fn back<T: Element>(cells: &mut Cells, table: u32, from: &[T]) {
    let n = lent::length(cells, table);
    let first = sum(REAL, lent::table_place(table));
    for k in 0..n {
        put(cells, first, k, number_at(from, k));
    }
}

// The first n elements of an array, or all where n is more, are lent.
fn lend<T: Element>(room: &mut [T], n: u32) -> &mut [T] {
    let n = room.len().min(n as usize);
    &mut room[..n]
}

// A table goes to an array, and as much of it is lent as the case wants.
fn lend_table<'a, T: Element>(cells: &Cells, table: u32, room: &'a mut [T]) -> &'a mut [T] {
    let first = sum(REAL, lent::table_place(table));
    let n = lent::length(cells, table);
    fill(cells, first, n, room);
    lend(room, n)
}

// A list of n numbers is lent.
fn lend_list<'a>(cells: &Cells, first: u32, n: u32, room: &'a mut Table) -> &'a [u32] {
    fill(cells, first, n, room);
    lend(room, n)
}

fn start(cells: &mut Cells, setup: Setup) -> Result<(), Refusal> {
    let mut blocks = [0u32; ROOM];
    let mut counters = [0u32; ROOM];
    let mut marks = [0u32; ROOM];
    let mut words = [0u32; ROOM];
    let mut memory = [0u32; ROOM];
    let mut masks = [0u8; MASK_ROOM];
    let started = engine_tables::start(
        setup,
        lend_table(cells, lent::NUMBERS_TABLE, &mut blocks),
        lend_table(cells, lent::COUNTERS_TABLE, &mut counters),
        lend_table(cells, lent::MARKS_TABLE, &mut marks),
        lend_table(cells, lent::WORDS_TABLE, &mut words),
        lend_table(cells, lent::MEMORY_TABLE, &mut memory),
        lend_table(cells, lent::MASKS_TABLE, &mut masks),
    );
    back(cells, lent::NUMBERS_TABLE, &blocks);
    back(cells, lent::COUNTERS_TABLE, &counters);
    back(cells, lent::MARKS_TABLE, &marks);
    back(cells, lent::WORDS_TABLE, &words);
    back(cells, lent::MEMORY_TABLE, &memory);
    back(cells, lent::MASKS_TABLE, &masks);
    started
}

// A run of the first n numbers of the requests.
fn run(cells: &mut Cells, setup: Setup, mut account: Account, n: u32) -> Answer {
    let mut blocks = [0u32; ROOM];
    let mut counters = [0u32; ROOM];
    let mut marks = [0u32; ROOM];
    let mut words = [0u32; ROOM];
    let mut memory = [0u32; ROOM];
    let mut masks = [0u8; MASK_ROOM];
    let mut values = [0u32; ROOM];
    let answer = host_numbers::run(
        setup,
        lend_table(cells, lent::NUMBERS_TABLE, &mut blocks),
        lend_table(cells, lent::COUNTERS_TABLE, &mut counters),
        lend_table(cells, lent::MARKS_TABLE, &mut marks),
        lend_table(cells, lent::WORDS_TABLE, &mut words),
        lend_table(cells, lent::MEMORY_TABLE, &mut memory),
        lend_table(cells, lent::MASKS_TABLE, &mut masks),
        &mut account,
        lend_list(cells, REQUESTS, n, &mut [0; ROOM]),
        lend_table(cells, lent::VALUES_TABLE, &mut values),
    );
    back(cells, lent::NUMBERS_TABLE, &blocks);
    back(cells, lent::COUNTERS_TABLE, &counters);
    back(cells, lent::MARKS_TABLE, &marks);
    back(cells, lent::WORDS_TABLE, &words);
    back(cells, lent::MEMORY_TABLE, &memory);
    back(cells, lent::MASKS_TABLE, &masks);
    back(cells, lent::VALUES_TABLE, &values);
    Answer {
        refused: answer.refused,
        taken: answer.taken,
        cost: 0,
        account,
    }
}

// The price of the first m numbers of the entries for the first n numbers of the requests.
fn price(cells: &mut Cells, setup: Setup, m: u32, n: u32) -> Result<u32, PlacedRefusal> {
    let mut blocks = [0u32; ROOM];
    let mut held = [0u32; ROOM];
    let mut marks = [0u32; ROOM];
    let answer = host_numbers::price(
        setup,
        lend_table(cells, lent::NUMBERS_TABLE, &mut blocks),
        lend_table(cells, lent::COUNTERS_TABLE, &mut held),
        lend_table(cells, lent::MARKS_TABLE, &mut marks),
        lend_list(cells, ENTRIES, m, &mut [0; ROOM]),
        lend_list(cells, REQUESTS, n, &mut [0; ROOM]),
    );
    back(cells, lent::NUMBERS_TABLE, &blocks);
    back(cells, lent::COUNTERS_TABLE, &held);
    back(cells, lent::MARKS_TABLE, &marks);
    answer
}

fn price_answer(answer: Result<u32, PlacedRefusal>) -> Answer {
    match answer {
        Ok(cost) => Answer::priced(cost, setups::fresh_account()),
        Err(refused) => Answer::refused(refused, setups::fresh_account()),
    }
}

// Calls an entry over the real tables, by its kind (module state): m is how many numbers of the entries are lent, n how
// many numbers of the requests.
pub(crate) fn ask(
    cells: &mut Cells,
    kind: Kind,
    setup: Setup,
    account: Account,
    m: u32,
    n: u32,
) -> Answer {
    match kind {
        Kind::Start => Answer::started(start(cells, setup), account),
        Kind::Run => run(cells, setup, account, n),
        _ => price_answer(price(cells, setup, m, n)),
    }
}

// How many of the words that a look showed differ from the cells from `first` on.
fn unlike(shown: &[u32], cells: &Cells, first: u32) -> u32 {
    let mut count = 0;
    for (k, x) in shown.iter().enumerate() {
        if *x != cell_after(cells, first, k) {
            count = sum(count, 1);
        }
    }
    count
}

fn cell_after(cells: &Cells, first: u32, k: usize) -> u32 {
    if k < 65536 {
        return get(cells, first, k as u32);
    }
    0
}

// What a look showed: how many words, and how many of them are not those of the block.
#[derive(Clone, Copy)]
pub struct Shown {
    pub count: usize,
    pub unlike: u32,
}

pub(crate) fn look(cells: &Cells, setup: Setup, i: u32, block: u32) -> Shown {
    let mut blocks = [0u32; ROOM];
    let mut counters = [0u32; ROOM];
    let mut words = [0u32; ROOM];
    let shown = engine_tables::look(
        setup,
        i,
        Block(block),
        lend_table(cells, lent::NUMBERS_TABLE, &mut blocks),
        lend_table(cells, lent::COUNTERS_TABLE, &mut counters),
        lend_table(cells, lent::WORDS_TABLE, &mut words),
    );
    Shown {
        count: shown.len(),
        unlike: unlike(shown, cells, lent::shown_place(setup, i, block)),
    }
}
