// Setups and seeds for the cases, right ones and wrong ones.
use protocol_types::Setup;
use trials_cells::cells::{Cells, sum};
use trials_cells::state::{between, draw, word};

// A number of a setup is out of range once in so many times.
const WRONG: u32 = 18;

// The most words of a block, and the highest price.
const MOST_WORDS: u32 = 16;

const MOST_PRICE: u32 = 32;

// The seed whose draws are known.
pub const KNOWN_SEED: u32 = 2463534242;

// A number from 1 to `most`, once in four times `most`; or one that is out of range: 0, one more than `most`, or mostly far.
fn pick_number(cells: &mut Cells, most: u32) -> u32 {
    let right = between(cells, 1, most);
    let shape = draw(cells, 4);
    let far = word(cells);
    if draw(cells, WRONG) == 0 {
        return match shape {
            0 => 0,
            1 => far,
            _ => sum(most, 1),
        };
    }
    if shape == 0 {
        return most;
    }
    right
}

// A setup; in half of them there are no more blocks than words.
pub(crate) fn pick_setup(cells: &mut Cells) -> Setup {
    let most_blocks = if draw(cells, 2) == 0 { MOST_WORDS } else { 256 };
    let fetch_price = pick_number(cells, MOST_PRICE);
    Setup {
        processors: pick_number(cells, 8),
        lines: pick_number(cells, 64),
        words: pick_number(cells, MOST_WORDS),
        blocks: pick_number(cells, most_blocks),
        fetch_price,
        write_back_price: pick_number(cells, fetch_price),
    }
}

// Another setup of as many processors and variables: the words and the blocks change places where they can.
pub(crate) fn pick_like(cells: &mut Cells, setup: Setup) -> Setup {
    let mut other = Setup {
        lines: between(cells, 1, 64),
        fetch_price: MOST_PRICE,
        write_back_price: between(cells, 1, MOST_PRICE),
        ..setup
    };
    if setup.blocks <= MOST_WORDS {
        other.words = setup.blocks;
        other.blocks = setup.words;
    }
    other
}

// Chosen seeds, or any.
pub(crate) fn pick_seed(cells: &mut Cells) -> u32 {
    let shape = draw(cells, 8);
    let any = word(cells);
    match shape {
        0 => 0,
        1 => 1,
        2 => KNOWN_SEED,
        3 => 2147483648,
        4 => u32::MAX,
        _ => any,
    }
}
