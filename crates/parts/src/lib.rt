// Rows of lent words, cleared, copied and compared: a slot's words, and a block's words in main memory.
#![tactic(auto, unfolding(protocol_types::specs::Board::word_index))]

ghost use Rattle.std.specs.Prelude.{◌≡◌, ◌+◌, ◌≤◌, ◌<◌, length, replicate, set, eqb};
ghost use Rattle.std.specs.List.{list_all};
ghost use Rattle.std.specs.Cmp.Lexicographic.{pointwise};
ghost use Rattle.std.proofs.lemmas.List.Edits.{sets};
ghost use Rattle.protocol_types.specs.Lists.{at, part, zeros, all};
ghost use Rattle.protocol_types.specs.Board.{word_index};

use protocol_types::Setup;

// The words of a row.
fn row_of(setup: Setup, row: usize, words: &[u32]) -> &[u32]
    requires { word_index setup row 0 + setup.words ≤ length words.now }
    ensures { result.now ≡ part words.now (word_index setup row 0) setup.words }
{
    let n = setup.words as usize;
    let start = row * n;
    &words[start..start + n]
}

// Word `offset` of a row.
pub fn word_of(setup: Setup, row: usize, offset: u32, words: &[u32]) -> u32
    requires { word_index setup row offset < length words.now }
    ensures { result ≡ at words.now (word_index setup row offset) }
{
    let k = row * setup.words as usize + offset as usize;
    words[k]
}

// Word `offset` of a row takes a value.
pub fn set_word(setup: Setup, row: usize, offset: u32, value: u32, words: &mut [u32])
    requires { word_index setup row offset < length words.old }
    ensures { words.new ≡ set words.old (word_index setup row offset) value }
{
    let k = row * setup.words as usize + offset as usize;
    words[k] = value;
}

// Every element becomes this one. A loop, since the library's `fill` costs more where there are few.
pub fn set_all<T: Copy>(part: &mut [T], value: T)
    ensures { part.new ≡ replicate (length part.old) value }
{
    for k in 0..part.len() {
        part[k] = value;
    }
}

// The words of a row become 0.
#[tactic(auto, using(crate::proofs::Laws::part_cleared), unfolding(protocol_types::specs::Board::word_index))]
pub fn clear_row(setup: Setup, row: usize, words: &mut [u32])
    requires { word_index setup row 0 + setup.words ≤ length words.old }
    ensures { words.new ≡ sets words.old (word_index setup row 0) (zeros setup.words) }
{
    let n = setup.words as usize;
    let start = row * n;
    set_all(&mut words[start..start + n], 0);
}

// The words of `to` become those of `from`, which has as many. A loop, since the archive for hosts needs no memmove.
fn copy(from: &[u32], to: &mut [u32])
    requires { length from.now ≡ length to.old }
    ensures { to.new ≡ from.now }
{
    for k in 0..from.len() {
        to[k] = from[k];
    }
}

// The words of row `into` of `to` become those of row `row` of `from`.
pub fn copy_row(setup: Setup, from: &[u32], row: usize, to: &mut [u32], into: usize)
    requires { (word_index setup row 0 + setup.words ≤ length from.now) × (word_index setup into 0 + setup.words ≤ length to.old) }
    ensures { to.new ≡ sets to.old (word_index setup into 0) (part from.now (word_index setup row 0) setup.words) }
{
    let n = setup.words as usize;
    let start = into * n;
    copy(row_of(setup, row, from), &mut to[start..start + n]);
}

// Whether each word is 0.
fn all_zero(words: &[u32]) -> bool
    ensures { result ≡ list_all (λ word. eqb word 0) words.now }
{
    words.iter().all(|word| *word == 0)
}

// Whether the words of a row are 0.
#[tactic(auto, using(crate::proofs::Laws::part_tested), unfolding(protocol_types::specs::Board::word_index))]
pub fn zero_row(setup: Setup, row: usize, words: &[u32]) -> bool
    requires { word_index setup row 0 + setup.words ≤ length words.now }
    ensures { result ≡ all setup.words (λ o. eqb (at words.now (word_index setup row o)) 0) }
{
    all_zero(row_of(setup, row, words))
}

// The longest row that is compared word by word: the library's comparison of slices is a call, which costs more there.
const FEW: usize = 8;

// Whether the words of x are those of y, which has as many.
fn same_words(x: &[u32], y: &[u32]) -> bool
    requires { length x.now ≡ length y.now }
    ensures { result ≡ pointwise eqb x.now y.now }
{
    if x.len() > FEW {
        return x == y;
    }
    for k in 0..x.len() {
        if x[k] != y[k] {
            return false;
        }
    }
    true
}

// Whether the words of row `i` of x are those of row `j` of y.
#[tactic(auto, using(crate::proofs::Laws::parts_tested), unfolding(protocol_types::specs::Board::word_index))]
pub fn same_row(setup: Setup, x: &[u32], i: usize, y: &[u32], j: usize) -> bool
    requires { (word_index setup i 0 + setup.words ≤ length x.now) × (word_index setup j 0 + setup.words ≤ length y.now) }
    ensures { result ≡ all setup.words (λ o. eqb (at x.now (word_index setup i o)) (at y.now (word_index setup j o))) }
{
    same_words(row_of(setup, i, x), row_of(setup, j, y))
}
