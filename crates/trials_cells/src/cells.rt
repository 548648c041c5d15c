// Numbers in cells: all that the trials keep stands in one array, so that a function is handed one reference to it. Outside
// the cells 0 is read and nothing is written, and every sum and quotient has a value, so that no place that a model
// computes needs an argument.
ghost use Rattle.std.specs.Prelude.{◌≡◌, ◌-◌};
ghost use Rattle.trials_cells.specs.Cells.{summed, multiplied, divided, reduced, cell, with, wiped, copied, unlike, differing};

pub const SIZE: usize = 40612;

pub type Cells = [u32; SIZE];

// Factors of a product are below this.
const FACTORS: u32 = 65536;

// Cell k of the part that begins at `first`.
pub fn get(cells: &Cells, first: u32, k: u32) -> u32
    ensures { result ≡ cell cells.now first k }
{
    let i = sum(first, k) as usize;
    if i < SIZE {
        return cells[i];
    }
    0
}

pub fn put(cells: &mut Cells, first: u32, k: u32, x: u32)
    ensures { cells.new ≡ with cells.old first k x }
{
    let i = sum(first, k) as usize;
    if i < SIZE {
        cells[i] = x;
    }
}

// The n cells from `first` on become 0.
pub fn wipe(cells: &mut Cells, first: u32, n: u32)
    ensures { cells.new ≡ wiped cells.old first n }
{
    for k in 0..n {
        put(cells, first, k, 0);
    }
}

fn copy_cell(cells: &mut Cells, a: u32, b: u32, k: u32)
    ensures { cells.new ≡ with cells.old b k (cell cells.old a k) }
{
    let x = get(cells, a, k);
    put(cells, b, k, x);
}

// The n cells from b on become those from a on.
pub fn copy(cells: &mut Cells, a: u32, b: u32, n: u32)
    ensures { cells.new ≡ copied cells.old a b n }
{
    for k in 0..n {
        copy_cell(cells, a, b, k);
    }
}

// 1 if two numbers differ, 0 if not.
fn differ(x: u32, y: u32) -> u32
    ensures { result ≡ unlike x y }
{
    u32::from(x != y)
}

// How many of the n cells from a on differ from those from b on.
pub fn differences(cells: &Cells, a: u32, b: u32, n: u32) -> u32
    ensures { result ≡ differing cells.now a b n }
{
    let mut count = 0;
    for k in 0..n {
        count = sum(count, differ(get(cells, a, k), get(cells, b, k)));
    }
    count
}

pub fn sum(a: u32, b: u32) -> u32
    ensures { result ≡ summed a b }
{
    a.wrapping_add(b)
}

// a less b, and 0 where b is more.
pub fn less(a: u32, b: u32) -> u32
    ensures { result ≡ a - b }
{
    a.saturating_sub(b)
}

pub fn product(a: u32, b: u32) -> u32
    ensures { result ≡ multiplied a b }
{
    if a >= FACTORS || b >= FACTORS {
        return 0;
    }
    a * b
}

pub fn quotient(a: u32, b: u32) -> u32
    ensures { result ≡ divided a b }
{
    if b == 0 {
        return 0;
    }
    a / b
}

pub fn remainder(a: u32, b: u32) -> u32
    ensures { result ≡ reduced a b }
{
    if b == 0 {
        return 0;
    }
    a % b
}
