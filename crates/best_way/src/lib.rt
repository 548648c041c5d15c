// The way back from the goal of a search, as the numbers of its entries. A predecessor is 18 times a position, plus the entry there.
#![tactic(auto)]

ghost use Rattle.std.specs.Prelude.{◌≡◌, List, ◌++◌, ℕ, ◌/◌, ◌≤◌, ◌<◌, length, drop};
ghost use Rattle.protocol_types.specs.Lists.{at};
ghost use Rattle.best_positions.specs.Best.{way_back};
ghost use Rattle.best_way.specs.Hops.{hops};

use protocol_types::Setup;

// The entries of a position.
const ENTRY_COUNT: u32 = 18;

// One more than there are positions.
const HOP_LIMIT: usize = 32401;

// How many entries lie on the way back from v.
pub fn way_length(v: usize, predecessors: &[u32]) -> usize
    requires sized { length predecessors.now ≡ 32400 }
    requires before { (j : ℕ) → at predecessors.now j / 18 < 32400 }
    requires position { v < 32400 }
    ensures value { result ≡ hops 32401 predecessors.now v }
    ensures bound { result ≤ 32401 }
{
    let mut u = v;
    for n in 0..HOP_LIMIT {
        if u == 0 {
            return n;
        }
        u = (predecessors[u] / ENTRY_COUNT) as usize;
    }
    HOP_LIMIT
}

// The n entries on the way back from v come to the front of the numbers, and the others stay.
pub fn write_way(v: usize, n: usize, predecessors: &[u32], numbers: &mut [u32])
    requires sized { length predecessors.now ≡ 32400 }
    requires before { (j : ℕ) → at predecessors.now j / 18 < 32400 }
    requires position { v < 32400 }
    requires count { n ≡ hops 32401 predecessors.now v }
    requires room { n ≤ length numbers.old }
    ensures { (s : Setup) (asks : List ℕ) → numbers.new ≡ way_back s asks predecessors.now v ++ drop n numbers.old }
{
    let mut u = v;
    for j in (0..n).rev() {
        let way = predecessors[u];
        let from = (way / ENTRY_COUNT) as usize;
        numbers[j] = best_moves::entry_number(from, way % ENTRY_COUNT);
        u = from;
    }
}
