// One step of the search for the best schedule, over lent tables: an entry tried, or the current position settled.
#![tactic(auto)]

ghost use Rattle.std.specs.Prelude.{◌≡◌, Bool, ◌||◌, List, ℕ, ◌+◌, ◌*◌, ◌/◌, ◌≤◌, ◌<◌, length, set, eqb, ltb};
ghost use Rattle.protocol_types.specs.Lists.{at};
ghost use Rattle.best_search.specs.Search.{Graph, Tried, past, lowered, relaxed, closed, onward};
ghost use Rattle.best_positions.specs.Position.{board};
ghost use Rattle.best_lowest.specs.Lowest.{nearer, lowest_of};
ghost use Rattle.best_tries.specs.Progress.{state_at, Falls};

use protocol_types::Setup;

// How far the search has come.
#[derive(Clone, Copy)]
pub struct Progress {
    // the position whose entries are tried, 32,400 once the search is over, and the next of its entries
    pub current: usize,
    pub code: usize,
    // positions settled
    pub settled: u32,
    // the least cost of a final position, and which; 32,400 while none is cheaper than the old cost
    pub limit: u32,
    pub goal: usize,
    // entries tried
    pub used: u32,
}

// The entries of a position, and the positions of a layer and of all.
pub const ENTRY_COUNT: usize = 18;

pub const LAYER_SIZE: usize = 1296;

pub const POSITION_COUNT: usize = 32400;

impl Progress {
    // Past the current entry.
    pub fn passed(self, used: u32) -> Progress
        requires { self.code < 18 }
        ensures state { (d o v : List ℕ) (ts us : List Tried) → state_at d o v result us ≡ past (state_at d o v self ts) us }
        ensures count { result.used ≡ used }
    {
        Progress {
            code: self.code + 1,
            used,
            ..self
        }
    }

    // Past the current entry, by which position w was reached at this distance.
    fn lowered(self, w: usize, last: bool, distance: u32) -> Progress
        requires reached { 1 ≤ distance }
        requires entry { self.code < 18 }
        requires few { self.used < 583201 }
        ensures state { (g : Graph) → g.codes ≡ 18 → g.final w ≡ last → (d o v : List ℕ) (ts us : List Tried)
            → state_at (set d w distance) o (set v w (18 * self.current + self.code)) result us ≡ past (lowered g (state_at d o v self ts) w distance) us }
        ensures count { result.used ≡ self.used + 1 }
    {
        let next = self.passed(self.used + 1);
        if last && distance <= self.limit {
            Progress {
                limit: distance - 1,
                goal: w,
                ..next
            }
        } else {
            next
        }
    }
}

// Position w is reached at this distance.
fn reach(
    w: usize,
    way: u32,
    distance: u32,
    distances: &mut [u32],
    predecessors: &mut [u32],
    lowest: &mut [u32],
)
    requires position { w < 32400 }
    requires sized { (length distances.old ≡ 32400) × (length predecessors.old ≡ 32400) × (length lowest.old ≡ 900) }
    ensures distance { distances.new ≡ set distances.old w distance }
    ensures way { predecessors.new ≡ set predecessors.old w way }
    ensures group { lowest.new ≡ set lowest.old (w / 36) (nearer (at lowest.old (w / 36)) distance) }
{
    distances[w] = distance;
    predecessors[w] = way;
    best_lowest::lower_group(lowest, w, distance);
}

// Whether a distance is new, or smaller than the old one.
fn falls(old: u32, distance: u32) -> bool
    ensures { result ≡ (eqb old 0 || ltb distance old) }
{
    old == 0 || distance < old
}

// The current entry, which leads to w at this price, is tried.
pub fn try_entry(
    p: Progress,
    w: usize,
    price: u32,
    last: bool,
    distances: &mut [u32],
    predecessors: &mut [u32],
    lowest: &mut [u32],
) -> Progress
    requires sized { (length distances.old ≡ 32400) × (length predecessors.old ≡ 32400) × (length lowest.old ≡ 900) }
    requires entry { (p.current < 32400) × (p.code < 18) }
    requires few { p.used < 583201 }
    requires reached { (1 ≤ at distances.old p.current) × (at distances.old p.current ≤ 60001) }
    requires next { w < 32400 }
    requires cheap { price ≤ 32 }
    ensures state { (g : Graph) → g.codes ≡ 18 → w ≡ g.next p.current p.code → price ≡ g.price p.current p.code → g.final w ≡ last → (o : List ℕ) (ts us : List Tried)
        → state_at distances.new o predecessors.new result us ≡ past (relaxed g (state_at distances.old o predecessors.old p ts)) us }
    ensures count { result.used ≡ p.used + 1 }
    ensures table { (o : List ℕ) → (Falls distances.old w (at distances.old p.current + price) → at o w ≡ 0) → lowest.old ≡ lowest_of distances.old o
        → lowest.new ≡ lowest_of distances.new o }
{
    let distance = distances[p.current] + price;
    if !falls(distances[w], distance) {
        return p.passed(p.used + 1);
    }
    let way = ENTRY_COUNT * p.current + p.code;
    reach(w, way as u32, distance, distances, predecessors, lowest);
    p.lowered(w, last, distance)
}

// The current position is settled, and the search goes on from the cheapest open one.
pub fn settle_current(
    p: Progress,
    distances: &[u32],
    order: &mut [u32],
    lowest: &mut [u32],
) -> Progress
    requires sized { (length distances.now ≡ 32400) × (length order.old ≡ 32400) × (length lowest.old ≡ 900) }
    requires position { p.current < 32400 }
    requires few { p.settled < 32400 }
    requires table { lowest.old ≡ lowest_of distances.now order.old }
    ensures state { (s : Setup) (asks v : List ℕ) (ts : List Tried) → state_at distances.now order.new v result ts
        ≡ onward (board s asks) (closed (state_at distances.now order.old v p ts)) }
    ensures count { result.used ≡ p.used }
    ensures table { lowest.new ≡ lowest_of distances.now order.new }
{
    let settled = p.settled + 1;
    order[p.current] = settled;
    best_lowest::rescan_group(lowest, distances, order, p.current);
    let layer = p.current / LAYER_SIZE;
    let next = best_lowest::upcoming_from(layer, p.limit, distances, order, lowest);
    Progress {
        current: next.unwrap_or(POSITION_COUNT),
        code: 0,
        settled,
        ..p
    }
}
