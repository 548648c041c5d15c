// The next position of the search, found by the table of the smallest distance of each group of 36 positions.
#![tactic(auto)]

ghost use Rattle.std.specs.Prelude.{◌≡◌, ℕ, ◌+◌, ◌-◌, ◌*◌, ◌/◌, ◌<◌, ◌≤◌, length, set, ltb, eqb, unwrap_or, IfSome};
ghost use Rattle.protocol_types.specs.Lists.{at, first, smaller};
ghost use Rattle.best_search.specs.Search.{cheapest, upcoming};
ghost use Rattle.best_lowest.specs.Lowest.{waiting, nearer, lowest_in, lowest_of, group_below};

// There are 25 layers of 36 groups, and a group is 36 positions.
const GROUP_SIZE: usize = 36;

const LAYER_GROUPS: usize = 36;

const LAYER_COUNT: usize = 25;

// The distance of position v while it is reached and not settled; else 0.
#[tactic(auto, unfolding(crate::specs::Lowest::waiting))]
fn waiting(v: usize, distances: &[u32], order: &[u32]) -> u32
    requires { (v < length distances.now) × (v < length order.now) }
    ensures { result ≡ waiting distances.now order.now v }
{
    if order[v] == 0 { distances[v] } else { 0 }
}

// The smaller of two distances, of which 0 is none.
#[tactic(auto, unfolding(crate::specs::Lowest::nearer))]
fn nearer(a: u32, b: u32) -> u32
    ensures { result ≡ nearer a b }
{
    match (a, b) {
        (_, 0) => a,
        (0, _) => b,
        _ => a.min(b),
    }
}

// The smallest distance of `count` positions, of which those count that are reached and not settled; 0 if there is none.
#[tactic(auto, unfolding(crate::specs::Lowest::lowest_in))]
fn lowest_in(start: usize, count: usize, distances: &[u32], order: &[u32]) -> u32
    requires { (start + count ≤ length distances.now) × (start + count ≤ length order.now) }
    ensures { result ≡ lowest_in distances.now order.now start count }
{
    let mut least = 0;
    for j in 0..count {
        least = nearer(least, waiting(start + j, distances, order));
    }
    least
}

// The first of `count` positions that waits at this distance.
fn first_waiting(
    start: usize,
    count: usize,
    distance: u32,
    distances: &[u32],
    order: &[u32],
) -> Option<usize>
    requires { (start + count ≤ length distances.now) × (start + count ≤ length order.now) }
    ensures { unwrap_or result (start + count) ≡ start + first count (λ j. eqb (waiting distances.now order.now (start + j)) distance) }
{
    for j in 0..count {
        if waiting(start + j, distances, order) == distance {
            return Some(start + j);
        }
    }
    None
}

// Of groups k and j from `start` on, the one with the smaller distance, k if they are equal.
fn nearer_group(start: usize, k: Option<usize>, j: usize, lowest: &[u32]) -> Option<usize>
    requires sized { start + 36 ≤ length lowest.now }
    requires before { IfSome k (λ i. i < 36) }
    requires next { j < 36 }
    ensures choice { unwrap_or result 36 ≡ smaller 36 (λ i. ltb 0 (at lowest.now (start + i))) (λ i. at lowest.now (start + i)) (unwrap_or k 36) j }
    ensures within { IfSome result (λ i. i < 36) }
{
    let distance = lowest[start + j];
    match k {
        _ if distance == 0 => k,
        Some(i) if lowest[start + i] <= distance => k,
        _ => Some(j),
    }
}

// The first of the groups of a layer, from group `start` on, that has the smallest distance.
#[tactic(auto, unfolding(crate::specs::Lowest::group_below))]
fn nearest_group(start: usize, lowest: &[u32]) -> Option<usize>
    requires { start + 36 ≤ length lowest.now }
    ensures choice { unwrap_or result 36 ≡ group_below lowest.now start 36 }
    ensures within { IfSome result (λ i. i < 36) }
{
    let mut nearest = None;
    for j in 0..LAYER_GROUPS {
        nearest = nearer_group(start, nearest, j, lowest);
    }
    nearest
}

// The first of the cheapest open positions of a layer.
fn cheapest_of(
    layer: usize,
    limit: u32,
    distances: &[u32],
    order: &[u32],
    lowest: &[u32],
) -> Option<usize>
    requires sized { (length distances.now ≡ 32400) × (length order.now ≡ 32400) × (length lowest.now ≡ 900) }
    requires layer { layer < 25 }
    requires table { lowest.now ≡ lowest_of distances.now order.now }
    ensures choice { unwrap_or result 32400 ≡ cheapest 32400 distances.now order.now limit (layer * 1296) 1296 }
    ensures within { IfSome result (λ v. v < 32400) }
{
    let start = layer * LAYER_GROUPS;
    let group = start + nearest_group(start, lowest)?;
    let distance = lowest[group];
    if limit < distance {
        return None;
    }
    first_waiting(group * GROUP_SIZE, GROUP_SIZE, distance, distances, order)
}

// The same in the first layer, from this one on, that has an open position.
pub fn upcoming_from(
    layer: usize,
    limit: u32,
    distances: &[u32],
    order: &[u32],
    lowest: &[u32],
) -> Option<usize>
    requires sized { (length distances.now ≡ 32400) × (length order.now ≡ 32400) × (length lowest.now ≡ 900) }
    requires layer { layer ≤ 25 }
    requires table { lowest.now ≡ lowest_of distances.now order.now }
    ensures choice { unwrap_or result 32400 ≡ upcoming 32400 1296 distances.now order.now limit (25 - layer) layer }
    ensures within { IfSome result (λ v. v < 32400) }
{
    for l in layer..LAYER_COUNT {
        if let Some(position) = cheapest_of(l, limit, distances, order, lowest) {
            return Some(position);
        }
    }
    None
}

// Position w now waits at this distance, which is smaller than its old one.
pub fn lower_group(lowest: &mut [u32], w: usize, distance: u32)
    requires { w / 36 < length lowest.old }
    ensures { lowest.new ≡ set lowest.old (w / 36) (nearer (at lowest.old (w / 36)) distance) }
{
    let group = w / GROUP_SIZE;
    lowest[group] = nearer(lowest[group], distance);
}

// Position u waits no more.
pub fn rescan_group(lowest: &mut [u32], distances: &[u32], order: &[u32], u: usize)
    requires sized { (length distances.now ≡ 32400) × (length order.now ≡ 32400) × (length lowest.old ≡ 900) }
    requires position { u < 32400 }
    ensures { lowest.new ≡ set lowest.old (u / 36) (lowest_in distances.now order.now (36 * (u / 36)) 36) }
{
    let group = u / GROUP_SIZE;
    lowest[group] = lowest_in(GROUP_SIZE * group, GROUP_SIZE, distances, order);
}
