// The arcs of each ordered pair of nodes: found by its tail and its head, and what is left of their capacities (for document 02, CR 8).
#![tactic(auto)]

ghost use Rattle.std.specs.Prelude.{ℕ, ◌+◌, ◌*◌, ◌≤◌, ◌<◌, ◌≡◌, [], ◌∷◌, length};
ghost use Rattle.rows.specs.Row.{at_place};
ghost use Rattle.table.specs.Accepted.{ArcEnds, ArcRows};
ghost use Rattle.pairs.specs.Places.{is_node, first_to, chain_of, counted, Leads, Places, Built, room_at, pair_capacity, Takes, Zeros};

use amounts::Amount;

// Is this number a node?
pub fn is_node(n: u32, i: u32) -> bool
    ensures { result ≡ is_node n i }
{
    1 <= i && i <= n
}

// The chain that an arc of a pair stands in.
fn chain_of(a: u32, b: u32) -> usize
    requires { 1 ≤ a }
    ensures { result ≡ chain_of a b }
{
    (a - 1) as usize * 8 + (b % 8) as usize
}

// The first arc with this head in the chain that begins here, if there is one.
fn find_from(heads: &[u32], next: &[u32], b: u32, from: u32) -> Option<usize>
    requires { ((k : ℕ) → at_place next.now k ≤ k) × (from ≤ length heads.now) × (length heads.now ≤ length next.now) }
    ensures { (found : ℕ) → Leads heads.now next.now b from found → counted result ≡ found }
{
    let mut at = from;
    while 0 < at {
        let k = (at - 1) as usize;
        if heads[k] == b {
            return Some(k);
        }
        at = next[k];
    }
    None
}

// The place of a pair, if some arc has it.
fn find_pair(n: u32, heads: &[u32], first: &[u32], next: &[u32], a: u32, b: u32) -> Option<usize>
    requires { (place : ℕ → ℕ → ℕ) × Places n heads.now first.now next.now place }
    ensures { (place : ℕ → ℕ → ℕ) → Places n heads.now first.now next.now place → counted result ≡ place a b }
{
    if !is_node(n, a) {
        return None;
    }
    find_from(heads, next, b, first[chain_of(a, b)])
}

// Puts the arc at a place in front of its chain, if it is the first of its pair.
fn index_arc(
    n: u32,
    tails: &[u32],
    heads: &[u32],
    place: usize,
    first: &mut [u32],
    next: &mut [u32],
)
    requires arc_ends { ArcEnds n tails.now heads.now × (place < length tails.now) }
    requires built { Built n place tails.now heads.now first.old next.old }
    ensures { Built n (place + 1) tails.now heads.now first.new next.new }
{
    if find_pair(n, heads, first, next, tails[place], heads[place]).is_none() {
        let chain = chain_of(tails[place], heads[place]);
        next[place] = first[chain];
        first[chain] = place as u32 + 1;
    }
}

// Puts the first arc of each pair into its chain, in two rows that hold zeros.
pub fn index_arcs(n: u32, tails: &[u32], heads: &[u32], first: &mut [u32], next: &mut [u32])
    requires arc_ends { ArcEnds n tails.now heads.now × (n * 8 ≤ length first.old) × (length tails.now ≤ length next.old) }
    requires zeros { Zeros first.old × Zeros next.old }
    ensures { let place = first_to (at_place tails.now) (at_place heads.now) (length tails.now) in
        Places n heads.now first.new next.new place }
{
    for place in 0..tails.len() {
        index_arc(n, tails, heads, place, first, next);
    }
}

// Puts the capacities of each pair's arcs together at the pair's place, in a row that holds zeros.
pub fn fill_room(
    n: u32,
    tails: &[u32],
    heads: &[u32],
    capacities: &[u32],
    first: &[u32],
    next: &[u32],
    room: &mut [u32],
)
    requires arc_rows { ArcRows n tails.now heads.now capacities.now × (length tails.now ≤ length room.old) × Zeros room.old }
    requires places { Places n heads.now first.now next.now (first_to (at_place tails.now) (at_place heads.now) (length tails.now)) }
    ensures { let place = first_to (at_place tails.now) (at_place heads.now) (length tails.now) in
        (a b : ℕ) → room_at place room.new a b ≡ pair_capacity tails.now heads.now capacities.now a b }
{
    for place in 0..capacities.len() {
        if let Some(at) = find_pair(n, heads, first, next, tails[place], heads[place]) {
            room[at] += capacities[place];
        }
    }
}

// Takes an amount from what is left of its pair, or says that there is too little.
pub fn take_pair(
    n: u32,
    heads: &[u32],
    first: &[u32],
    next: &[u32],
    x: Amount,
    room: &mut [u32],
) -> bool
    requires { ((place : ℕ → ℕ → ℕ) × Places n heads.now first.now next.now place) × (length heads.now ≤ length room.old) }
    ensures { (place : ℕ → ℕ → ℕ) → Places n heads.now first.now next.now place
        → Takes place room.old (x ∷ []) result room.new }
{
    let flow = x.flow;
    let Some(at) = find_pair(n, heads, first, next, x.tail, x.head) else {
        return flow == 0;
    };
    if room[at] < flow {
        return false;
    }
    room[at] -= flow;
    true
}
