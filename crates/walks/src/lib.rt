// Document 02, CR 3: the list of the chains and rings of a flow, found by walks over the lowest places with flow left.
#![tactic(auto)]

ghost use Rattle.std.specs.Prelude.{◌≡◌, [], ◌∷◌, ◌+◌, ◌-◌, ◌^◌, ◌≤◌, ◌<◌, length, take};
ghost use Rattle.std.proofs.lemmas.List.Edits.{sets};
ghost use Rattle.rows.specs.Row.{Node};
ghost use Rattle.table.specs.Accepted.{ArcEnds};
ghost use Rattle.arcs.specs.Residual.{Places};
ghost use Rattle.pieces.specs.Chains.{leads_on, has_left, onward, remaining, standing, walk, start_at, least, take_away, next, without, list_of};
ghost use Rattle.walks.specs.Rows.{Placed, kind_number, NoneBefore, Ahead, Ready, Noted, Went, Took, Stored};

// ---- the searches

// The lowest place with flow left that leaves node i, where none before `from` does.
fn next_place(tails: &[u32], left: &[u32], i: u32, from: usize) -> Option<usize>
    requires left_len { (length left.now ≡ length tails.now) × (from ≤ length tails.now) }
    requires none_before { NoneBefore (leads_on tails.now left.now i) from }
    ensures { Placed (length tails.now) (onward tails.now left.now i) result }
{
    (from..tails.len()).find(|&k| tails[k] == i && left[k] > 0)
}

// The lowest place with flow left, where none before `from` has.
fn first_left(tails: &[u32], left: &[u32], from: usize) -> Option<usize>
    requires left_len { (length left.now ≡ length tails.now) × (from ≤ length tails.now) }
    requires none_before { NoneBefore (has_left left.now) from }
    ensures { Placed (length tails.now) (remaining tails.now left.now) result }
{
    (from..tails.len()).find(|&k| left[k] > 0)
}

// The lowest place with flow left that leaves node i, which is where the next search from i begins.
fn leave(tails: &[u32], left: &[u32], first: &mut [u32], i: u32) -> Option<usize>
    requires left_len { (length left.now ≡ length tails.now) × (length tails.now ≤ 4096) }
    requires node { Node (length first.old) i × Ahead tails.now left.now first.old }
    ensures value { Placed (length tails.now) (onward tails.now left.now i) result }
    ensures ahead { Ahead tails.now left.now first.new }
{
    let from = rows::at_node(first, i) as usize;
    let next = next_place(tails, left, i, from);
    rows::set_node(first, i, next.unwrap_or(tails.len()) as u32);
    next
}

// How many places were walked when the walk left node j, where j is on the walk.
fn when_left(tails: &[u32], walked: &[u32], turns: &[u32], j: u32) -> Option<usize>
    requires places { Places (length tails.now) walked.now × Noted tails.now walked.now turns.now }
    requires node { Node (length turns.now) j }
    ensures { Placed (length walked.now) (standing tails.now walked.now j) result }
{
    let q = rows::at_node(turns, j) as usize;
    if q < walked.len() && tails[walked[q] as usize] == j {
        Some(q)
    } else {
        None
    }
}

// Where the walk starts: at the source; once nothing leaves it, at the tail of the lowest place with flow left.
fn start_at(source: u32, tails: &[u32], left: &[u32], first: &mut [u32], lowest: usize) -> u32
    requires left_len { (length left.now ≡ length tails.now) × (length tails.now ≤ 4096) }
    requires node { Node (length first.old) source × Ahead tails.now left.now first.old }
    requires lowest_value { (lowest ≡ remaining tails.now left.now) × (lowest < length tails.now) }
    ensures value { result ≡ start_at tails.now source left.now }
    ensures ahead { Ahead tails.now left.now first.new }
{
    match leave(tails, left, first, source) {
        Some(_) => source,
        None => tails[lowest],
    }
}

// ---- the walk

// What a walk is: a chain to the sink, a ring, or neither, as no walk in a flow is. In the list these are 1, 2 and 0.
#[derive(Clone, Copy, Debug, PartialEq, Eq)]
enum Kind {
    Neither,
    Chain,
    Ring,
}

impl Kind {
    // The number in the list.
    fn number(self) -> u32
        ensures { result ≡ kind_number self }
    {
        self as u32
    }
}

// What a walk found, and its part of the places walked.
#[derive(Clone, Copy, Debug, PartialEq, Eq)]
struct Trip {
    kind: Kind,
    from: usize,
    end: usize,
}

// Follows the lowest places with flow left from a node on, to the sink or to a node already on the walk.
fn follow(
    nodes: usize,
    sink: u32,
    tails: &[u32],
    heads: &[u32],
    left: &[u32],
    start: u32,
    first: &mut [u32],
    walked: &mut [u32],
    turns: &mut [u32],
) -> Trip
    requires ready { Ready nodes tails.now heads.now left.now first.old }
    requires nodes_in_bounds { (nodes ≤ length walked.old) × (nodes ≤ length turns.old) × Node nodes start }
    ensures fact { let path = walk tails.now heads.now sink left.now nodes [] start in
        Went (length tails.now) path walked.new (kind_number result.kind) result.from result.end }
    ensures ahead { Ahead tails.now left.now first.new }
{
    let neither = Trip {
        kind: Kind::Neither,
        from: 0,
        end: 0,
    };
    let mut i = start;
    for count in 0..nodes {
        let Some(k) = leave(tails, left, first, i) else {
            return neither;
        };
        walked[count] = k as u32;
        rows::set_node(turns, i, count as u32);
        i = heads[k];
        let end = count + 1;
        if i == sink {
            return Trip {
                kind: Kind::Chain,
                from: 0,
                end,
            };
        }
        if let Some(from) = when_left(tails, &walked[..end], turns, i) {
            return Trip {
                kind: Kind::Ring,
                from,
                end,
            };
        }
    }
    neither
}

// ---- taking away

// The least flow left at these places; 0 where there are none.
fn least_left(left: &[u32], places: &[u32]) -> u32
    requires { Places (length left.now) places.now }
    ensures { result ≡ least left.now places.now }
{
    let Some((first, rest)) = places.split_first() else {
        return 0;
    };
    let mut least = left[*first as usize];
    for k in rest {
        least = least.min(left[*k as usize]);
    }
    least
}

// Takes an amount away at each of these places.
fn take_away(left: &mut [u32], places: &[u32], amount: u32)
    requires { Places (length left.old) places.now }
    ensures { left.new ≡ take_away amount places.now left.old }
{
    for place in places {
        let k = *place as usize;
        left[k] = left[k].saturating_sub(amount);
    }
}

// A piece: what a walk found, and its amount.
#[derive(Clone, Copy, Debug, PartialEq, Eq)]
struct Taken {
    trip: Trip,
    amount: u32,
}

// Finds the next piece and takes it away from the flow left, where the lowest place with flow left is `lowest`.
fn take_next(
    nodes: usize,
    source: u32,
    sink: u32,
    tails: &[u32],
    heads: &[u32],
    lowest: usize,
    left: &mut [u32],
    first: &mut [u32],
    walked: &mut [u32],
    turns: &mut [u32],
) -> Taken
    requires ready { Ready nodes tails.now heads.now left.old first.old }
    requires nodes_in_bounds { (nodes ≤ length walked.old) × (length walked.old ≤ 512) × (nodes ≤ length turns.old) × Node nodes source }
    requires lowest_value { (lowest ≡ remaining tails.now left.old) × (lowest < length tails.now) }
    ensures took { Took (next nodes source sink tails.now heads.now left.old) walked.new (kind_number result.trip.kind) result.amount result.trip.from result.trip.end }
    ensures left_value { left.new ≡ without (next nodes source sink tails.now heads.now left.old) left.old }
    ensures ahead { Ahead tails.now left.new first.new }
{
    let start = start_at(source, tails, left, first, lowest);
    let trip = follow(nodes, sink, tails, heads, left, start, first, walked, turns);
    let places = &walked[trip.from..trip.end];
    let amount = least_left(left, places);
    take_away(left, places, amount);
    Taken { trip, amount }
}

// ---- the list

// Stores a piece into the list where it has room: its kind, its amount, how many places, and these; returns where the next one goes.
fn write_piece(list: &mut [u32], at: usize, kind: Kind, amount: u32, places: &[u32]) -> usize
    requires { (at < 2 ^ 32) × (length places.now ≤ 512) }
    ensures value { result ≡ at + (3 + length places.now) }
    ensures list_value { at + (3 + length places.now) ≤ length list.old
        → list.new ≡ sets list.old at (kind_number kind ∷ amount ∷ length places.now ∷ places.now) }
{
    let end = at + (3 + places.len());
    if end <= list.len() {
        list[at] = kind.number();
        list[at + 1] = amount;
        list[at + 2] = places.len() as u32;
        rows::store(list, at + 3, places);
    }
    end
}

// Takes the pieces away one after the other until no flow is left, stores them where the row has room for the whole list, and returns how many numbers that has.
fn write_list(
    nodes: usize,
    source: u32,
    sink: u32,
    tails: &[u32],
    heads: &[u32],
    left: &mut [u32],
    first: &mut [u32],
    walked: &mut [u32],
    turns: &mut [u32],
    list: &mut [u32],
) -> usize
    requires ready { Ready nodes tails.now heads.now left.old first.old }
    requires nodes_in_bounds { (nodes ≤ length walked.old) × (length walked.old ≤ 512) × (nodes ≤ length turns.old) × Node nodes source }
    ensures { Stored (list_of nodes source sink tails.now heads.now left.old) list.old list.new result }
{
    let mut at = 0;
    let mut lowest = 0;
    for done in 0..tails.len() {
        let Some(next) = first_left(tails, left, lowest) else {
            return at;
        };
        lowest = next;
        let taken = take_next(
            nodes, source, sink, tails, heads, lowest, left, first, walked, turns,
        );
        let trip = taken.trip;
        let places = &walked[trip.from..trip.end];
        at = write_piece(list, at, trip.kind, taken.amount, places);
    }
    at
}

// The list of the chains and rings of the flow in the first places of a row, with rows of its own: how many numbers it has, and these in the row's first places where it has room for all.
pub fn list_flow(
    n: u32,
    s: u32,
    t: u32,
    tails: &[u32],
    heads: &[u32],
    flow: &[u32],
    list: &mut [u32],
) -> usize
    requires { ArcEnds n tails.now heads.now × Node n s × (length tails.now ≤ length flow.now) }
    ensures { Stored (list_of n s t tails.now heads.now (take (length tails.now) flow.now)) list.old list.new result }
{
    let m = tails.len();
    let mut left = [0u32; 4096];
    let mut first = [0u32; 512];
    let mut walked = [0u32; 512];
    let mut turns = [0u32; 512];
    left[..m].copy_from_slice(&flow[..m]);
    write_list(
        n as usize,
        s,
        t,
        tails,
        heads,
        &mut left[..m],
        &mut first,
        &mut walked,
        &mut turns,
        list,
    )
}
