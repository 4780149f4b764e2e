// Which nodes and arcs a smaller table keeps: listed, numbered and written, over bare rows; and its flow put back.
#![tactic(auto)]

ghost use Rattle.std.specs.Prelude.{◌≡◌, map, ◌++◌, ℕ, suc, ◌+◌, ◌≤◌, ◌<◌, length, take, drop};
ghost use Rattle.rows.specs.Row.{Node, at_place, at_node, by_place, by_node};
ghost use Rattle.table.specs.Accepted.{ArcEnds};
ghost use Rattle.arcs.specs.Residual.{Places};
ghost use Rattle.listing.specs.Passing.{passing, filled_with};
ghost use Rattle.shrinking.specs.Smaller.{node_by, arc_by, up_to, back_by};
ghost use Rattle.keeping.specs.SmallRows.{small_rows};
ghost use Rattle.keeping.specs.Written.{Written};

// Whether node i is kept: both rows mark it, or it is source or sink.
fn keeps_node(ahead: &[u8], behind: &[u8], s: u32, t: u32, i: u32) -> bool
    requires { Node (length ahead.now) i × Node (length behind.now) i }
    ensures { result ≡ node_by ahead.now behind.now s t i }
{
    reach::both_mark(ahead, i, behind, i) || i == s || i == t
}

// Whether the arc at place k is kept: it has capacity above 0, and both rows mark both ends.
fn keeps_arc(
    ahead: &[u8],
    behind: &[u8],
    tails: &[u32],
    heads: &[u32],
    capacities: &[u32],
    k: usize,
) -> bool
    requires { ArcEnds (length ahead.now) tails.now heads.now × (length behind.now ≡ length ahead.now)
        × (length capacities.now ≡ length tails.now) × (k < length tails.now) }
    ensures { result ≡ arc_by ahead.now behind.now tails.now heads.now capacities.now k }
{
    let tail = tails[k];
    let head = heads[k];
    capacities[k] > 0
        && reach::both_mark(ahead, tail, behind, tail)
        && reach::both_mark(ahead, head, behind, head)
}

// Fills a list with the kept nodes, rising, and answers how many there are.
fn list_kept(ahead: &[u8], behind: &[u8], s: u32, t: u32, list: &mut [u32]) -> u32
    requires { (length ahead.now ≤ 512) × (length behind.now ≡ length ahead.now) × (length ahead.now ≤ length list.old)
        × ((1 ≤ s) × (1 ≤ t)) }
    ensures { let kept = passing (node_by ahead.now behind.now s t) (suc (length ahead.now)) in
        (result ≡ length kept) × (list.new ≡ filled_with kept list.old) }
{
    listing::list_passing(
        1,
        ahead.len() as u32 + 1,
        |i| keeps_node(ahead, behind, s, t, i),
        list,
    )
}

// Gives each node its number: how many kept ones there are up to it.
fn number_nodes(ahead: &[u8], behind: &[u8], s: u32, t: u32, numbers: &mut [u32])
    requires { (length ahead.now ≤ 512) × (length behind.now ≡ length ahead.now) × (length numbers.old ≡ length ahead.now)
        × ((1 ≤ s) × (1 ≤ t)) }
    ensures { numbers.new ≡ by_node (up_to (node_by ahead.now behind.now s t)) (length ahead.now) }
{
    let mut count = 0;
    for k in 0..ahead.len() {
        count += u32::from(keeps_node(ahead, behind, s, t, k as u32 + 1));
        numbers[k] = count;
    }
}

// Fills a list with the places of the kept arcs, rising, and answers how many there are.
fn list_arcs(
    ahead: &[u8],
    behind: &[u8],
    tails: &[u32],
    heads: &[u32],
    capacities: &[u32],
    list: &mut [u32],
) -> u32
    requires { ArcEnds (length ahead.now) tails.now heads.now × (length behind.now ≡ length ahead.now)
        × (length capacities.now ≡ length tails.now) × (length tails.now ≤ length list.old) }
    ensures { let kept = passing (arc_by ahead.now behind.now tails.now heads.now capacities.now) (length tails.now) in
        (result ≡ length kept) × (list.new ≡ filled_with kept list.old) }
{
    listing::list_passing(
        0,
        tails.len() as u32,
        |k| keeps_arc(ahead, behind, tails, heads, capacities, k as usize),
        list,
    )
}

// Fills a row with what a function gives at each of these places.
fn fill_from<F: Fn(usize) -> u32>(places: &[u32], value: F, row: &mut [u32])
    ghost given: { ℕ → ℕ }
    requires may_ask { (q : ℕ) → q < length places.now → F.pre value (at_place places.now q) }
    requires tells { (q : ℕ) → q < length places.now → (x : ℕ) → F.post value (at_place places.now q) x → x ≡ given (at_place places.now q) }
    requires room { length places.now ≤ length row.old }
    ensures { row.new ≡ filled_with (map given places.now) row.old }
{
    for (j, k) in places.iter().enumerate() {
        row[j] = value(*k as usize);
    }
}

// Puts the flow of the smaller table back: at each kept arc its flow, and 0 elsewhere.
pub fn put_back(
    ahead: &[u8],
    behind: &[u8],
    tails: &[u32],
    heads: &[u32],
    capacities: &[u32],
    flows: &[u32],
    flow: &mut [u32],
)
    requires { ArcEnds (length ahead.now) tails.now heads.now × (length behind.now ≡ length ahead.now)
        × (length capacities.now ≡ length tails.now) × (length tails.now ≤ length flow.old)
        × (length tails.now ≤ length flows.now) }
    ensures { let kept = arc_by ahead.now behind.now tails.now heads.now capacities.now in
        flow.new ≡ by_place (back_by kept flows.now) (length tails.now) ++ drop (length tails.now) flow.old }
{
    let mut count = 0;
    for k in 0..tails.len() {
        if keeps_arc(ahead, behind, tails, heads, capacities, k) {
            flow[k] = flows[count];
            count += 1;
        } else {
            flow[k] = 0;
        }
    }
}

// Fills the three rows of the smaller table's arcs, which came from the first `count` places of a list.
fn fill_arcs(
    count: u32,
    from: &[u32],
    tails: &[u32],
    heads: &[u32],
    capacities: &[u32],
    numbers: &[u32],
    small_tails: &mut [u32],
    small_heads: &mut [u32],
    small_capacities: &mut [u32],
)
    requires arc_ends { ArcEnds (length numbers.now) tails.now heads.now × (length capacities.now ≡ length tails.now)
        × (count ≤ length from.now) × Places (length tails.now) (take count from.now) }
    requires count_in_bounds { (count ≤ length small_tails.old) × (count ≤ length small_heads.old) × (count ≤ length small_capacities.old) }
    ensures small_tails_value { small_tails.new
        ≡ filled_with (map (λ (k : ℕ). at_node numbers.now (at_place tails.now k)) (take count from.now)) small_tails.old }
    ensures small_heads_value { small_heads.new
        ≡ filled_with (map (λ (k : ℕ). at_node numbers.now (at_place heads.now k)) (take count from.now)) small_heads.old }
    ensures small_capacities_value { small_capacities.new
        ≡ filled_with (map (λ (k : ℕ). at_place capacities.now k) (take count from.now)) small_capacities.old }
{
    let from = &from[..count as usize];
    fill_from(from, |k| rows::at_node(numbers, tails[k]), small_tails);
    fill_from(from, |k| rows::at_node(numbers, heads[k]), small_heads);
    fill_from(from, |k| capacities[k], small_capacities);
}

// The smaller table's sizes and ends.
#[derive(Clone, Copy, Debug, PartialEq, Eq)]
pub struct Sizes {
    pub nodes: u32,
    pub arcs: u32,
    pub source: u32,
    pub sink: u32,
}

// Writes the smaller table that two rows of marks give, with the origins of its nodes and arcs. The rows of marks and of numbers have just n places.
pub fn write_small(
    s: u32,
    t: u32,
    tails: &[u32],
    heads: &[u32],
    capacities: &[u32],
    ahead: &[u8],
    behind: &[u8],
    numbers: &mut [u32],
    small_tails: &mut [u32],
    small_heads: &mut [u32],
    small_capacities: &mut [u32],
    nodes_from: &mut [u32],
    arcs_from: &mut [u32],
) -> Sizes
    requires arc_ends { ArcEnds (length ahead.now) tails.now heads.now × (length behind.now ≡ length ahead.now)
        × (length numbers.old ≡ length ahead.now) × (length capacities.now ≡ length tails.now) }
    requires node { Node (length ahead.now) s × Node (length ahead.now) t }
    requires tails_in_bounds { (length tails.now ≤ length small_tails.old) × (length tails.now ≤ length small_heads.old)
        × (length tails.now ≤ length small_capacities.old) × (length ahead.now ≤ length nodes_from.old)
        × (length tails.now ≤ length arcs_from.old) }
    ensures { let small_old = small_rows small_tails.old small_heads.old small_capacities.old nodes_from.old arcs_from.old in
        let small_new = small_rows small_tails.new small_heads.new small_capacities.new nodes_from.new arcs_from.new in
        Written ahead.now behind.now s t tails.now heads.now capacities.now small_old result small_new }
{
    let nodes = list_kept(ahead, behind, s, t, nodes_from);
    number_nodes(ahead, behind, s, t, numbers);
    let arcs = list_arcs(ahead, behind, tails, heads, capacities, arcs_from);
    fill_arcs(
        arcs,
        arcs_from,
        tails,
        heads,
        capacities,
        numbers,
        small_tails,
        small_heads,
        small_capacities,
    );
    Sizes {
        nodes,
        arcs,
        source: rows::at_node(numbers, s),
        sink: rows::at_node(numbers, t),
    }
}
