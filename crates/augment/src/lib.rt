// Going on from a flow along chains of fewest residual arcs, each filled by its least residual, until the sink can't be reached.
#![tactic(auto)]

ghost use Rattle.std.specs.Prelude.{ℕ, ◌+◌, ◌-◌, ◌≤◌, ◌<◌, ◌≡◌, cond, ◌⊎◌, length, get_or, set, replicate, eqb};
ghost use Rattle.rows.specs.Row.{at_node, Node};
ghost use Rattle.table.specs.Table.{table_in};
ghost use Rattle.arcs.specs.Work.{InWork};
ghost use Rattle.minimums.specs.BoundedTable.{bounded_in};
ghost use Rattle.shortest.specs.Ways.{other_end};
ghost use Rattle.shortest.specs.Distance.{leads_by, leads_to, distances, next};
ghost use Rattle.measuring.specs.Visits.{ListOf};
ghost use Rattle.augment.specs.Walks.{NoneBelow, Noted, Known, Walked, DeadEnd, Labelled, RiseOver, Rise, Relabelled, Attempted, Found};
ghost use Rattle.shortest.specs.Augment.{filled, Fits, settled};
ghost use Rattle.shortest.specs.Rows.{bounded_network, bounded_ways, Rows, Ready, Extended};

use minimums::LentBounded;

// Whether the arc may be walked from node i to a node with the label d.
fn leads(dist: &[u32], d: u32, i: u32, tail: u32, head: u32, fore: bool, back: bool) -> bool
    requires { Node (length dist.now) tail × Node (length dist.now) head }
    ensures { result ≡ leads_by tail head i fore back (eqb (at_node dist.now head) d) (eqb (at_node dist.now tail) d) }
{
    if tail == i {
        fore && dist[(head - 1) as usize] == d
    } else if head == i {
        back && dist[(tail - 1) as usize] == d
    } else {
        false
    }
}

// Whether the arc at place k may be walked from node i to a node with the label d.
fn leads_at(bounded: LentBounded, flow: &[u32], dist: &[u32], d: u32, i: u32, k: usize) -> bool
    requires { Rows (bounded_in bounded) flow.now × (length dist.now ≡ bounded.table.nodes) × (k < length bounded.table.capacities.now) }
    ensures { result ≡ leads_to (bounded_ways (bounded_in bounded.entry) flow.now) dist.now d i k }
{
    let f = flow[k];
    leads(
        dist,
        d,
        i,
        bounded.table.tails[k],
        bounded.table.heads[k],
        f < bounded.table.capacities[k],
        bounded.minimums[k] < f,
    )
}

// The same of the place k where none below `from` may: such a place needs no look at its arc.
fn leads_past(
    bounded: LentBounded,
    flow: &[u32],
    dist: &[u32],
    d: u32,
    i: u32,
    from: usize,
    k: usize,
) -> bool
    requires rows { Rows (bounded_in bounded) flow.now × (length dist.now ≡ bounded.table.nodes) × (k < length bounded.table.capacities.now) }
    requires none_below { NoneBelow (bounded_ways (bounded_in bounded) flow.now) dist.now d i from }
    ensures { result ≡ leads_to (bounded_ways (bounded_in bounded.entry) flow.now) dist.now d i k }
{
    from <= k && leads_at(bounded, flow, dist, d, i, k)
}

// The lowest place that leads from node i to a node with the label d, by node i's list, or the number of places; none below `from` does.
fn next_place(
    bounded: LentBounded,
    flow: &[u32],
    list: &[u32],
    dist: &[u32],
    d: u32,
    i: u32,
    from: usize,
) -> usize
    requires rows { Rows (bounded_in bounded) flow.now × (length dist.now ≡ bounded.table.nodes) }
    requires list_of { ListOf (bounded_ways (bounded_in bounded) flow.now) i list.now }
    requires none_below { NoneBelow (bounded_ways (bounded_in bounded) flow.now) dist.now d i from }
    ensures { result ≡ next (bounded_ways (bounded_in bounded.entry) flow.now) dist.now d i }
{
    for &place in list {
        let k = place as usize;
        if leads_past(bounded, flow, dist, d, i, from, k) {
            return k;
        }
    }
    bounded.table.capacities.len()
}

// The end of an arc that is not i.
fn far_of(i: u32, tail: u32, head: u32) -> u32
    ensures { result ≡ cond (eqb tail i) head tail }
{
    if tail == i { head } else { tail }
}

// The residual of the arc at place k away from node i.
fn residual_at(
    tails: &[u32],
    capacities: &[u32],
    minimums: &[u32],
    flow: &[u32],
    i: u32,
    k: usize,
) -> u32
    requires k_in_bounds { (k < length tails.now) × (k < length capacities.now) × (k < length minimums.now) × (k < length flow.now) }
    requires k_bound { (get_or minimums.now k 0 ≤ get_or flow.now k 0) × (get_or flow.now k 0 ≤ get_or capacities.now k 0) }
    ensures residual { result ≡ cond (eqb (get_or tails.now k 0) i) (get_or capacities.now k 0 - get_or flow.now k 0) (get_or flow.now k 0 - get_or minimums.now k 0) }
    ensures fits { (q : ℕ) → get_or capacities.now q 0 ≤ 4294967295 }
{
    let f = flow[k];
    if tails[k] == i {
        capacities[k] - f
    } else {
        f - minimums[k]
    }
}

// The far end of the arc at place k, away from node i.
fn far_at(tails: &[u32], heads: &[u32], i: u32, k: usize) -> u32
    requires { (k < length tails.now) × (k < length heads.now) }
    ensures { result ≡ cond (eqb (get_or tails.now k 0) i) (get_or heads.now k 0) (get_or tails.now k 0) }
{
    far_of(i, tails[k], heads[k])
}

// The place noted for a node where it is one of m, else 0.
fn noted_of(noted: usize, m: usize) -> usize
    ensures { (k : ℕ) → k < result → (k < noted) × (noted < m) }
{
    if noted < m { noted } else { 0 }
}

// The lowest place that leads from node i to a node with the label d, or the number of places: the one noted for node i where it leads there still,
// else by node i's list from there on, and then noted with its far end.
fn leave_by(
    bounded: LentBounded,
    flow: &[u32],
    work: &[u32],
    dist: &[u32],
    d: u32,
    i: u32,
    lowest: &mut [u32],
    far: &mut [u32],
) -> usize
    requires rows { Rows (bounded_in bounded) flow.now }
    requires in_work { InWork (table_in bounded.table) work.now }
    requires dist_len { (length dist.now ≡ bounded.table.nodes) × (length lowest.old ≡ bounded.table.nodes) × (length far.old ≡ bounded.table.nodes) × Node bounded.table.nodes i × (at_node dist.now i ≡ d + 1) }
    requires noted_2 { Noted (bounded_ways (bounded_in bounded) flow.now) bounded.table.nodes dist.now lowest.old far.old }
    ensures place { result ≡ next (bounded_ways (bounded_in bounded.entry) flow.now) dist.now d i }
    ensures noted { Noted (bounded_ways (bounded_in bounded.entry) flow.now) bounded.entry.table.nodes dist.now lowest.new far.new }
    ensures far { result < length bounded.entry.table.capacities.now → at_node far.new i ≡ other_end (bounded_ways (bounded_in bounded.entry) flow.now) i result }
{
    let at = (i - 1) as usize;
    let noted = lowest[at] as usize;
    if noted < bounded.table.capacities.len() && leads_at(bounded, flow, dist, d, i, noted) {
        return noted;
    }
    let list = arcs::node_list(work, bounded.table.nodes, bounded.table.capacities.len(), i);
    let from = noted_of(noted, bounded.table.capacities.len());
    let k = next_place(bounded, flow, list, dist, d, i, from);
    lowest[at] = k as u32;
    if k < bounded.table.capacities.len() {
        far[at] = far_at(bounded.table.tails, bounded.table.heads, i, k);
    }
    k
}

// How a walk ended: the least residual of its chain, or 0 where it did not arrive; and the node where it ended.
#[derive(Clone, Copy, Debug, PartialEq, Eq)]
struct Outcome {
    least: u32,
    end: u32,
}

// The chain from the source by the labels, at each node by the lowest place that leads one nearer, into the first places of `chain`.
fn walk(
    bounded: LentBounded,
    flow: &[u32],
    work: &[u32],
    dist: &[u32],
    lowest: &mut [u32],
    far: &mut [u32],
    chain: &mut [u32],
) -> Outcome
    requires ready { Ready (bounded_in bounded) flow.now }
    requires in_work { InWork (table_in bounded.table) work.now }
    requires lowest_len { (length lowest.old ≡ bounded.table.nodes) × (length far.old ≡ bounded.table.nodes) × (bounded.table.nodes ≤ length chain.old) }
    requires known { Known (bounded_ways (bounded_in bounded) flow.now) bounded.table.nodes bounded.table.sink dist.now lowest.old far.old }
    ensures walked { let network = bounded_network (bounded_in bounded.entry) in
        Walked network flow.now dist.now lowest.new far.new chain.new result.least }
    ensures dead_end { DeadEnd bounded.entry.table.nodes dist.now result.least result.end }
{
    let table = bounded.table;
    let mut i = table.source;
    let mut least = u32::MAX;
    let mut d = dist[(table.source - 1) as usize];
    let mut p = 0;
    // Kept: a range over the places, or down the labels, takes 8 to 16 percent longer on long chains.
    while 0 < d {
        d -= 1;
        let at = (i - 1) as usize;
        let k = leave_by(bounded, flow, work, dist, d, i, lowest, far);
        if table.capacities.len() <= k {
            return Outcome { least: 0, end: i };
        }
        chain[p] = k as u32;
        least = least.min(residual_at(table.tails, table.capacities, bounded.minimums, flow, i, k));
        i = far[at];
        p += 1;
    }
    Outcome { least, end: i }
}

// Moves d over the arc at place k away from node i, within its capacity.
fn move_at(tails: &[u32], capacities: &[u32], flow: &mut [u32], i: u32, k: usize, d: u32)
    requires k_in_bounds { (k < length tails.now) × (k < length flow.old) }
    requires d_bound { (get_or tails.now k 0 ≡ i → get_or flow.old k 0 + d ≤ get_or capacities.now k 0) × ((get_or tails.now k 0 ≡ i → ⊥) → d ≤ get_or flow.old k 0) }
    ensures { flow.new ≡ set flow.old k (cond (eqb (get_or tails.now k 0) i) (get_or flow.old k 0 + d) (get_or flow.old k 0 - d)) }
{
    if tails[k] == i {
        flow[k] += d;
    } else {
        flow[k] -= d;
    }
}

// Fills the chain from node s on by d.
fn fill(bounded: LentBounded, flow: &mut [u32], chain: &[u32], d: u32)
    requires rows { Rows (bounded_in bounded) flow.old }
    requires fits { Fits (bounded_network (bounded_in bounded)) d bounded.table.source chain.now flow.old }
    requires d_nonzero { 0 < d }
    ensures { flow.new ≡ filled (bounded_network (bounded_in bounded.entry)) d bounded.entry.table.source chain.now flow.old }
{
    let mut i = bounded.table.source;
    for &place in chain {
        let k = place as usize;
        move_at(bounded.table.tails, bounded.table.capacities, flow, i, k, d);
        i = far_at(bounded.table.tails, bounded.table.heads, i, k);
    }
}

// Measures the distances anew, and forgets the places noted for the nodes.
fn measure_anew(
    bounded: LentBounded,
    flow: &[u32],
    work: &[u32],
    todo: &mut [u32],
    dist: &mut [u32],
    lowest: &mut [u32],
)
    requires rows { Rows (bounded_in bounded) flow.now }
    requires in_work { InWork (table_in bounded.table) work.now }
    requires node { Node bounded.table.nodes bounded.table.sink × (length dist.old ≡ bounded.table.nodes) × (bounded.table.nodes ≤ length todo.old) }
    ensures labels { dist.new ≡ distances (bounded_ways (bounded_in bounded.entry) flow.now) bounded.entry.table.nodes bounded.entry.table.sink }
    ensures none { lowest.new ≡ replicate (length lowest.old) (length bounded.entry.table.capacities.now) }
{
    measuring::measure(bounded, flow, work, todo, dist);
    measuring::reset(lowest, bounded.table.capacities.len() as u32);
}

// One above node j's label where the way to it may be walked, else `none`.
fn one_above(dist: &[u32], j: u32, may: bool, none: u32) -> u32
    requires { Node (length dist.now) j × (at_node dist.now j ≤ 514) }
    ensures { result ≡ cond may (at_node dist.now j + 1) none }
{
    if may {
        dist[(j - 1) as usize] + 1
    } else {
        none
    }
}

// To what node i's label may rise as far as the arc at place k goes, one of node i's: one above its far end's label where it may be walked, else n.
fn rise_over(bounded: LentBounded, flow: &[u32], dist: &[u32], i: u32, k: usize) -> u32
    requires rows { Rows (bounded_in bounded) flow.now }
    requires labelled { Labelled (bounded_ways (bounded_in bounded) flow.now) bounded.table.nodes dist.now × Node bounded.table.nodes i }
    requires k_in_bounds { (k < length bounded.table.capacities.now) × ((get_or bounded.table.tails.now k 0 ≡ i) ⊎ (get_or bounded.table.heads.now k 0 ≡ i)) }
    ensures { RiseOver (bounded_ways (bounded_in bounded.entry) flow.now) dist.now i k result }
{
    let f = flow[k];
    let tail = bounded.table.tails[k];
    if tail == i {
        one_above(
            dist,
            bounded.table.heads[k],
            f < bounded.table.capacities[k],
            bounded.table.nodes,
        )
    } else {
        one_above(dist, tail, bounded.minimums[k] < f, bounded.table.nodes)
    }
}

// To what node i's label may rise, by node i's list: one above the least label of the far ends of its open arcs, at most n.
fn rise_to(bounded: LentBounded, flow: &[u32], list: &[u32], dist: &[u32], i: u32) -> u32
    requires rows { Rows (bounded_in bounded) flow.now }
    requires labelled { Labelled (bounded_ways (bounded_in bounded) flow.now) bounded.table.nodes dist.now × Node bounded.table.nodes i }
    requires list_of { ListOf (bounded_ways (bounded_in bounded) flow.now) i list.now }
    ensures { Rise (bounded_ways (bounded_in bounded.entry) flow.now) bounded.entry.table.nodes dist.now i result }
{
    let mut least = bounded.table.nodes;
    for &place in list {
        let k = place as usize;
        least = least.min(rise_over(bounded, flow, dist, i, k));
    }
    least
}

// Raises node i's label as far as its open arcs let it, and forgets the place noted for it.
fn relabel(
    bounded: LentBounded,
    flow: &[u32],
    work: &[u32],
    i: u32,
    dist: &mut [u32],
    lowest: &mut [u32],
)
    requires rows { Rows (bounded_in bounded) flow.now }
    requires in_work { InWork (table_in bounded.table) work.now }
    requires labelled { Labelled (bounded_ways (bounded_in bounded) flow.now) bounded.table.nodes dist.old × Node bounded.table.nodes i × (length lowest.old ≡ bounded.table.nodes) }
    ensures { Relabelled (bounded_ways (bounded_in bounded.entry) flow.now) bounded.entry.table.nodes i dist.old lowest.old dist.new lowest.new }
{
    let list = arcs::node_list(work, bounded.table.nodes, bounded.table.capacities.len(), i);
    let label = rise_to(bounded, flow, list, dist, i);
    let at = (i - 1) as usize;
    dist[at] = label;
    lowest[at] = bounded.table.capacities.len() as u32;
}

// Walks once: the least residual of the chain to fill; or 0, and the node where the walk ended is relabelled.
fn attempt(
    bounded: LentBounded,
    flow: &[u32],
    work: &[u32],
    dist: &mut [u32],
    lowest: &mut [u32],
    far: &mut [u32],
    chain: &mut [u32],
) -> u32
    requires ready { Ready (bounded_in bounded) flow.now }
    requires in_work { InWork (table_in bounded.table) work.now }
    requires lowest_len { (length lowest.old ≡ bounded.table.nodes) × (length far.old ≡ bounded.table.nodes) × (bounded.table.nodes ≤ length chain.old) }
    requires known { Known (bounded_ways (bounded_in bounded) flow.now) bounded.table.nodes bounded.table.sink dist.old lowest.old far.old }
    ensures { let network = bounded_network (bounded_in bounded.entry) in
        Attempted network flow.now dist.new lowest.new far.new chain.new result }
{
    let walked = walk(bounded, flow, work, dist, lowest, far, chain);
    if walked.least == 0 {
        relabel(bounded, flow, work, walked.end, dist, lowest);
    }
    walked.least
}

// Finds the chain to fill, the first of those of fewest residual arcs by its places: its least residual, or 0 where there is none.
// Its places stand first in `chain`, as many as the source's label.
// After each walk that does not arrive a label rises: there is none once the source's is n, and after 16 walks all are measured anew. The chain's row serves the
// measuring before.
fn find(
    bounded: LentBounded,
    flow: &[u32],
    work: &[u32],
    dist: &mut [u32],
    lowest: &mut [u32],
    far: &mut [u32],
    chain: &mut [u32],
) -> u32
    requires ready { Ready (bounded_in bounded) flow.now }
    requires in_work { InWork (table_in bounded.table) work.now }
    requires lowest_len { (length lowest.old ≡ bounded.table.nodes) × (length far.old ≡ bounded.table.nodes) × (bounded.table.nodes ≤ length chain.old) }
    requires known { Known (bounded_ways (bounded_in bounded) flow.now) bounded.table.nodes bounded.table.sink dist.old lowest.old far.old }
    ensures { Found (bounded_network (bounded_in bounded.entry)) flow.now dist.new lowest.new far.new chain.new result }
{
    for _ in 0..16u32 {
        let least = attempt(bounded, flow, work, dist, lowest, far, chain);
        if 0 < least {
            return least;
        }
        if bounded.table.nodes <= dist[(bounded.table.source - 1) as usize] {
            return 0;
        }
    }
    measure_anew(bounded, flow, work, chain, dist, lowest);
    let walked = walk(bounded, flow, work, dist, lowest, far, chain);
    walked.least
}

// Fills one chain of fewest residual arcs, the first of them by its places, by its least residual; says whether there was one.
fn extend(
    bounded: LentBounded,
    flow: &mut [u32],
    work: &[u32],
    dist: &mut [u32],
    lowest: &mut [u32],
    far: &mut [u32],
    chain: &mut [u32],
) -> bool
    requires ready { Ready (bounded_in bounded) flow.old }
    requires in_work { InWork (table_in bounded.table) work.now }
    requires lowest_len { (length lowest.old ≡ bounded.table.nodes) × (length far.old ≡ bounded.table.nodes) × (bounded.table.nodes ≤ length chain.old) }
    requires known_2 { Known (bounded_ways (bounded_in bounded) flow.old) bounded.table.nodes bounded.table.sink dist.old lowest.old far.old }
    ensures row { Extended (bounded_network (bounded_in bounded.entry)) flow.old flow.new result }
    ensures known { Known (bounded_ways (bounded_in bounded.entry) flow.new) bounded.entry.table.nodes bounded.entry.table.sink dist.new lowest.new far.new }
{
    let least = find(bounded, flow, work, dist, lowest, far, chain);
    if least == 0 {
        return false;
    }
    let count = dist[(bounded.table.source - 1) as usize] as usize;
    fill(bounded, flow, &chain[..count], least);
    true
}

// Fills chains until the sink can't be reached, with a row of n labels, rows for a place and its far end at each node, and one for a chain.
fn go_on_with(
    bounded: LentBounded,
    flow: &mut [u32],
    work: &[u32],
    dist: &mut [u32],
    lowest: &mut [u32],
    far: &mut [u32],
    chain: &mut [u32],
)
    requires ready { Ready (bounded_in bounded) flow.old }
    requires in_work { InWork (table_in bounded.table) work.now }
    requires dist_len { (length dist.old ≡ bounded.table.nodes) × (length lowest.old ≡ bounded.table.nodes) × (length far.old ≡ bounded.table.nodes) × (bounded.table.nodes ≤ length chain.old) }
    ensures { flow.new ≡ settled (bounded_network (bounded_in bounded.entry)) flow.old }
{
    measure_anew(bounded, flow, work, chain, dist, lowest);
    while extend(bounded, flow, work, dist, lowest, far, chain) {}
}

// Goes on from the flow row along chains of fewest residual arcs, each filled by its least residual, until the sink can't be reached. The nodes' lists stand in the work row.
pub fn go_on(bounded: &LentBounded, flow: &mut [u32], work: &[u32])
    requires ready { Ready (bounded_in bounded.now) flow.old }
    requires in_work { InWork (table_in bounded.now.table) work.now }
    ensures { flow.new ≡ settled (bounded_network (bounded_in bounded.now)) flow.old }
{
    let mut dist = [0u32; 514];
    let mut lowest = [0u32; 514];
    let mut far = [0u32; 514];
    let mut chain = [0u32; 514];
    let nodes = bounded.table.nodes as usize;
    go_on_with(
        *bounded,
        flow,
        work,
        &mut dist[..nodes],
        &mut lowest[..nodes],
        &mut far[..nodes],
        &mut chain,
    )
}
