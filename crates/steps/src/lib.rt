// The parts of a step: search, push and relabel.
#![tactic(auto)]

ghost use Rattle.std.specs.Prelude.{◌≡◌, true, List, ℕ, ◌+◌, ◌-◌, ◌*◌, ◌^◌, ◌≤◌, ◌<◌, length};
ghost use Rattle.rows.specs.Row.{Node, at_place, at_node};
ghost use Rattle.table.specs.Table.{table_of, table_in, arcs};
ghost use Rattle.table.specs.Accepted.{ArcEnds, ArcRows};
ghost use Rattle.arcs.specs.Residual.{far, residual};
ghost use Rattle.run.specs.Push.{eligible, amount, along, moved};
ghost use Rattle.run.specs.Relabel.{lesser, least_far};
ghost use Rattle.run.specs.Phase.{one_push, one_relabel};
ghost use Rattle.run.specs.Rows.{state_of, steps, AtMost, WithinCapacities};
ghost use Rattle.rows.specs.Sum.{total};
ghost use Rattle.looking.specs.Looked.{NoneBefore, HighBefore};
ghost use Rattle.steps.specs.Rows.{touching, AllTouch, Beside, FarEnds, SpotIs, Pushed};

use run::Counts;
use table::LentTable;

// Where the arc search stopped before the list's end: the position in the node's list, the arc's place that stands there, and the arc's far end.
#[derive(Clone, Copy, Debug, PartialEq, Eq)]
pub struct Spot {
    pub position: u32,
    pub place: u32,
    pub far: u32,
}

// The least label met in a node's list, and the position where it was first met.
#[derive(Clone, Copy, Debug, PartialEq, Eq)]
pub struct Lowest {
    pub label: u32,
    pub at: u32,
}

// The end of the arc at place k that is not i: what both ends add up to, less i.
fn far(table: &LentTable, i: u32, k: u32) -> u32
    requires by_index { (n : ℕ) × ArcEnds n table.now.tails.now table.now.heads.now }
    requires k_in_bounds { let table = table_in table.now in
        (k < length table.tails) × (touching table.tails table.heads i k ≡ true) }
    ensures { (n s t : ℕ) (capacities : List ℕ) → result ≡ far (table_of n s t table.now.tails.now table.now.heads.now capacities) i k }
{
    table.tails[k as usize] + table.heads[k as usize] - i
}

// What can still go along the arc at place k away from i.
fn residual(table: &LentTable, flow: &[u32], i: u32, k: u32) -> u32
    requires k_in_bounds { let table = table_in table.now in (k < length table.tails) × (k < arcs table) }
    requires within_capacities { WithinCapacities table.now.capacities.now flow.now }
    ensures { (n s t : ℕ) (heads : List ℕ) → result ≡ residual (table_of n s t table.now.tails.now heads table.now.capacities.now) flow.now i k }
{
    if table.tails[k as usize] == i {
        table.capacities[k as usize] - flow[k as usize]
    } else {
        flow[k as usize]
    }
}

// Whether the arc at place k, away from i, has a far end, `there`, exactly one lower, which few have, and residual above 0.
fn eligible(table: &LentTable, flow: &[u32], labels: &[u32], i: u32, k: u32, there: u32) -> bool
    requires k_in_bounds { let table = table_in table.now in
        (k < length table.tails) × (k < arcs table) × WithinCapacities table.capacities flow.now }
    requires node { Node (length labels.now) i × Node (length labels.now) there }
    ensures { (n s t : ℕ) (heads excess : List ℕ) → (let table = table_of n s t table.now.tails.now heads table.now.capacities.now in
        there ≡ far table i k → result ≡ eligible table (state_of flow.now excess labels.now) i k) }
{
    u64::from(rows::at_node(labels, there)) + 1 == u64::from(rows::at_node(labels, i))
        && 0 < residual(table, flow, i, k)
}

// The first eligible place of node i's list, which has none before position `from`; beside the list stand its far ends.
pub fn search(
    table: &LentTable,
    flow: &[u32],
    labels: &[u32],
    list: &[u32],
    ends: &[u32],
    i: u32,
    from: u32,
) -> Option<Spot>
    requires tails_len { let table = table_in table.now in
        (length table.tails ≡ arcs table) × WithinCapacities table.capacities flow.now }
    requires node { Node (length labels.now) i × Beside (length table.now.capacities.now) (length labels.now) list.now ends.now }
    requires from_in_bounds { (from ≤ length list.now) × (length list.now < 2 ^ 32) }
    ensures { (n s t : ℕ) (heads excess : List ℕ) → (let table = table_of n s t table.now.tails.now heads table.now.capacities.now in
        let state = state_of flow.now excess labels.now in
        FarEnds table i list.now ends.now → NoneBefore table state i list.now from → SpotIs table state i list.now result) }
{
    for j in from as usize..list.len() {
        let place = list[j];
        let far = ends[j];
        if eligible(table, flow, labels, i, place, far) {
            let position = j as u32;
            return Some(Spot {
                position,
                place,
                far,
            });
        }
    }
    None
}

// The label at the far end, `there`, of the arc at place k, where that is below `best`, which few are, and the arc has residual away from i; else `best`.
fn lesser(
    table: &LentTable,
    flow: &[u32],
    labels: &[u32],
    i: u32,
    k: u32,
    there: u32,
    best: u32,
) -> u32
    requires k_in_bounds { let table = table_in table.now in
        (k < length table.tails) × (k < arcs table) × WithinCapacities table.capacities flow.now }
    requires node { Node (length labels.now) there }
    ensures by_index { (n s t : ℕ) (heads excess : List ℕ) → (let table = table_of n s t table.now.tails.now heads table.now.capacities.now in
        there ≡ far table i k → result ≡ lesser table (state_of flow.now excess labels.now) i k best) }
    ensures upper_bound { result ≤ best }
{
    let label = rows::at_node(labels, there);
    if label < best && 0 < residual(table, flow, i, k) {
        label
    } else {
        best
    }
}

// Position j where the label found there is less than the least so far; else the position `at` where that was met.
fn met(label: u32, least: u32, at: u32, j: u32) -> u32
    ensures { (label < least → result ≡ j) × (least ≤ label → result ≡ at) }
{
    if label < least { j } else { at }
}

// The least of `best` and the labels at far ends of residual arcs in node i's list, and where it was first met; beside the list stand its far ends.
fn least_far(
    table: &LentTable,
    flow: &[u32],
    labels: &[u32],
    list: &[u32],
    ends: &[u32],
    i: u32,
    best: u32,
) -> Lowest
    requires tails_len { let table = table_in table.now in
        (length table.tails ≡ arcs table) × WithinCapacities table.capacities flow.now }
    requires beside { Beside (length table.now.capacities.now) (length labels.now) list.now ends.now × (length list.now < 2 ^ 32) }
    ensures label_le_best { (result.label ≤ best) × (result.at ≤ length list.now) }
    ensures by_index { (n s t : ℕ) (heads excess : List ℕ) → (let table = table_of n s t table.now.tails.now heads table.now.capacities.now in
        let state = state_of flow.now excess labels.now in
        FarEnds table i list.now ends.now → (result.label ≡ least_far table state i list.now best)
        × HighBefore table state i list.now result.at (result.label + 1)) }
{
    let mut least = best;
    let mut at = 0;
    for j in 0..list.len() {
        let label = lesser(table, flow, labels, i, list[j], ends[j], least);
        at = met(label, least, at, j as u32);
        least = label;
    }
    Lowest { label: least, at }
}

// Node i's label after a relabel, one more than the least label among far ends of its residual arcs, and the position of the first arc that leads so low.
pub fn new_label(
    table: &LentTable,
    flow: &[u32],
    labels: &[u32],
    list: &[u32],
    ends: &[u32],
    i: u32,
) -> Lowest
    requires tails_len { let table = table_in table.now in
        (length table.tails ≡ arcs table) × WithinCapacities table.capacities flow.now × (length labels.now ≤ 512) }
    requires beside { Beside (length table.now.capacities.now) (length labels.now) list.now ends.now × (length list.now < 2 ^ 32) }
    ensures at_in_bounds { result.at ≤ length list.now }
    ensures by_index { (n s t : ℕ) (heads excess : List ℕ) → (let table = table_of n s t table.now.tails.now heads table.now.capacities.now in
        let state = state_of flow.now excess labels.now in
        FarEnds table i list.now ends.now → (result.label ≡ least_far table state i list.now (2 * length labels.now) + 1)
        × HighBefore table state i list.now result.at result.label) }
{
    let top = 2 * labels.len() as u32;
    let found = least_far(table, flow, labels, list, ends, i, top);
    Lowest {
        label: found.label + 1,
        ..found
    }
}

// Puts the far ends of node i's list into a row, from position p on; answers the position behind them.
pub fn put_ends(table: &LentTable, list: &[u32], ends: &mut [u32], p: usize, i: u32) -> usize
    requires by_index { (n : ℕ) × ArcEnds n table.now.tails.now table.now.heads.now }
    requires all_touch { let table = table_in table.now in
        AllTouch (length table.tails) table.tails table.heads i list.now × (p + length list.now ≤ length ends.old) }
    ensures value { (result ≡ p + length list.now) × ((q : ℕ) → q < p → at_place ends.new q ≡ at_place ends.old q) }
    ensures by_index_2 { (n s t : ℕ) (capacities : List ℕ) (j : ℕ) → j < length list.now
        → at_place ends.new (p + j) ≡ far (table_of n s t table.now.tails.now table.now.heads.now capacities) i (at_place list.now j) }
{
    for (j, &k) in list.iter().enumerate() {
        ends[p + j] = far(table, i, k);
    }
    p + list.len()
}

// How much a push along place k to its far end j moves: the least of excess, residual and what the far end may still take.
fn amount(
    table: &LentTable,
    flow: &[u32],
    excess: &[u32],
    delta: u64,
    i: u32,
    k: u32,
    j: u32,
) -> u32
    requires k_in_bounds { let table = table_in table.now in
        (k < length table.tails) × (k < arcs table) × WithinCapacities table.capacities flow.now }
    requires node { Node (length excess.now) i × Node (length excess.now) j × AtMost delta excess.now }
    ensures { (n s t : ℕ) (heads label : List ℕ) → (let table = table_of n s t table.now.tails.now heads table.now.capacities.now in
        j ≡ far table i k → result ≡ amount table delta (state_of flow.now excess.now label) i k) }
{
    let held = u64::from(rows::at_node(excess, i));
    let left = u64::from(residual(table, flow, i, k));
    let there = u64::from(rows::at_node(excess, j));
    held.min(left.min(delta - there)) as u32
}

// Flow d goes along place k away from i, on the flow row.
fn send(tails: &[u32], flow: &mut [u32], i: u32, k: u32, d: u32)
    requires k_in_bounds { (k < length tails.now) × (k < length flow.old) }
    requires d_bound { (at_place tails.now k ≡ i) → at_place flow.old k + d < 2 ^ 32 }
    requires d_bound_2 { (at_place tails.now k ≡ i → ⊥) → d ≤ at_place flow.old k }
    ensures { (n s t : ℕ) (heads capacities : List ℕ)
        → flow.new ≡ along (table_of n s t tails.now heads capacities) flow.old i k d }
{
    if tails[k as usize] == i {
        flow[k as usize] += d;
    } else {
        flow[k as usize] -= d;
    }
}

// Flow d goes from node i to node j, on the excess row: source s and sink t hold nothing.
fn shift(excess: &mut [u32], s: u32, t: u32, i: u32, j: u32, d: u32)
    requires node { Node (length excess.old) i × Node (length excess.old) j }
    requires fact { i ≡ j → ⊥ }
    requires d_bound { (d ≤ at_node excess.old i) × (at_node excess.old j + d < 2 ^ 32) }
    ensures { (n : ℕ) (tails heads capacities : List ℕ)
        → excess.new ≡ moved (table_of n s t tails heads capacities) excess.old i j d }
{
    let held = rows::at_node(excess, i);
    rows::set_node(excess, i, held - d);
    if j != s && j != t {
        let there = rows::at_node(excess, j);
        rows::set_node(excess, j, there + d);
    }
}

// A push along place k away from node i, to the arc's far end j; whether it is saturating.
pub fn push(
    table: &LentTable,
    flow: &mut [u32],
    excess: &mut [u32],
    delta: u64,
    i: u32,
    k: u32,
    j: u32,
) -> bool
    requires by_index { (heads : List ℕ) × ArcRows (length excess.old) table.now.tails.now heads table.now.capacities.now
        × (j ≡ far (table_of (length excess.old) table.now.source table.now.sink table.now.tails.now heads table.now.capacities.now) i k) }
    requires within_capacities { WithinCapacities table.now.capacities.now flow.old × Node (length excess.old) i × (k < length table.now.capacities.now) }
    requires at_most { AtMost delta excess.old × (total excess.old < 2 ^ 32) }
    ensures { (n : ℕ) (heads label : List ℕ) → (let table = table_of n table.now.source table.now.sink table.now.tails.now heads table.now.capacities.now in
        j ≡ far table i k → Pushed table delta (state_of flow.old excess.old label) i k flow.new excess.new result) }
{
    let left = residual(table, flow, i, k);
    let d = amount(table, flow, excess, delta, i, k, j);
    send(table.tails, flow, i, k, d);
    shift(excess, table.source, table.sink, i, j, d);
    d == left
}

// One more push, saturating or not.
pub fn count_push(mut counts: Counts, full: bool) -> Counts
    requires { steps counts < 2 ^ 63 }
    ensures { result ≡ one_push counts full }
{
    if full {
        counts.saturating += 1;
    } else {
        counts.nonsaturating += 1;
    }
    counts
}

// One more relabel.
pub fn count_relabel(counts: Counts) -> Counts
    requires { steps counts < 2 ^ 63 }
    ensures { result ≡ one_relabel counts }
{
    Counts {
        relabels: counts.relabels + 1,
        ..counts
    }
}
