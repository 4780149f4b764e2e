// The run over one work row, which is cut into four parts: excess, labels, list starts and list entries.
#![tactic(auto)]

ghost use Rattle.std.specs.Prelude.{◌≡◌, ◌+◌, ◌-◌, ◌^◌, ◌≤◌, ◌<◌, length, set, replicate};
ghost use Rattle.rows.specs.Row.{Node, at_node};
ghost use Rattle.table.specs.Table.{Table, table_in, arcs};
ghost use Rattle.table.specs.Accepted.{Accepted, ArcRows};
ghost use Rattle.arcs.specs.Residual.{far, list};
ghost use Rattle.arcs.specs.Work.{starts_at, entries_at, excess_part, labels_part, looked_part, lists_part, SameLists, InWork, work_need};
ghost use Rattle.run.specs.Start.{start};
ghost use Rattle.run.specs.Scale.{largest, phases_for, phase_count};
ghost use Rattle.run.specs.Push.{saturates, push};
ghost use Rattle.run.specs.Phase.{step, phase};
ghost use Rattle.run.specs.Rows.{steps, WithinCapacities, InPhase};
ghost use Rattle.until.specs.Stopping.{into_sink, stopped};
ghost use Rattle.until.specs.Gain.{gain};
ghost use Rattle.looking.specs.Looked.{Looked, ValidLabels};
ghost use Rattle.tournament.specs.Tournament.{key, LowLabels, without, AllBut, Chose};
ghost use Rattle.steps.specs.Rows.{FarEnds, SpotIs};
ghost use Rattle.start.specs.Sums.{sum_at};
ghost use Rattle.work.specs.Held.{state_in, run_in, Relabels, brought, Stepped, Ready, FarRow, Between, Underway, RanUntil, Ran};

use run::{Counts, Outcome};
use steps::{Lowest, Spot};
use table::LentTable;

// What a step answers beside the rows: the counts, and the node beside the chosen one that it changed (after a relabel that is the chosen one again).
#[derive(Clone, Copy, Debug, PartialEq, Eq)]
struct Taken {
    counts: Counts,
    other: u32,
}

// The steps taken, and the net flow into the sink.
#[derive(Clone, Copy, Debug, PartialEq, Eq)]
struct Tally {
    counts: Counts,
    sink: u64,
}

// What a turn answers beside the rows: the tally, and the choice of the next step.
#[derive(Clone, Copy, Debug, PartialEq, Eq)]
struct Turned {
    tally: Tally,
    next: Option<u32>,
}

// What the run that stops answers beside the rows: the steps taken and the net flow into the sink; K and D of the whole run.
#[derive(Clone, Copy, Debug, PartialEq, Eq)]
pub struct Stop {
    pub counts: Counts,
    pub sink: u64,
    pub phases: u32,
    pub scale: u64,
}

// The choice of the first step: the tournament of the nodes' keys, whose excesses and labels the work row holds, is built.
fn first_choice(n: u32, work: &[u32], tree: &mut [u32], delta: u64) -> Option<u32>
    requires { (n ≤ 512) × (starts_at n ≤ length work.now) × LowLabels (labels_part n work.now) × (length tree.old ≡ 1024) }
    ensures { Chose n delta (excess_part n work.now) (labels_part n work.now) tree.new result }
{
    let nodes = n as usize;
    let end = nodes + nodes;
    tournament::choose_first(tree, &work[0..nodes], &work[nodes..end], delta)
}

// The choice of the next step, after one at node i that may have changed another node j too, which had no key before.
fn next_choice(n: u32, work: &[u32], tree: &mut [u32], delta: u64, i: u32, j: u32) -> Option<u32>
    requires n_bound { (n ≤ 512) × (starts_at n ≤ length work.now) × LowLabels (labels_part n work.now) × (length tree.old ≡ 1024) }
    requires node { Node n i × Node n j × AllBut n (without (key delta (excess_part n work.now) (labels_part n work.now)) j) tree.old i }
    ensures { Chose n delta (excess_part n work.now) (labels_part n work.now) tree.new result }
{
    let nodes = n as usize;
    let end = nodes + nodes;
    tournament::choose_next(tree, &work[0..nodes], &work[nodes..end], delta, i, j)
}

// The far ends beside node i's list.
fn node_ends<'a>(n: u32, work: &[u32], ends: &'a [u32], i: u32) -> &'a [u32]
    requires { (t : Table) × InWork t work.now × (t.nodes ≡ n) × Node n i × FarRow t ends.now }
    ensures { (t : Table) → InWork t work.now → t.nodes ≡ n → FarRow t ends.now
        → (length result.now ≡ length (list t i)) × FarEnds t i (list t i) result.now }
{
    let nodes = n as usize;
    let at = nodes + nodes;
    let from = at + (at + 1);
    arcs::list_part(&work[at..from], ends, i)
}

// The first eligible arc in node i's list, from where the list was looked through to.
fn search_list(table: &LentTable, flow: &[u32], work: &[u32], ends: &[u32], i: u32) -> Option<Spot>
    requires arc_rows { let table = table_in table.now in
        ArcRows table.nodes table.tails table.heads table.capacities × WithinCapacities table.capacities flow.now × Node table.nodes i }
    requires in_work { let table = table_in table.now in InWork table work.now × FarRow table ends.now }
    requires looked { let table = table_in table.now in
        Looked table (state_in table.nodes flow.now work.now) (looked_part table.nodes work.now) }
    ensures { let table = table_in table.now in
        SpotIs table (state_in table.nodes flow.now work.now) i (list table i) result }
{
    let nodes = table.nodes as usize;
    let at = nodes + nodes;
    let from = at + (nodes + 1);
    let end = at + (at + 1);
    steps::search(
        table,
        flow,
        &work[nodes..at],
        arcs::node_list(work, table.nodes, table.capacities.len(), i),
        node_ends(table.nodes, work, ends, i),
        i,
        rows::at_node(&work[from..end], i),
    )
}

// The label that a relabel gives node i, and where its list is to be looked through from then.
fn label_from_list(table: &LentTable, flow: &[u32], work: &[u32], ends: &[u32], i: u32) -> Lowest
    requires arc_rows { let table = table_in table.now in
        ArcRows table.nodes table.tails table.heads table.capacities × WithinCapacities table.capacities flow.now × Node table.nodes i }
    requires in_work { let table = table_in table.now in InWork table work.now × FarRow table ends.now }
    ensures { let table = table_in table.now in Relabels table (state_in table.nodes flow.now work.now) i result }
{
    let nodes = table.nodes as usize;
    let end = nodes + nodes;
    steps::new_label(
        table,
        flow,
        &work[nodes..end],
        arcs::node_list(work, table.nodes, table.capacities.len(), i),
        node_ends(table.nodes, work, ends, i),
        i,
    )
}

// The push along place k away from node i to its far end j, with the excess part lent; whether it is saturating.
fn push_from(
    table: &LentTable,
    flow: &mut [u32],
    work: &mut [u32],
    delta: u64,
    i: u32,
    k: u32,
    j: u32,
) -> bool
    requires arc_rows { let table = table_in table.now in
        ArcRows table.nodes table.tails table.heads table.capacities × (starts_at table.nodes ≤ length work.old) }
    requires fact { let table = table_in table.now in
        InPhase table delta (state_in table.nodes flow.old work.old) × Node table.nodes i × (k < length table.capacities) × (j ≡ far table i k) }
    ensures work_value { state_in table.now.nodes flow.new work.new ≡ push (table_in table.now) delta (state_in table.now.nodes flow.old work.old) i k }
    ensures value { result ≡ saturates (table_in table.now) delta (state_in table.now.nodes flow.old work.old) i k }
    ensures work_value_2 { lists_part table.now.nodes work.new ≡ lists_part table.now.nodes work.old }
{
    let nodes = table.nodes as usize;
    steps::push(table, flow, &mut work[0..nodes], delta, i, k, j)
}

// Node i's label becomes this one, with the labels part lent.
fn set_label(n: u32, work: &mut [u32], i: u32, label: u32)
    requires { (starts_at n ≤ length work.old) × Node n i }
    ensures work_value { excess_part n work.new ≡ excess_part n work.old }
    ensures work_value_2 { labels_part n work.new ≡ set (labels_part n work.old) (i - 1) label }
    ensures work_value_3 { lists_part n work.new ≡ lists_part n work.old }
{
    let nodes = n as usize;
    let end = nodes + nodes;
    rows::set_node(&mut work[nodes..end], i, label);
}

// Node i's list was looked through to position `at`, with the second half of the starts part lent.
fn set_looked(n: u32, work: &mut [u32], i: u32, at: u32)
    requires { (n ≤ 512) × (entries_at n ≤ length work.old) × Node n i }
    ensures work_value { excess_part n work.new ≡ excess_part n work.old }
    ensures work_value_2 { labels_part n work.new ≡ labels_part n work.old }
    ensures work_value_3 { looked_part n work.new ≡ set (looked_part n work.old) (i - 1) at }
    ensures same_lists { SameLists n work.old work.new }
{
    let nodes = n as usize;
    let begin = nodes + nodes;
    let from = begin + (nodes + 1);
    let end = begin + (begin + 1);
    rows::set_node(&mut work[from..end], i, at);
}

// No list was looked through yet.
fn clear_looked(n: u32, work: &mut [u32])
    requires { (n ≤ 512) × (entries_at n ≤ length work.old) }
    ensures work_value { excess_part n work.new ≡ excess_part n work.old }
    ensures work_value_2 { labels_part n work.new ≡ labels_part n work.old }
    ensures work_value_3 { looked_part n work.new ≡ replicate n 0 }
    ensures same_lists { SameLists n work.old work.new }
{
    let nodes = n as usize;
    let begin = nodes + nodes;
    let from = begin + (nodes + 1);
    let end = begin + (begin + 1);
    rows::clear(&mut work[from..end], nodes);
}

// One step at the chosen node i: a push along its first eligible arc, or else a relabel.
fn step(
    table: &LentTable,
    flow: &mut [u32],
    work: &mut [u32],
    ends: &[u32],
    delta: u64,
    i: u32,
    counts: Counts,
) -> Taken
    requires arc_rows { let table = table_in table.now in
        ArcRows table.nodes table.tails table.heads table.capacities × InWork table work.old × FarRow table ends.now }
    requires in_phase { InPhase (table_in table.now) delta (state_in table.now.nodes flow.old work.old) × Node table.now.nodes i × (steps counts < 2 ^ 63) }
    requires fact { let table = table_in table.now in
        let state = state_in table.nodes flow.old work.old in
        ValidLabels table state × Looked table state (looked_part table.nodes work.old) }
    ensures fact_2 { let table = table_in table.now in
        Stepped table delta (run_in table.nodes flow.old work.old counts) i (run_in table.nodes flow.new work.new result.counts) (looked_part table.nodes work.new) result.other }
    ensures same_lists { SameLists table.now.nodes work.old work.new }
{
    match search_list(table, flow, work, ends, i) {
        Some(spot) => {
            let full = push_from(table, flow, work, delta, i, spot.place, spot.far);
            set_looked(table.nodes, work, i, spot.position);
            Taken {
                counts: steps::count_push(counts, full),
                other: spot.far,
            }
        }
        None => {
            let found = label_from_list(table, flow, work, ends, i);
            set_label(table.nodes, work, i, found.label);
            set_looked(table.nodes, work, i, found.at);
            Taken {
                counts: steps::count_relabel(counts),
                other: i,
            }
        }
    }
}

// Node i's excess.
fn excess_at(n: u32, work: &[u32], i: u32) -> u32
    requires { (n ≤ length work.now) × Node n i }
    ensures { result ≡ at_node (excess_part n work.now) i }
{
    let nodes = n as usize;
    rows::at_node(&work[0..nodes], i)
}

// What left a node's excess, if it went to the sink t: j is the node beside it that changed.
fn brought(t: u32, j: u32, had: u32, has: u32) -> u64
    requires { j ≡ t → has ≤ had }
    ensures { (result ≡ brought t j had has) × (result < 2 ^ 32) }
{
    if j == t { u64::from(had - has) } else { 0 }
}

// One step at the chosen node i, with what it brought to the sink added, and the choice of the next one.
fn turn(
    table: &LentTable,
    flow: &mut [u32],
    work: &mut [u32],
    tree: &mut [u32],
    ends: &[u32],
    delta: u64,
    i: u32,
    tally: Tally,
) -> Turned
    requires arc_rows { let table = table_in table.now in
        ArcRows table.nodes table.tails table.heads table.capacities × InWork table work.old × FarRow table ends.now }
    requires fact { let table = table_in table.now in
        InPhase table delta (state_in table.nodes flow.old work.old) × Node table.nodes i × (steps tally.counts < 2 ^ 63) × (tally.sink < 2 ^ 63) }
    requires fact_2 { let table = table_in table.now in
        let state = state_in table.nodes flow.old work.old in
        ValidLabels table state × Ready table delta state (looked_part table.nodes work.old) tree.old (Some i) }
    ensures counts_value { run_in table.now.nodes flow.new work.new result.tally.counts ≡ step (table_in table.now) delta (run_in table.now.nodes flow.old work.old tally.counts) i }
    ensures sink_value { result.tally.sink ≡ tally.sink + gain (table_in table.now) delta (state_in table.now.nodes flow.old work.old) i }
    ensures ready { Ready (table_in table.now) delta (state_in table.now.nodes flow.new work.new) (looked_part table.now.nodes work.new) tree.new result.next }
    ensures same_lists { SameLists table.now.nodes work.old work.new }
{
    let had = excess_at(table.nodes, work, i);
    let done = step(table, flow, work, ends, delta, i, tally.counts);
    let next = next_choice(table.nodes, work, tree, delta, i, done.other);
    let has = excess_at(table.nodes, work, i);
    let sum = Tally {
        counts: done.counts,
        sink: tally.sink + brought(table.sink, done.other, had, has),
    };
    Turned { tally: sum, next }
}

// One phase: steps at the chosen node until there is none, or until the net flow into the sink has reached q.
fn phase(
    table: &LentTable,
    flow: &mut [u32],
    work: &mut [u32],
    tree: &mut [u32],
    ends: &[u32],
    delta: u64,
    tally: Tally,
    q: u64,
) -> Tally
    requires fact { let table = table_in table.now in Accepted table × InWork table work.old × FarRow table ends.now }
    requires fact_2 { let table = table_in table.now in
        let run = run_in table.nodes flow.old work.old tally.counts in
        Between table delta run × Underway table q run tally.sink }
    requires fact_3 { let table = table_in table.now in
        Looked table (state_in table.nodes flow.old work.old) (looked_part table.nodes work.old) × (length tree.old ≡ 1024) }
    ensures underway { Underway (table_in table.now) q (run_in table.now.nodes flow.new work.new result.counts) result.sink }
    ensures counts_value { let table = table_in table.now in
        result.sink < q → run_in table.nodes flow.new work.new result.counts ≡ phase table delta (run_in table.nodes flow.old work.old tally.counts) }
    ensures looked { Looked (table_in table.now) (state_in table.now.nodes flow.new work.new) (looked_part table.now.nodes work.new) }
    ensures same_lists { SameLists table.now.nodes work.old work.new }
{
    let mut next = first_choice(table.nodes, work, tree, delta);
    let mut taken = tally;
    while taken.sink < q {
        let Some(i) = next else {
            break;
        };
        let turned = turn(table, flow, work, tree, ends, delta, i, taken);
        taken = turned.tally;
        next = turned.next;
    }
    taken
}

// The phases at Delta = D, D/2, .., 1, from the start on, until the net flow into the sink, at first `sink`, has reached q.
fn phases(
    table: &LentTable,
    flow: &mut [u32],
    work: &mut [u32],
    tree: &mut [u32],
    ends: &[u32],
    count: u32,
    sink: u64,
    q: u64,
) -> Tally
    requires fact { let table = table_in table.now in Accepted table × InWork table work.old × FarRow table ends.now }
    requires fact_2 { let table = table_in table.now in
        (state_in table.nodes flow.old work.old ≡ start table) × (count ≡ phase_count table) × (sink ≡ into_sink table (start table).flow) }
    requires fact_3 { let table = table_in table.now in
        Looked table (state_in table.nodes flow.old work.old) (looked_part table.nodes work.old) × (length tree.old ≡ 1024) }
    ensures counts_value { run_in table.now.nodes flow.new work.new result.counts ≡ stopped (table_in table.now) q }
    ensures sink_value { let table = table_in table.now in result.sink ≡ into_sink table (stopped table q).state.flow }
    ensures same_lists { SameLists table.now.nodes work.old work.new }
{
    let mut tally = Tally {
        counts: Counts::default(),
        sink,
    };
    let mut delta = start::scale(count);
    for _ in 0..count {
        if q <= tally.sink {
            break;
        }
        tally = phase(table, flow, work, tree, ends, delta, tally, q);
        delta /= 2;
    }
    tally
}

// The start, in the flow row and the first two parts of the work row.
fn begin(table: &LentTable, flow: &mut [u32], work: &mut [u32])
    requires arc_rows { let table = table_in table.now in ArcRows table.nodes table.tails table.heads table.capacities }
    requires n_in_bounds { (starts_at table.now.nodes ≤ length work.old) × (length flow.old ≡ length table.now.capacities.now) }
    ensures work_value { state_in table.now.nodes flow.new work.new ≡ start (table_in table.now) }
    ensures work_value_2 { lists_part table.now.nodes work.new ≡ lists_part table.now.nodes work.old }
{
    let nodes = table.nodes as usize;
    let end = nodes + nodes;
    start::start_flow(table, flow);
    start::start_excess(table, &mut work[0..nodes]);
    start::start_labels(table, &mut work[nodes..end]);
}

// K: the number of phases for the excesses that the work row holds after the start.
fn count_phases(n: u32, work: &[u32]) -> u32
    requires { starts_at n ≤ length work.now }
    ensures { (result ≡ phases_for (largest (excess_part n work.now))) × (result ≤ 33) }
{
    let nodes = n as usize;
    start::phase_count(start::largest(&work[0..nodes]))
}

// The far ends of all lists that stand in the work row, at their entries' positions.
fn fill_ends(table: &LentTable, work: &[u32], ends: &mut [u32])
    requires arc_rows { let table = table_in table.now in
        ArcRows table.nodes table.tails table.heads table.capacities × InWork table work.now }
    requires ends_len { length ends.old ≡ 8192 }
    ensures { FarRow (table_in table.now) ends.new }
{
    let mut p = 0;
    for i in 1..=table.nodes {
        p = steps::put_ends(
            table,
            arcs::node_list(work, table.nodes, table.capacities.len(), i),
            ends,
            p,
            i,
        );
    }
}

// The net flow into the sink.
fn into_sink(table: &LentTable, flow: &[u32]) -> u64
    requires accepted { Accepted (table_in table.now) × (length flow.now ≡ arcs (table_in table.now)) }
    requires sums { let table = table_in table.now in
        sum_at table.tails flow.now table.sink (length table.tails) ≤ sum_at table.heads flow.now table.sink (length table.heads) }
    ensures { result ≡ into_sink (table_in table.now) flow.now }
{
    start::sum_at(table.heads, flow, table.sink) - start::sum_at(table.tails, flow, table.sink)
}

// How many numbers the work row needs.
pub fn work_need(n: u32, m: usize) -> usize
    requires { m < 2 ^ 61 }
    ensures { result ≡ work_need n m }
{
    4 * (n as usize) + 2 * m + 1
}

// The run of an accepted table whose lists stand in the work row, and stay there: the start, then the phases, until the net flow into the sink has reached q. The flow row has just its m places.
pub fn run_until(table: &LentTable, q: u64, flow: &mut [u32], work: &mut [u32]) -> Stop
    requires { let table = table_in table.now in
        Accepted table × InWork table work.old × (length flow.old ≡ length table.capacities) }
    ensures { RanUntil (table_in table.now) q work.old result flow.new work.new }
{
    begin(table, flow, work);
    clear_looked(table.nodes, work);
    let count = count_phases(table.nodes, work);
    let d = start::scale(count);
    let sink = into_sink(table, flow);
    let mut tree = [0u32; 1024];
    let mut ends = [0u32; 8192];
    fill_ends(table, work, &mut ends);
    let taken = phases(table, flow, work, &mut tree, &ends, count, sink, q);
    Stop {
        counts: taken.counts,
        sink: taken.sink,
        phases: count,
        scale: d,
    }
}

// The whole run: the same with a q that no value reaches.
pub fn run(table: &LentTable, flow: &mut [u32], work: &mut [u32]) -> Outcome
    requires { let table = table_in table.now in
        Accepted table × InWork table work.old × (length flow.old ≡ length table.capacities) }
    ensures { Ran (table_in table.now) work.old result flow.new work.new }
{
    let stop = run_until(table, 4096000001, flow, work);
    Outcome {
        counts: stop.counts,
        phases: stop.phases,
        scale: stop.scale,
    }
}
