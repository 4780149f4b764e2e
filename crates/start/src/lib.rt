// The start of the run, the scale and the value.
#![tactic(auto)]

ghost use Rattle.std.specs.Prelude.{◌≡◌, ℕ, List, ◌++◌, ◌+◌, ◌^◌, ◌≤◌, ◌<◌, length, drop};
ghost use Rattle.rows.specs.Row.{Node, at_node, by_node};
ghost use Rattle.table.specs.Table.{table_of, table_in, arcs};
ghost use Rattle.table.specs.Accepted.{ArcRows};
ghost use Rattle.run.specs.Start.{start_flow, start_label_at, start};
ghost use Rattle.run.specs.Scale.{largest, phases_for, scale_of};
ghost use Rattle.run.specs.Phase.{value};
ghost use Rattle.start.specs.Sums.{received, sum_at};

use table::LentTable;

// The start's flow: every arc leaving s is filled, all others are 0. Later places stay.
pub fn start_flow(table: &LentTable, flow: &mut [u32])
    requires { let table = table_in table.now in (arcs table ≡ length table.tails) × (arcs table ≤ length flow.old) }
    ensures { (n t : ℕ) (heads : List ℕ) → (let table = table_of n table.now.source t table.now.tails.now heads table.now.capacities.now in
        flow.new ≡ start_flow table ++ drop (arcs table) flow.old) }
{
    for k in 0..table.capacities.len() {
        flow[k] = if table.tails[k] == table.source {
            table.capacities[k]
        } else {
            0
        };
    }
}

// Node i's label at the start: the source has n, the sink 0, the others 1.
fn start_label(table: &LentTable, i: u32) -> u32
    ensures { result ≡ start_label_at (table_in table.now) i }
{
    if i == table.source {
        table.nodes
    } else if i == table.sink {
        0
    } else {
        1
    }
}

// The start's labels.
pub fn start_labels(table: &LentTable, labels: &mut [u32])
    requires { (length labels.old ≡ table.now.nodes) × (table.now.nodes ≤ 512) }
    ensures { (tails heads capacities : List ℕ) → (let table = table_of table.now.nodes table.now.source table.now.sink tails heads capacities in
        labels.new ≡ by_node (start_label_at table) table.nodes) }
{
    for i in 0..table.nodes {
        labels[i as usize] = start_label(table, i + 1);
    }
}

// Node j receives c, unless it is the sink t, which holds nothing.
fn receive(excess: &mut [u32], t: u32, j: u32, c: u32)
    requires { Node (length excess.old) j × (at_node excess.old j + c < 2 ^ 32) }
    ensures { excess.new ≡ received excess.old t j c }
{
    if j != t {
        rows::set_node(excess, j, rows::at_node(excess, j) + c);
    }
}

// The start's excess: what the filled arcs bring to each node other than source and sink.
pub fn start_excess(table: &LentTable, excess: &mut [u32])
    requires { let table = table_in table.now in
        ArcRows table.nodes table.tails table.heads table.capacities × (length excess.old ≡ table.nodes) }
    ensures { excess.new ≡ (start (table_in table.now)).excess }
{
    excess.fill(0);
    for k in 0..table.capacities.len() {
        if table.tails[k] == table.source {
            receive(excess, table.sink, table.heads[k], table.capacities[k]);
        }
    }
}

// The largest number of a row.
pub fn largest(row: &[u32]) -> u32
    ensures { result ≡ largest row.now }
{
    row.iter().copied().max().unwrap_or(0)
}

// K: the number of phases for a largest excess after the start: 0 for none, and else one more than how often 1 is doubled until it is not below it.
pub fn phase_count(x: u32) -> u32
    ensures { (result ≡ phases_for x) × (result ≤ 33) }
{
    if x == 0 {
        0
    } else {
        33 - (x - 1).leading_zeros()
    }
}

// D: the scale for K phases.
pub fn scale(phases: u32) -> u64
    requires { phases ≤ 33 }
    ensures { result ≡ scale_of phases }
{
    if phases == 0 { 0 } else { 1 << (phases - 1) }
}

// What the first places of a flow row take along arcs with end i: `ends` is the row of tails or of heads.
pub fn sum_at(ends: &[u32], flow: &[u32], i: u32) -> u64
    requires { (length ends.now ≤ length flow.now) × (length ends.now ≤ 4096) }
    ensures { result ≡ sum_at ends.now flow.now i (length ends.now) }
{
    let mut sum = 0;
    for k in 0..ends.len() {
        if ends[k] == i {
            sum += u64::from(flow[k]);
        }
    }
    sum
}

// The value: the net flow out of the source.
pub fn value(table: &LentTable, flow: &[u32]) -> u64
    requires heads_len { let table = table_in table.now in
        (length table.heads ≡ length table.tails) × (length table.tails ≤ length flow.now) × (length table.tails ≤ 4096) }
    requires heads_bound { let table = table_in table.now in
        sum_at table.heads flow.now table.source (length table.heads) ≤ sum_at table.tails flow.now table.source (length table.tails) }
    ensures { (n t : ℕ) (capacities : List ℕ) → length capacities ≡ length table.now.tails.now
        → result ≡ value (table_of n table.now.source t table.now.tails.now table.now.heads.now capacities) flow.now }
{
    sum_at(table.tails, flow, table.source) - sum_at(table.heads, flow, table.source)
}
