// Document 02, CR 11: the rows of the joined network.
#![tactic(auto)]

ghost use Rattle.std.specs.Prelude.{◌≡◌, ◌-◌, ◌≤◌, ◌<◌, length};
ghost use Rattle.rows.specs.Row.{by_place};
ghost use Rattle.table.specs.Table.{table_in};
ghost use Rattle.table.specs.Accepted.{ArcEnds};
ghost use Rattle.start.specs.Sums.{sum_at};
ghost use Rattle.sums.specs.Tallied.{Tallied};
ghost use Rattle.minimums.specs.BoundedTable.{BoundedRows, bounded_in};
ghost use Rattle.joining.specs.Joining.{joined_arcs, joined_tail, joined_head, joined_capacity, Small, capacity_at, Numbers, Summable, JoinedRows};

use minimums::LentBounded;
use table::LentTable;

// What the first places of a row hold of arcs with end i, in 32 bits: `ends` is the row of tails or of heads.
pub fn held_at(ends: &[u32], row: &[u32], i: u32) -> u32
    requires { Small ends.now row.now }
    ensures { (result ≡ sum_at ends.now row.now i (length ends.now)) × (result ≤ 4096000000) }
{
    start::sum_at(ends, row, i) as u32
}

// The ends of an arc.
#[derive(Clone, Copy, Debug, PartialEq, Eq)]
struct Ends {
    tail: u32,
    head: u32,
}

// The ends of the joined network's arc at place k: those of one of the table's arcs, the new source and a node, a node and the new sink, or source and sink one way or the other.
#[tactic(auto, unfolding(crate::specs::Joining::in_block))]
fn ends_at(table: LentTable, k: usize) -> Ends
    requires arc_ends { ArcEnds table.nodes table.tails.now table.heads.now }
    requires k_bound { k < joined_arcs table.nodes (length table.tails.now) }
    ensures tail { let t = table_in table.entry in result.tail ≡ joined_tail t.nodes t.source t.sink t.tails (length t.tails) k }
    ensures head { let t = table_in table.entry in result.head ≡ joined_head t.nodes t.source t.sink t.heads (length t.tails) k }
{
    let m = table.tails.len();
    let nodes = table.nodes as usize;
    if k < m {
        Ends {
            tail: table.tails[k],
            head: table.heads[k],
        }
    } else if k < m + nodes {
        Ends {
            tail: table.nodes + 1,
            head: (k - m + 1) as u32,
        }
    } else if k < m + (nodes + nodes) {
        Ends {
            tail: (k - (m + nodes) + 1) as u32,
            head: table.nodes + 2,
        }
    } else if k == m + (nodes + nodes) {
        Ends {
            tail: table.source,
            head: table.sink,
        }
    } else {
        Ends {
            tail: table.sink,
            head: table.source,
        }
    }
}

// The capacity at place k of the joined network: what is left above the minimum, the minimums into a node or out of it, or room for everything.
#[tactic(auto, unfolding(crate::specs::Joining::in_block))]
fn capacity_at(
    capacities: &[u32],
    minimums: &[u32],
    entering: &[u64],
    leaving: &[u64],
    k: usize,
) -> u32
    requires numbers { Numbers capacities.now minimums.now entering.now leaving.now }
    requires k_bound { k < joined_arcs (length entering.now) (length minimums.now) }
    ensures { result ≡ capacity_at capacities.now minimums.now entering.now leaving.now k }
{
    let m = minimums.len();
    let nodes = entering.len();
    if k < m {
        capacities[k].saturating_sub(minimums[k])
    } else if k < m + nodes {
        entering[k - m] as u32
    } else if k < m + (nodes + nodes) {
        leaving[k - (m + nodes)] as u32
    } else {
        4096000000
    }
}

// The capacities at all places of the joined network, read off such rows.
fn fill_capacities(
    capacities: &[u32],
    minimums: &[u32],
    entering: &[u64],
    leaving: &[u64],
    row: &mut [u32],
)
    requires numbers { Numbers capacities.now minimums.now entering.now leaving.now }
    requires row_len { length row.old ≡ joined_arcs (length entering.now) (length minimums.now) }
    ensures { row.new ≡ by_place (capacity_at capacities.now minimums.now entering.now leaving.now) (length row.old) }
{
    for k in 0..row.len() {
        row[k] = capacity_at(capacities, minimums, entering, leaving, k);
    }
}

// The capacities of the joined network: the minimums at each node are added up first, in rows of zeros and one pass over the arcs each.
fn sum_capacities(bounded: &LentBounded, entering: &mut [u64], leaving: &mut [u64], row: &mut [u32])
    requires summable { let b = bounded_in bounded.now in Summable (length entering.old) b.table.tails b.table.heads b.table.capacities b.minimums }
    requires leaving_len { (length leaving.old ≡ length entering.old) × (length row.old ≡ joined_arcs (length entering.old) (length bounded.now.minimums.now)) }
    requires tallied { Tallied bounded.now.table.heads.now bounded.now.minimums.now 0 entering.old × Tallied bounded.now.table.tails.now bounded.now.minimums.now 0 leaving.old }
    ensures { let b = bounded_in bounded.now in let n = length entering.old in let m = length b.minimums in
        row.new ≡ by_place (joined_capacity n b.table.tails b.table.heads b.table.capacities b.minimums m) (joined_arcs n m) }
{
    sums::tally(bounded.table.heads, bounded.minimums, entering);
    sums::tally(bounded.table.tails, bounded.minimums, leaving);
    fill_capacities(
        bounded.table.capacities,
        bounded.minimums,
        entering,
        leaving,
        row,
    );
}

// The capacities of the joined network, with rows of its own for the sums.
fn join_capacities(bounded: &LentBounded, row: &mut [u32])
    requires summable { let b = bounded_in bounded.now in Summable b.table.nodes b.table.tails b.table.heads b.table.capacities b.minimums }
    requires row_len { length row.old ≡ joined_arcs bounded.now.table.nodes (length bounded.now.minimums.now) }
    ensures { let b = bounded_in bounded.now in let m = length b.minimums in
        row.new ≡ by_place (joined_capacity b.table.nodes b.table.tails b.table.heads b.table.capacities b.minimums m) (joined_arcs b.table.nodes m) }
{
    let mut entering = [0u64; 512];
    let mut leaving = [0u64; 512];
    let nodes = bounded.table.nodes as usize;
    sum_capacities(bounded, &mut entering[..nodes], &mut leaving[..nodes], row);
}

// The tails and heads of the joined network.
fn join_ends(table: LentTable, from: &mut [u32], to: &mut [u32])
    requires arc_ends { ArcEnds table.nodes table.tails.now table.heads.now }
    requires from_len { (length from.old ≡ joined_arcs table.nodes (length table.tails.now)) × (length to.old ≡ joined_arcs table.nodes (length table.tails.now)) }
    ensures tails { let t = table_in table.entry in from.new ≡ by_place (joined_tail t.nodes t.source t.sink t.tails (length t.tails)) (joined_arcs t.nodes (length t.tails)) }
    ensures heads { let t = table_in table.entry in to.new ≡ by_place (joined_head t.nodes t.source t.sink t.heads (length t.tails)) (joined_arcs t.nodes (length t.tails)) }
{
    for k in 0..from.len() {
        let ends = ends_at(table, k);
        from[k] = ends.tail;
        to[k] = ends.head;
    }
}

// The three rows of the joined network.
pub fn join(bounded: &LentBounded, from: &mut [u32], to: &mut [u32], limits: &mut [u32])
    requires bounded_rows { let b = bounded_in bounded.now in BoundedRows b.table.nodes b.table.tails b.table.heads b.table.capacities b.minimums }
    requires from_len { let arcs = joined_arcs bounded.now.table.nodes (length bounded.now.table.capacities.now) in (length from.old ≡ arcs) × (length to.old ≡ arcs) }
    requires limits_len { length limits.old ≡ joined_arcs bounded.now.table.nodes (length bounded.now.table.capacities.now) }
    ensures { JoinedRows (bounded_in bounded.now) from.new to.new limits.new }
{
    join_ends(bounded.table, from, to);
    join_capacities(bounded, limits);
}
