// The distances to a node over residual arcs, measured by visits.
#![tactic(auto)]

ghost use Rattle.std.specs.Prelude.{◌≤◌, ◌<◌, ◌≡◌, length, replicate};
ghost use Rattle.rows.specs.Row.{Node};
ghost use Rattle.arcs.specs.Residual.{Places};
ghost use Rattle.table.specs.Table.{table_in};
ghost use Rattle.arcs.specs.Work.{InWork};
ghost use Rattle.minimums.specs.BoundedTable.{bounded_in};
ghost use Rattle.shortest.specs.Ways.{other_end};
ghost use Rattle.shortest.specs.Distance.{distances};
ghost use Rattle.measuring.specs.Visits.{may_into, give_of, look_to, Open};
ghost use Rattle.measuring.specs.Noted.{front_of};
ghost use Rattle.shortest.specs.Rows.{bounded_ways, Rows};

use minimums::LentBounded;
use reach::Noted;

// Gives node i the distance d and notes it to be visited, where the way from it is open and it has no distance yet.
fn give(may: bool, i: u32, d: u32, none: u32, noted: &mut Noted, dist: &mut [u32])
    requires { Node (length dist.old) i × Open none d (front_of dist.old noted.old) }
    ensures { front_of dist.new noted.new ≡ give_of none d may i (front_of dist.old noted.old) }
{
    let p = (i - 1) as usize;
    if may && dist[p] == none {
        dist[p] = d;
        noted.push(i);
    }
}

// Looks at the arc at place k, which touches node j: its other end gets the distance d where the arc may be walked from there to j.
fn look(
    bounded: LentBounded,
    flow: &[u32],
    j: u32,
    k: u32,
    d: u32,
    noted: &mut Noted,
    dist: &mut [u32],
)
    requires rows { Rows (bounded_in bounded) flow.now × (length dist.old ≡ bounded.table.nodes) × (k < length bounded.table.capacities.now) }
    requires fact { Open bounded.table.nodes d (front_of dist.old noted.old) }
    ensures { let ways = bounded_ways (bounded_in bounded.entry) flow.now in
        front_of dist.new noted.new ≡ give_of bounded.entry.table.nodes d (may_into ways j k) (other_end ways j k) (front_of dist.old noted.old) }
{
    let at = k as usize;
    let f = flow[at];
    let tail = bounded.table.tails[at];
    if tail == j {
        give(
            bounded.minimums[at] < f,
            bounded.table.heads[at],
            d,
            bounded.table.nodes,
            noted,
            dist,
        );
    } else {
        give(
            f < bounded.table.capacities[at],
            tail,
            d,
            bounded.table.nodes,
            noted,
            dist,
        );
    }
}

// Looks at every arc of node j's list.
fn visit(
    bounded: LentBounded,
    flow: &[u32],
    list: &[u32],
    j: u32,
    d: u32,
    noted: &mut Noted,
    dist: &mut [u32],
)
    requires rows { Rows (bounded_in bounded) flow.now × (length dist.old ≡ bounded.table.nodes) }
    requires places { Places (length bounded.table.capacities.now) list.now × Open bounded.table.nodes d (front_of dist.old noted.old) }
    ensures { let ways = bounded_ways (bounded_in bounded.entry) flow.now in
        front_of dist.new noted.new ≡ look_to ways bounded.entry.table.nodes d j list.now (length list.now) (front_of dist.old noted.old) }
{
    for k in list {
        look(bounded, flow, j, *k, d, noted, dist);
    }
}

// No node has a distance.
pub fn reset(dist: &mut [u32], none: u32)
    ensures { dist.new ≡ replicate (length dist.old) none }
{
    dist.fill(none);
}

// The distance of every node to node t over residual arcs, or their number where t is not reached. A list of nodes still to be visited is kept, the nearer ones first, and each one's arcs are looked at once: O(n + m). The nodes' lists stand in the work row.
pub fn measure(bounded: LentBounded, flow: &[u32], work: &[u32], todo: &mut [u32], dist: &mut [u32])
    requires rows { Rows (bounded_in bounded) flow.now }
    requires in_work { InWork (table_in bounded.table) work.now }
    requires node { Node bounded.table.nodes bounded.table.sink × (length dist.old ≡ bounded.table.nodes) × (bounded.table.nodes ≤ length todo.old) }
    ensures { dist.new ≡ distances (bounded_ways (bounded_in bounded.entry) flow.now) bounded.entry.table.nodes bounded.entry.table.sink }
{
    reset(dist, bounded.table.nodes);
    dist[(bounded.table.sink - 1) as usize] = 0;
    let mut noted = Noted {
        row: todo,
        count: 0,
    };
    noted.push(bounded.table.sink);
    let mut at = 0;
    while at < noted.count {
        let j = noted.row[at];
        let d = dist[(j - 1) as usize] + 1;
        visit(
            bounded,
            flow,
            arcs::node_list(work, bounded.table.nodes, bounded.table.capacities.len(), j),
            j,
            d,
            &mut noted,
            dist,
        );
        at += 1;
    }
}
