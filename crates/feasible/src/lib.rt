// Document 02, CR 11: whether some flow keeps all arcs between their numbers.
#![tactic(auto)]

ghost use Rattle.std.specs.Prelude.{◌≡◌, ◌≤◌, length, replicate};
ghost use Rattle.arcs.specs.Work.{work_end};
ghost use Rattle.table.specs.Table.{table_in};
ghost use Rattle.minimums.specs.BoundedTable.{bounded_in, AcceptedBounded};
ghost use Rattle.joining.specs.Joining.{joined_arcs, joined_table};
ghost use Rattle.feasible.specs.Filling.{Full};
ghost use Rattle.feasible.specs.Deciding.{Feasible};

use minimums::LentBounded;
use table::LentTable;

// Whether the arcs from place `from` up to place `to` are all full.
fn all_full(capacities: &[u32], flow: &[u32], from: usize, to: usize) -> bool
    requires { (from ≤ to) × ((to ≤ length capacities.now) × (to ≤ length flow.now)) }
    ensures { Full capacities.now flow.now from to result }
{
    flow[from..to] == capacities[from..to]
}

// Whether some flow keeps all arcs between their numbers. `none` and `more` come as zeros; where one does, what `more` then holds above the minimums is such a flow.
pub fn feasible(
    bounded: &LentBounded,
    joined: &LentTable,
    none: &[u32],
    more: &mut [u32],
    lists: &mut [u32],
) -> bool
    requires accepted_bounded { AcceptedBounded (bounded_in bounded.now) }
    requires joined_table { table_in joined.now ≡ joined_table (bounded_in bounded.now) }
    requires none_value { let arcs = joined_arcs bounded.now.table.nodes (length bounded.now.table.capacities.now) in (none.now ≡ replicate arcs 0) × (more.old ≡ replicate arcs 0) }
    requires work_end_in_bounds { work_end 514 5122 ≤ length lists.old }
    ensures { Feasible (bounded_in bounded.now) more.new result }
{
    arcs::fill_work(joined, lists);
    let network = LentBounded {
        table: *joined,
        minimums: none,
    };
    augment::go_on(&network, more, lists);
    let m = bounded.table.capacities.len();
    all_full(
        joined.capacities,
        more,
        m,
        m + (bounded.table.nodes as usize),
    )
}
