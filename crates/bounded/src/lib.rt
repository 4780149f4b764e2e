// Document 02, CR 11: solves a table whose arcs have a least flow: a flow of greatest value among those that keep every arc between its two numbers.
#![tactic(auto)]

ghost use Rattle.std.specs.Prelude.{◌≡◌, ◌++◌, ℕ, ◌+◌, ◌-◌, ◌≤◌, ◌<◌, pos, ◌-ℤ◌, length, drop, Some};
ghost use Rattle.rows.specs.Row.{at_place, by_place};
ghost use Rattle.start.specs.Sums.{sum_at};
ghost use Rattle.arcs.specs.Work.{work_end};
ghost use Rattle.minimums.specs.BoundedTable.{bounded_in};
ghost use Rattle.joining.specs.Joining.{joined_arcs, Small};
ghost use Rattle.bounded.specs.Solving.{Solvable, OwnRows, Above, Leaves};

use minimums::LentBounded;
use table::LentTable;

// The first places of the flow row: what flows above the minimums, and the minimums.
fn add_minimums(more: &[u32], minimums: &[u32], flow: &mut [u32])
    requires minimums_in_bounds { (length minimums.now ≤ length more.now) × (length minimums.now ≤ length flow.old) }
    requires by_index { (j : ℕ) → j < length minimums.now → at_place more.now j + at_place minimums.now j ≤ 1000000 }
    ensures { flow.new ≡ by_place (λ k. at_place more.now k + at_place minimums.now k) (length minimums.now) ++ drop (length minimums.now) flow.old }
{
    for k in 0..minimums.len() {
        flow[k] = more[k] + minimums[k];
    }
}

// The first places of a row: the flow less the minimums.
fn take_minimums(flow: &[u32], minimums: &[u32], row: &mut [u32])
    requires minimums_in_bounds { (length minimums.now ≤ length flow.now) × (length minimums.now ≤ length row.old) }
    requires by_index { (j : ℕ) → j < length minimums.now → at_place minimums.now j ≤ at_place flow.now j }
    ensures { row.new ≡ by_place (λ k. at_place flow.now k - at_place minimums.now k) (length minimums.now) ++ drop (length minimums.now) row.old }
{
    for k in 0..minimums.len() {
        row[k] = flow[k] - minimums[k];
    }
}

// The value: what leaves the source less what enters it, with its sign.
fn net_out(tails: &[u32], heads: &[u32], flow: &[u32], s: u32) -> i64
    requires { Small tails.now flow.now × Small heads.now flow.now }
    ensures { result ≡ pos (sum_at tails.now flow.now s (length tails.now)) -ℤ pos (sum_at heads.now flow.now s (length heads.now)) }
{
    let leaving = i64::from(joining::held_at(tails, flow, s));
    let entering = i64::from(joining::held_at(heads, flow, s));
    leaving - entering
}

// Goes on from the flow that is `more` above the minimums to one of greatest value, marks its side, and returns the value. `spare` is what the capacities leave above the minimums.
fn greatest(
    bounded: &LentBounded,
    spare: &[u32],
    more: &mut [u32],
    lists: &mut [u32],
    flow: &mut [u32],
    side: &mut [u8],
) -> i64
    requires solvable { Solvable (bounded_in bounded.now) flow.old side.old }
    requires above { Above (bounded_in bounded.now) spare.now more.old }
    requires work_end_in_bounds { work_end 514 5122 ≤ length lists.old }
    ensures { Leaves (bounded_in bounded.now) flow.old side.old (Some result) flow.new side.new }
{
    let table = &bounded.table;
    let above = LentTable {
        capacities: spare,
        ..*table
    };
    add_minimums(more, bounded.minimums, flow);
    arcs::fill_work(table, lists);
    augment::go_on(bounded, flow, lists);
    take_minimums(flow, bounded.minimums, more);
    reach::mark(&above, more, lists, side);
    net_out(table.tails, table.heads, flow, table.source)
}

// Solves an accepted bounded table with room, in rows of its own.
fn solve_in(
    bounded: &LentBounded,
    from: &mut [u32],
    to: &mut [u32],
    limits: &mut [u32],
    none: &[u32],
    more: &mut [u32],
    lists: &mut [u32],
    flow: &mut [u32],
    side: &mut [u8],
) -> Option<i64>
    requires solvable { Solvable (bounded_in bounded.now) flow.old side.old }
    requires own_rows { OwnRows (joined_arcs bounded.now.table.nodes (length bounded.now.table.capacities.now)) from.old to.old limits.old none.now more.old lists.old }
    ensures { Leaves (bounded_in bounded.now) flow.old side.old result flow.new side.new }
{
    joining::join(bounded, from, to, limits);
    let nodes = bounded.table.nodes;
    let joined = LentTable {
        nodes: nodes + 2,
        source: nodes + 1,
        sink: nodes + 2,
        tails: from,
        heads: to,
        capacities: limits,
    };
    if !feasible::feasible(bounded, &joined, none, more, lists) {
        return None;
    }
    let spare = &limits[..bounded.table.capacities.len()];
    Some(greatest(bounded, spare, more, lists, flow, side))
}

// Solves an accepted table with minimums: a flow of greatest value among those that keep every arc between its two numbers, with the smallest side; or no flow does.
pub fn solve_bounded(bounded: &LentBounded, flow: &mut [u32], side: &mut [u8]) -> Option<i64>
    requires { Solvable (bounded_in bounded.now) flow.old side.old }
    ensures { Leaves (bounded_in bounded.now) flow.old side.old result flow.new side.new }
{
    let mut from = [0u32; 5122];
    let mut to = [0u32; 5122];
    let mut limits = [0u32; 5122];
    let none = [0u32; 5122];
    let mut more = [0u32; 5122];
    let mut lists = [0u32; 4 * 514 + 2 * 5122 + 1];
    let nodes = bounded.table.nodes as usize;
    let size = bounded.table.capacities.len() + (nodes + (nodes + 2));
    solve_in(
        bounded,
        &mut from[..size],
        &mut to[..size],
        &mut limits[..size],
        &none[..size],
        &mut more[..size],
        &mut lists,
        flow,
        side,
    )
}
