// Document 02, CR 14: the table without the arcs and nodes that can't matter, solved, and its flow put back.
#![tactic(auto)]

ghost use Rattle.std.specs.Prelude.{◌≡◌, ◌≤◌, ◌&&◌, ◌++◌, length, take, drop, replicate};
ghost use Rattle.rows.specs.Row.{by_place, cleared};
ghost use Rattle.table.specs.Table.{table_of, table_in};
ghost use Rattle.table.specs.Accepted.{Accepted};
ghost use Rattle.minimums.specs.BoundedTable.{bounded_in};
ghost use Rattle.stamps.specs.Stamp.{raised};
ghost use Rattle.arcs.specs.Work.{InWork, work_need};
ghost use Rattle.reach.specs.Side.{side_of};
ghost use Rattle.run.specs.Phase.{run};
ghost use Rattle.solver.specs.Solving.{refusal, solution};
ghost use Rattle.shrinking.specs.Smaller.{from_source, to_sink, arc_by, back_by};
ghost use Rattle.keeping.specs.SmallRows.{small_rows};
ghost use Rattle.smaller.specs.Reducing.{left_reduced, reduced_with, shrunk, has_small_room, reducing, Reduces, GivenRoomToReduce};

use minimums::LentBounded;
use solver::Answer;
use table::{LentTable, Refusal};

// Marks what the source reaches and what reaches the sink over arcs of capacity above 0, by lists that stay in their row.
fn find_live(
    table: &LentTable,
    none: &[u32],
    lists: &mut [u32],
    ahead: &mut [u8],
    behind: &mut [u8],
)
    requires accepted { Accepted (table_in table.now) × (none.now ≡ replicate (length none.now) 0) }
    requires capacities_in_bounds { (length table.now.capacities.now ≤ length none.now) × (work_need table.now.nodes (length table.now.capacities.now) ≤ length lists.old)
        × (table.now.nodes ≤ length ahead.old) × (table.now.nodes ≤ length behind.old) }
    ensures in_work { InWork (table_in table.now) lists.new }
    ensures fact { let table = table_in table.now in
        (take table.nodes ahead.new ≡ from_source table) × (take table.nodes behind.new ≡ to_sink table) }
{
    arcs::fill_work(table, lists);
    reach::mark(table, none, lists, ahead);
    reach::mark_sink_side(table, none, lists, behind);
}

// Solves the smaller table, whose arcs stand first in three rows.
fn solve_small(
    nodes: u32,
    arcs: u32,
    source: u32,
    sink: u32,
    stamp: u32,
    small_tails: &[u32],
    small_heads: &[u32],
    small_capacities: &[u32],
    flows: &mut [u32],
    marks: &mut [u8],
    room: &mut [u32],
) -> Answer
    requires accepted { Accepted (table_of nodes source sink
        (take arcs small_tails.now) (take arcs small_heads.now) (take arcs small_capacities.now)) }
    requires arcs_in_bounds { (arcs ≤ length small_tails.now) × (arcs ≤ length small_heads.now) × (arcs ≤ length small_capacities.now)
        × (arcs ≤ length flows.old) × (nodes ≤ length marks.old) × (work_need nodes arcs ≤ length room.old) }
    ensures { let small = table_of nodes source sink
        (take arcs small_tails.now) (take arcs small_heads.now) (take arcs small_capacities.now) in
        (result ≡ solution small stamp) × (take arcs flows.new ≡ (run small).state.flow) }
{
    let m = arcs as usize;
    let small = LentTable {
        nodes,
        source,
        sink,
        tails: &small_tails[..m],
        heads: &small_heads[..m],
        capacities: &small_capacities[..m],
    };
    solver::solve_table(&small, stamp, flows, marks, room)
}

// Puts the flow back, marks the side afresh by the lists that still stand, and clears the work row. The flow row has just its m places.
fn put_all_back(
    table: &LentTable,
    lists: &[u32],
    ahead: &[u8],
    behind: &[u8],
    flows: &[u32],
    flow: &mut [u32],
    side: &mut [u8],
    work: &mut [u32],
)
    requires fact { let table = table_in table.now in Accepted table × InWork table lists.now }
    requires ahead_len { (length ahead.now ≡ table.now.nodes) × (length behind.now ≡ table.now.nodes) × (length table.now.capacities.now ≤ length flows.now)
        × (length flow.old ≡ length table.now.capacities.now) × (table.now.nodes ≤ length side.old)
        × (work_need table.now.nodes (length table.now.capacities.now) ≤ length work.old) }
    ensures flow_value { let kept = arc_by ahead.now behind.now table.now.tails.now table.now.heads.now table.now.capacities.now in
        flow.new ≡ by_place (back_by kept flows.now) (length table.now.capacities.now) }
    ensures side_value { side.new ≡ side_of (table_in table.now) flow.new ++ drop table.now.nodes side.old }
    ensures work_value { work.new ≡ cleared (work_need table.now.nodes (length table.now.capacities.now)) work.old }
{
    keeping::put_back(
        ahead,
        behind,
        table.tails,
        table.heads,
        table.capacities,
        flows,
        flow,
    );
    reach::mark(table, flow, lists, side);
    rows::clear(work, work::work_need(table.nodes, table.capacities.len()));
}

// What the call returns: solving's result of the smaller table under the old stamp, and the smaller table's sizes, ends and stamp.
#[repr(C)]
#[derive(Clone, Copy, Debug, PartialEq, Eq)]
pub struct Reduced {
    pub answer: Answer,
    pub nodes: u32,
    pub arcs: u32,
    pub source: u32,
    pub sink: u32,
    pub stamp: u32,
}

// A stamp raised by one, round 2^32.
fn raise_stamp(stamp: u32) -> u32
    ensures { result ≡ raised stamp }
{
    std::num::wrapping_add_u32(stamp, 1)
}

// The call on an accepted table with room, whose live nodes are marked and whose lists stand. Rows of marks and numbers have n places, the flow row m.
fn reduce_marked(
    table: &LentTable,
    stamp: u32,
    lists: &[u32],
    ahead: &[u8],
    behind: &[u8],
    numbers: &mut [u32],
    flows: &mut [u32],
    marks: &mut [u8],
    room: &mut [u32],
    flow: &mut [u32],
    side: &mut [u8],
    work: &mut [u32],
    small_tails: &mut [u32],
    small_heads: &mut [u32],
    small_capacities: &mut [u32],
    nodes_from: &mut [u32],
    arcs_from: &mut [u32],
) -> Reduced
    requires fact { let table = table_in table.now in
        Accepted table × InWork table lists.now × (ahead.now ≡ from_source table) × (behind.now ≡ to_sink table) }
    requires ahead_len { (length ahead.now ≡ table.now.nodes) × (length behind.now ≡ table.now.nodes) × (length numbers.old ≡ table.now.nodes) × (4096 ≤ length flows.old)
        × (512 ≤ length marks.old) × (10241 ≤ length room.old) × (length flow.old ≡ length table.now.capacities.now) }
    requires given_room_to_reduce { GivenRoomToReduce table.now.nodes table.now.capacities.now side.old work.old small_tails.old small_heads.old small_capacities.old nodes_from.old arcs_from.old }
    ensures { let small_old = small_rows small_tails.old small_heads.old small_capacities.old nodes_from.old arcs_from.old in
        let small_new = small_rows small_tails.new small_heads.new small_capacities.new nodes_from.new arcs_from.new in
        let table = table_in table.now in
        left_reduced result flow.new side.new work.new small_new
        ≡ shrunk table stamp flow.old side.old work.old small_old }
{
    let sizes = keeping::write_small(
        table.source,
        table.sink,
        table.tails,
        table.heads,
        table.capacities,
        ahead,
        behind,
        numbers,
        small_tails,
        small_heads,
        small_capacities,
        nodes_from,
        arcs_from,
    );
    let nodes = sizes.nodes;
    let arcs = sizes.arcs;
    let source = sizes.source;
    let sink = sizes.sink;
    let answer = solve_small(
        nodes,
        arcs,
        source,
        sink,
        stamp,
        small_tails,
        small_heads,
        small_capacities,
        flows,
        marks,
        room,
    );
    put_all_back(table, lists, ahead, behind, flows, flow, side, work);
    Reduced {
        answer,
        nodes,
        arcs,
        source,
        sink,
        stamp: raise_stamp(stamp),
    }
}

// The same over rows with room.
fn reduce_cut(
    table: &LentTable,
    stamp: u32,
    lists: &[u32],
    ahead: &[u8],
    behind: &[u8],
    numbers: &mut [u32],
    flows: &mut [u32],
    marks: &mut [u8],
    room: &mut [u32],
    flow: &mut [u32],
    side: &mut [u8],
    work: &mut [u32],
    small_tails: &mut [u32],
    small_heads: &mut [u32],
    small_capacities: &mut [u32],
    nodes_from: &mut [u32],
    arcs_from: &mut [u32],
) -> Reduced
    requires fact { let table = table_in table.now in
        Accepted table × InWork table lists.now × (take table.nodes ahead.now ≡ from_source table) × (take table.nodes behind.now ≡ to_sink table) }
    requires n_in_bounds { (table.now.nodes ≤ length ahead.now) × (table.now.nodes ≤ length behind.now) × (table.now.nodes ≤ length numbers.old) × (4096 ≤ length flows.old)
        × (512 ≤ length marks.old) × (10241 ≤ length room.old) × (length table.now.capacities.now ≤ length flow.old) }
    requires given_room_to_reduce { GivenRoomToReduce table.now.nodes table.now.capacities.now side.old work.old small_tails.old small_heads.old small_capacities.old nodes_from.old arcs_from.old }
    ensures { let small_old = small_rows small_tails.old small_heads.old small_capacities.old nodes_from.old arcs_from.old in
        let small_new = small_rows small_tails.new small_heads.new small_capacities.new nodes_from.new arcs_from.new in
        let table = table_in table.now in
        left_reduced result flow.new side.new work.new small_new
        ≡ shrunk table stamp flow.old side.old work.old small_old }
{
    let nodes = table.nodes as usize;
    let m = table.capacities.len();
    reduce_marked(
        table,
        stamp,
        lists,
        &ahead[..nodes],
        &behind[..nodes],
        &mut numbers[..nodes],
        flows,
        marks,
        room,
        &mut flow[..m],
        side,
        work,
        small_tails,
        small_heads,
        small_capacities,
        nodes_from,
        arcs_from,
    )
}

// The call on an accepted table with room: it works in room of its own beside the lent rows.
fn reduce_accepted(
    table: &LentTable,
    stamp: u32,
    flow: &mut [u32],
    side: &mut [u8],
    work: &mut [u32],
    small_tails: &mut [u32],
    small_heads: &mut [u32],
    small_capacities: &mut [u32],
    nodes_from: &mut [u32],
    arcs_from: &mut [u32],
) -> Reduced
    requires accepted { Accepted (table_in table.now) × (length table.now.capacities.now ≤ length flow.old) }
    requires given_room_to_reduce { GivenRoomToReduce table.now.nodes table.now.capacities.now side.old work.old small_tails.old small_heads.old small_capacities.old nodes_from.old arcs_from.old }
    ensures { let small_old = small_rows small_tails.old small_heads.old small_capacities.old nodes_from.old arcs_from.old in
        let small_new = small_rows small_tails.new small_heads.new small_capacities.new nodes_from.new arcs_from.new in
        let table = table_in table.now in
        left_reduced result flow.new side.new work.new small_new
        ≡ shrunk table stamp flow.old side.old work.old small_old }
{
    let none = [0u32; 4096];
    let mut lists = [0u32; 4 * 512 + 2 * 4096 + 1];
    let mut ahead = [0u8; 512];
    let mut behind = [0u8; 512];
    let mut numbers = [0u32; 512];
    let mut flows = [0u32; 4096];
    let mut marks = [0u8; 512];
    let mut room = [0u32; 4 * 512 + 2 * 4096 + 1];
    find_live(table, &none, &mut lists, &mut ahead, &mut behind);
    reduce_cut(
        table,
        stamp,
        &lists,
        &ahead,
        &behind,
        &mut numbers,
        &mut flows,
        &mut marks,
        &mut room,
        flow,
        side,
        work,
        small_tails,
        small_heads,
        small_capacities,
        nodes_from,
        arcs_from,
    )
}

// Whether there is room for solving, and rows of these lengths can take a smaller table and its origins.
fn has_small_room(
    solving: bool,
    n: u32,
    m: usize,
    small_tails: usize,
    small_heads: usize,
    small_capacities: usize,
    nodes_from: usize,
    arcs_from: usize,
) -> bool
    ensures { result ≡ (solving && has_small_room n m small_tails small_heads small_capacities nodes_from arcs_from) }
{
    if !solving {
        return false;
    }
    if small_tails < m {
        return false;
    }
    if small_heads < m {
        return false;
    }
    if small_capacities < m {
        return false;
    }
    if nodes_from < (n as usize) {
        return false;
    }
    m <= arcs_from
}

// The answer of a refusal: its number and place, other fields 0.
impl From<Refusal> for Reduced {
    ghost from_gives = { λ r answer. answer ≡ reduced_with (refusal r.name r.place) 0 0 0 0 0 };

    fn from(refusal: Refusal) -> Reduced {
        Reduced {
            answer: refusal.into(),
            nodes: 0,
            arcs: 0,
            source: 0,
            sink: 0,
            stamp: 0,
        }
    }
}

// Makes the smaller table, solves it, puts its flow back and marks the side afresh; or the first refusal, with nothing written.
pub fn reduce(
    bounded: &LentBounded,
    stamp: u32,
    flow: &mut [u32],
    side: &mut [u8],
    work: &mut [u32],
    small_tails: &mut [u32],
    small_heads: &mut [u32],
    small_capacities: &mut [u32],
    nodes_from: &mut [u32],
    arcs_from: &mut [u32],
) -> Reduced
    ensures exact { let small_old = small_rows small_tails.old small_heads.old small_capacities.old nodes_from.old arcs_from.old in
        let small_new = small_rows small_tails.new small_heads.new small_capacities.new nodes_from.new arcs_from.new in
        let table = bounded_in bounded.now in
        left_reduced result flow.new side.new work.new small_new
        ≡ reducing table stamp flow.old side.old work.old small_old }
    ensures means { let small_old = small_rows small_tails.old small_heads.old small_capacities.old nodes_from.old arcs_from.old in
        let small_new = small_rows small_tails.new small_heads.new small_capacities.new nodes_from.new arcs_from.new in
        let table = table_in bounded.now.table in
        result.answer.refusal ≡ 0 → Reduces table (left_reduced result flow.new side.new work.new small_new) }
{
    let m = bounded.table.capacities.len();
    let solving = solver::has_room(bounded.table.nodes, m, flow.len(), side.len(), work.len());
    let room = has_small_room(
        solving,
        bounded.table.nodes,
        bounded.table.capacities.len(),
        small_tails.len(),
        small_heads.len(),
        small_capacities.len(),
        nodes_from.len(),
        arcs_from.len(),
    );
    match minimums::plain_check(bounded, room) {
        Err(refusal) => refusal.into(),
        Ok(()) => reduce_accepted(
            &bounded.table,
            stamp,
            flow,
            side,
            work,
            small_tails,
            small_heads,
            small_capacities,
            nodes_from,
            arcs_from,
        ),
    }
}
