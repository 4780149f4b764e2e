// Document 02, CR 13: which opening would help. The places whose arc, raised by one unit, would raise the value by one; the source side; the nodes that reach the sink.
#![tactic(auto)]

ghost use Rattle.std.specs.Prelude.{◌≡◌, true, ◌&&◌, ◌≤◌, ◌<◌, length, take};
ghost use Rattle.rows.specs.Row.{Node};
ghost use Rattle.table.specs.Table.{table_in};
ghost use Rattle.table.specs.Accepted.{Accepted, ArcEnds};
ghost use Rattle.minimums.specs.BoundedTable.{bounded_in};
ghost use Rattle.arcs.specs.Work.{work_need};
ghost use Rattle.reach.specs.Side.{marked};
ghost use Rattle.solver.specs.Solving.{refusal, Meets, GivenRoom, left};
ghost use Rattle.listing.specs.Passing.{filled_with};
ghost use Rattle.openings.specs.Helping.{nodes_in, places_in, HelpsExactly};
ghost use Rattle.openings.specs.Sides.{Sides};
ghost use Rattle.openings.specs.Finding.{openings_with, has_lists, Listed, handed, lists_verdict, finding_as, finding, left_openings};

use minimums::LentBounded;
use solver::Answer;
use table::{LentTable, Name, Refusal};

// What the call returns: solving's result, and how many numbers of each list were filled.
#[repr(C)]
#[derive(Clone, Copy, Debug, PartialEq, Eq)]
pub struct Openings {
    pub answer: Answer,
    pub sources: u32,
    pub sinks: u32,
    pub places: u32,
}

// ---- counting and listing

// How many nodes are marked.
fn count_nodes(marks: &[u8]) -> u32
    requires { length marks.now ≤ 512 }
    ensures { result ≡ length (nodes_in marks.now) }
{
    let mut count = 0;
    for mark in marks {
        count += u32::from(*mark == 1);
    }
    count
}

// How many arcs would help.
fn count_places(tails: &[u32], heads: &[u32], side: &[u8], drains: &[u8]) -> u32
    requires { ArcEnds (length side.now) tails.now heads.now × (length drains.now ≡ length side.now) }
    ensures { result ≡ length (places_in side.now drains.now tails.now heads.now) }
{
    let mut count = 0;
    for k in 0..tails.len() {
        count += u32::from(reach::both_mark(side, tails[k], drains, heads[k]));
    }
    count
}

// Fills a list with the marked nodes, rising.
// Kept: its own loop, since a closure over one row alone gets no proof at `listing::list_passing`.
fn list_nodes(marks: &[u8], list: &mut [u32]) -> u32
    requires { (length marks.now ≤ 512) × (length (nodes_in marks.now) ≤ length list.old) }
    ensures { (result ≡ length (nodes_in marks.now)) × (list.new ≡ filled_with (nodes_in marks.now) list.old) }
{
    let mut count = 0;
    for (k, mark) in marks.iter().enumerate() {
        if *mark == 1 {
            list[count as usize] = k as u32 + 1;
            count += 1;
        }
    }
    count
}

// Fills a list with the places whose arcs would help, rising.
fn list_places(tails: &[u32], heads: &[u32], side: &[u8], drains: &[u8], list: &mut [u32]) -> u32
    requires arc_ends { ArcEnds (length side.now) tails.now heads.now × (length drains.now ≡ length side.now) }
    requires heads_in_bounds { length (places_in side.now drains.now tails.now heads.now) ≤ length list.old }
    ensures { let found = places_in side.now drains.now tails.now heads.now in
        (result ≡ length found) × (list.new ≡ filled_with found list.old) }
{
    listing::list_passing(
        0,
        tails.len() as u32,
        |k| reach::both_mark(side, tails[k as usize], drains, heads[k as usize]),
        list,
    )
}

// ---- the call

// Solves an accepted table and marks both sides. The flow row has just its m places, and the work row keeps the lists.
fn mark_both(
    table: &LentTable,
    stamp: u32,
    flow: &mut [u32],
    side: &mut [u8],
    drains: &mut [u8],
    work: &mut [u32],
) -> Answer
    requires accepted { Accepted (table_in table.now) }
    requires flow_len { (length flow.old ≡ length table.now.capacities.now) × (table.now.nodes ≤ length side.old) × (table.now.nodes ≤ length drains.old)
        × (work_need table.now.nodes (length table.now.capacities.now) ≤ length work.old) }
    ensures { Sides (table_in table.now) stamp result flow.new side.new drains.new }
{
    arcs::fill_work(table, work);
    let answer = solver::solve_filled(table, stamp, flow, side, work);
    reach::mark_sink_side(table, flow, work, drains);
    answer
}

// The same over a flow row with room.
fn solve_sides(
    table: &LentTable,
    stamp: u32,
    flow: &mut [u32],
    side: &mut [u8],
    drains: &mut [u8],
    work: &mut [u32],
) -> Answer
    requires accepted { Accepted (table_in table.now) }
    requires capacities_in_bounds { (length table.now.capacities.now ≤ length flow.old) × (table.now.nodes ≤ length side.old) × (table.now.nodes ≤ length drains.old)
        × (work_need table.now.nodes (length table.now.capacities.now) ≤ length work.old) }
    ensures { Sides (table_in table.now) stamp result flow.new side.new drains.new }
{
    let m = table.capacities.len();
    mark_both(table, stamp, &mut flow[..m], side, drains, work)
}

// Whether lists of these lengths can hold the source side, the nodes that reach the sink, and the places.
fn has_lists(
    tails: &[u32],
    heads: &[u32],
    side: &[u8],
    drains: &[u8],
    sources: usize,
    sinks: usize,
    places: usize,
) -> bool
    requires { ArcEnds (length side.now) tails.now heads.now × (length drains.now ≡ length side.now) }
    ensures { let found = places_in side.now drains.now tails.now heads.now in
        result ≡ has_lists (nodes_in side.now) (nodes_in drains.now) found sources sinks places }
{
    if sources < (count_nodes(side) as usize) {
        return false;
    }
    if sinks < (count_nodes(drains) as usize) {
        return false;
    }
    (count_places(tails, heads, side, drains) as usize) <= places
}

// Fills the three lists.
fn write_lists(
    answer: Answer,
    tails: &[u32],
    heads: &[u32],
    side: &[u8],
    drains: &[u8],
    sources: &mut [u32],
    sinks: &mut [u32],
    places: &mut [u32],
) -> Openings
    requires arc_ends { ArcEnds (length side.now) tails.now heads.now × (length drains.now ≡ length side.now) }
    requires places_value { let found = places_in side.now drains.now tails.now heads.now in
        has_lists (nodes_in side.now) (nodes_in drains.now) found (length sources.old) (length sinks.old) (length places.old) ≡ true }
    ensures { let found = places_in side.now drains.now tails.now heads.now in
        Listed (nodes_in side.now) (nodes_in drains.now) found answer sources.old sinks.old places.old
        result sources.new sinks.new places.new }
{
    let in_sources = list_nodes(side, sources);
    let in_sinks = list_nodes(drains, sinks);
    let in_places = list_places(tails, heads, side, drains, places);
    Openings {
        answer,
        sources: in_sources,
        sinks: in_sinks,
        places: in_places,
    }
}

// The answer of a refusal: its number and place, other fields 0.
impl From<Refusal> for Openings {
    ghost from_gives = { λ r answer. answer ≡ openings_with (refusal r.name r.place) 0 0 0 };

    fn from(refusal: Refusal) -> Openings {
        Openings {
            answer: refusal.into(),
            sources: 0,
            sinks: 0,
            places: 0,
        }
    }
}

// Hands over what was solved in rows of the call's own: the rows and the lists, or ROOM where a list is too short, with nothing written.
fn hand_lists(
    table: &LentTable,
    answer: Answer,
    flows: &[u32],
    marks: &[u8],
    drains: &[u8],
    flow: &mut [u32],
    side: &mut [u8],
    work: &mut [u32],
    sources: &mut [u32],
    sinks: &mut [u32],
    places: &mut [u32],
) -> Openings
    requires arc_ends { ArcEnds table.now.nodes table.now.tails.now table.now.heads.now × (length table.now.tails.now ≤ length flows.now) × (table.now.nodes ≤ length marks.now)
        × (table.now.nodes ≤ length drains.now) }
    requires given_room { GivenRoom table.now.nodes table.now.tails.now flow.old side.old work.old }
    ensures { left_openings result flow.new side.new work.new sources.new sinks.new places.new
        ≡ handed table.now.nodes answer table.now.tails.now table.now.heads.now (take (length table.now.tails.now) flows.now) (take table.now.nodes marks.now) (take table.now.nodes drains.now)
        flow.old side.old work.old sources.old sinks.old places.old }
{
    let nodes = table.nodes as usize;
    let room = has_lists(
        table.tails,
        table.heads,
        &marks[..nodes],
        &drains[..nodes],
        sources.len(),
        sinks.len(),
        places.len(),
    );
    if !room {
        return Name::Room.at(0).into();
    }
    let m = table.tails.len();
    solver::hand_over(table.nodes, m, flows, marks, flow, side, work);
    write_lists(
        answer,
        table.tails,
        table.heads,
        &marks[..nodes],
        &drains[..nodes],
        sources,
        sinks,
        places,
    )
}

// The call on an accepted table with solving's rows: it solves in rows of its own, and hands over what it found.
fn find_accepted(
    table: &LentTable,
    stamp: u32,
    flow: &mut [u32],
    side: &mut [u8],
    work: &mut [u32],
    sources: &mut [u32],
    sinks: &mut [u32],
    places: &mut [u32],
) -> Openings
    requires accepted { Accepted (table_in table.now) }
    requires given_room { GivenRoom table.now.nodes table.now.capacities.now flow.old side.old work.old }
    ensures { let table = table_in table.now in
        left_openings result flow.new side.new work.new sources.new sinks.new places.new
        ≡ finding_as (lists_verdict table (length sources.old) (length sinks.old) (length places.old)) table stamp
        flow.old side.old work.old sources.old sinks.old places.old }
{
    let mut flows = [0u32; 4096];
    let mut marks = [0u8; 512];
    let mut drains = [0u8; 512];
    let mut room = [0u32; 4 * 512 + 2 * 4096 + 1];
    let answer = solve_sides(table, stamp, &mut flows, &mut marks, &mut drains, &mut room);
    hand_lists(
        table, answer, &flows, &marks, &drains, flow, side, work, sources, sinks, places,
    )
}

// Solves the table, and lists the source side, the nodes that reach the sink, and the places whose opening would help; or the first refusal, with nothing written.
pub fn find_openings(
    bounded: &LentBounded,
    stamp: u32,
    flow: &mut [u32],
    side: &mut [u8],
    work: &mut [u32],
    sources: &mut [u32],
    sinks: &mut [u32],
    places: &mut [u32],
) -> Openings
    ensures exact { let table = bounded_in bounded.now in
        left_openings result flow.new side.new work.new sources.new sinks.new places.new
        ≡ finding table stamp flow.old side.old work.old sources.old sinks.old places.old }
    ensures best { let table = table_in bounded.now.table in
        result.answer.refusal ≡ 0 → Meets table (left result.answer flow.new side.new work.new) × HelpsExactly table }
{
    let m = bounded.table.capacities.len();
    let room = solver::has_room(bounded.table.nodes, m, flow.len(), side.len(), work.len());
    match minimums::plain_check(bounded, room) {
        Err(refusal) => refusal.into(),
        Ok(()) => find_accepted(
            &bounded.table,
            stamp,
            flow,
            side,
            work,
            sources,
            sinks,
            places,
        ),
    }
}
