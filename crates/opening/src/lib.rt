// Document 02, CR 12: goes on from a table's maximum flow where one arc opens to a larger capacity.
#![tactic(auto)]

ghost use Rattle.std.specs.Prelude.{◌≡◌, ℕ, ◌<◌, ◌≤◌, length, replicate, slice_set};
ghost use Rattle.rows.specs.Row.{Node, at_place, at_node};
ghost use Rattle.network.specs.Network.{Flow};
ghost use Rattle.minimums.specs.BoundedTable.{bounded_in};
ghost use Rattle.table.specs.Table.{network_of, table_in};
ghost use Rattle.table.specs.Accepted.{ArcRows, Accepted};
ghost use Rattle.reach.specs.Side.{marked, side_of};
ghost use Rattle.start.specs.Sums.{sum_at};
ghost use Rattle.sums.specs.Tallied.{Tallied};
ghost use Rattle.arcs.specs.Work.{work_end, work_need, InWork};
ghost use Rattle.solver.specs.Solving.{GivenRoom, left};
ghost use Rattle.opening.specs.Maximum.{MaximumFlow, is_within, keeps, is_kept, is_flow, is_maximum};
ghost use Rattle.opening.specs.Opening.{opened, opened_answer, change_verdict, went_on, opening_as, opening, Reopens};
ghost use Rattle.opening.specs.Steps.{Opens};

use minimums::LentBounded;
use solver::Answer;
use table::{LentTable, Name, Refusal};

// ---- is it a maximum flow?

// Whether no flow is above its capacity.
fn is_within(capacities: &[u32], flow: &[u32]) -> bool
    requires { length capacities.now ≤ length flow.now }
    ensures { result ≡ is_within capacities.now flow.now }
{
    (0..capacities.len()).all(|k| flow[k] <= capacities[k])
}

// Whether node i is source or sink, or as much leaves it as enters it.
fn does_keep(s: u32, t: u32, i: u32, entering: u64, leaving: u64) -> bool
    ensures { result ≡ keeps s t i entering leaving }
{
    i == s || i == t || entering == leaving
}

// Whether that holds of every node.
fn is_kept(s: u32, t: u32, entering: &[u64], leaving: &[u64]) -> bool
    requires { (length leaving.now ≡ length entering.now) × (length entering.now ≤ 512) }
    ensures { result ≡ is_kept s t (at_node entering.now) (at_node leaving.now) (length entering.now) }
{
    (0..entering.len()).all(|k| does_keep(s, t, k as u32 + 1, entering[k], leaving[k]))
}

// Whether what enters each node but source and sink leaves it, with rows of sums that hold 0.
fn is_conserved(
    s: u32,
    t: u32,
    tails: &[u32],
    heads: &[u32],
    flow: &[u32],
    entering: &mut [u64],
    leaving: &mut [u64],
) -> bool
    requires tails_in_bounds { ((length tails.now ≤ length flow.now) × (length tails.now ≤ 4096))
        × ((length heads.now ≤ length flow.now) × (length heads.now ≤ 4096)) }
    requires by_index { (k : ℕ) → k < length tails.now → Node (length leaving.old) (at_place tails.now k) }
    requires by_index_2 { (k : ℕ) → k < length heads.now → Node (length entering.old) (at_place heads.now k) }
    requires tallied { Tallied tails.now flow.now 0 leaving.old × Tallied heads.now flow.now 0 entering.old }
    requires leaving_len { (length leaving.old ≡ length entering.old) × (length entering.old ≤ 512) }
    ensures { result ≡ is_kept s t (λ i. sum_at heads.now flow.now i (length heads.now))
        (λ i. sum_at tails.now flow.now i (length tails.now)) (length entering.old) }
{
    sums::tally(heads, flow, entering);
    sums::tally(tails, flow, leaving);
    is_kept(s, t, entering, leaving)
}

// Whether the first m numbers of the row are a flow of the table.
fn is_flow(table: &LentTable, flow: &[u32]) -> bool
    requires arc_rows { ArcRows table.now.nodes table.now.tails.now table.now.heads.now table.now.capacities.now }
    requires capacities_in_bounds { length table.now.capacities.now ≤ length flow.now }
    ensures { result ≡ is_flow (table_in table.now) flow.now }
{
    if !is_within(table.capacities, flow) {
        return false;
    }
    let mut entering = [0u64; 512];
    let mut leaving = [0u64; 512];
    let nodes = table.nodes as usize;
    is_conserved(
        table.source,
        table.sink,
        table.tails,
        table.heads,
        flow,
        &mut entering[..nodes],
        &mut leaving[..nodes],
    )
}

// Whether the sink is on the side of the flow, which is marked in a row of n marks.
fn is_sink_reached(table: &LentTable, flow: &[u32], lists: &[u32], marks: &mut [u8]) -> bool
    requires accepted { Accepted (table_in table.now) }
    requires in_work { InWork (table_in table.now) lists.now }
    requires capacities_in_bounds { (length table.now.capacities.now ≤ length flow.now) × (table.now.nodes ≤ length marks.old) }
    ensures { result ≡ marked (side_of (table_in table.now) flow.now) table.now.sink }
{
    reach::mark(table, flow, lists, marks);
    marks[(table.sink - 1) as usize] == 1
}

// Whether the first m numbers of the row are a maximum flow of an accepted table, whose lists stand in the row `lists`.
fn is_maximum(table: &LentTable, flow: &[u32], lists: &[u32]) -> bool
    requires accepted { Accepted (table_in table.now) }
    requires in_work { InWork (table_in table.now) lists.now }
    requires capacities_in_bounds { length table.now.capacities.now ≤ length flow.now }
    ensures { result ≡ is_maximum (table_in table.now) flow.now }
{
    if !is_flow(table, flow) {
        return false;
    }
    let mut marks = [0u8; 512];
    !is_sink_reached(table, flow, lists, &mut marks)
}

// ---- the refusals

// The first refusal of an accepted table's opening, if any: PLACE, CAPACITY, LOWER, NOTMAX. The table's lists stand in the row `lists`.
fn change_verdict(
    table: &LentTable,
    place: u32,
    capacity: u32,
    flow: &[u32],
    lists: &[u32],
) -> Result<(), Refusal>
    requires accepted { Accepted (table_in table.now) }
    requires in_work { InWork (table_in table.now) lists.now }
    requires capacities_in_bounds { length table.now.capacities.now ≤ length flow.now }
    ensures { result ≡ change_verdict (table_in table.now) place capacity flow.now }
{
    let k = place as usize;
    if table.capacities.len() <= k {
        return Err(Name::Place.at(place));
    }
    if 1000000 < capacity {
        return Err(Name::Capacity.at(place));
    }
    if capacity < table.capacities[k] {
        return Err(Name::Lower.at(0));
    }
    if !is_maximum(table, flow, lists) {
        return Err(Name::NotMax.at(0));
    }
    Ok(())
}

// ---- the new answer

// The answer of an opened table.
fn answer_of(stamp: u32, value: u64) -> Answer
    ensures { result ≡ opened_answer stamp value }
{
    Answer {
        refusal: 0,
        place: 0,
        stamp: std::num::wrapping_add_u32(stamp, 1),
        value,
        scale: 0,
        phases: 0,
        saturating: 0,
        nonsaturating: 0,
        relabels: 0,
    }
}

// Goes on from the flow of an accepted table, whose lists stand in the row `lists`. The flow row has just its m places; the minimums are 0.
fn go_on_rows(
    bounded: &LentBounded,
    stamp: u32,
    lists: &[u32],
    flow: &mut [u32],
    side: &mut [u8],
    work: &mut [u32],
) -> Answer
    requires accepted { Accepted (table_in bounded.now.table) }
    requires minimums_value { bounded.now.minimums.now ≡ replicate (length bounded.now.table.capacities.now) 0 }
    requires in_work { InWork (table_in bounded.now.table) lists.now }
    requires flow { Flow (network_of (table_in bounded.now.table)) (at_place flow.old) }
    requires flow_len { (length flow.old ≡ length bounded.now.table.capacities.now) × (bounded.now.table.nodes ≤ length side.old)
        × (work_need bounded.now.table.nodes (length bounded.now.table.capacities.now) ≤ length work.old) }
    ensures { left result flow.new side.new work.new ≡ went_on (table_in bounded.now.table) stamp flow.old side.old work.old }
{
    augment::go_on(bounded, flow, lists);
    let value = start::value(&bounded.table, flow);
    reach::mark(&bounded.table, flow, lists, side);
    rows::clear(
        work,
        work::work_need(bounded.table.nodes, bounded.table.capacities.len()),
    );
    answer_of(stamp, value)
}

// The old capacities with the new one at its place, into a row of as many.
fn open_capacity(capacities: &[u32], place: usize, capacity: u32, row: &mut [u32])
    requires { (length row.old ≡ length capacities.now) × (place < length capacities.now) }
    ensures { row.new ≡ slice_set capacities.now place capacity }
{
    rows::store(row, 0, capacities);
    row[place] = capacity;
}

// Goes on from the flow where the arc at the place has the new capacity: `new` takes the capacities. The flow row has just its m places.
fn open_rows(
    bounded: &LentBounded,
    stamp: u32,
    place: u32,
    capacity: u32,
    new: &mut [u32],
    lists: &[u32],
    flow: &mut [u32],
    side: &mut [u8],
    work: &mut [u32],
) -> Answer
    requires opens { Opens (table_in bounded.now.table) place capacity flow.old (length side.old) (length work.old) }
    requires in_work { InWork (table_in bounded.now.table) lists.now }
    requires len { (length new.old ≡ length bounded.now.table.capacities.now) × (length flow.old ≡ length bounded.now.table.capacities.now)
        × (bounded.now.minimums.now ≡ replicate (length bounded.now.table.capacities.now) 0) }
    ensures { let table = table_in bounded.now.table in
        left result flow.new side.new work.new ≡ went_on (opened table place capacity) stamp flow.old side.old work.old }
{
    open_capacity(bounded.table.capacities, place as usize, capacity, new);
    let opened = LentBounded {
        table: LentTable {
            capacities: new,
            ..bounded.table
        },
        minimums: bounded.minimums,
    };
    go_on_rows(&opened, stamp, lists, flow, side, work)
}

// The same for a flow row that may be longer, in room of its own for the capacities. The lists of these arcs stand in the row `lists`.
fn open_table(
    table: &LentTable,
    stamp: u32,
    place: u32,
    capacity: u32,
    lists: &[u32],
    flow: &mut [u32],
    side: &mut [u8],
    work: &mut [u32],
) -> Answer
    requires opens { Opens (table_in table.now) place capacity flow.old (length side.old) (length work.old) }
    requires in_work { InWork (table_in table.now) lists.now }
    ensures { let table = table_in table.now in
        left result flow.new side.new work.new ≡ went_on (opened table place capacity) stamp flow.old side.old work.old }
{
    let m = table.capacities.len();
    let mut new = [0u32; 4096];
    let minimums = [0u32; 4096];
    let bounded = LentBounded {
        table: *table,
        minimums: &minimums[..m],
    };
    open_rows(
        &bounded,
        stamp,
        place,
        capacity,
        &mut new[..m],
        lists,
        &mut flow[..m],
        side,
        work,
    )
}

// Opens an accepted table with room: fills its lists into a row of the call's own, and goes on, or gives the change's refusal with nothing lent written.
fn open_listed(
    table: &LentTable,
    stamp: u32,
    place: u32,
    capacity: u32,
    lists: &mut [u32],
    flow: &mut [u32],
    side: &mut [u8],
    work: &mut [u32],
) -> Answer
    requires accepted { Accepted (table_in table.now) }
    requires given_room { GivenRoom table.now.nodes table.now.capacities.now flow.old side.old work.old }
    requires tails_in_bounds { work_end table.now.nodes (length table.now.tails.now) ≤ length lists.old }
    ensures { let table = table_in table.now in
        left result flow.new side.new work.new
        ≡ opening_as (change_verdict table place capacity flow.old) (opened table place capacity) stamp flow.old side.old work.old }
{
    arcs::fill_work(table, lists);
    match change_verdict(table, place, capacity, flow, lists) {
        Err(refusal) => refusal.into(),
        Ok(()) => open_table(table, stamp, place, capacity, lists, flow, side, work),
    }
}

// The same in room of its own for the lists.
fn open_accepted(
    table: &LentTable,
    stamp: u32,
    place: u32,
    capacity: u32,
    flow: &mut [u32],
    side: &mut [u8],
    work: &mut [u32],
) -> Answer
    requires accepted { Accepted (table_in table.now) }
    requires given_room { GivenRoom table.now.nodes table.now.capacities.now flow.old side.old work.old }
    ensures { let table = table_in table.now in
        left result flow.new side.new work.new
        ≡ opening_as (change_verdict table place capacity flow.old) (opened table place capacity) stamp flow.old side.old work.old }
{
    let mut lists = [0u32; 4 * 512 + 2 * 4096 + 1];
    open_listed(table, stamp, place, capacity, &mut lists, flow, side, work)
}

// Opens the arc at a place of the old table to a new capacity: goes on from the table's maximum flow along chains of fewest residual arcs,
// the first of them by their places, each filled by its least residual, until the sink can't be reached; or gives the first refusal, with nothing written.
pub fn open(
    bounded: &LentBounded,
    stamp: u32,
    place: u32,
    capacity: u32,
    flow: &mut [u32],
    side: &mut [u8],
    work: &mut [u32],
) -> Answer
    ensures exact { let table = bounded_in bounded.now in
        left result flow.new side.new work.new ≡ opening table stamp place capacity flow.old side.old work.old }
    ensures best { let table = table_in bounded.now.table in
        result.refusal ≡ 0 → Reopens table (opened table place capacity) flow.old (left result flow.new side.new work.new) }
    ensures notmax { result.refusal ≡ 23 → MaximumFlow (table_in bounded.now.table) flow.old → ⊥ }
{
    let m = bounded.table.capacities.len();
    let room = solver::has_room(bounded.table.nodes, m, flow.len(), side.len(), work.len());
    match minimums::plain_check(bounded, room) {
        Err(refusal) => refusal.into(),
        Ok(()) => open_accepted(&bounded.table, stamp, place, capacity, flow, side, work),
    }
}
