// Solving and reading by place on numbers and byte rows, for the booking server (document 02, CR 4).
#![tactic(auto)]

ghost use Rattle.std.specs.Prelude.{◌≡◌, ◌++◌, ◌+◌, ◌*◌, ◌/◌, ◌^◌, ◌≤◌, ◌<◌, length, take, drop};
ghost use Rattle.little.specs.Little.{bytes_of_all};
ghost use Rattle.table.specs.Table.{table_of, table_in};
ghost use Rattle.table.specs.Checks.{no_refusal, sizes_of};
ghost use Rattle.table.specs.Refusals.{number_of};
ghost use Rattle.minimums.specs.BoundedTable.{bounded_of};
ghost use Rattle.planner.specs.Reading.{reading};
ghost use Rattle.wire.specs.Rows.{arc_table, without_minimums, flow_row, returned_of, has_byte_room};
ghost use Rattle.wire.specs.Solve.{seven, serving_verdict, serving, served};
ghost use Rattle.wire.specs.Place.{told, three, told_as, telling};

use minimums::LentBounded;
use planner::Reading;
use solver::Answer;
use table::{LentTable, Name, Refusal};

// ---- what both calls share

// The number returned of a refusal's number and place.
fn returned(refusal: u32, place: u32) -> u64
    ensures { result ≡ returned_of refusal place }
{
    u64::from(refusal) * 4294967296 + u64::from(place)
}

// The number returned of a refusal.
fn refused(refusal: Refusal) -> u64
    ensures { result ≡ returned_of (number_of refusal.name) refusal.place }
{
    returned(refusal.name.number(), refusal.place)
}

// Whether byte rows of these lengths have room for m flows, n marks and a result of so many bytes.
fn has_byte_room(need: usize, n: u32, m: usize, flow: usize, side: usize, res: usize) -> bool
    requires { m < 2 ^ 61 }
    ensures { result ≡ has_byte_room need n m flow side res }
{
    if flow < 4 * m {
        return false;
    }
    if side < (n as usize) {
        return false;
    }
    need <= res
}

// ---- solving

// Writes m flows.
fn write_flows(flow: &mut [u8], flows: &[u32], m: usize)
    requires { (m ≤ 4096) × (m ≤ length flows.now) × (4 * m ≤ length flow.old) }
    ensures { flow.new ≡ bytes_of_all 4 (take m flows.now) ++ drop (4 * m) flow.old }
{
    codec::put_all(flow, &flows[..m]);
}

// Writes n marks.
fn write_marks(side: &mut [u8], marks: &[u8], n: u32)
    requires { (n ≤ length marks.now) × (n ≤ length side.old) }
    ensures { side.new ≡ take n marks.now ++ drop n side.old }
{
    let nodes = n as usize;
    rows::store(side, 0, &marks[..nodes]);
}

// Writes the seven numbers of a result.
fn write_result(res: &mut [u8], a: Answer)
    requires { 56 ≤ length res.old }
    ensures { res.new ≡ bytes_of_all 8 (seven a) ++ drop 56 res.old }
{
    let numbers = [
        u64::from(a.stamp),
        a.value,
        a.scale,
        u64::from(a.phases),
        a.saturating,
        a.nonsaturating,
        a.relabels,
    ];
    codec::put_all(res, &numbers);
}

// Solves an accepted table with room, in rows of its own, and writes the answer as bytes.
fn serve_accepted(
    table: &LentTable,
    stamp: u32,
    flow: &mut [u8],
    side: &mut [u8],
    res: &mut [u8],
) -> u64
    requires { serving_verdict (table_in table.now) flow.old side.old res.old ≡ no_refusal }
    ensures { served result flow.new side.new res.new ≡ serving (table_in table.now) stamp flow.old side.old res.old }
{
    let mut flows = [0u32; 4096];
    let mut marks = [0u8; 512];
    let mut work = [0u32; 4 * 512 + 2 * 4096 + 1];
    let answer = solver::solve_table(table, stamp, &mut flows, &mut marks, &mut work);
    write_flows(flow, &flows, table.capacities.len());
    write_marks(side, &marks, table.nodes);
    write_result(res, answer);
    0
}

// Solves a table of three rows, or gives the first refusal.
fn serve_rows(
    table: &LentTable,
    stamp: u32,
    flow: &mut [u8],
    side: &mut [u8],
    res: &mut [u8],
) -> u64
    ensures { served result flow.new side.new res.new ≡ serving (table_in table.now) stamp flow.old side.old res.old }
{
    let room = has_byte_room(
        56,
        table.nodes,
        table.capacities.len(),
        flow.len(),
        side.len(),
        res.len(),
    );
    match table::check(table, room) {
        Err(refusal) => refused(refusal),
        Ok(()) => serve_accepted(table, stamp, flow, side, res),
    }
}

// Solves the table of arc bytes, whose sizes are right.
fn serve_arcs(
    n: u32,
    s: u32,
    t: u32,
    stamp: u32,
    arcs: &[u8],
    flow: &mut [u8],
    side: &mut [u8],
    res: &mut [u8],
) -> u64
    requires { sizes_of n ((length arcs.now + 11) / 12) (length arcs.now / 12) (length arcs.now / 12) s t ≡ no_refusal }
    ensures { served result flow.new side.new res.new ≡ serving (arc_table n s t arcs.now) stamp flow.old side.old res.old }
{
    let m = arcs.len() / 12;
    let mut tails = [0u32; 4096];
    let mut heads = [0u32; 4096];
    let mut capacities = [0u32; 4096];
    codec::get_column(arcs, 12, 0, &mut tails, m);
    codec::get_column(arcs, 12, 4, &mut heads, m);
    codec::get_column(arcs, 12, 8, &mut capacities, m);
    let table = LentTable {
        nodes: n,
        source: s,
        sink: t,
        tails: &tails[..m],
        heads: &heads[..m],
        capacities: &capacities[..m],
    };
    serve_rows(&table, stamp, flow, side, res)
}

// Solves the table of arc bytes; or gives the first refusal, with nothing written.
pub fn solve_bytes(
    n: u32,
    s: u32,
    t: u32,
    stamp: u32,
    arcs: &[u8],
    flow: &mut [u8],
    side: &mut [u8],
    res: &mut [u8],
) -> u64
    ensures { served result flow.new side.new res.new ≡ serving (arc_table n s t arcs.now) stamp flow.old side.old res.old }
{
    let m = arcs.len() / 12;
    match table::sizes(n, (arcs.len() + 11) / 12, m, m, s, t) {
        Err(refusal) => refused(refusal),
        Ok(()) => serve_arcs(n, s, t, stamp, arcs, flow, side, res),
    }
}

// ---- reading by place

// Writes the three numbers of a reading.
fn write_reading(res: &mut [u8], r: Reading)
    requires { 24 ≤ length res.old }
    ensures { res.new ≡ bytes_of_all 8 (three r) ++ drop 24 res.old }
{
    let numbers = [
        u64::from(r.flow),
        u64::from(r.capacity),
        u64::from(r.crossing),
    ];
    codec::put_all(res, &numbers);
}

// What was read, as bytes.
fn tell(r: Reading, res: &mut [u8]) -> u64
    requires { 24 ≤ length res.old }
    ensures { told result res.new ≡ told_as r res.old }
{
    if r.refusal != 0 {
        return returned(r.refusal, r.place);
    }
    write_reading(res, r);
    0
}

// Reads an answer of flow bytes at a place of the table of arc bytes, whose sizes are right.
fn read_arcs(
    n: u32,
    s: u32,
    t: u32,
    stamp: u32,
    arcs: &[u8],
    answer: u32,
    flow: &[u8],
    side: &[u8],
    place: u32,
) -> Reading
    requires t_value { sizes_of n ((length arcs.now + 11) / 12) (length arcs.now / 12) (length arcs.now / 12) s t ≡ no_refusal }
    requires arcs_in_bounds { 4 * (length arcs.now / 12) ≤ length flow.now }
    ensures { result
        ≡ reading (without_minimums (arc_table n s t arcs.now)) stamp answer (flow_row (length arcs.now / 12) flow.now) side.now place }
{
    let m = arcs.len() / 12;
    let mut tails = [0u32; 4096];
    let mut heads = [0u32; 4096];
    let mut capacities = [0u32; 4096];
    let minimums = [0u32; 4096];
    let mut flows = [0u32; 4096];
    codec::get_column(arcs, 12, 0, &mut tails, m);
    codec::get_column(arcs, 12, 4, &mut heads, m);
    codec::get_column(arcs, 12, 8, &mut capacities, m);
    codec::get_column(flow, 4, 0, &mut flows, m);
    let bounded = LentBounded {
        table: LentTable {
            nodes: n,
            source: s,
            sink: t,
            tails: &tails[..m],
            heads: &heads[..m],
            capacities: &capacities[..m],
        },
        minimums: &minimums[..m],
    };
    planner::read_place(&bounded, stamp, answer, &flows[..m], side, place)
}

// Reads an answer at a place of the table of arc bytes, whose sizes are right, and writes it as bytes.
fn tell_arcs(
    n: u32,
    s: u32,
    t: u32,
    stamp: u32,
    arcs: &[u8],
    answer: u32,
    flow: &[u8],
    side: &[u8],
    place: u32,
    res: &mut [u8],
) -> u64
    requires { sizes_of n ((length arcs.now + 11) / 12) (length arcs.now / 12) (length arcs.now / 12) s t ≡ no_refusal }
    ensures { told result res.new ≡ telling (arc_table n s t arcs.now) stamp answer flow.now side.now place res.old }
{
    let m = arcs.len() / 12;
    if !has_byte_room(24, n, m, flow.len(), side.len(), res.len()) {
        return refused(Name::Room.at(0));
    }
    let found = read_arcs(n, s, t, stamp, arcs, answer, flow, side, place);
    tell(found, res)
}

// Reads an answer at a place of the table of arc bytes; or gives the first refusal, with nothing written.
pub fn read_bytes(
    n: u32,
    s: u32,
    t: u32,
    stamp: u32,
    arcs: &[u8],
    answer: u32,
    flow: &[u8],
    side: &[u8],
    place: u32,
    res: &mut [u8],
) -> u64
    ensures { told result res.new ≡ telling (arc_table n s t arcs.now) stamp answer flow.now side.now place res.old }
{
    let m = arcs.len() / 12;
    match table::sizes(n, (arcs.len() + 11) / 12, m, m, s, t) {
        Err(refusal) => refused(refusal),
        Ok(()) => tell_arcs(n, s, t, stamp, arcs, answer, flow, side, place, res),
    }
}
