// Is there room for at least this many (document 02, CR 7)? The question's code.
#![tactic(auto)]

ghost use Rattle.std.specs.Prelude.{◌≡◌, cond, ◌^◌, ◌≤◌, ◌<◌, leb, length};
ghost use Rattle.table.specs.Table.{table_in};
ghost use Rattle.table.specs.Accepted.{Accepted};
ghost use Rattle.minimums.specs.BoundedTable.{bounded_in};
ghost use Rattle.asking.specs.Asking.{room_left, room_need, has_work, answer_with, asking, Says};
ghost use Rattle.room.specs.Steps.{Halted};

use asking::Room;
use minimums::LentBounded;
use table::LentTable;
use work::Stop;

// 1 for yes, 0 for no.
fn mark(yes: bool) -> u32
    ensures { result ≡ cond yes 1 0 }
{
    if yes {
        return 1;
    }
    0
}

// The answer of a run that stopped.
fn answer_of(stamp: u32, q: u64, stop: Stop) -> Room
    ensures { result ≡ answer_with stamp (leb q stop.sink) stop.sink stop.scale stop.phases stop.counts }
{
    let counts = stop.counts;
    Room {
        refusal: 0,
        place: 0,
        stamp,
        yes: mark(q <= stop.sink),
        value: stop.sink,
        scale: stop.scale,
        phases: stop.phases,
        saturating: counts.saturating,
        nonsaturating: counts.nonsaturating,
        relabels: counts.relabels,
    }
}

// How many numbers the work row needs here.
fn room_need(n: u32, m: usize) -> usize
    requires { m < 2 ^ 61 }
    ensures { result ≡ room_need n m }
{
    4 * (n as usize) + 3 * m + 1
}

// Whether a work row of this length has them.
fn has_work(n: u32, m: usize, work: usize) -> bool
    requires { m < 2 ^ 61 }
    ensures { result ≡ has_work n m work }
{
    room_need(n, m) <= work
}

// The run of an accepted table that stops at q: fills the nodes' lists into the work row, runs with the flow in the first m places of its row, and clears the work row.
fn halt_rows(table: &LentTable, q: u64, flow: &mut [u32], work: &mut [u32]) -> Stop
    requires accepted { Accepted (table_in table.now) }
    requires capacities_in_bounds { (length table.now.capacities.now ≤ length flow.old) × (room_need table.now.nodes (length table.now.capacities.now) ≤ length work.old) }
    ensures { Halted (table_in table.now) q work.old result work.new }
{
    let m = table.capacities.len();
    arcs::fill_work(table, work);
    let stop = work::run_until(table, q, &mut flow[..m], work);
    rows::clear(work, room_need(table.nodes, m));
    stop
}

// The same with a flow row of its own.
fn halt(table: &LentTable, q: u64, work: &mut [u32]) -> Stop
    requires { Accepted (table_in table.now) × (room_need table.now.nodes (length table.now.capacities.now) ≤ length work.old) }
    ensures { Halted (table_in table.now) q work.old result work.new }
{
    let mut flow = [0u32; 4096];
    halt_rows(table, q, &mut flow, work)
}

// Whether a table has room for at least q: the run stops as soon as the net flow into the sink reaches q; or the first refusal, with nothing written.
pub fn has_room_for(bounded: &LentBounded, stamp: u32, q: u64, work: &mut [u32]) -> Room
    ensures exact { room_left result work.new ≡ asking (bounded_in bounded.now) stamp q work.old }
    ensures says { result.refusal ≡ 0 → Says (table_in bounded.now.table) q result }
{
    let roomy = has_work(
        bounded.table.nodes,
        bounded.table.capacities.len(),
        work.len(),
    );
    match minimums::plain_check(bounded, roomy) {
        Err(refusal) => refusal.into(),
        Ok(()) => {
            let stop = halt(&bounded.table, q, work);
            answer_of(stamp, q, stop)
        }
    }
}
