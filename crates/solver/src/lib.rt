// Solving: the room that it asks for; and of an accepted table with room the nodes' lists, the run, the value and the side.
#![tactic(auto)]

ghost use Rattle.std.specs.Prelude.{◌≡◌, ◌++◌, ◌^◌, ◌≤◌, ◌<◌, length, take, drop};
ghost use Rattle.rows.specs.Row.{cleared};
ghost use Rattle.table.specs.Table.{arcs, table_in};
ghost use Rattle.table.specs.Accepted.{Accepted};
ghost use Rattle.arcs.specs.Work.{InWork, work_need};
ghost use Rattle.solver.specs.Solving.{has_room, refusal, answer_with, solved, GivenRoom, left};
ghost use Rattle.solver.specs.Filled.{Filled};

use run::Outcome;
use table::{LentTable, Refusal};

// What solving returns: a refusal's number and place, or 0 with the results.
#[repr(C)]
#[derive(Clone, Copy, Debug, PartialEq, Eq)]
pub struct Answer {
    pub refusal: u32,
    pub place: u32,
    pub stamp: u32,
    pub value: u64,
    pub scale: u64,
    pub phases: u32,
    pub saturating: u64,
    pub nonsaturating: u64,
    pub relabels: u64,
}

// The answer of a refusal: its number and place, other fields 0.
impl From<Refusal> for Answer {
    ghost from_gives = { λ r answer. answer ≡ refusal r.name r.place };

    fn from(refusal: Refusal) -> Answer {
        Answer {
            refusal: refusal.name.number(),
            place: refusal.place,
            stamp: 0,
            value: 0,
            scale: 0,
            phases: 0,
            saturating: 0,
            nonsaturating: 0,
            relabels: 0,
        }
    }
}

// The answer of a solved table.
fn answer_of(stamp: u32, value: u64, outcome: Outcome) -> Answer
    ensures { result ≡ answer_with stamp value outcome.scale outcome.phases outcome.counts }
{
    let counts = outcome.counts;
    Answer {
        refusal: 0,
        place: 0,
        stamp,
        value,
        scale: outcome.scale,
        phases: outcome.phases,
        saturating: counts.saturating,
        nonsaturating: counts.nonsaturating,
        relabels: counts.relabels,
    }
}

// Whether rows of these lengths have room for the flows, marks and work of n nodes and m arcs.
pub fn has_room(n: u32, m: usize, flow: usize, side: usize, work: usize) -> bool
    requires { m < 2 ^ 61 }
    ensures { result ≡ has_room n m flow side work }
{
    if flow < m {
        return false;
    }
    if side < (n as usize) {
        return false;
    }
    work::work_need(n, m) <= work
}

// Solves an accepted table whose lists stand in the work row, and leaves them there. The flow row has just its m places.
pub fn solve_filled(
    table: &LentTable,
    stamp: u32,
    flow: &mut [u32],
    side: &mut [u8],
    work: &mut [u32],
) -> Answer
    requires fact { Accepted (table_in table.now) × InWork (table_in table.now) work.old }
    requires flow_len { (length flow.old ≡ arcs (table_in table.now)) × (table.now.nodes ≤ length side.old) }
    ensures { Filled (table_in table.now) stamp side.old work.old result flow.new side.new work.new }
{
    let outcome = work::run(table, flow, work);
    let value = start::value(table, flow);
    reach::mark(table, flow, work, side);
    answer_of(stamp, value, outcome)
}

// Solves an accepted table with room: fills the nodes' lists into the work row, solves, and clears the row. The flow row has just its m places.
fn solve_rows(
    table: &LentTable,
    stamp: u32,
    flow: &mut [u32],
    side: &mut [u8],
    work: &mut [u32],
) -> Answer
    requires accepted { Accepted (table_in table.now) }
    requires flow_len { (length flow.old ≡ arcs (table_in table.now)) × (table.now.nodes ≤ length side.old)
        × (work_need table.now.nodes (arcs (table_in table.now)) ≤ length work.old) }
    ensures { left result flow.new side.new work.new ≡ solved (table_in table.now) stamp flow.old side.old work.old }
{
    arcs::fill_work(table, work);
    let answer = solve_filled(table, stamp, flow, side, work);
    rows::clear(work, work::work_need(table.nodes, table.capacities.len()));
    answer
}

// Solves an accepted table with room.
pub fn solve_table(
    table: &LentTable,
    stamp: u32,
    flow: &mut [u32],
    side: &mut [u8],
    work: &mut [u32],
) -> Answer
    requires accepted { Accepted (table_in table.now) }
    requires given_room { GivenRoom table.now.nodes table.now.capacities.now flow.old side.old work.old }
    ensures { left result flow.new side.new work.new ≡ solved (table_in table.now) stamp flow.old side.old work.old }
{
    let m = table.capacities.len();
    solve_rows(table, stamp, &mut flow[..m], side, work)
}

// Hands over what was solved in rows of the call's own: m flows and n marks are copied, and the lent work row is left as solving leaves it.
pub fn hand_over(
    n: u32,
    m: usize,
    flows: &[u32],
    marks: &[u8],
    flow: &mut [u32],
    side: &mut [u8],
    work: &mut [u32],
)
    requires m_in_bounds { (m ≤ length flows.now) × (n ≤ length marks.now) }
    requires m_bound { (m < 2 ^ 61) × (m ≤ length flow.old) × (n ≤ length side.old) × (work_need n m ≤ length work.old) }
    ensures flow_value { flow.new ≡ take m flows.now ++ drop m flow.old }
    ensures side_value { side.new ≡ take n marks.now ++ drop n side.old }
    ensures work_value { work.new ≡ cleared (work_need n m) work.old }
{
    let nodes = n as usize;
    rows::store(flow, 0, &flows[..m]);
    rows::store(side, 0, &marks[..nodes]);
    rows::clear(work, work::work_need(n, m));
}
