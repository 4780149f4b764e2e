// The entry over arc records under its C name: for the host's comparisons.
#![tactic(auto)]

ghost use Rattle.minimums.specs.BoundedTable.{record_table};
ghost use Rattle.planner.specs.Solving.{signed_left};
ghost use Rattle.records.specs.Solve.{Promised};

use minimums::Arc;
use planner::Signed;

// `records::solve_records`.
#[unsafe(no_mangle)]
pub extern "C" fn solve_records(
    n: u32,
    s: u32,
    t: u32,
    stamp: u32,
    arcs: &[Arc],
    flow: &mut [u32],
    side: &mut [u8],
    work: &mut [u32],
) -> Signed
    ensures { Promised (record_table n s t arcs.now) stamp flow.old side.old work.old (signed_left result flow.new side.new work.new) }
{
    records::solve_records(n, s, t, stamp, arcs, flow, side, work)
}
