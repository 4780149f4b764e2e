// The front door's calls for a program in C or Rust to link, as the host's comparisons do: the crates' own, under names of their own.
#![tactic(auto)]

ghost use Rattle.std.specs.Prelude.{◌≡◌};
ghost use Rattle.table.specs.Table.{table_of};
ghost use Rattle.minimums.specs.BoundedTable.{bounded_of};
ghost use Rattle.solver.specs.Solving.{Meets, left};
ghost use Rattle.planner.specs.Solving.{Solves, SolvesWell, signed_left};
ghost use Rattle.planner.specs.Reading.{reading};
ghost use Rattle.opening.specs.Maximum.{MaximumFlow};
ghost use Rattle.opening.specs.Opening.{opened, opening, Reopens};
ghost use Rattle.solution.specs.Writing.{writing, left as leftWritten};
ghost use Rattle.solution.specs.Reading.{reading as readingBack, left as leftRead};
ghost use Rattle.plan.specs.Checking.{Checks};
ghost use Rattle.chains.specs.Listing.{listing, Shows, shown_by};
ghost use Rattle.asking.specs.Asking.{room_left, asking, Says};
ghost use Rattle.openings.specs.Helping.{HelpsExactly};
ghost use Rattle.openings.specs.Finding.{finding, left_openings};
ghost use Rattle.shorter.specs.Shorter.{shorter_of, left_part, copied};
ghost use Rattle.keeping.specs.SmallRows.{small_rows};
ghost use Rattle.smaller.specs.Reducing.{left_reduced, reducing, Reduces};
ghost use Rattle.days.specs.Days.{days_of};
ghost use Rattle.days.specs.Month.{month_left, month};
ghost use Rattle.days.specs.Promises.{EachDay};

use asking::Room;
use chains::Listed;
use days::{LentDays, Month};
use minimums::LentBounded;
use openings::Openings;
use plan::Checked;
use planner::{Reading, Signed};
use shorter::Part;
use smaller::Reduced;
use solution::{ReadBack, Written};
use solver::Answer;
use table::LentTable;

// `planner::solve`.
#[unsafe(no_mangle)]
pub extern "C" fn jorrabide_solve(
    n: u32,
    s: u32,
    t: u32,
    stamp: u32,
    tails: &[u32],
    heads: &[u32],
    capacities: &[u32],
    minimums: &[u32],
    flow: &mut [u32],
    side: &mut [u8],
    work: &mut [u32],
) -> Signed
    ensures exact { let table = bounded_of n s t tails.now heads.now capacities.now minimums.now in
        Solves table stamp flow.old side.old work.old (signed_left result flow.new side.new work.new) }
    ensures best { result.refusal ≡ 0 → SolvesWell (bounded_of n s t tails.now heads.now capacities.now minimums.now) (signed_left result flow.new side.new work.new) }
{
    let bounded = LentBounded {
        table: LentTable {
            nodes: n,
            source: s,
            sink: t,
            tails,
            heads,
            capacities,
        },
        minimums,
    };
    planner::solve(&bounded, stamp, flow, side, work)
}

// `planner::read_place`.
#[unsafe(no_mangle)]
pub extern "C" fn jorrabide_read_place(
    n: u32,
    s: u32,
    t: u32,
    stamp: u32,
    tails: &[u32],
    heads: &[u32],
    capacities: &[u32],
    minimums: &[u32],
    answer: u32,
    flow: &[u32],
    side: &[u8],
    place: u32,
) -> Reading
    ensures { result ≡ reading (bounded_of n s t tails.now heads.now capacities.now minimums.now) stamp answer flow.now side.now place }
{
    let bounded = LentBounded {
        table: LentTable {
            nodes: n,
            source: s,
            sink: t,
            tails,
            heads,
            capacities,
        },
        minimums,
    };
    planner::read_place(&bounded, stamp, answer, flow, side, place)
}

// `opening::open`.
#[unsafe(no_mangle)]
pub extern "C" fn jorrabide_open(
    n: u32,
    s: u32,
    t: u32,
    stamp: u32,
    tails: &[u32],
    heads: &[u32],
    capacities: &[u32],
    minimums: &[u32],
    place: u32,
    capacity: u32,
    flow: &mut [u32],
    side: &mut [u8],
    work: &mut [u32],
) -> Answer
    ensures exact { let table = bounded_of n s t tails.now heads.now capacities.now minimums.now in
        left result flow.new side.new work.new ≡ opening table stamp place capacity flow.old side.old work.old }
    ensures best { let table = table_of n s t tails.now heads.now capacities.now in
        result.refusal ≡ 0 → Reopens table (opened table place capacity) flow.old (left result flow.new side.new work.new) }
    ensures notmax { result.refusal ≡ 23 → MaximumFlow (table_of n s t tails.now heads.now capacities.now) flow.old → ⊥ }
{
    let bounded = LentBounded {
        table: LentTable {
            nodes: n,
            source: s,
            sink: t,
            tails,
            heads,
            capacities,
        },
        minimums,
    };
    opening::open(&bounded, stamp, place, capacity, flow, side, work)
}

// `solution::write`.
#[unsafe(no_mangle)]
pub extern "C" fn jorrabide_write_solution(
    n: u32,
    s: u32,
    t: u32,
    tails: &[u32],
    heads: &[u32],
    capacities: &[u32],
    minimums: &[u32],
    value: u64,
    flow: &[u32],
    text: &mut [u8],
) -> Written
    ensures { leftWritten result text.new ≡ writing (bounded_of n s t tails.now heads.now capacities.now minimums.now) value flow.now text.old }
{
    let bounded = LentBounded {
        table: LentTable {
            nodes: n,
            source: s,
            sink: t,
            tails,
            heads,
            capacities,
        },
        minimums,
    };
    solution::write(&bounded, value, flow, text)
}

// `solution::read`.
#[unsafe(no_mangle)]
pub extern "C" fn jorrabide_read_solution(
    n: u32,
    s: u32,
    t: u32,
    tails: &[u32],
    heads: &[u32],
    capacities: &[u32],
    minimums: &[u32],
    text: &[u8],
    flow: &mut [u32],
) -> ReadBack
    ensures { leftRead result flow.new ≡ readingBack (bounded_of n s t tails.now heads.now capacities.now minimums.now) text.now flow.old }
{
    let bounded = LentBounded {
        table: LentTable {
            nodes: n,
            source: s,
            sink: t,
            tails,
            heads,
            capacities,
        },
        minimums,
    };
    solution::read(&bounded, text, flow)
}

// `plan::check_plan`.
#[unsafe(no_mangle)]
pub extern "C" fn jorrabide_check_plan(
    n: u32,
    s: u32,
    t: u32,
    tails: &[u32],
    heads: &[u32],
    capacities: &[u32],
    minimums: &[u32],
    text: &[u8],
    side: &[u8],
) -> Checked
    ensures { Checks (bounded_of n s t tails.now heads.now capacities.now minimums.now) text.now side.now result }
{
    let bounded = LentBounded {
        table: LentTable {
            nodes: n,
            source: s,
            sink: t,
            tails,
            heads,
            capacities,
        },
        minimums,
    };
    plan::check_plan(&bounded, text, side)
}

// `chains::list_chains`.
#[unsafe(no_mangle)]
pub extern "C" fn jorrabide_list_chains(
    n: u32,
    s: u32,
    t: u32,
    stamp: u32,
    tails: &[u32],
    heads: &[u32],
    capacities: &[u32],
    minimums: &[u32],
    flow: &mut [u32],
    side: &mut [u8],
    work: &mut [u32],
    list: &mut [u32],
) -> Listed
    ensures exact { let table = bounded_of n s t tails.now heads.now capacities.now minimums.now in
        shown_by result flow.new side.new work.new list.new ≡ listing table stamp flow.old side.old work.old list.old }
    ensures shows { result.answer.refusal ≡ 0 → Shows (table_of n s t tails.now heads.now capacities.now) (shown_by result flow.new side.new work.new list.new) }
{
    let bounded = LentBounded {
        table: LentTable {
            nodes: n,
            source: s,
            sink: t,
            tails,
            heads,
            capacities,
        },
        minimums,
    };
    chains::list_chains(&bounded, stamp, flow, side, work, list)
}

// `room::has_room_for`.
#[unsafe(no_mangle)]
pub extern "C" fn jorrabide_has_room_for(
    n: u32,
    s: u32,
    t: u32,
    stamp: u32,
    tails: &[u32],
    heads: &[u32],
    capacities: &[u32],
    minimums: &[u32],
    q: u64,
    work: &mut [u32],
) -> Room
    ensures exact { room_left result work.new ≡ asking (bounded_of n s t tails.now heads.now capacities.now minimums.now) stamp q work.old }
    ensures says { result.refusal ≡ 0 → Says (table_of n s t tails.now heads.now capacities.now) q result }
{
    let bounded = LentBounded {
        table: LentTable {
            nodes: n,
            source: s,
            sink: t,
            tails,
            heads,
            capacities,
        },
        minimums,
    };
    room::has_room_for(&bounded, stamp, q, work)
}

// `openings::find_openings`.
#[unsafe(no_mangle)]
pub extern "C" fn jorrabide_find_openings(
    n: u32,
    s: u32,
    t: u32,
    stamp: u32,
    tails: &[u32],
    heads: &[u32],
    capacities: &[u32],
    minimums: &[u32],
    flow: &mut [u32],
    side: &mut [u8],
    work: &mut [u32],
    sources: &mut [u32],
    sinks: &mut [u32],
    places: &mut [u32],
) -> Openings
    ensures exact { let table = bounded_of n s t tails.now heads.now capacities.now minimums.now in
        left_openings result flow.new side.new work.new sources.new sinks.new places.new
        ≡ finding table stamp flow.old side.old work.old sources.old sinks.old places.old }
    ensures best { let table = table_of n s t tails.now heads.now capacities.now in
        result.answer.refusal ≡ 0 → Meets table (left result.answer flow.new side.new work.new) × HelpsExactly table }
{
    let bounded = LentBounded {
        table: LentTable {
            nodes: n,
            source: s,
            sink: t,
            tails,
            heads,
            capacities,
        },
        minimums,
    };
    openings::find_openings(&bounded, stamp, flow, side, work, sources, sinks, places)
}

// `shorter::copy_shorter`.
#[unsafe(no_mangle)]
pub extern "C" fn jorrabide_shorter<'a>(
    first: &'a [u32],
    second: &'a [u32],
    in_first: u32,
    in_second: u32,
    part: &mut [u32],
) -> Part
    ensures { left_part result part.new ≡ copied (shorter_of first.now second.now in_first in_second) part.old }
{
    shorter::copy_shorter(first, second, in_first, in_second, part)
}

// `smaller::reduce`.
#[unsafe(no_mangle)]
pub extern "C" fn jorrabide_reduce(
    n: u32,
    s: u32,
    t: u32,
    stamp: u32,
    tails: &[u32],
    heads: &[u32],
    capacities: &[u32],
    minimums: &[u32],
    flow: &mut [u32],
    side: &mut [u8],
    work: &mut [u32],
    small_tails: &mut [u32],
    small_heads: &mut [u32],
    small_capacities: &mut [u32],
    nodes_from: &mut [u32],
    arcs_from: &mut [u32],
) -> Reduced
    ensures exact { let small_old = small_rows small_tails.old small_heads.old small_capacities.old nodes_from.old arcs_from.old in
        let small_new = small_rows small_tails.new small_heads.new small_capacities.new nodes_from.new arcs_from.new in
        let table = bounded_of n s t tails.now heads.now capacities.now minimums.now in
        left_reduced result flow.new side.new work.new small_new
        ≡ reducing table stamp flow.old side.old work.old small_old }
    ensures means { let small_old = small_rows small_tails.old small_heads.old small_capacities.old nodes_from.old arcs_from.old in
        let small_new = small_rows small_tails.new small_heads.new small_capacities.new nodes_from.new arcs_from.new in
        let table = table_of n s t tails.now heads.now capacities.now in
        result.answer.refusal ≡ 0 → Reduces table (left_reduced result flow.new side.new work.new small_new) }
{
    let bounded = LentBounded {
        table: LentTable {
            nodes: n,
            source: s,
            sink: t,
            tails,
            heads,
            capacities,
        },
        minimums,
    };
    smaller::reduce(
        &bounded,
        stamp,
        flow,
        side,
        work,
        small_tails,
        small_heads,
        small_capacities,
        nodes_from,
        arcs_from,
    )
}

// `month::solve_month`.
#[unsafe(no_mangle)]
pub extern "C" fn jorrabide_solve_month(
    starts: &[u32],
    nodes: &[u32],
    sources: &[u32],
    sinks: &[u32],
    stamps: &[u32],
    tails: &[u32],
    heads: &[u32],
    capacities: &[u32],
    minimums: &[u32],
    flow: &mut [u32],
    side: &mut [u8],
    work: &mut [u32],
    answers: &mut [u64],
) -> Month
    ensures exact { let days = days_of starts.now nodes.now sources.now sinks.now stamps.now tails.now heads.now capacities.now minimums.now in
        month_left result flow.new side.new work.new answers.new ≡ month days flow.old side.old work.old answers.old }
    ensures each { let days = days_of starts.now nodes.now sources.now sinks.now stamps.now tails.now heads.now capacities.now minimums.now in
        result.refusal ≡ 0
        → EachDay days flow.old side.old work.old answers.old flow.new side.new work.new answers.new result }
{
    let days = LentDays {
        starts,
        nodes,
        sources,
        sinks,
        stamps,
        tails,
        heads,
        capacities,
        minimums,
    };
    month::solve_month(&days, flow, side, work, answers)
}
