// A month in one call (document 02, CR 10): up to 31 day tables whose arcs are joined in shared rows, each solved as if given by itself, with the sums.
#![tactic(auto)]

ghost use Rattle.std.specs.Prelude.{◌≡◌, ℕ, ◌+◌, ◌≤◌, ◌<◌, length, get_or};
ghost use Rattle.rows.specs.Row.{part};
ghost use Rattle.parts.specs.Placed.{placed};
ghost use Rattle.minimums.specs.BoundedTable.{bounded_of, bounded_in};
ghost use Rattle.solver.specs.Solving.{left};
ghost use Rattle.tally.specs.Sums.{no_tally};
ghost use Rattle.verdicts.specs.Plain.{plain_solving};
ghost use Rattle.days.specs.Days.{nine, held, next_day, first_days, part_left, day_left, days_in};
ghost use Rattle.days.specs.Month.{month_verdict, starts_fall, rows_differ, has_month_room, month_left, month_sums, month};
ghost use Rattle.days.specs.Promises.{EachDay};
ghost use Rattle.days.specs.Ready.{Ready, Countable};

use days::{LentDays, Month};
use minimums::LentBounded;
use solver::Answer;
use table::{LentTable, Name, Refusal};
use tally::Tally;

// ---- one day

// Solves a table that takes no minimum above 0, or gives the first refusal.
fn solve_plain(
    bounded: &LentBounded,
    stamp: u32,
    flow: &mut [u32],
    side: &mut [u8],
    work: &mut [u32],
) -> Answer
    ensures { let table = bounded_in bounded.now in
        left result flow.new side.new work.new ≡ plain_solving table stamp flow.old side.old work.old }
{
    let m = bounded.table.capacities.len();
    let room = solver::has_room(bounded.table.nodes, m, flow.len(), side.len(), work.len());
    match minimums::plain_check(bounded, room) {
        Err(refusal) => refusal.into(),
        Ok(()) => solver::solve_table(&bounded.table, stamp, flow, side, work),
    }
}

// Where the day at a place starts, or the rows' end past the last day.
fn start_of(starts: &[u32], j: usize, end: usize) -> usize
    ensures { result ≡ get_or starts.now j end }
{
    if j < starts.len() {
        return starts[j] as usize;
    }
    end
}

// Solves the table of the arcs from a up to e, with that part of the flow row and 512 marks from `at` lent.
fn solve_part(
    bounded: &LentBounded,
    stamp: u32,
    a: usize,
    e: usize,
    at: usize,
    flow: &mut [u32],
    side: &mut [u8],
    work: &mut [u32],
) -> Answer
    requires a_le_e { (a ≤ e) × (e ≤ length bounded.now.table.tails.now) × (e ≤ length bounded.now.table.heads.now) × (e ≤ length bounded.now.table.capacities.now)
        × (e ≤ length bounded.now.minimums.now) }
    requires e_in_bounds { (e ≤ length flow.old) × (at + 512 ≤ length side.old) }
    ensures { let table = bounded_of bounded.now.table.nodes bounded.now.table.source bounded.now.table.sink (part a e bounded.now.table.tails.now) (part a e bounded.now.table.heads.now)
        (part a e bounded.now.table.capacities.now) (part a e bounded.now.minimums.now) in
        let solved = plain_solving table stamp (part a e flow.old) (part at (at + 512) side.old) work.old in
        left result flow.new side.new work.new ≡ part_left a e at flow.old side.old solved }
{
    let marks_end = at + 512;
    let part = LentBounded {
        table: LentTable {
            tails: &bounded.table.tails[a..e],
            heads: &bounded.table.heads[a..e],
            capacities: &bounded.table.capacities[a..e],
            ..bounded.table
        },
        minimums: &bounded.minimums[a..e],
    };
    solve_plain(
        &part,
        stamp,
        &mut flow[a..e],
        &mut side[at..marks_end],
        work,
    )
}

// Writes an answer's nine numbers into a row of nine.
fn write_nine(row: &mut [u64], a: Answer)
    requires { length row.old ≡ 9 }
    ensures { row.new ≡ nine a }
{
    row[0] = u64::from(a.refusal);
    row[1] = u64::from(a.place);
    row[2] = u64::from(a.stamp);
    row[3] = a.value;
    row[4] = a.scale;
    row[5] = u64::from(a.phases);
    row[6] = a.saturating;
    row[7] = a.nonsaturating;
    row[8] = a.relabels;
}

// Writes an answer's nine numbers from place `at` of the answer row.
fn write_answer(answers: &mut [u64], at: usize, a: Answer)
    requires { at + 9 ≤ length answers.old }
    ensures { answers.new ≡ placed at (at + 9) (nine a) answers.old }
{
    let end = at + 9;
    write_nine(&mut answers[at..end], a);
}

// Solves day j, days counted from 0, with its parts of the flow and side rows lent.
fn answer_day(
    j: usize,
    days: &LentDays,
    flow: &mut [u32],
    side: &mut [u8],
    work: &mut [u32],
) -> Answer
    requires { let days = days_in days.now in
        (j < length days.starts) × ((k : ℕ) × Ready days (length flow.old) (length side.old) k) }
    ensures { let days = days_in days.now in
        left result flow.new side.new work.new ≡ day_left days j flow.old side.old work.old }
{
    let a = start_of(days.starts, j, days.capacities.len());
    let e = start_of(days.starts, j + 1, days.capacities.len());
    let bounded = LentBounded {
        table: LentTable {
            nodes: days.nodes[j],
            source: days.sources[j],
            sink: days.sinks[j],
            tails: days.tails,
            heads: days.heads,
            capacities: days.capacities,
        },
        minimums: days.minimums,
    };
    solve_part(&bounded, days.stamps[j], a, e, 512 * j, flow, side, work)
}

// One day more: its flows and marks go to their places, and its nine numbers to the answer row.
fn solve_day(
    j: usize,
    tally: Tally,
    days: &LentDays,
    flow: &mut [u32],
    side: &mut [u8],
    work: &mut [u32],
    answers: &mut [u64],
) -> Tally
    requires fact { let days = days_in days.now in
        Ready days (length flow.old) (length side.old) (length answers.old) }
    requires j_in_bounds { (j < length days.now.starts.now) × Countable j tally }
    ensures { let days = days_in days.now in
        held result flow.new side.new work.new answers.new
        ≡ next_day days j (held tally flow.old side.old work.old answers.old) }
{
    let answer = answer_day(j, days, flow, side, work);
    write_answer(answers, 9 * j, answer);
    tally::count_day(tally, (j + 1) as u32, answer)
}

// Solves all days, one after the other.
fn solve_days(
    days: &LentDays,
    flow: &mut [u32],
    side: &mut [u8],
    work: &mut [u32],
    answers: &mut [u64],
) -> Tally
    requires { let days = days_in days.now in
        Ready days (length flow.old) (length side.old) (length answers.old) }
    ensures { let days = days_in days.now in
        held result flow.new side.new work.new answers.new
        ≡ first_days days (length days.starts) (held no_tally flow.old side.old work.old answers.old) }
{
    let mut tally = Tally {
        solved: 0,
        total: 0,
        day: 0,
        least: 0,
    };
    for j in 0..days.starts.len() {
        tally = solve_day(j, tally, days, flow, side, work, answers);
    }
    tally
}

// ---- refusals of the whole call

// Do the starts fall, or pass the rows' end?
fn do_fall(starts: &[u32], end: usize) -> bool
    ensures { result ≡ starts_fall starts.now end (length starts.now) }
{
    (0..starts.len()).any(|k| start_of(starts, k + 1, end) < start_of(starts, k, end))
}

// Have rows of these lengths room for m flows, and 512 marks and nine numbers for each of k tables?
fn has_month_room(k: usize, m: usize, flow: usize, side: usize, answers: usize) -> bool
    requires { k ≤ 31 }
    ensures { result ≡ has_month_room k m flow side answers }
{
    if flow < m {
        return false;
    }
    if side < 512 * k {
        return false;
    }
    9 * k <= answers
}

// Do the lengths of either set of rows differ?
fn do_rows_differ(days: &LentDays) -> bool
    ensures { result ≡ rows_differ (length days.now.starts.now) (length days.now.nodes.now) (length days.now.sources.now) (length days.now.sinks.now) (length days.now.stamps.now)
        (length days.now.tails.now) (length days.now.heads.now) (length days.now.capacities.now) (length days.now.minimums.now) }
{
    let m = days.capacities.len();
    if table::do_differ(days.tails.len(), days.heads.len(), m) {
        return true;
    }
    if m != days.minimums.len() {
        return true;
    }
    let k = days.starts.len();
    if table::do_differ(k, days.nodes.len(), days.sources.len()) {
        return true;
    }
    table::do_differ(k, days.sinks.len(), days.stamps.len())
}

// The first refusal of the whole call, if any, with rows of these lengths lent.
fn month_verdict(days: &LentDays, flow: usize, side: usize, answers: usize) -> Result<(), Refusal>
    ensures { result ≡ month_verdict (days_in days.now) flow side answers }
{
    if 31 < days.starts.len() {
        return Err(Name::Many.at(0));
    }
    if do_rows_differ(days) {
        return Err(Name::Rows.at(0));
    }
    if do_fall(days.starts, days.capacities.len()) {
        return Err(Name::Starts.at(0));
    }
    if !has_month_room(
        days.starts.len(),
        days.capacities.len(),
        flow,
        side,
        answers,
    ) {
        return Err(Name::Room.at(0));
    }
    Ok(())
}

// The result of the sums.
fn month_sums(tally: Tally) -> Month
    ensures { result ≡ month_sums tally }
{
    Month {
        refusal: 0,
        place: 0,
        solved: tally.solved,
        total: tally.total,
        day: tally.day,
    }
}

// Solves up to 31 day tables whose arcs are joined in shared rows, each as if given by itself; or the first refusal of the whole call, with nothing written.
pub fn solve_month(
    days: &LentDays,
    flow: &mut [u32],
    side: &mut [u8],
    work: &mut [u32],
    answers: &mut [u64],
) -> Month
    ensures exact { let days = days_in days.now in
        month_left result flow.new side.new work.new answers.new ≡ month days flow.old side.old work.old answers.old }
    ensures each { let days = days_in days.now in
        result.refusal ≡ 0
        → EachDay days flow.old side.old work.old answers.old flow.new side.new work.new answers.new result }
{
    match month_verdict(days, flow.len(), side.len(), answers.len()) {
        Err(refusal) => refusal.into(),
        Ok(()) => month_sums(solve_days(days, flow, side, work, answers)),
    }
}
