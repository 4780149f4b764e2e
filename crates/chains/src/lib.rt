// Document 02, CR 3: show who sits where. Solves a table and lists its chains from source to sink, and its rings.
#![tactic(auto)]

ghost use Rattle.std.specs.Prelude.{◌≡◌, ◌≤◌, length};
ghost use Rattle.rows.specs.Row.{Node};
ghost use Rattle.solver.specs.Solving.{GivenRoom};
ghost use Rattle.table.specs.Table.{table_in};
ghost use Rattle.table.specs.Accepted.{ArcEnds, Accepted};
ghost use Rattle.minimums.specs.BoundedTable.{bounded_in};
ghost use Rattle.chains.specs.Listing.{unlisted, listing_checked, listing, Shows, handed_with, shown_by};

use minimums::LentBounded;
use solver::Answer;
use table::{LentTable, Name, Refusal};

// What listing returns: what solving returns, and how many numbers of the list were filled.
#[repr(C)]
#[derive(Clone, Copy, Debug, PartialEq, Eq)]
pub struct Listed {
    pub answer: Answer,
    pub filled: u32,
}

// The answer of a refusal: its number and place, other fields 0.
impl From<Refusal> for Listed {
    ghost from_gives = { λ r answer. answer ≡ unlisted r.name r.place };

    fn from(refusal: Refusal) -> Listed {
        Listed {
            answer: refusal.into(),
            filled: 0,
        }
    }
}

// Hands over what was solved in rows of the call's own, with its list, where the list's row has room; else ROOM, and nothing is written.
fn list_solved(
    table: &LentTable,
    answer: Answer,
    flows: &[u32],
    marks: &[u8],
    flow: &mut [u32],
    side: &mut [u8],
    work: &mut [u32],
    list: &mut [u32],
) -> Listed
    requires arc_ends { ArcEnds table.now.nodes table.now.tails.now table.now.heads.now × Node table.now.nodes table.now.source
        × (length table.now.tails.now ≤ length flows.now) × (table.now.nodes ≤ length marks.now) }
    requires given_room { GivenRoom table.now.nodes table.now.tails.now flow.old side.old work.old }
    ensures { shown_by result flow.new side.new work.new list.new
        ≡ handed_with answer table.now.nodes table.now.source table.now.sink table.now.tails.now table.now.heads.now flows.now marks.now flow.old side.old work.old list.old }
{
    // The list is counted before anything is written: no piece fits a row of one number.
    let mut none = [0u32; 1];
    let needed = walks::list_flow(
        table.nodes,
        table.source,
        table.sink,
        table.tails,
        table.heads,
        flows,
        &mut none,
    );
    if list.len() < needed {
        return Name::Room.at(0).into();
    }
    let m = table.tails.len();
    solver::hand_over(table.nodes, m, flows, marks, flow, side, work);
    let filled = walks::list_flow(
        table.nodes,
        table.source,
        table.sink,
        table.tails,
        table.heads,
        flows,
        list,
    );
    Listed {
        answer,
        filled: filled as u32,
    }
}

// Solves an accepted table with room in rows of the call's own, and hands it over with its list.
fn list_table(
    table: &LentTable,
    stamp: u32,
    flow: &mut [u32],
    side: &mut [u8],
    work: &mut [u32],
    list: &mut [u32],
) -> Listed
    requires accepted { Accepted (table_in table.now) }
    requires given_room { GivenRoom table.now.nodes table.now.capacities.now flow.old side.old work.old }
    ensures { let table = table_in table.now in
        shown_by result flow.new side.new work.new list.new ≡ listing_checked table stamp flow.old side.old work.old list.old }
{
    let mut flows = [0u32; 4096];
    let mut marks = [0u8; 512];
    let mut own = [0u32; 4 * 512 + 2 * 4096 + 1];
    let answer = solver::solve_table(table, stamp, &mut flows, &mut marks, &mut own);
    list_solved(table, answer, &flows, &marks, flow, side, work, list)
}

// Solves a table and lists its chains from source to sink, and its rings; or gives the first refusal, with nothing written.
pub fn list_chains(
    bounded: &LentBounded,
    stamp: u32,
    flow: &mut [u32],
    side: &mut [u8],
    work: &mut [u32],
    list: &mut [u32],
) -> Listed
    ensures exact { let table = bounded_in bounded.now in
        shown_by result flow.new side.new work.new list.new ≡ listing table stamp flow.old side.old work.old list.old }
    ensures shows { result.answer.refusal ≡ 0 → Shows (table_in bounded.now.table) (shown_by result flow.new side.new work.new list.new) }
{
    let m = bounded.table.capacities.len();
    let room = solver::has_room(bounded.table.nodes, m, flow.len(), side.len(), work.len());
    match minimums::plain_check(bounded, room) {
        Err(refusal) => refusal.into(),
        Ok(()) => list_table(&bounded.table, stamp, flow, side, work, list),
    }
}
