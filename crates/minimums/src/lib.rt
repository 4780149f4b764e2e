// The checks of a table whose arcs have a least flow (document 02, CR 11): of its four rows, and of a call that takes no minimum above 0.
#![tactic(auto)]

ghost use Rattle.std.specs.Prelude.{◌≡◌, Bool, ◌≤◌, length};
ghost use Rattle.table.specs.Table.{Table};
ghost use Rattle.table.specs.Checks.{check_of};
ghost use Rattle.minimums.specs.BoundedTable.{bounded_in};
ghost use Rattle.minimums.specs.Checks.{bounded_fault, with_minimums, bounded_check, all_zero, plain_check, end_of, FirstAbove};

use std::marker::Model;
use table::{LentTable, Name, Refusal};

// A table with a row of minimums, the least flow of each arc, as it is lent.
#[derive(Clone, Copy)]
pub struct LentBounded<'a> {
    pub table: LentTable<'a>,
    pub minimums: &'a [u32],
}

// A record of one arc: tail, head, capacity and least flow together.
#[repr(C)]
#[derive(Clone, Copy, Debug, PartialEq, Eq)]
pub struct Arc {
    pub tail: u32,
    pub head: u32,
    pub capacity: u32,
    pub minimum: u32,
}

// Are all numbers of a row 0?
#[tactic(auto, unfolding(crate::specs::Checks::all_zero))]
pub fn is_all_zero(row: &[u32]) -> bool
    ensures { result ≡ all_zero row.now }
{
    row.iter().all(|x| *x == 0)
}

// The fault of one arc: NODE before LOOP before CAPACITY before MINIMUM, with its place.
pub fn arc_fault(n: u32, place: u32, arc: Arc) -> Result<(), Refusal>
    ensures { result ≡ bounded_fault n place arc.tail arc.head arc.capacity arc.minimum }
{
    table::arc_fault(n, place, arc.tail, arc.head, arc.capacity)?;
    if arc.capacity < arc.minimum {
        return Err(Name::Minimum.at(place));
    }
    Ok(())
}

// Where the arcs end that stand before what was refused: all of m where nothing was.
fn end_of(found: Result<(), Refusal>, m: usize) -> usize
    ensures { result ≡ end_of found m }
{
    match found {
        Err(refusal) => refusal.place as usize,
        Ok(()) => m,
    }
}

// The first minimum above its capacity at a place before `end`, or none.
fn first_above(capacities: &[u32], minimums: &[u32], end: usize) -> Result<(), Refusal>
    requires { (end ≤ length capacities.now) × (end ≤ length minimums.now) × (end ≤ 4096) }
    ensures { FirstAbove 0 end capacities.now minimums.now result }
{
    for place in 0..end {
        if capacities[place] < minimums[place] {
            return Err(Name::Minimum.at(place as u32));
        }
    }
    Ok(())
}

// What a table of four rows is refused for, from what its three are: ROWS looks at all of them, and an arc's MINIMUM comes before what a later arc has.
fn with_minimums(
    n: u32,
    found: Result<(), Refusal>,
    capacities: &[u32],
    minimums: &[u32],
) -> Result<(), Refusal>
    requires { (t : Table) × (room : Bool) × (t.nodes ≡ n) × (t.capacities ≡ capacities.now) × (found ≡ check_of t room) }
    ensures { (t : Table) (room : Bool) → t.nodes ≡ n → t.capacities ≡ capacities.now → found ≡ check_of t room
        → result ≡ bounded_check (with_minimums t minimums.now) room }
{
    if capacities.len() != minimums.len() {
        if n < 2 {
            return Err(Name::Nodes.at(0));
        }
        if 512 < n {
            return Err(Name::Nodes.at(0));
        }
        return Err(Name::Rows.at(0));
    }
    first_above(capacities, minimums, end_of(found, capacities.len()))?;
    found
}

// Checks a table of four rows, in order; `room` is whether the rows that its caller lends are long enough.
pub fn check(bounded: &LentBounded, room: bool) -> Result<(), Refusal>
    ensures { result ≡ bounded_check (bounded_in bounded.now) room }
{
    let table = &bounded.table;
    let found = table::check(table, room);
    with_minimums(table.nodes, found, table.capacities, bounded.minimums)
}

// The same of a call that takes no minimum above 0: BOUNDED right after the table's own checks.
pub fn plain_check(bounded: &LentBounded, room: bool) -> Result<(), Refusal>
    ensures { result ≡ plain_check (bounded_in bounded.now) room }
{
    check(bounded, room)?;
    if !is_all_zero(bounded.minimums) {
        return Err(Name::Bounded.at(0));
    }
    Ok(())
}
