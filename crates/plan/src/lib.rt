// Document 02, CR 8: checks a rota maker's plan, whether its solution text with its side marks shows a full week.
#![tactic(auto)]

ghost use Rattle.std.specs.Prelude.{ℕ, ◌+◌, ◌≤◌, ◌≡◌, true, false, not, ◌&&◌, eqb, length};
ghost use Rattle.rows.specs.Row.{Node, at_place};
ghost use Rattle.rows.specs.Sum.{only};
ghost use Rattle.network.specs.Network.{leaving};
ghost use Rattle.table.specs.Table.{network_of, table_in};
ghost use Rattle.table.specs.Accepted.{Accepted, ArcRows};
ghost use Rattle.table.specs.Refusals.{number_of};
ghost use Rattle.minimums.specs.BoundedTable.{bounded_in};
ghost use Rattle.reach.specs.Side.{marked};
ghost use Rattle.scan.specs.Parts.{lines};
ghost use Rattle.amounts.specs.Lines.{amount_in, amounts_of, judged};
ghost use Rattle.sharing.specs.Full.{Full};
ghost use Rattle.sharing.specs.Test.{out_sum, into_sum, SumsFit, CutFits};
ghost use Rattle.pairs.specs.Places.{Places, Takes, Zeros};
ghost use Rattle.plan.specs.Checking.{checked_with, lines_verdict, Answers, Checks};
ghost use Rattle.plan.specs.Rows.{Adds, TookAll, IsBelow, AtMost, Rows, HoldsAt, IsEven, IsKept, Decides};

use amounts::Kind;
use minimums::LentBounded;
use table::{LentTable, Name, Refusal};

// What checking returns: a refusal's number and place, or 0 with 1 where the plan is full, else 0.
#[repr(C)]
#[derive(Clone, Copy, Debug, PartialEq, Eq)]
pub struct Checked {
    pub refusal: u32,
    pub place: u32,
    pub full: u32,
}

// ---- the sums

// Adds x at node i of a row by node, if that is a node.
fn add_at(n: u32, i: u32, x: u32, row: &mut [u64])
    requires { (n ≤ 512) × (length row.old ≡ 512) × AtMost 4503599627370496 row.old }
    ensures { Adds n row.old row.new (λ j. only (eqb i j) x) }
{
    if pairs::is_node(n, i) {
        let at = (i - 1) as usize;
        row[at] += u64::from(x);
    }
}

// Takes the amount of a line, if it has one, into the three rows; `fits` says whether all before it fitted.
fn take_kind(
    n: u32,
    heads: &[u32],
    first: &[u32],
    next: &[u32],
    kind: Kind,
    fits: bool,
    room: &mut [u32],
    out: &mut [u64],
    into: &mut [u64],
) -> bool
    requires by_index { (place : ℕ → ℕ → ℕ) × Places n heads.now first.now next.now place }
    requires rows { Rows n (length heads.now) room.old out.old into.old × AtMost 4503599627370496 out.old × AtMost 4503599627370496 into.old }
    ensures outs { Adds n out.old out.new (out_sum (amount_in kind)) }
    ensures intos { Adds n into.old into.new (into_sum (amount_in kind)) }
    ensures pairs { (place : ℕ → ℕ → ℕ) → Places n heads.now first.now next.now place
        → (fits ≡ true → Takes place room.old (amount_in kind) result room.new) × (fits ≡ false → result ≡ false) }
{
    let Kind::FlowLine(x) = kind else {
        return fits;
    };
    add_at(n, x.tail, x.flow, out);
    add_at(n, x.head, x.flow, into);
    fits && pairs::take_pair(n, heads, first, next, x, room)
}

// Takes the amounts of all lines into the three rows, of which those by node hold zeros, and says whether they fitted.
fn take_amounts(
    n: u32,
    heads: &[u32],
    first: &[u32],
    next: &[u32],
    text: &[u8],
    room: &mut [u32],
    out: &mut [u64],
    into: &mut [u64],
) -> bool
    requires by_index { (place : ℕ → ℕ → ℕ) × Places n heads.now first.now next.now place }
    requires rows { Rows n (length heads.now) room.old out.old into.old × (length text.now ≤ 1048576) × Zeros out.old × Zeros into.old }
    ensures outs { HoldsAt n out.new (out_sum (amounts_of (lines text.now))) }
    ensures intos { HoldsAt n into.new (into_sum (amounts_of (lines text.now))) }
    ensures pairs { (place : ℕ → ℕ → ℕ) → Places n heads.now first.now next.now place
        → TookAll place room.old (amounts_of (lines text.now)) result }
{
    let mut fits = true;
    let mut at: usize = 0;
    while at < text.len() {
        let end = scan::find(text, b'\n', at);
        let kind = amounts::line_kind(&text[at..end]);
        fits = take_kind(n, heads, first, next, kind, fits, room, out, into);
        at = end + 1;
    }
    fits
}

// Takes the amounts of all lines into two rows by node, which hold zeros, and says whether no sum is above the capacities of its pair.
fn take_text(
    n: u32,
    tails: &[u32],
    heads: &[u32],
    capacities: &[u32],
    text: &[u8],
    out: &mut [u64],
    into: &mut [u64],
) -> bool
    requires arc_rows { ArcRows n tails.now heads.now capacities.now × (length text.now ≤ 1048576) }
    requires out_len { (length out.old ≡ 512) × (length into.old ≡ 512) × Zeros out.old × Zeros into.old }
    ensures outs { HoldsAt n out.new (out_sum (amounts_of (lines text.now))) }
    ensures intos { HoldsAt n into.new (into_sum (amounts_of (lines text.now))) }
    ensures pairs { IsBelow tails.now heads.now capacities.now (amounts_of (lines text.now)) result }
{
    let mut first = [0u32; 4096];
    let mut next = [0u32; 4096];
    pairs::index_arcs(n, tails, heads, &mut first, &mut next);
    let mut room = [0u32; 4096];
    pairs::fill_room(n, tails, heads, capacities, &first, &next, &mut room);
    take_amounts(n, heads, &first, &next, text, &mut room, out, into)
}

// Is node i source or sink, or does as much go into it as out of it?
fn is_even(i: u32, s: u32, t: u32, into: u64, out: u64) -> bool
    ensures { IsEven i s t into out result }
{
    i == s || i == t || into == out
}

// Does what goes into each inner node go out of it?
fn is_kept(n: u32, s: u32, t: u32, out: &[u64], into: &[u64]) -> bool
    requires { (n ≤ 512) × (length out.now ≡ 512) × (length into.now ≡ 512) }
    ensures { IsKept n s t out.now into.now result }
{
    for i in 1..=n {
        let at = i as usize - 1;
        if !is_even(i, s, t, into[at], out[at]) {
            return false;
        }
    }
    true
}

// ---- the cut

// The capacity of an arc that goes from a marked to an unmarked node, and 0 of another.
fn crossing(side: &[u8], tail: u32, head: u32, capacity: u32) -> u64
    requires { Node (length side.now) tail × Node (length side.now) head }
    ensures { result ≡ only (marked side.now tail && not (marked side.now head)) capacity }
{
    if reach::is_marked(side, tail) && !reach::is_marked(side, head) {
        u64::from(capacity)
    } else {
        0
    }
}

// The capacity of the marked cut.
fn cut_capacity(table: &LentTable, side: &[u8]) -> u64
    requires { ArcRows table.now.nodes table.now.tails.now table.now.heads.now table.now.capacities.now × (table.now.nodes ≤ length side.now) }
    ensures { result ≡ leaving (network_of (table_in table.now)) (marked side.now) (at_place table.now.capacities.now) }
{
    let mut total: u64 = 0;
    for place in 0..table.capacities.len() {
        total += crossing(
            side,
            table.tails[place],
            table.heads[place],
            table.capacities[place],
        );
    }
    total
}

// Is the number out of a node the number into it and the value?
fn is_net(out: u64, into: u64, value: u32) -> bool
    ensures { Decides result (out ≡ into + value) }
{
    into <= out && out - into == u64::from(value)
}

// Do the sums of the text fit the table, and their net out of the source the value?
fn sums_fit(table: &LentTable, text: &[u8], value: u32) -> bool
    requires { Accepted (table_in table.now) × (length text.now ≤ 1048576) }
    ensures { Decides result (SumsFit (table_in table.now) value (amounts_of (lines text.now))) }
{
    let mut out = [0u64; 512];
    let mut into = [0u64; 512];
    if !take_text(
        table.nodes,
        table.tails,
        table.heads,
        table.capacities,
        text,
        &mut out,
        &mut into,
    ) {
        return false;
    }
    let at = (table.source - 1) as usize;
    is_kept(table.nodes, table.source, table.sink, &out, &into) && is_net(out[at], into[at], value)
}

// Is the source marked and the sink not, and has the marked cut this capacity?
fn cut_fits(table: &LentTable, value: u32, side: &[u8]) -> bool
    requires { Accepted (table_in table.now) × (table.now.nodes ≤ length side.now) }
    ensures { Decides result (CutFits (table_in table.now) value side.now) }
{
    reach::is_marked(side, table.source)
        && !reach::is_marked(side, table.sink)
        && cut_capacity(table, side) == u64::from(value)
}

// Is a plan full?
fn is_full(table: &LentTable, text: &[u8], value: u32, side: &[u8]) -> bool
    requires { Accepted (table_in table.now) × (table.now.nodes ≤ length side.now) × (length text.now ≤ 1048576) }
    ensures { Decides result (Full (table_in table.now) value (amounts_of (lines text.now)) side.now) }
{
    sums_fit(table, text, value) && cut_fits(table, value, side)
}

// ---- the call

// The answer of a refusal: its number and place, other fields 0.
impl From<Refusal> for Checked {
    ghost from_gives = { λ r answer. answer ≡ checked_with (number_of r.name) r.place 0 };

    fn from(refusal: Refusal) -> Checked {
        Checked {
            refusal: refusal.name.number(),
            place: refusal.place,
            full: 0,
        }
    }
}

// Checks the text of a plan against a table that has passed its checks.
fn check_text(table: &LentTable, text: &[u8], side: &[u8]) -> Checked
    requires { Accepted (table_in table.now) × (table.now.nodes ≤ length side.now) × (length text.now ≤ 1048576) }
    ensures { let table = table_in table.now in
        let said = judged text.now in
        Answers (lines_verdict said) said table text.now side.now result }
{
    match amounts::judge_lines(text) {
        Err(fault) => Name::Solution.at(fault.line).into(),
        Ok(value) => Checked {
            refusal: 0,
            place: 0,
            full: u32::from(is_full(table, text, value, side)),
        },
    }
}

// Checks a plan: whether its text and its side marks show that the week of a table is full; or the first refusal.
pub fn check_plan(bounded: &LentBounded, text: &[u8], side: &[u8]) -> Checked
    ensures { Checks (bounded_in bounded.now) text.now side.now result }
{
    match intake::text_verdict(
        bounded,
        text.len(),
        (bounded.table.nodes as usize) <= side.len(),
    ) {
        Err(refusal) => refusal.into(),
        Ok(()) => check_text(&bounded.table, text, side),
    }
}
