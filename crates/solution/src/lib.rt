// Document 02, CR 1: writes a solution as DIMACS solution text, and reads such a text back against its table.
#![tactic(auto)]

ghost use Rattle.std.specs.Prelude.{◌≡◌, ◌≤◌, length, drop};
ghost use Rattle.table.specs.Table.{table_in};
ghost use Rattle.table.specs.Refusals.{number_of};
ghost use Rattle.minimums.specs.BoundedTable.{bounded_in};
ghost use Rattle.pen.specs.Printed.{printed};
ghost use Rattle.pen.specs.Wrote.{Wrote};
ghost use Rattle.wording.specs.Text.{line_of, flow_front, flow_lines};
ghost use Rattle.wording.specs.Lines.{number_behind, flows_said, words_of, text_words};
ghost use Rattle.solution.specs.Writing.{written_with, has_text_room, first_above, numbers_verdict, writing_verdict, writing};
ghost use Rattle.solution.specs.Writing.{left as leftWritten};
ghost use Rattle.solution.specs.Reading.{back_with, left_by, reading};
ghost use Rattle.solution.specs.Reading.{left as leftRead};
ghost use Rattle.solution.specs.Rows.{ArcsWith, Finds};

use minimums::LentBounded;
use scan::Fault;
use table::{LentTable, Name, Refusal};

// What writing returns: a refusal's number and place, or 0 with how many bytes were filled.
#[repr(C)]
#[derive(Clone, Copy, Debug, PartialEq, Eq)]
pub struct Written {
    pub refusal: u32,
    pub place: u32,
    pub filled: usize,
}

// What reading back returns: a refusal's number and place, or 0 with the value.
#[repr(C)]
#[derive(Clone, Copy, Debug, PartialEq, Eq)]
pub struct ReadBack {
    pub refusal: u32,
    pub place: u32,
    pub value: u64,
}

// The answer of a refusal: its number and place, other fields 0.
impl From<Refusal> for Written {
    ghost from_gives = { λ r answer. answer ≡ written_with (number_of r.name) r.place 0 };

    fn from(refusal: Refusal) -> Written {
        Written {
            refusal: refusal.name.number(),
            place: refusal.place,
            filled: 0,
        }
    }
}

// ---- writing

// How many digits a number has.
fn digit_count(n: u64) -> usize
    ensures { (result ≡ length (printed n)) × (result ≤ 20) }
{
    let mut count: usize = 1;
    let mut left = n;
    while 10 <= left {
        left /= 10;
        count += 1;
    }
    count
}

// How many bytes the line of an arc's flow has.
fn line_length(tail: u32, head: u32, flow: u32) -> usize
    ensures { (result ≡ length (line_of (flow_front tail head) flow)) × (result ≤ 65) }
{
    let ends = digit_count(u64::from(tail)) + digit_count(u64::from(head));
    ends + digit_count(u64::from(flow)) + 5
}

// How many bytes the lines of the arcs have.
fn lines_length(tails: &[u32], heads: &[u32], flow: &[u32]) -> usize
    requires { ArcsWith tails.now heads.now flow.now }
    ensures { (result ≡ length (flow_lines tails.now heads.now flow.now)) × (result ≤ 266240) }
{
    let mut length: usize = 0;
    for place in 0..tails.len() {
        length += line_length(tails[place], heads[place], flow[place]);
    }
    length
}

// What the line of an arc's flow begins with: `f TAIL HEAD `.
fn put_front(out: &mut [u8], at: usize, tail: u32, head: u32) -> usize
    requires { at ≤ length out.old }
    ensures { Wrote out.old at (flow_front tail head) out.new result }
{
    let ends = pen::put_bytes(out, at, b"f ");
    let between = pen::put_number(out, ends, u64::from(tail));
    let second = pen::put(out, between, b' ');
    let behind = pen::put_number(out, second, u64::from(head));
    pen::put(out, behind, b' ')
}

// The line of an arc's flow.
fn put_flow(out: &mut [u8], at: usize, tail: u32, head: u32, flow: u32) -> usize
    requires { at ≤ length out.old }
    ensures { Wrote out.old at (line_of (flow_front tail head) flow) out.new result }
{
    let number = put_front(out, at, tail, head);
    let end = pen::put_number(out, number, u64::from(flow));
    pen::put(out, end, b'\n')
}

// The lines of the arcs.
fn put_flows(out: &mut [u8], at: usize, tails: &[u32], heads: &[u32], flow: &[u32]) -> usize
    requires { (at ≤ length out.old) × ArcsWith tails.now heads.now flow.now }
    ensures { Wrote out.old at (flow_lines tails.now heads.now flow.now) out.new result }
{
    let mut end = at;
    for place in 0..tails.len() {
        end = put_flow(out, end, tails[place], heads[place], flow[place]);
    }
    end
}

// SOLUTION at the first flow above its capacity.
fn first_above(capacities: &[u32], flow: &[u32]) -> Result<(), Refusal>
    requires { (length capacities.now ≤ 4096) × (length capacities.now ≤ length flow.now) }
    ensures { result ≡ first_above 0 capacities.now flow.now }
{
    for place in 0..capacities.len() {
        if capacities[place] < flow[place] {
            return Err(Name::Solution.at(place as u32));
        }
    }
    Ok(())
}

// SOLUTION at the first flow above its capacity, or at m for a value that no flow has.
fn numbers_verdict(capacities: &[u32], value: u64, flow: &[u32]) -> Result<(), Refusal>
    requires { (length capacities.now ≤ 4096) × (length capacities.now ≤ length flow.now) }
    ensures { result ≡ numbers_verdict capacities.now value flow.now }
{
    first_above(capacities, flow)?;
    if 4096000000 < value {
        return Err(Name::Solution.at(capacities.len() as u32));
    }
    Ok(())
}

// Whether the flow row has a flow for each arc, and a text row of this length has room for their text.
fn has_text_room(table: &LentTable, value: u64, flow: &[u32], text: usize) -> bool
    requires { ArcsWith table.now.tails.now table.now.heads.now table.now.capacities.now × (length table.now.capacities.now ≡ length table.now.tails.now) }
    ensures { result ≡ has_text_room (table_in table.now) value flow.now text }
{
    table.capacities.len() <= flow.len()
        && digit_count(value) + 3 + lines_length(table.tails, table.heads, flow) <= text
}

// The first refusal of writing into a text row of this length, if any.
fn writing_verdict(
    bounded: &LentBounded,
    value: u64,
    flow: &[u32],
    text: usize,
) -> Result<(), Refusal>
    ensures { result ≡ writing_verdict (bounded_in bounded.now) value flow.now text }
{
    minimums::plain_check(bounded, true)?;
    if !has_text_room(&bounded.table, value, flow, text) {
        return Err(Name::Room.at(0));
    }
    numbers_verdict(bounded.table.capacities, value, flow)
}

// Writes the solution text of a value and a flow row to the front of a text row and returns how many bytes it has; or gives a refusal and writes nothing.
pub fn write(bounded: &LentBounded, value: u64, flow: &[u32], text: &mut [u8]) -> Written
    ensures { leftWritten result text.new ≡ writing (bounded_in bounded.now) value flow.now text.old }
{
    match writing_verdict(bounded, value, flow, text.len()) {
        Err(refusal) => refusal.into(),
        Ok(()) => {
            let lines = pen::put_line(text, 0, b"s ", value);
            let end = put_flows(text, lines, bounded.table.tails, bounded.table.heads, flow);
            Written {
                refusal: 0,
                place: 0,
                filled: end,
            }
        }
    }
}

// ---- reading back

// The number that a line says behind these bytes, if it begins with them and its number is not above `most`.
fn number_behind(line: &[u8], front: &[u8], most: u32) -> Option<u32>
    ensures { result ≡ number_behind front.now most line.now }
{
    if !scan::begins_with(line, front) {
        return None;
    }
    let number = scan::read_number(&line[front.len()..])?;
    if number <= most { Some(number) } else { None }
}

// The flow that the line of an arc says, if it is one of that arc within the capacity.
fn flow_said(line: &[u8], tail: u32, head: u32, capacity: u32) -> Option<u32>
    ensures { result ≡ number_behind (flow_front tail head) capacity line.now }
{
    let mut front = [0u8; 48];
    let end = put_front(&mut front, 0, tail, head);
    number_behind(line, &front[..end], capacity)
}

// Reads the lines of the arcs, from a place of the text on, into the first m places of a row.
fn read_flows(
    text: &[u8],
    from: usize,
    tails: &[u32],
    heads: &[u32],
    capacities: &[u32],
    row: &mut [u32],
) -> Result<(), Fault>
    requires { (from ≤ length text.now) × ArcsWith tails.now heads.now row.old × (length capacities.now ≡ length tails.now) }
    ensures { let said = flows_said tails.now heads.now capacities.now 2 (drop from text.now) in
        Finds said result (length tails.now) row.new }
{
    let mut at = from;
    for place in 0..tails.len() {
        let line = place as u32 + 2;
        let end = scan::find(text, b'\n', at);
        if text.len() <= end {
            return Err(Fault { line });
        }
        row[place] = flow_said(
            &text[at..end],
            tails[place],
            heads[place],
            capacities[place],
        )
        .ok_or(Fault { line })?;
        at = end + 1;
    }
    if at < text.len() {
        return Err(Fault {
            line: tails.len() as u32 + 2,
        });
    }
    Ok(())
}

// The answer of a refusal: its number and place, other fields 0.
impl From<Refusal> for ReadBack {
    ghost from_gives = { λ r answer. answer ≡ back_with (number_of r.name) r.place 0 };

    fn from(refusal: Refusal) -> ReadBack {
        ReadBack {
            refusal: refusal.name.number(),
            place: refusal.place,
            value: 0,
        }
    }
}

// Reads the lines of the arcs into the flow row, where the value's line said this value.
fn read_row(
    text: &[u8],
    from: usize,
    tails: &[u32],
    heads: &[u32],
    capacities: &[u32],
    value: u32,
    flow: &mut [u32],
) -> ReadBack
    requires { (from ≤ length text.now) × ArcsWith tails.now heads.now flow.old × (length capacities.now ≡ length tails.now) }
    ensures { leftRead result flow.new
        ≡ left_by (words_of value (flows_said tails.now heads.now capacities.now 2 (drop from text.now))) flow.old }
{
    let mut row = [0u32; 4096];
    match read_flows(text, from, tails, heads, capacities, &mut row) {
        Err(fault) => Name::Solution.at(fault.line).into(),
        Ok(()) => {
            let m = tails.len();
            rows::store(flow, 0, &row[..m]);
            ReadBack {
                refusal: 0,
                place: 0,
                value: u64::from(value),
            }
        }
    }
}

// Reads a text against the arcs of a table that has passed its checks.
fn read_text(
    tails: &[u32],
    heads: &[u32],
    capacities: &[u32],
    text: &[u8],
    flow: &mut [u32],
) -> ReadBack
    requires { ArcsWith tails.now heads.now flow.old × (length capacities.now ≡ length tails.now) }
    ensures { leftRead result flow.new ≡ left_by (text_words tails.now heads.now capacities.now text.now) flow.old }
{
    let end = scan::find(text, b'\n', 0);
    if text.len() <= end {
        return Name::Solution.at(1).into();
    }
    let said = number_behind(&text[..end], b"s ", 4096000000);
    let Some(value) = said else {
        return Name::Solution.at(1).into();
    };
    read_row(text, end + 1, tails, heads, capacities, value, flow)
}

// Reads a solution text back against its table: gives the value and writes the flows into the first m places of the flow row; or gives a refusal and writes nothing.
pub fn read(bounded: &LentBounded, text: &[u8], flow: &mut [u32]) -> ReadBack
    ensures { leftRead result flow.new ≡ reading (bounded_in bounded.now) text.now flow.old }
{
    match intake::text_verdict(
        bounded,
        text.len(),
        bounded.table.capacities.len() <= flow.len(),
    ) {
        Err(refusal) => refusal.into(),
        Ok(()) => read_text(
            bounded.table.tails,
            bounded.table.heads,
            bounded.table.capacities,
            text,
            flow,
        ),
    }
}
