// The lines of a rota maker's solution text (document 02, CR 8): what each is, whether they stand in order, and the amounts that they say.
#![tactic(auto)]

ghost use Rattle.std.specs.Prelude.{◌≡◌, ◌≤◌, length};
ghost use Rattle.amounts.specs.Lines.{value_of, flow_of, kind_of, step_of, judged};

use scan::Fault;

// The tail, the head and the flow of an `f` line.
#[derive(Clone, Copy, Debug, PartialEq, Eq)]
pub struct Amount {
    pub tail: u32,
    pub head: u32,
    pub flow: u32,
}

// What a line is.
#[derive(Clone, Copy, Debug, PartialEq, Eq)]
pub enum Kind {
    Comment,
    ValueLine(u32),
    FlowLine(Amount),
    Other,
}

// `s VALUE`, of a line whose first field is `s`.
#[tactic(auto, unfolding(crate::specs::Lines::value_of, crate::specs::Lines::value_from))]
fn value_line(line: &[u8]) -> Kind
    ensures { result ≡ value_of line.now }
{
    if scan::field_count(line) != 2 {
        return Kind::Other;
    }
    let Some(value) = scan::number_at(line, 1) else {
        return Kind::Other;
    };
    Kind::ValueLine(value)
}

// `f TAIL HEAD FLOW`, of a line whose first field is `f`.
#[tactic(auto, unfolding(crate::specs::Lines::flow_of, crate::specs::Lines::flow_from))]
fn flow_line(line: &[u8]) -> Kind
    ensures { result ≡ flow_of line.now }
{
    if scan::field_count(line) != 4 {
        return Kind::Other;
    }
    let Some(tail) = scan::number_at(line, 1) else {
        return Kind::Other;
    };
    let Some(head) = scan::number_at(line, 2) else {
        return Kind::Other;
    };
    let Some(flow) = scan::number_at(line, 3) else {
        return Kind::Other;
    };
    Kind::FlowLine(Amount { tail, head, flow })
}

// What a line is.
#[tactic(auto, unfolding(crate::specs::Lines::kind_of))]
pub fn line_kind(line: &[u8]) -> Kind
    ensures { result ≡ kind_of line.now }
{
    if scan::begins_with(line, b"c") {
        Kind::Comment
    } else if scan::has_letter(line, 0, b's') {
        value_line(line)
    } else if scan::has_letter(line, 0, b'f') {
        flow_line(line)
    } else {
        Kind::Other
    }
}

// What the `s` line has said once this line is taken, where the line stands in order; `said` is what it said before.
#[tactic(auto, unfolding(crate::specs::Lines::step_of))]
fn take_line(said: Option<u32>, kind: Kind, line: u32) -> Result<Option<u32>, Fault>
    ensures { result ≡ step_of said kind line }
{
    match (kind, said) {
        (Kind::Comment, said) => Ok(said),
        (Kind::ValueLine(value), None) => Ok(Some(value)),
        (Kind::FlowLine(_), Some(value)) => Ok(Some(value)),
        _ => Err(Fault { line }),
    }
}

// The text is judged in line order: the value of the `s` line, or the first line at fault.
pub fn judge_lines(text: &[u8]) -> Result<u32, Fault>
    requires { length text.now ≤ 1048576 }
    ensures { result ≡ judged text.now }
{
    let mut said = None;
    let mut line: u32 = 1;
    let mut start: usize = 0;
    while start < text.len() {
        let end = scan::find(text, b'\n', start);
        said = take_line(said, line_kind(&text[start..end]), line)?;
        line += 1;
        start = end + 1;
    }
    said.ok_or(Fault { line })
}
