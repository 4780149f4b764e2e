// A month of day tables: what is lent to it, and what it returns.
#![tactic(auto)]

ghost use Rattle.std.specs.Prelude.{◌≡◌};
ghost use Rattle.days.specs.Month.{month_refusal};

use table::Refusal;

// A month as it is lent: a row each of starts, n, s, t and stamps by day, and the arcs of all days joined in four rows.
#[derive(Clone, Copy)]
pub struct LentDays<'a> {
    pub starts: &'a [u32],
    pub nodes: &'a [u32],
    pub sources: &'a [u32],
    pub sinks: &'a [u32],
    pub stamps: &'a [u32],
    pub tails: &'a [u32],
    pub heads: &'a [u32],
    pub capacities: &'a [u32],
    pub minimums: &'a [u32],
}

// What the call returns: a refusal's number and place, or 0 with the tables solved, the total value and the first solved day of least value.
#[repr(C)]
#[derive(Clone, Copy, Debug, PartialEq, Eq)]
pub struct Month {
    pub refusal: u32,
    pub place: u32,
    pub solved: u32,
    pub total: u64,
    pub day: u32,
}

// The result of a refusal of the whole call: its number and place, other fields 0.
impl From<Refusal> for Month {
    ghost from_gives = { λ r answer. answer ≡ month_refusal r.name r.place };

    fn from(refusal: Refusal) -> Month {
        Month {
            refusal: refusal.name.number(),
            place: refusal.place,
            solved: 0,
            total: 0,
            day: 0,
        }
    }
}
