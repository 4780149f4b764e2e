// The sums of a month's days: the tables solved, the total value and the first solved day of least value.
#![tactic(auto)]

ghost use Rattle.std.specs.Prelude.{◌≡◌, ◌+◌, ◌^◌, ◌<◌};
ghost use Rattle.tally.specs.Sums.{is_lower, counted, tallied};

use solver::Answer;

// The sums so far: the tables solved, the total value, the first solved day of least value, and that value.
#[derive(Clone, Copy, Debug, PartialEq, Eq)]
pub struct Tally {
    pub solved: u32,
    pub total: u64,
    pub day: u32,
    pub least: u64,
}

// Is a solved day's value the least so far?
fn is_lower(tally: Tally, value: u64) -> bool
    ensures { result ≡ is_lower tally value }
{
    tally.day == 0 || value < tally.least
}

// One solved day more.
fn count_solved(tally: Tally, day: u32, value: u64) -> Tally
    requires { (tally.solved < 31) × (tally.total + value < 2 ^ 64) }
    ensures { result ≡ counted tally day value }
{
    let counted = Tally {
        solved: tally.solved + 1,
        total: tally.total + value,
        ..tally
    };
    if is_lower(tally, value) {
        Tally {
            day,
            least: value,
            ..counted
        }
    } else {
        counted
    }
}

// One day more; a refused one counts nowhere.
pub fn count_day(tally: Tally, day: u32, a: Answer) -> Tally
    requires { (tally.solved < 31) × (tally.total + a.value < 2 ^ 64) }
    ensures { result ≡ tallied tally day a }
{
    if a.refusal == 0 {
        count_solved(tally, day, a.value)
    } else {
        tally
    }
}
