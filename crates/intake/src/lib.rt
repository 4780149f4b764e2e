// What is refused before a text is read against its table (document 02, CR 1 and CR 8).
#![tactic(auto)]

ghost use Rattle.std.specs.Prelude.{◌≡◌};
ghost use Rattle.minimums.specs.BoundedTable.{bounded_in};
ghost use Rattle.intake.specs.Verdict.{text_verdict};

use minimums::LentBounded;
use table::{Name, Refusal};

// The first refusal before a text of this length is read against a table, if any; `room` is whether the row that its caller lends is long enough.
pub fn text_verdict(bounded: &LentBounded, text: usize, room: bool) -> Result<(), Refusal>
    ensures { result ≡ text_verdict (bounded_in bounded.now) text room }
{
    if 1048576 < text {
        return Err(Name::Long.at(0));
    }
    minimums::plain_check(bounded, true)?;
    if !room {
        return Err(Name::Room.at(0));
    }
    Ok(())
}
