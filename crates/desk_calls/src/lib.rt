// Reading a text, and what the desk prints for one, under C names: for the host's comparisons.
#![tactic(auto)]

ghost use Rattle.std.specs.Prelude.{◌≡◌};
ghost use Rattle.text.specs.Reading.{values_of};
ghost use Rattle.counter.specs.Desk.{Served};
ghost use Rattle.desk_calls.specs.Numbers.{text_of, ReadsAs};

use table::Refusal;
use text::Header;

// What reading a text returns: a refusal's number and place, or 0 with n, m, s and t.
#[repr(C)]
#[derive(Clone, Copy, Debug, PartialEq, Eq)]
pub struct Text {
    pub refusal: u32,
    pub place: u32,
    pub n: u32,
    pub m: u32,
    pub s: u32,
    pub t: u32,
}

// What a text gives, in numbers.
impl From<Result<Header, Refusal>> for Text {
    ghost from_gives = { λ given numbers. numbers ≡ text_of (values_of given) };

    #[tactic(auto, unfolding(text::specs::Reading::values_of))]
    fn from(given: Result<Header, Refusal>) -> Text {
        match given {
            Ok(header) => Text {
                refusal: 0,
                place: 0,
                n: header.nodes,
                m: header.arcs,
                s: header.source,
                t: header.sink,
            },
            Err(refusal) => Text {
                refusal: refusal.name.number(),
                place: refusal.place,
                n: 0,
                m: 0,
                s: 0,
                t: 0,
            },
        }
    }
}

// `text::read`.
#[unsafe(no_mangle)]
pub extern "C" fn jorrabide_read_text(
    text: &[u8],
    tails: &mut [u32],
    heads: &mut [u32],
    capacities: &mut [u32],
    minimums: &mut [u32],
) -> Text
    ensures { ReadsAs text.now tails.old heads.old capacities.old minimums.old
        result tails.new heads.new capacities.new minimums.new }
{
    text::read(text, tails, heads, capacities, minimums).into()
}

// `counter::serve`.
#[unsafe(no_mangle)]
pub extern "C" fn jorrabide_serve(text: &[u8], out: &mut [u8]) -> usize
    ensures { Served text.now out.old out.new result }
{
    counter::serve(text, out)
}
