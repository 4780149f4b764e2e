// Document 02, CR 13, the second call: the filled part of the shorter of two lists.
#![tactic(auto)]

ghost use Rattle.std.specs.Prelude.{◌≡◌, ◌≤◌, ◌<◌, length, take};
ghost use Rattle.shorter.specs.Shorter.{shorter_of, left_part, copied};

use table::Name;

// The first `filled` numbers of a list.
fn filled_part(list: &[u32], filled: usize) -> &[u32]
    requires { filled ≤ length list.now }
    ensures { result.now ≡ take filled list.now }
{
    &list[..filled]
}

// The filled part of the list with the lesser filled length, the first if equal; an empty part of the first if a length passes its list.
pub fn shorter<'a>(first: &'a [u32], second: &'a [u32], in_first: u32, in_second: u32) -> &'a [u32]
    ensures { result.now ≡ shorter_of first.now second.now in_first in_second }
{
    if first.len() < (in_first as usize) {
        return filled_part(first, 0);
    }
    if second.len() < (in_second as usize) {
        return filled_part(first, 0);
    }
    if in_second < in_first {
        return filled_part(second, in_second as usize);
    }
    filled_part(first, in_first as usize)
}

// What copying that part returns: a refusal's number and place, or 0 and how many numbers were copied.
#[repr(C)]
#[derive(Clone, Copy, Debug, PartialEq, Eq)]
pub struct Part {
    pub refusal: u32,
    pub place: u32,
    pub filled: u32,
}

// Copies numbers to the front of a row, or ROOM where it is too short.
fn copy_part(numbers: &[u32], row: &mut [u32]) -> Part
    requires { length numbers.now < 4294967296 }
    ensures { left_part result row.new ≡ copied numbers.now row.old }
{
    if row.len() < numbers.len() {
        return Part {
            refusal: Name::Room.number(),
            place: 0,
            filled: 0,
        };
    }
    // A loop of its own: the library's copy would need `memmove` from whoever links this call.
    for (k, number) in numbers.iter().enumerate() {
        row[k] = *number;
    }
    Part {
        refusal: 0,
        place: 0,
        filled: numbers.len() as u32,
    }
}

// The same part copied to the front of a lent row, for callers to whom no part can be returned.
pub fn copy_shorter<'a>(
    first: &'a [u32],
    second: &'a [u32],
    in_first: u32,
    in_second: u32,
    part: &mut [u32],
) -> Part
    ensures { left_part result part.new ≡ copied (shorter_of first.now second.now in_first in_second) part.old }
{
    let numbers = shorter(first, second, in_first, in_second);
    copy_part(numbers, part)
}
