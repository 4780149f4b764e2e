// Writes bytes and numbers into a lent row of bytes.
//
// Each function writes from a place on, as far as the row goes, and returns the place behind what it wrote.
#![tactic(auto)]

ghost use Rattle.std.specs.Prelude.{◌≤◌, false, [], ◌∷◌, ◌++◌, length};
ghost use Rattle.table.specs.Ascii.{bytes};
ghost use Rattle.pen.specs.Wrote.{Wrote};
ghost use Rattle.pen.specs.Printed.{printed, further, spaced};

// One byte.
pub fn put(out: &mut [u8], at: usize, byte: u8) -> usize
    requires { at ≤ length out.old }
    ensures { Wrote out.old at (byte ∷ []) out.new result }
{
    if at < out.len() {
        out[at] = byte;
        at + 1
    } else {
        at
    }
}

// A text.
pub fn put_bytes(out: &mut [u8], at: usize, text: &[u8]) -> usize
    requires { at ≤ length out.old }
    ensures { Wrote out.old at text.now out.new result }
{
    let mut place = at;
    for byte in text {
        place = put(out, place, *byte);
    }
    place
}

// A number's digits.
pub fn put_number(out: &mut [u8], at: usize, n: u64) -> usize
    requires { at ≤ length out.old }
    ensures { Wrote out.old at (printed n) out.new result }
{
    let digit = b'0' + (n % 10) as u8;
    if n < 10 {
        put(out, at, digit)
    } else {
        let place = put_number(out, at, n / 10);
        put(out, place, digit)
    }
}

// A line: what names it, a number and LF.
pub fn put_line(out: &mut [u8], at: usize, name: &[u8], n: u64) -> usize
    requires { at ≤ length out.old }
    ensures { Wrote out.old at (name.now ++ (printed n ++ bytes "\n")) out.new result }
{
    let number = put_bytes(out, at, name);
    let end = put_number(out, number, n);
    put(out, end, b'\n')
}

// A number, with a blank before it where some number is written.
pub fn put_further(out: &mut [u8], at: usize, some: bool, n: u64) -> usize
    requires { at ≤ length out.old }
    ensures { Wrote out.old at (further some n) out.new result }
{
    if some {
        let place = put(out, at, b' ');
        put_number(out, place, n)
    } else {
        put_number(out, at, n)
    }
}

// Numbers parted by one blank.
pub fn put_numbers(out: &mut [u8], at: usize, numbers: &[u32]) -> usize
    requires { at ≤ length out.old }
    ensures { Wrote out.old at (spaced false numbers.now) out.new result }
{
    let mut place = at;
    let mut some = false;
    for number in numbers {
        place = put_further(out, place, some, u64::from(*number));
        some = true;
    }
    place
}
