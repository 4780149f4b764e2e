// Little-endian numbers in rows of bytes: read at a place, written at a place, and whole columns and rows of them.
#![tactic(auto)]

ghost use Rattle.std.specs.Prelude.{ℕ, ◌≡◌, ◌++◌, ◌+◌, ◌*◌, ◌≤◌, ◌<◌, length, map, drop};
ghost use Rattle.rows.specs.Row.{part, by_place};
ghost use Rattle.parts.specs.Placed.{placed};
ghost use Rattle.little.specs.Little.{number, bytes_of, number32, bytes_of_all};

// A number of so many bytes, the lowest first.
pub trait Little: Copy {
    // How many bytes it has.
    const WIDTH: usize;

    ghost WIDTH: { ℕ };

    // The number that it is.
    ghost value: { Self → ℕ };

    // The number that these bytes give.
    fn from_bytes(bytes: &[u8]) -> Self
        requires { length bytes.now ≡ WIDTH }
        ensures { value result ≡ number bytes.now };

    // Writes its bytes.
    fn write_bytes(self, bytes: &mut [u8])
        requires { length bytes.old ≡ WIDTH }
        ensures { bytes.new ≡ bytes_of WIDTH (value self) };
}

impl Little for u32 {
    const WIDTH: usize = 4;

    ghost WIDTH = { 4 };

    ghost value = { λ x. x };

    fn from_bytes(bytes: &[u8]) -> u32 {
        u32::from_le_bytes([bytes[0], bytes[1], bytes[2], bytes[3]])
    }

    fn write_bytes(self, bytes: &mut [u8]) {
        bytes.copy_from_slice(&self.to_le_bytes());
    }
}

impl Little for u64 {
    const WIDTH: usize = 8;

    ghost WIDTH = { 8 };

    ghost value = { λ x. x };

    fn from_bytes(bytes: &[u8]) -> u64 {
        u64::from_le_bytes([
            bytes[0], bytes[1], bytes[2], bytes[3], bytes[4], bytes[5], bytes[6], bytes[7],
        ])
    }

    fn write_bytes(self, bytes: &mut [u8]) {
        bytes.copy_from_slice(&self.to_le_bytes());
    }
}

// The number at a place.
pub fn get<T: Little>(row: &[u8], at: usize) -> T
    requires { at + T.WIDTH ≤ length row.now }
    ensures { T.value result ≡ number (part at (at + T.WIDTH) row.now) }
{
    let end = at + T::WIDTH;
    T::from_bytes(&row[at..end])
}

// Writes a number at a place.
pub fn put<T: Little>(row: &mut [u8], at: usize, x: T)
    requires { at + T.WIDTH ≤ length row.old }
    ensures { row.new ≡ placed at (at + T.WIDTH) (bytes_of T.WIDTH (T.value x)) row.old }
{
    let end = at + T::WIDTH;
    x.write_bytes(&mut row[at..end]);
}

// Reads a column: the 32-bit number of each of `count` records of `step` bytes, `from` bytes behind the record's start.
pub fn get_column(bytes: &[u8], step: usize, from: usize, column: &mut [u32], count: usize)
    requires step_bound { (step ≤ 4096) × (count ≤ 4096) × (from + 4 ≤ step) }
    requires count_in_bounds { (step * count ≤ length bytes.now) × (count ≤ length column.old) }
    ensures { column.new ≡ by_place (λ k. number32 bytes.now (step * k + from)) count ++ drop count column.old }
{
    for k in 0..count {
        column[k] = get(bytes, step * k + from);
    }
}

// Writes a row of numbers from the start of a row of bytes.
pub fn put_all<T: Little>(bytes: &mut [u8], numbers: &[T])
    requires { (length numbers.now ≤ 4096) × (T.WIDTH * length numbers.now ≤ length bytes.old) }
    ensures { bytes.new ≡ bytes_of_all T.WIDTH (map T.value numbers.now) ++ drop (T.WIDTH * length numbers.now) bytes.old }
{
    for k in 0..numbers.len() {
        put(bytes, T::WIDTH * k, numbers[k]);
    }
}
