// The numbers that pass a test, rising, in a list or in the first places of a row: definitions, lemmas, and the function that fills the row.
#![tactic(auto)]

ghost use Rattle.std.specs.Prelude.{◌≡◌, ℕ, Bool, ◌≤◌, ◌<◌, [], length};
ghost use Rattle.listing.specs.Passing.{passing, filled_with};

// Fills a row with the numbers from `first` up to `end` that pass a test, rising, and answers how many there are.
pub fn list_passing<F: Fn(u32) -> bool>(first: u32, end: u32, passes: F, row: &mut [u32]) -> u32
    ghost test: { ℕ → Bool }
    requires in_order { first ≤ end }
    requires may_ask { (k : ℕ) → first ≤ k → k < end → F.pre passes k }
    requires tells { (k : ℕ) → first ≤ k → k < end → (told : Bool) → F.post passes k told → told ≡ test k }
    requires none_before { passing test first ≡ [] }
    requires room { length (passing test end) ≤ length row.old }
    ensures counted { result ≡ length (passing test end) }
    ensures filled { row.new ≡ filled_with (passing test end) row.old }
{
    let mut count = 0;
    for k in first..end {
        if passes(k) {
            row[count as usize] = k;
            count += 1;
        }
    }
    count
}
