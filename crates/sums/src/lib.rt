// What a row holds of arcs with each node for an end, added up in one pass over the arcs.
#![tactic(auto)]

ghost use Rattle.std.specs.Prelude.{◌≡◌, ℕ, ◌+◌, ◌-◌, ◌^◌, ◌≤◌, ◌<◌, length, set};
ghost use Rattle.rows.specs.Row.{Node, at_place, at_node};
ghost use Rattle.sums.specs.Tallied.{Tallied};

// Adds x to node i's sum.
fn add_at(sums: &mut [u64], i: u32, x: u32)
    requires { Node (length sums.old) i × (at_node sums.old i + x < 2 ^ 64) }
    ensures { sums.new ≡ set sums.old (i - 1) (at_node sums.old i + x) }
{
    sums[(i - 1) as usize] += u64::from(x);
}

// Adds up by node what the flows take along arcs with that end: `ends` is the row of tails or of heads.
pub fn tally(ends: &[u32], flow: &[u32], sums: &mut [u64])
    requires ends_in_bounds { (length ends.now ≤ length flow.now) × (length ends.now ≤ 4096) }
    requires by_index { (k : ℕ) → k < length ends.now → Node (length sums.old) (at_place ends.now k) }
    requires tallied { Tallied ends.now flow.now 0 sums.old }
    ensures { Tallied ends.now flow.now (length ends.now) sums.new }
{
    for k in 0..ends.len() {
        add_at(sums, ends[k], flow[k]);
    }
}
