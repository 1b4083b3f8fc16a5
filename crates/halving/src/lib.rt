// Halving: where a test that holds up to a place and fails from there on changes over, found by asking it a few times.
#![tactic(auto)]

ghost use Rattle.std.specs.Prelude.{ℕ, ◌≤◌, ◌<◌, ◌-◌, true, false};

// A place from `lo` to `hi` such that the test holds just before it and fails at it, or at an end there is nothing on that side. Where the test fails
// from some place on, it is that one.
pub fn partition_point<F: Fn(usize) -> bool>(lo: usize, hi: usize, is_below: F) -> usize
    requires ordered { lo ≤ hi }
    requires callable { (k : ℕ) → lo ≤ k → k < hi → F.pre is_below k }
    ensures within { (lo ≤ result) × (result ≤ hi) }
    ensures before { lo < result → F.post is_below (result - 1) true }
    ensures at { result < hi → F.post is_below result false }
{
    let mut low = lo;
    let mut high = hi;
    while low < high {
        let mid = low + (high - low) / 2;
        if is_below(mid) {
            low = mid + 1;
        } else {
            high = mid;
        }
    }
    low
}
