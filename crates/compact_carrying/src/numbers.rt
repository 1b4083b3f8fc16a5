// New numbers, given out over the marks in the walk, and the roots rewritten in them.
ghost use Rattle.std.specs.Prelude.{◌≡◌, map, ℕ, ◌*◌, ◌≤◌, ◌<◌, length, get_or};
ghost use Rattle.folds.specs.Moments.{came, left};
ghost use Rattle.compact_carrying.specs.Packing.{Numbers, number_in};

// Writes each object's new number behind the marks: how many marked ones stand below it.
pub fn number_kept(walk: &mut [u32], n: usize)
    requires { (2 * n ≤ length walk.old) × (n ≤ 65536) }
    ensures { Numbers (came walk) (left walk) n }
{
    let mut next: u32 = 0;
    for i in 0..n {
        walk[n + i] = next;
        if 0 < walk[i] {
            next += 1;
        }
    }
}

// Writes each root's new number in its place.
pub fn rewrite_roots(roots: &mut [u32], n: usize, walk: &[u32])
    requires by_index { (i : ℕ) → i < length roots.old → get_or roots.old i 0 < n }
    requires n_in_bounds { (2 * n ≤ length walk.now) × (n ≤ 65536) }
    ensures { left roots ≡ map (number_in walk.now n) (came roots) }
{
    for k in 0..roots.len() {
        let root = roots[k] as usize;
        roots[k] = walk[n + root];
    }
}
