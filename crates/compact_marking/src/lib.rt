// Marks for what a compaction keeps. Objects that a root's offsets reach get the mark 2, a root that nothing reaches the mark 1: so a root is walked from
// once, however often it is listed, and the walk is the one that sizes are counted by.
#![tactic(auto)]

ghost use Rattle.std.specs.Prelude.{◌≡◌, true, List, [], ◌∷◌, ◌++◌, ℕ, ◌*◌, ◌≤◌, ◌<◌, length, get_or};
ghost use Rattle.folds.specs.Moments.{came, left};
ghost use Rattle.store_rules.specs.Store.{lent, sound};
ghost use Rattle.store_reader.specs.Rows.{ParentRows};
ghost use Rattle.compact_marking.specs.Rooted.{RowEnds, Rooting};

use store_reader::{LinkRows, next_row};
use store_walk::{first_row_of, prepare, subgraph_size};

// The rows of the object's offsets: from where the index has its rows start, up to its first order-only link.
fn offsets_of(links: &[u32], counts: [u32; 3], object: u32, walk: &[u32]) -> LinkRows
    requires by_index { (b o : List ℕ) × (sound (lent b o links.now counts) ≡ true) }
    requires object_bound { (object < get_or counts 1 0) × (2 * get_or counts 1 0 ≤ length walk.now) × RowEnds links.now counts walk.now }
    ensures { ParentRows links.now (get_or counts 2 0) object result }
{
    let n = counts[1] as usize;
    let m = counts[2] as usize;
    let first = first_row_of(walk, n, object as usize) as usize;
    let after = next_row(links, m, first, object, store_reader::ORDERS);
    LinkRows { first, after }
}

// Marks a root that has no mark yet, and what its offsets reach.
fn mark_root(objects: &[u32], links: &[u32], counts: [u32; 3], root: u32, walk: &mut [u32])
    requires by_index { (b : List ℕ) × (sound (lent b objects.now links.now counts) ≡ true) }
    requires root_bound { (root < get_or counts 1 0) × ((roots : List ℕ) × Rooting objects.now links.now counts roots walk.old) }
    ensures { (roots : List ℕ) → Rooting objects.now links.now counts roots (came walk)
        → Rooting objects.now links.now counts (roots ++ root ∷ []) (left walk) }
{
    let r = root as usize;
    if walk[r] == 0 {
        walk[r] = 1;
        let rows = offsets_of(links, counts, root, walk);
        subgraph_size(objects, links, counts, rows.first, rows.after, 2, walk);
    }
}

// Marks each root, and what their offsets reach. The scratch may hold anything.
pub fn mark_kept(objects: &[u32], links: &[u32], counts: [u32; 3], roots: &[u32], walk: &mut [u32])
    requires by_index { (b : List ℕ) × (sound (lent b objects.now links.now counts) ≡ true) }
    requires by_index_2 { (i : ℕ) → i < length roots.now → get_or roots.now i 0 < get_or counts 1 0 }
    requires counts_in_bounds { 2 * get_or counts 1 0 ≤ length walk.old }
    ensures { Rooting objects.now links.now counts roots.now (left walk) }
{
    prepare(links, counts, walk);
    for root in roots {
        mark_root(objects, links, counts, *root, walk);
    }
}
