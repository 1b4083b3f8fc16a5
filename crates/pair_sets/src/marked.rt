// The pair sets that link rows lead to, in the order of the objects. So lie their bytes, and no set has to be waited for, however the objects are
// numbered; a set in several slots is looked at once.
ghost use Rattle.std.specs.Prelude.{◌≡◌, List, ℕ, ◌+◌, ◌-◌, ◌≤◌, ◌<◌, length, replicate};
ghost use Rattle.folds.specs.Folds.{all};
ghost use Rattle.folds.specs.Moments.{came, left};
ghost use Rattle.store_rules.specs.Store.{lent};
ghost use Rattle.store_reader.specs.Rows.{Inside};
ghost use Rattle.pair_sets.specs.Sets.{leads_sorted};
ghost use Rattle.pair_sets.specs.Marked.{RowLeads, MarksSets, mark_sorted};

use crate::is_sorted;
use crate::linked::is_set_slot;
use store_reader::{CHILD, LinkRows, PER_LINK, POSITION, bytes_of};

// Gives the pair set that row `k` leads to a mark, if it leads to one.
fn mark_set(links: &[u32], k: usize, marks: &mut [u32])
    requires { RowLeads links.now (length marks.old) k }
    ensures { (first : ℕ) → first ≤ k → MarksSets links.now first k (came marks) → MarksSets links.now first (k + 1) (left marks) }
{
    if !is_set_slot(links[PER_LINK * k + POSITION]) {
        return;
    }
    let set = links[PER_LINK * k + CHILD] as usize;
    marks[set] = 1;
}

// Gives each pair set that these rows lead to a mark. Before, nothing has one.
fn mark_sets(links: &[u32], rows: LinkRows, marks: &mut [u32])
    requires by_index { ((k : ℕ) → k < rows.after → RowLeads links.now (length marks.old) k) × (rows.first ≤ rows.after) }
    requires marks_value { marks.old ≡ replicate (length marks.old) 0 }
    ensures { MarksSets links.now rows.first rows.after (left marks) }
{
    for k in rows.first..rows.after {
        mark_set(links, k, marks);
    }
}

// Whether object `i`, if it has a mark, is a sorted pair set.
fn mark_sorted(data: &[u8], objects: &[u32], marks: &[u32], size: usize, i: usize) -> bool
    requires { (i < length marks.now) × Inside (length «data».now) objects.now i × (size ≤ 32) }
    ensures { (l c : List ℕ) → result ≡ mark_sorted (lent «data».now objects.now l c) marks.now size i }
{
    if marks[i] == 0 {
        return true;
    }
    is_sorted(bytes_of(data, objects, i), size)
}

// Whether each object that has a mark is a sorted pair set.
fn marked_sorted(data: &[u8], objects: &[u32], marks: &[u32], size: usize) -> bool
    requires { ((i : ℕ) → i < length marks.now → Inside (length «data».now) objects.now i) × (size ≤ 32) }
    ensures { (l c : List ℕ) → result ≡ all (mark_sorted (lent «data».now objects.now l c) marks.now size) (length marks.now) }
{
    for i in 0..marks.len() {
        if !mark_sorted(data, objects, marks, size, i) {
            return false;
        }
    }
    true
}

// Whether these rows lead to sorted sets. There is a mark for each object, which may hold anything.
pub fn sorted_in_order(
    data: &[u8],
    objects: &[u32],
    links: &[u32],
    rows: LinkRows,
    size: usize,
    marks: &mut [u32],
) -> bool
    requires by_index { ((k : ℕ) → k < rows.after → RowLeads links.now (length marks.old) k) × (rows.first ≤ rows.after) }
    requires by_index_2 { ((i : ℕ) → i < length marks.old → Inside (length «data».now) objects.now i) × (size ≤ 32) }
    ensures { (c : List ℕ)
        → result
        ≡ all (λ i. leads_sorted (lent «data».now objects.now links.now c) size (rows.first + i)) (rows.after - rows.first) }
{
    marks.fill(0);
    mark_sets(links, rows, marks);
    marked_sorted(data, objects, marks, size)
}
