// Check 11: whether every pair set that a table leads to is sorted.
ghost use Rattle.std.specs.Prelude.{◌≡◌, true, List, ℕ, ◌+◌, ◌-◌, ◌*◌, ◌≤◌, ◌<◌, length};
ghost use Rattle.folds.specs.Folds.{all};
ghost use Rattle.ot_pairpos.specs.Layout.{layout_of};
ghost use Rattle.store_rules.specs.Store.{lent, per_link, bytes_of};
ghost use Rattle.store_rules.specs.Moments.{store_came_with, store_now_with};
ghost use Rattle.pair_rules.specs.Table.{sets_sorted};
ghost use Rattle.pair_rules.specs.Reads.{Reads};
ghost use Rattle.pair_sets.specs.Sets.{is_set_slot, leads_sorted, LeadsThere, RowInside};

use crate::is_sorted;
use crate::marked::sorted_in_order;
use ot_pairpos::{Layout, record_size};
use store_reader::{CHILD, LinkRows, PER_LINK, POSITION, bytes_of, rows_of};

// Whether a link of a table of format 1 leads from here to a pair set.
pub fn is_set_slot(position: u32) -> bool
    ensures { result ≡ is_set_slot position }
{
    if position < 10 {
        return false;
    }
    position % 2 == 0
}

// Whether row `other` is one of those from `first` on, before `row`, and leads to the pair set `set` too.
fn leads_there(links: &[u32], first: usize, row: usize, other: usize, set: u32) -> bool
    requires { per_link * row ≤ length links.now }
    ensures { result ≡ true → LeadsThere links.now first row other set }
{
    if other < first {
        return false;
    }
    if row <= other {
        return false;
    }
    if !is_set_slot(links[PER_LINK * other + POSITION]) {
        return false;
    }
    links[PER_LINK * other + CHILD] == set
}

// A place for a set among so many.
fn place_of(set: u32, places: usize) -> usize
    requires { 0 < places }
    ensures { result < places }
{
    (set as usize) % places
}

// Whether the set that a row leads to is sorted, if it leads to one. Those of the rows from `first` on before it are.
// `seen` has at a set's place the row at which it was last looked at: where `seen` is long enough, a set in several slots is looked at once.
fn row_sorted(
    data: &[u8],
    objects: &[u32],
    links: &[u32],
    first: usize,
    row: usize,
    size: usize,
    seen: &mut [u32],
) -> bool
    requires row_inside { RowInside (length «data».now) objects.now links.now row }
    requires by_index { (c : List ℕ) (k : ℕ) → first ≤ k → k < row → leads_sorted (lent «data».now objects.now links.now c) size k ≡ true }
    requires size_bound { (size ≤ 32) × (0 < length seen.old) }
    ensures { (c : List ℕ) → result ≡ leads_sorted (lent «data».now objects.now links.now c) size row }
{
    if !is_set_slot(links[PER_LINK * row + POSITION]) {
        return true;
    }
    let set = links[PER_LINK * row + CHILD];
    let place = place_of(set, seen.len());
    if leads_there(links, first, row, seen[place] as usize, set) {
        return true;
    }
    seen[place] = row as u32;
    is_sorted(bytes_of(data, objects, set as usize), size)
}

// Whether these rows lead to sorted sets.
fn rows_sorted(
    data: &[u8],
    objects: &[u32],
    links: &[u32],
    rows: LinkRows,
    size: usize,
    seen: &mut [u32],
) -> bool
    requires by_index { (k : ℕ) → k < rows.after → RowInside (length «data».now) objects.now links.now k }
    requires first_le_after { (rows.first ≤ rows.after) × (size ≤ 32) × (0 < length seen.old) }
    ensures { (c : List ℕ)
        → result
        ≡ all (λ i. leads_sorted (lent «data».now objects.now links.now c) size (rows.first + i)) (rows.after - rows.first) }
{
    let first = rows.first;
    let count = rows.after - first;
    for i in 0..count {
        if !row_sorted(data, objects, links, first, first + i, size, seen) {
            return false;
        }
    }
    true
}

// Whether each pair set that the table leads to is sorted. Of `seen` it is asked that there is a place; what it holds says nothing. Where there is one
// for each object, the sets are looked at in the order of the objects, and else in that of the rows.
pub fn sets_sorted(
    data: &[u8],
    objects: &[u32],
    links: &[u32],
    counts: [u32; 3],
    table: u32,
    layout: Layout,
    seen: &mut [u32],
) -> bool
    requires reads { Reads (store_now_with «data» objects links counts) table }
    requires layout_value { (layout ≡ layout_of (bytes_of (store_now_with «data» objects links counts) table)) × (0 < length seen.old) }
    ensures { result ≡ sets_sorted (store_came_with «data» objects links counts) table }
{
    if layout.format != 1 {
        return true;
    }
    let rows = rows_of(links, counts[2] as usize, table);
    let size = record_size(layout.value1, layout.value2);
    let count = counts[1] as usize;
    if seen.len() < count {
        return rows_sorted(data, objects, links, rows, size, seen);
    }
    sorted_in_order(data, objects, links, rows, size, &mut seen[0..count])
}
