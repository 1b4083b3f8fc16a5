// The lookups of a list that are to be rewritten, and marks of objects by which every link to one of them is found in one pass.
ghost use Rattle.std.specs.Prelude.{◌*◌, ◌≤◌, ◌≡◌, false, length, get_or};
ghost use Rattle.folds.specs.Moments.{left};
ghost use Rattle.store_rules.specs.Moments.{store_came_with, store_now_with};
ghost use Rattle.lookup_rules.specs.Listed.{rewritten, bad_list};
ghost use Rattle.lookup_checks.specs.Objects.{ObjectInUse};
ghost use Rattle.lookup_checks.specs.Rows.{RowsUsed, row_count, leads_at};
ghost use Rattle.lookup_checks.specs.Ordered.{chosen, Orderable, Ordered};

use crate::fitting::is_rewritten;
use crate::marks::{put_lookup, was_marked};
use store_reader::{CHILD, LinkRows, PER_LINK, rows_of};

// How many lookups of the list are to be rewritten. Their marks stand in the walk's first half, and they themselves, in the list's order, behind it.
pub fn order_lookups(
    data: &[u8],
    objects: &[u32],
    links: &[u32],
    counts: [u32; 3],
    list: u32,
    table: u32,
    walk: &mut [u32],
) -> usize
    requires object_in_use { ObjectInUse (store_now_with «data» objects links counts) list }
    requires table_value { bad_list (store_now_with «data» objects links counts) list table ≡ false }
    requires counts_in_bounds { 2 * get_or counts 1 0 ≤ length walk.old }
    ensures { Ordered (get_or counts 1 0) (rewritten (store_came_with «data» objects links counts) list table) (left walk) result }
{
    let rows = rows_of(links, counts[2] as usize, list);
    let marks = counts[1] as usize;
    walk[..marks].fill(0);
    order_rows(data, objects, links, counts, rows, table, walk)
}

// The same for what these rows lead to: a mark is 0 before its object is met, 1 for one that is not to be rewritten, and m + 2 for lookup m.
fn order_rows(
    data: &[u8],
    objects: &[u32],
    links: &[u32],
    counts: [u32; 3],
    rows: LinkRows,
    table: u32,
    walk: &mut [u32],
) -> usize
    requires rows_used { RowsUsed (store_now_with «data» objects links counts) rows }
    requires orderable { Orderable (store_now_with «data» objects links counts) (leads_at links.now rows) (row_count rows) walk.old }
    ensures { Ordered (get_or counts 1 0) (chosen (store_came_with «data» objects links counts) table (leads_at links.now rows) (row_count rows)) (left walk) result }
{
    let marks = counts[1] as usize;
    let mut found: usize = 0;
    for i in 0..rows.after - rows.first {
        let lookup = links[PER_LINK * (rows.first + i) + CHILD];
        if was_marked(walk, lookup) {
            continue;
        }
        if !is_rewritten(data, objects, links, counts, lookup, table) {
            continue;
        }
        put_lookup(walk, marks, found, lookup);
        found += 1;
    }
    found
}
