// A list or a lookup by itself: whether it has its length and offsets at slots alone, and whether a lookup is to be rewritten.
ghost use Rattle.std.specs.Prelude.{◌≡◌, true};
ghost use Rattle.folds.specs.Folds.{upto};
ghost use Rattle.folds.specs.Lists.{among};
ghost use Rattle.store_rules.specs.Moments.{store_came_with, store_now_with};
ghost use Rattle.lookup_rules.specs.Listed.{good_list, good_lookup};
ghost use Rattle.lookup_checks.specs.Objects.{ObjectInUse};
ghost use Rattle.lookup_checks.specs.Rows.{RowsIn, row_count, leads_at, to_rewrite};

use ot_lookup::{
    LIST_HEADER, LOOKUP_HEADER, is_of_pairs, is_one_of, list_exact, lookup_count, lookup_exact,
    subtable_count,
};
use store_reader::{CHILD, LinkRows, PER_LINK, all_offsets, bytes_of, rows_of};

// Whether a list has its length, and each of its offsets stands at a slot.
pub fn list_fits(data: &[u8], objects: &[u32], links: &[u32], counts: [u32; 3], list: u32) -> bool
    requires { ObjectInUse (store_now_with «data» objects links counts) list }
    ensures { result ≡ good_list (store_came_with «data» objects links counts) list }
{
    let bytes = bytes_of(data, objects, list as usize);
    if !list_exact(bytes) {
        return false;
    }
    let count = lookup_count(bytes);
    all_offsets(
        links,
        counts,
        list,
        |position| is_one_of(LIST_HEADER, count, position),
    )
}

// The same of a lookup.
pub fn lookup_fits(
    data: &[u8],
    objects: &[u32],
    links: &[u32],
    counts: [u32; 3],
    lookup: u32,
) -> bool
    requires { ObjectInUse (store_now_with «data» objects links counts) lookup }
    ensures { result ≡ good_lookup (store_came_with «data» objects links counts) lookup }
{
    let bytes = bytes_of(data, objects, lookup as usize);
    if !lookup_exact(bytes) {
        return false;
    }
    let count = subtable_count(bytes);
    all_offsets(
        links,
        counts,
        lookup,
        |position| is_one_of(LOOKUP_HEADER, count, position),
    )
}

// Whether a lookup that fits is of pair adjustment and names the table.
pub fn is_rewritten(
    data: &[u8],
    objects: &[u32],
    links: &[u32],
    counts: [u32; 3],
    lookup: u32,
    table: u32,
) -> bool
    requires object_in_use { ObjectInUse (store_now_with «data» objects links counts) lookup }
    requires lookup_value { good_lookup (store_now_with «data» objects links counts) lookup ≡ true }
    ensures { result ≡ to_rewrite (store_came_with «data» objects links counts) table lookup }
{
    let bytes = bytes_of(data, objects, lookup as usize);
    if !is_of_pairs(bytes) {
        return false;
    }
    let rows = rows_of(links, counts[2] as usize, lookup);
    rows_lead_to(links, rows, table)
}

// Whether one of these rows leads to the table.
fn rows_lead_to(links: &[u32], rows: LinkRows, table: u32) -> bool
    requires { RowsIn links.now rows }
    ensures { result ≡ among table (upto (leads_at links.now rows) (row_count rows)) }
{
    (rows.first..rows.after).any(|row| links[PER_LINK * row + CHILD] == table)
}
