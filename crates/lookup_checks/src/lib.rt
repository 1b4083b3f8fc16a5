// Check 9 of a lookup list, and the lookups of it that are to be written anew.
#![tactic(auto)]

pub mod fitting;
pub mod marks;
pub mod order;

ghost use Rattle.std.specs.Prelude.{◌≡◌, not};
ghost use Rattle.store_rules.specs.Moments.{store_came_with, store_now_with};
ghost use Rattle.lookup_rules.specs.Listed.{bad_list};
ghost use Rattle.lookup_checks.specs.Objects.{ObjectInUse};
ghost use Rattle.lookup_checks.specs.Rows.{RowsUsed, row_count, leads_at, fit_and_name};

use crate::fitting::{is_rewritten, list_fits, lookup_fits};
use crate::marks::was_marked;
use store_reader::{CHILD, LinkRows, PER_LINK, rows_of};

// Whether 9 does not apply. A lookup that has a place in the walk is looked at once, one that has none as often as it is listed: then the walk is too short
// for the call.
pub fn check_list(
    data: &[u8],
    objects: &[u32],
    links: &[u32],
    counts: [u32; 3],
    list: u32,
    table: u32,
    walk: &mut [u32],
) -> bool
    requires { ObjectInUse (store_now_with «data» objects links counts) list }
    ensures { result ≡ not (bad_list (store_came_with «data» objects links counts) list table) }
{
    if !list_fits(data, objects, links, counts, list) {
        return false;
    }
    let rows = rows_of(links, counts[2] as usize, list);
    let most = (counts[1] as usize).min(walk.len());
    lookups_fit(data, objects, links, counts, rows, table, &mut walk[..most])
}

// Whether each lookup that these rows lead to fits, and one of them is to be rewritten.
fn lookups_fit(
    data: &[u8],
    objects: &[u32],
    links: &[u32],
    counts: [u32; 3],
    rows: LinkRows,
    table: u32,
    marks: &mut [u32],
) -> bool
    requires { RowsUsed (store_now_with «data» objects links counts) rows }
    ensures { result ≡ fit_and_name (store_came_with «data» objects links counts) table (leads_at links.now rows) (row_count rows) }
{
    marks.fill(0);
    let mut named = false;
    for i in 0..rows.after - rows.first {
        let lookup = links[PER_LINK * (rows.first + i) + CHILD];
        if was_marked(marks, lookup) {
            continue;
        }
        if !lookup_fits(data, objects, links, counts, lookup) {
            return false;
        }
        named |= is_rewritten(data, objects, links, counts, lookup, table);
    }
    named
}
