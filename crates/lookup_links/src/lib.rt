// The link rows of new lookups, behind the rows in use, and every link to an old lookup led to its new one.
#![tactic(auto)]

ghost use Rattle.std.specs.Prelude.{◌≡◌, List, map, ℕ, ◌+◌, ◌-◌, ◌*◌, ◌≤◌, ◌<◌, length, get_or};
ghost use Rattle.folds.specs.Lists.{put};
ghost use Rattle.folds.specs.Moments.{came, left};
ghost use Rattle.store_rules.specs.Store.{lent, per_link};
ghost use Rattle.store_rules.specs.Appended.{row_numbers};
ghost use Rattle.store_rules.specs.InOrder.{in_order};
ghost use Rattle.store_link_rows.specs.Rows.{link_in};
ghost use Rattle.store_link_rows.specs.Copies.{in_use, Copied};
ghost use Rattle.lookup_rules.specs.Written.{new_lookup_links, redirected};
ghost use Rattle.lookup_rules.specs.Marks.{Marked};
ghost use Rattle.lookup_links.specs.Copies.{new_table_links, link_entered, lookup_copies, RowReady, LookupReady};
ghost use Rattle.lookup_links.specs.Entering.{Entering, EnteringLent};
ghost use Rattle.lookup_links.specs.Redirecting.{links_in, moved_by, Leading, Redirecting};

use lookup_orders::order_rows;
use store_link_rows::put_link;
use store_reader::{CHILD, PER_LINK, POSITION, rows_of};

// Writes links of `parent` to these tables, the first at `position`, from row `at` on. Returns where the next row goes.
fn put_tables(links: &mut [u32], at: usize, parent: u32, position: u32, tables: &[u32]) -> usize
    requires tables_in_bounds { per_link * (at + length tables.now) ≤ length links.old }
    requires tables_bound { position + 2 * length tables.now ≤ 4294967296 }
    ensures { Copied (came links) at (new_table_links tables.now parent position) (left links) result }
{
    for j in 0..tables.len() {
        put_link(links, at + j, parent, position + 2 * (j as u32), tables[j]);
    }
    at + tables.len()
}

// Copies row `k` to the new lookup `parent`, up by so many slots, as row `at`, and behind it enters the new tables where it leads to the old one.
// Returns where the next row goes.
fn enter_row(
    links: &mut [u32],
    k: usize,
    up: usize,
    at: usize,
    parent: u32,
    table: u32,
    tables: &[u32],
) -> usize
    requires { RowReady links.old table tables.now k up at parent }
    ensures { Copied (came links) at (link_entered table tables.now parent up (link_in (came links) k)) (left links) result }
{
    let position = links[PER_LINK * k + POSITION] + ((2 * up) as u32);
    let child = links[PER_LINK * k + CHILD];
    put_link(links, at, parent, position, child);
    if child != table {
        return at + 1;
    }
    put_tables(links, at + 1, parent, position + 2, tables)
}

// Writes the links of the new lookup `parent` for `lookup`, from row `at` on. Returns where the next row goes.
fn enter_lookup(
    links: &mut [u32],
    counts: [u32; 3],
    lookup: u32,
    at: usize,
    parent: u32,
    table: u32,
    tables: &[u32],
) -> usize
    requires { LookupReady links.old counts table tables.now lookup parent at }
    ensures { Copied (came links) at (lookup_copies table tables.now (in_use (came links) counts) lookup parent) (left links) result }
{
    let rows = rows_of(links, counts[2] as usize, lookup);
    let mut next = at;
    for k in rows.first..rows.after {
        let entered = (next - at) - (k - rows.first);
        next = enter_row(links, k, entered, next, parent, table, tables);
    }
    next
}

// Writes the links of the new lookups behind the rows in use: each has those of its old one, and the new tables behind each link to the old table. The first
// new lookup is object `first`. Returns how many rows are in use then.
pub fn enter_links(
    links: &mut [u32],
    counts: [u32; 3],
    table: u32,
    tables: &[u32],
    lookups: &[u32],
    first: u32,
) -> usize
    requires { EnteringLent links.old counts table tables.now lookups.now first }
    ensures { (b o : List ℕ) → Entering (lent b o (came links) counts) table tables.now lookups.now first
        → Copied (came links) (get_or counts 2 0) (new_lookup_links (lent b o (came links) counts) table tables.now lookups.now first)
        (left links) result }
{
    let mut next = counts[2] as usize;
    for m in 0..lookups.len() {
        next = enter_lookup(
            links,
            counts,
            lookups[m],
            next,
            first + (m as u32),
            table,
            tables,
        );
    }
    next
}

// Where a link to `child` leads then: mark m + 2 is that of the old lookup whose new one is object `first` + m.
fn moved_child(marks: &[u32], child: u32, first: u32) -> u32
    requires { 2 ≤ get_or marks.now child 0 → first + (get_or marks.now child 0 - 2) < 4294967296 }
    ensures { result ≡ moved_by marks.now first child }
{
    let at = child as usize;
    if marks.len() <= at {
        return child;
    }
    let mark = marks[at];
    if mark < 2 {
        return child;
    }
    first + (mark - 2)
}

// Each of the first `count` rows that leads to a marked lookup leads to its new one.
fn lead_links(links: &mut [u32], count: usize, marks: &[u32], first: u32)
    requires { Leading links.old count marks.now first }
    ensures { (ps : List ℕ) → Marked ps marks.now
        → left links ≡ put (came links) 0 (row_numbers (map (redirected first ps) (links_in (came links) count))) }
{
    for k in 0..count {
        let at = PER_LINK * k + CHILD;
        links[at] = moved_child(marks, links[at], first);
    }
}

// The same, and then the order-only rows of each parent are put in order again, which go by their children.
pub fn redirect_links(links: &mut [u32], count: usize, marks: &[u32], first: u32)
    requires { Redirecting links.old count marks.now first }
    ensures { (ps : List ℕ) → Marked ps marks.now
        → left links ≡ put (came links) 0 (row_numbers (in_order (map (redirected first ps) (links_in (came links) count)))) }
{
    lead_links(links, count, marks, first);
    order_rows(links, count, first);
}
