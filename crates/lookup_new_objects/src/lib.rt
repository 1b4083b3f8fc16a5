// New lookups, each written from its old one: what they need, and their bytes and rows.
#![tactic(auto)]

ghost use Rattle.std.specs.Prelude.{ℕ, ◌*◌, ◌≤◌, ◌≡◌, List, [], ◌∷◌, length, get_or};
ghost use Rattle.folds.specs.Lists.{part};
ghost use Rattle.folds.specs.Moments.{came, left};
ghost use Rattle.store_rules.specs.Store.{lent, per_link};
ghost use Rattle.store_rules.specs.Moments.{store_came_with, store_now_with};
ghost use Rattle.store_object_rows.specs.Objects.{Laid, Written};
ghost use Rattle.lookup_rules.specs.Written.{new_lookup, new_lookups};
ghost use Rattle.lookup_new_objects.specs.Counted.{listed_in, lookup_with, Sized, Sizing, Measuring, needs_measured};
ghost use Rattle.lookup_new_objects.specs.Written.{LookupCopyReady, NewLookupReady, WritingLookups};

use buffers::{copy_bytes, zero_bytes};
use call_rules::Needs;
use ot_lookup::subtable_count;
use ot_wire::put_u16;
use store_object_rows::put_object;
use store_reader::{CHILD, LinkRows, PER_LINK, bytes_of, rows_of};

// A new lookup: how many subtables and links it has, and how many bytes it takes.
#[derive(Clone, Copy)]
struct Size {
    subtables: usize,
    links: usize,
    bytes: usize,
}

// How many of these rows lead to the table.
fn count_listings(links: &[u32], rows: LinkRows, table: u32) -> usize
    requires { (rows.first ≤ rows.after) × (per_link * rows.after ≤ length links.now) }
    ensures { result ≡ listed_in links.now rows table }
{
    let mut listings = 0;
    for k in rows.first..rows.after {
        let child = links[PER_LINK * k + CHILD];
        if child == table {
            listings += 1;
        }
    }
    listings
}

// How large the new lookup for `lookup` is, where so many new tables are entered behind each listing of the old one.
fn measure_lookup(
    data: &[u8],
    objects: &[u32],
    links: &[u32],
    counts: [u32; 3],
    table: u32,
    tables: usize,
    lookup: u32,
) -> Size
    requires { Sizing (store_now_with «data» objects links counts) tables lookup }
    ensures { Sized (store_came_with «data» objects links counts) table tables lookup result }
{
    let rows = rows_of(links, counts[2] as usize, lookup);
    let entered = tables * count_listings(links, rows, table);
    let bytes = bytes_of(data, objects, lookup as usize);
    Size {
        subtables: (subtable_count(bytes) as usize) + entered,
        links: (rows.after - rows.first) + entered,
        bytes: bytes.len() + 2 * entered,
    }
}

// What the new lookups for `lookups` need, where there are so many new tables: an error where one has more subtables than its count can say.
pub fn measure(
    data: &[u8],
    objects: &[u32],
    links: &[u32],
    counts: [u32; 3],
    table: u32,
    tables: usize,
    lookups: &[u32],
) -> Result<Needs, Needs>
    requires { Measuring (store_now_with «data» objects links counts) tables lookups.now }
    ensures { (us : List ℕ) → length us ≡ tables → result ≡ needs_measured (store_came_with «data» objects links counts) table us lookups.now }
{
    let mut fits = true;
    let mut needed = 0;
    let mut bytes = 0;
    for &lookup in lookups {
        let size = measure_lookup(data, objects, links, counts, table, tables, lookup);
        fits = fits && size.subtables <= 65535;
        needed += size.links;
        bytes += size.bytes;
    }
    let needs = Needs {
        objects: lookups.len(),
        links: needed,
        bytes,
        entries: 0,
    };
    if fits { Ok(needs) } else { Err(needs) }
}

// Writes the bytes of a new lookup of so many subtables at byte `at`: those of its old one, which stands from `head` up to `tail`, but for the count and for
// the offsets, which are zero. Returns where it ends.
fn copy_lookup(data: &mut [u8], head: usize, tail: usize, subtables: u16, at: usize) -> usize
    requires { LookupCopyReady «data».old head tail subtables at }
    ensures { Laid (came «data») at (new_lookup (part (came «data») head tail) subtables) (left «data») result }
{
    let behind = head + 6 + 2 * (subtable_count(&data[head..tail]) as usize);
    let offsets = 2 * (subtables as usize);
    copy_bytes(data, head, at, 4);
    put_u16(data, at + 4, subtables);
    zero_bytes(data, at + 6, offsets);
    copy_bytes(data, behind, at + 6 + offsets, tail - behind);
    at + 6 + offsets + (tail - behind)
}

// Writes the new lookup for `lookup` at byte `at`, as object `row`. Returns where it ends.
fn write_lookup(
    data: &mut [u8],
    objects: &mut [u32],
    links: &[u32],
    counts: [u32; 3],
    table: u32,
    tables: usize,
    lookup: u32,
    at: usize,
    row: usize,
) -> usize
    requires { NewLookupReady (lent «data».old objects.old links.now counts) table tables lookup at row }
    ensures { Written (came «data») (came objects) at row (lookup_with (lent «data».old objects.old links.now counts) table tables lookup ∷ [])
        (left «data») (left objects) result }
{
    let size = measure_lookup(data, objects, links, counts, table, tables, lookup);
    let head = objects[2 * (lookup as usize)] as usize;
    let tail = objects[2 * (lookup as usize) + 1] as usize;
    let end = copy_lookup(data, head, tail, size.subtables as u16, at);
    put_object(objects, row, at as u32, end as u32);
    end
}

// Writes the new lookups for `lookups` behind all that is in use, where there are so many new tables. Returns where they end.
pub fn write_lookups(
    data: &mut [u8],
    objects: &mut [u32],
    links: &[u32],
    counts: [u32; 3],
    table: u32,
    tables: usize,
    lookups: &[u32],
) -> usize
    requires { WritingLookups (lent «data».old objects.old links.now counts) table tables lookups.now }
    ensures { (us : List ℕ) → length us ≡ tables
        → Written (came «data») (came objects) (get_or counts 0 0) (get_or counts 1 0)
        (new_lookups (lent «data».old objects.old links.now counts) table us lookups.now) (left «data») (left objects) result }
{
    let mut at = counts[0] as usize;
    let mut row = counts[1] as usize;
    for m in 0..lookups.len() {
        at = write_lookup(
            data, objects, links, counts, table, tables, lookups[m], at, row,
        );
        row += 1;
    }
    at
}
