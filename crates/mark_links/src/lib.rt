// The link rows of a split of a mark-to-base table: the old rows stay, and behind them the links of its arrays are copied to the new arrays.
#![tactic(auto)]

ghost use Rattle.std.specs.Prelude.{ℕ, ◌+◌, ◌-◌, ◌*◌, ◌≤◌, ◌<◌, List, length, get_or};
ghost use Rattle.store_rules.specs.Store.{lent};
ghost use Rattle.cut_parts.specs.Tables.{PartEnd, Parted};
ghost use Rattle.mark_rules.specs.Written.{per_table};
ghost use Rattle.ot_layouts.specs.MarkBasePos.{base_slot};
ghost use Rattle.mark_links.specs.Splitting.{tables_copies, new_copies, CopyReady, Splitting, SplittingLent, LinksSplit};
ghost use Rattle.folds.specs.Moments.{came, left};
ghost use Rattle.store_reader.specs.Rows.{orders};
ghost use Rattle.store_link_rows.specs.Copies.{in_use, Source, RowsRoom, Copied};
ghost use Rattle.mark_links.specs.Copies.{slot_copy, mark_copies, base_copy, base_copies, array_copies, table_copies, Sources};

use cut_parts::{cut_after, part_end};
use mark_arrays::{ArrayLinks, ArrayRows, Arrays};
use store_link_rows::{keep_rows, put_header, put_link};
use store_reader::held_rows::{held_row, hold_row, rows_each};
use store_reader::{child_in, row_near};

// Where the next row goes, and the row of the old array behind those that have been copied.
#[derive(Clone, Copy)]
struct Reached {
    at: usize,
    old: usize,
}

// Copies the link that the old array has at `position`, if it has one, to a slot of the new array, as row `at`. It is looked for among the old array's rows,
// near a row.
fn copy_slot(
    links: &mut [u32],
    counts: [u32; 3],
    array: ArrayLinks,
    near: usize,
    position: u32,
    at: usize,
    parent: u32,
    slot: u32,
) -> Reached
    requires source { Source links.old counts array.object array.rows × (position ≤ orders) }
    requires rows_room { RowsRoom links.old counts at (slot_copy (in_use links.old counts) array.object position parent slot) }
    ensures { Copied (came links) at (slot_copy (in_use (came links) counts) array.object position parent slot) (left links) result.at }
{
    let row = row_near(
        links,
        counts[2] as usize,
        array.rows.first,
        array.rows.after,
        near,
        array.object,
        position,
    );
    let Some(child) = child_in(links, counts, row, array.object, position) else {
        return Reached { at, old: row };
    };
    put_link(links, at, parent, slot, child);
    Reached {
        at: at + 1,
        old: row + 1,
    }
}

// Copies the links of the marks at these places to the mark array `parent`, from row `at` on. Returns where the next row goes.
fn copy_marks(
    links: &mut [u32],
    counts: [u32; 3],
    array: ArrayLinks,
    places: &[u16],
    at: usize,
    parent: u32,
) -> usize
    requires source { Source links.old counts array.object array.rows × (length places.now ≤ 16777216) }
    requires rows_room { RowsRoom links.old counts at (mark_copies (in_use links.old counts) array.object places.now parent) }
    ensures { Copied (came links) at (mark_copies (in_use (came links) counts) array.object places.now parent) (left links) result }
{
    let mut next = at;
    for (k, &place) in places.iter().enumerate() {
        let place = place as usize;
        let reached = copy_slot(
            links,
            counts,
            array,
            array.rows.first + place,
            (4 + 4 * place) as u32,
            next,
            parent,
            (4 + 4 * k) as u32,
        );
        next = reached.at;
    }
    next
}

// Copies the links of `width` slots of the old array, from slot `first` on, to the base array `parent`, from its slot `slot` on, as rows from row `at` on: the
// anchors of one base. They are looked for near a row.
fn copy_base(
    links: &mut [u32],
    counts: [u32; 3],
    array: ArrayLinks,
    near: usize,
    first: usize,
    width: usize,
    at: usize,
    parent: u32,
    slot: usize,
) -> Reached
    requires source { Source links.old counts array.object array.rows }
    requires slots_bound { (base_slot (first + width) ≤ orders) × (base_slot (slot + width) ≤ orders) }
    requires rows_room { RowsRoom links.old counts at (base_copy (in_use links.old counts) array.object first width parent slot) }
    ensures { Copied (came links) at (base_copy (in_use (came links) counts) array.object first width parent slot) (left links) result.at }
{
    let mut reached = Reached { at, old: near };
    for k in 0..width {
        reached = copy_slot(
            links,
            counts,
            array,
            reached.old,
            (2 + 2 * (first + k)) as u32,
            reached.at,
            parent,
            (2 + 2 * (slot + k)) as u32,
        );
    }
    reached
}

// Copies the links of the classes `lo` up to `hi` of each base to the base array `parent`, from row `at` on. Returns where the next row goes. How far the rows
// of each base have been gone through is held for the classes from `hi` on.
fn copy_bases(
    links: &mut [u32],
    counts: [u32; 3],
    array: ArrayLinks,
    bases: usize,
    classes: usize,
    lo: usize,
    hi: usize,
    at: usize,
    parent: u32,
    held: &mut [u32; 4096],
) -> usize
    requires source { Source links.old counts array.object array.rows }
    requires lo_le_hi { (lo ≤ hi) × (hi ≤ classes) × (classes < 65536) × (2 + 2 * (bases * classes) ≤ orders) }
    requires rows_room { RowsRoom links.old counts at (base_copies (in_use links.old counts) array.object bases classes lo hi parent) }
    ensures { Copied (came links) at (base_copies (in_use (came links) counts) array.object bases classes lo hi parent) (left links) result }
{
    let width = hi - lo;
    let apart = rows_each(array.rows, bases, width);
    let mut next = at;
    let mut near = array.rows.first;
    for base in 0..bases {
        let reached = copy_base(
            links,
            counts,
            array,
            held_row(held, base, near),
            base * classes + lo,
            width,
            next,
            parent,
            base * width,
        );
        next = reached.at;
        hold_row(held, base, reached.old);
        near = reached.old.min(array.rows.after) + apart;
    }
    next
}

// Copies the links of these marks, and of the classes `lo` up to `hi` of each base, to the mark array `parent` and the base array behind it, from row `at` on.
// Returns where the next row goes.
fn copy_arrays(
    links: &mut [u32],
    counts: [u32; 3],
    arrays: Arrays,
    rows: ArrayRows,
    places: &[u16],
    lo: u16,
    hi: u16,
    at: usize,
    parent: u32,
    held: &mut [u32; 4096],
) -> usize
    requires sources { Sources links.old counts arrays rows × (length places.now ≤ 16777216) }
    requires lo_le_hi { (lo ≤ hi) × (hi ≤ arrays.classes) × (parent + 1 < 4294967296) }
    requires rows_room { RowsRoom links.old counts at (array_copies (in_use links.old counts) arrays places.now lo hi parent) }
    ensures { Copied (came links) at (array_copies (in_use (came links) counts) arrays places.now lo hi parent) (left links) result }
{
    let mark_array = ArrayLinks {
        object: arrays.mark_array,
        rows: rows.marks,
    };
    let base_array = ArrayLinks {
        object: arrays.base_array,
        rows: rows.bases,
    };
    let middle = copy_marks(links, counts, mark_array, places, at, parent);
    copy_bases(
        links,
        counts,
        base_array,
        arrays.bases as usize,
        arrays.classes as usize,
        lo as usize,
        hi as usize,
        middle,
        parent + 1,
        held,
    )
}

// Writes the links of the new table, its header's and those of its arrays, from row `at` on. Returns where the next row goes.
fn copy_table(
    links: &mut [u32],
    counts: [u32; 3],
    arrays: Arrays,
    rows: ArrayRows,
    places: &[u16],
    lo: u16,
    hi: u16,
    at: usize,
    table: u32,
    held: &mut [u32; 4096],
) -> usize
    requires sources { Sources links.old counts arrays rows × (length places.now ≤ 16777216) }
    requires lo_le_hi { (lo ≤ hi) × (hi ≤ arrays.classes) × (table + 3 < 4294967296) }
    requires rows_room { RowsRoom links.old counts at (table_copies (in_use links.old counts) arrays places.now lo hi table) }
    ensures { Copied (came links) at (table_copies (in_use (came links) counts) arrays places.now lo hi table) (left links) result }
{
    let own = [2u32, 8, 10];
    let heads = [2u32, 4, 8, 10];
    put_header(links, at, &own, &heads, table, arrays.base_coverage);
    copy_arrays(
        links,
        counts,
        arrays,
        rows,
        places,
        lo,
        hi,
        at + heads.len(),
        table + 2,
        held,
    )
}

// Writes the links of all new tables, from row `at` on; `first` is the number of the first, and its marks start at `start`. Returns where the next row goes.
fn copy_tables(
    links: &mut [u32],
    counts: [u32; 3],
    arrays: Arrays,
    rows: ArrayRows,
    places: &[u16],
    classes: &[u16],
    cuts: &[u16],
    start: usize,
    at: usize,
    first: usize,
) -> usize
    requires sources { Sources links.old counts arrays rows × Parted places.now classes.now cuts.now arrays.classes }
    requires places_len_bound { (length places.now ≤ 16777216) × (first + per_table * length cuts.now ≤ 4294967296) }
    requires part_end { PartEnd classes.now 0 (get_or cuts.now 0 0) start }
    requires rows_room { RowsRoom links.old counts at (tables_copies (in_use links.old counts) arrays places.now classes.now cuts.now first) }
    ensures { Copied (came links) at (tables_copies (in_use (came links) counts) arrays places.now classes.now cuts.now first) (left links) result }
{
    let mut held = [0u32; 4096];
    let mut from = start;
    let mut next = at;
    let mut table = first;
    for (j, &lo) in cuts.iter().enumerate() {
        let hi = cut_after(cuts, j, arrays.classes);
        let to = part_end(classes, from, hi);
        next = copy_table(
            links,
            counts,
            arrays,
            rows,
            &places[from..to],
            lo,
            hi,
            next,
            table as u32,
            &mut held,
        );
        table += 4;
        from = to;
    }
    next
}

// Writes the links of all new objects behind the rows in use. Returns how many rows are in use then.
fn copy_new(
    links: &mut [u32],
    counts: [u32; 3],
    arrays: Arrays,
    places: &[u16],
    classes: &[u16],
    cuts: &[u16],
) -> usize
    requires { CopyReady links.old counts arrays places.now classes.now cuts.now }
    ensures { Copied (came links) (get_or counts 2 0)
        (new_copies (in_use (came links) counts) arrays places.now classes.now cuts.now (get_or counts 1 0)) (left links) result }
{
    let first = counts[1] as usize;
    let count = counts[2] as usize;
    let rows = ArrayRows::of(links, counts, arrays);
    let lo = cuts[0];
    let end = part_end(classes, 0, lo);
    let at = copy_tables(
        links, counts, arrays, rows, places, classes, cuts, end, count, first,
    );
    let parent = first + 4 * cuts.len() + 1;
    let mut held = [0u32; 4096];
    copy_arrays(
        links,
        counts,
        arrays,
        rows,
        &places[0..end],
        0,
        lo,
        at,
        parent as u32,
        &mut held,
    )
}

// Rewrites the link rows for a split of `table` at `cuts`: the kept table's coverage and arrays are new objects, and the links of its old arrays are copied to
// the new ones, by the marks' places and their classes. Returns how many rows are in use then.
pub fn copy_links(
    links: &mut [u32],
    counts: [u32; 3],
    table: u32,
    arrays: Arrays,
    places: &[u16],
    classes: &[u16],
    cuts: &[u16],
) -> usize
    requires { SplittingLent links.old counts table arrays places.now classes.now cuts.now }
    ensures { (b o : List ℕ) → Splitting (lent b o (came links) counts) table arrays places.now classes.now cuts.now
        → LinksSplit (lent b o (came links) counts) table cuts.now (left links) result }
{
    let count = copy_new(links, counts, arrays, places, classes, cuts);
    let own = [2u32, 8, 10];
    let first = (counts[1] as usize) + 4 * cuts.len();
    keep_rows(links, counts[2] as usize, &own, table, first as u32);
    count
}
