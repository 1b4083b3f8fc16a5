// The new objects of a split of a MarkBasePos table, in document 02's order: how many bytes they take, and their bytes and rows.
// The counterpart of `clone_range` and `shrink`.
#![tactic(auto)]

ghost use Rattle.std.specs.Prelude.{◌≡◌, ◌∷◌, ◌<◌, length, get_or};
ghost use Rattle.folds.specs.Lists.{join};
ghost use Rattle.folds.specs.Moments.{came, left};
ghost use Rattle.store_object_rows.specs.Objects.{ObjectsRoom, Written};
ghost use Rattle.cut_parts.specs.Tables.{PartEnd};
ghost use Rattle.mark_rules.specs.Written.{new_table};
ghost use Rattle.mark_new_objects.specs.Planned.{RangeMarks, PlannedParts};
ghost use Rattle.mark_new_objects.specs.Objects.{parts_of, parts_length, tables_of, objects_of};

use cut_parts::{cut_after, part_end};
use mark_new_table::{write_arrays, write_table};
use ot_coverage_writer::{coverage_length, write_coverage};
use store_object_rows::put_object;

// The objects of a new table: itself, its coverage, its mark array and its base array.
const PER_TABLE: usize = 4;

// How many bytes the coverage of a table of these glyphs takes, and its arrays, of so many bases and classes.
fn parts_length(glyphs: &[u16], bases: u16, classes: u16) -> usize
    requires { length glyphs.now < 65536 }
    ensures { result ≡ parts_length glyphs.now bases classes }
{
    let slots = (bases as usize) * (classes as usize);
    coverage_length(glyphs) + (2 + 4 * glyphs.len()) + (2 + 2 * slots)
}

// How many bytes all new objects take.
pub fn new_length(
    glyphs: &[u16],
    classes: &[u16],
    cuts: &[u16],
    class_count: u16,
    bases: u16,
) -> usize
    requires { PlannedParts glyphs.now classes.now cuts.now class_count }
    ensures { result ≡ length (join (objects_of glyphs.now classes.now bases class_count cuts.now)) }
{
    let kept = cuts[0];
    let mut at = part_end(classes, 0, kept);
    let mut total = parts_length(&glyphs[0..at], bases, kept);
    for (i, &lo) in cuts.iter().enumerate() {
        let hi = cut_after(cuts, i, class_count);
        let end = part_end(classes, at, hi);
        let parts = parts_length(&glyphs[at..end], bases, hi - lo);
        total += 12 + parts;
        at = end;
    }
    total
}

// Writes the coverage and the arrays of such a table. Returns where they end.
fn write_parts(
    data: &mut [u8],
    objects: &mut [u32],
    glyphs: &[u16],
    classes: &[u16],
    bases: u16,
    lo: u16,
    hi: u16,
    at: usize,
    row: usize,
) -> usize
    requires range_marks { RangeMarks glyphs.now classes.now lo hi }
    requires objects_room_lem { ObjectsRoom «data».old objects.old at row (parts_of glyphs.now classes.now bases lo hi) }
    ensures { Written (came «data») (came objects) at row (parts_of glyphs.now classes.now bases lo hi) (left «data») (left objects) result }
{
    let end = write_coverage(glyphs, data, at);
    put_object(objects, row, at as u32, end as u32);
    write_arrays(data, objects, classes, bases, lo, hi, end, row + 1)
}

// Writes such a table, and behind it its parts. Returns where they end.
fn write_table_objects(
    data: &mut [u8],
    objects: &mut [u32],
    glyphs: &[u16],
    classes: &[u16],
    bases: u16,
    lo: u16,
    hi: u16,
    at: usize,
    row: usize,
) -> usize
    requires range_marks { RangeMarks glyphs.now classes.now lo hi }
    requires objects_room_lem { ObjectsRoom «data».old objects.old at row (new_table lo hi ∷ parts_of glyphs.now classes.now bases lo hi) }
    ensures { Written (came «data») (came objects) at row (new_table lo hi ∷ parts_of glyphs.now classes.now bases lo hi) (left «data»)
        (left objects) result }
{
    let end = write_table(data, lo, hi, at);
    put_object(objects, row, at as u32, end as u32);
    write_parts(data, objects, glyphs, classes, bases, lo, hi, end, row + 1)
}

// Writes the new tables of a split, each with its parts, from byte `byte_count` and row `object_count` on; the glyphs of the first one start at `start`.
// Returns where they end.
fn write_tables(
    data: &mut [u8],
    objects: &mut [u32],
    glyphs: &[u16],
    classes: &[u16],
    cuts: &[u16],
    class_count: u16,
    bases: u16,
    start: usize,
    byte_count: usize,
    object_count: usize,
) -> usize
    requires planned_parts { PlannedParts glyphs.now classes.now cuts.now class_count }
    requires part_end { PartEnd classes.now 0 (get_or cuts.now 0 0) start }
    requires objects_room_lem { ObjectsRoom «data».old objects.old byte_count object_count (tables_of glyphs.now classes.now bases class_count cuts.now) }
    ensures { Written (came «data») (came objects) byte_count object_count
        (tables_of glyphs.now classes.now bases class_count cuts.now) (left «data») (left objects) result }
{
    let mut from = start;
    let mut at = byte_count;
    let mut row = object_count;
    for (j, &lo) in cuts.iter().enumerate() {
        let hi = cut_after(cuts, j, class_count);
        let to = part_end(classes, from, hi);
        at = write_table_objects(
            data,
            objects,
            &glyphs[from..to],
            &classes[from..to],
            bases,
            lo,
            hi,
            at,
            row,
        );
        row += PER_TABLE;
        from = to;
    }
    at
}

// Writes all new objects of a split, from byte `byte_count` and row `object_count` on: the kept table's come last. Returns where they end.
pub fn write_objects(
    data: &mut [u8],
    objects: &mut [u32],
    glyphs: &[u16],
    classes: &[u16],
    cuts: &[u16],
    class_count: u16,
    bases: u16,
    byte_count: usize,
    object_count: usize,
) -> usize
    requires planned_parts { PlannedParts glyphs.now classes.now cuts.now class_count }
    requires objects_room_lem { ObjectsRoom «data».old objects.old byte_count object_count (objects_of glyphs.now classes.now bases class_count cuts.now) }
    ensures { Written (came «data») (came objects) byte_count object_count
        (objects_of glyphs.now classes.now bases class_count cuts.now) (left «data») (left objects) result }
{
    let kept = cuts[0];
    let first = part_end(classes, 0, kept);
    let row = object_count + PER_TABLE * cuts.len();
    let at = write_tables(
        data,
        objects,
        glyphs,
        classes,
        cuts,
        class_count,
        bases,
        first,
        byte_count,
        object_count,
    );
    write_parts(
        data,
        objects,
        &glyphs[0..first],
        &classes[0..first],
        bases,
        0,
        kept,
        at,
        row,
    )
}
