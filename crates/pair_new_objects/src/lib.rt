// The new objects of a split, in document 01's order: how many bytes they take, and their bytes and rows.
#![tactic(auto)]

ghost use Rattle.std.specs.Prelude.{◌≡◌, ◌∷◌, ◌+◌, ◌≤◌, length, get_or};
ghost use Rattle.folds.specs.Lists.{join};
ghost use Rattle.ot_layouts.specs.PairPos.{shape_of};
ghost use Rattle.pair_new_table.specs.Cloned.{Cloned};
ghost use Rattle.folds.specs.Moments.{came, left};
ghost use Rattle.cut_parts.specs.Tables.{paired, PartEnd};
ghost use Rattle.store_object_rows.specs.Objects.{ObjectsRoom, Written};
ghost use Rattle.pair_new_objects.specs.Planned.{Beside, PlannedParts};
ghost use Rattle.pair_new_objects.specs.Objects.{parts_of, old_table, Old, table_of, tables_of, objects_of, Length};

use cut_parts::{cut_after, part_end};
use ot_class_def_writer::{class_def_length, write_class_def};
use ot_coverage_writer::{coverage_length, write_coverage};
use ot_pairpos::Layout;
use pair_new_table::{write_format1, write_format2};
use store_object_rows::put_object;

// How many bytes the coverage of a table takes, and in format 2 its class definition 1.
fn parts_length(glyphs: &[u16], classes: &[u16], format: u16, first: u16) -> usize
    requires classes_len { length classes.now ≡ length glyphs.now }
    requires beside { Beside format first (paired glyphs.now classes.now) }
    ensures { result ≡ length (join (parts_of format (paired glyphs.now classes.now) first)) }
{
    let coverage = coverage_length(glyphs);
    if format == 1 {
        return coverage;
    }
    coverage + class_def_length(glyphs, classes, first)
}

// How many bytes all new objects take.
pub fn new_length(glyphs: &[u16], classes: &[u16], cuts: &[u16], layout: Layout) -> usize
    requires { PlannedParts glyphs.now classes.now cuts.now layout }
    ensures { Length layout (paired glyphs.now classes.now) cuts.now result }
{
    let mut at = part_end(classes, 0, cuts[0]);
    let mut total = parts_length(&glyphs[0..at], &classes[0..at], layout.format, 0);
    for (i, &lo) in cuts.iter().enumerate() {
        let hi = cut_after(cuts, i, layout.count);
        let end = part_end(classes, at, hi);
        let parts = parts_length(&glyphs[at..end], &classes[at..end], layout.format, lo);
        total += layout.header + layout.item * ((hi - lo) as usize) + parts;
        at = end;
    }
    total
}

// Writes the coverage of a table, and in format 2 its class definition 1, from byte `at` and row `row` on. Returns where they end.
fn write_parts(
    data: &mut [u8],
    objects: &mut [u32],
    glyphs: &[u16],
    classes: &[u16],
    format: u16,
    first: u16,
    at: usize,
    row: usize,
) -> usize
    requires classes_len { length classes.now ≡ length glyphs.now }
    requires beside { Beside format first (paired glyphs.now classes.now) }
    requires objects_room_lem { ObjectsRoom «data».old objects.old at row (parts_of format (paired glyphs.now classes.now) first) }
    ensures { Written (came «data») (came objects) at row (parts_of format (paired glyphs.now classes.now) first) (left «data»)
        (left objects) result }
{
    let middle = write_coverage(glyphs, data, at);
    put_object(objects, row, at as u32, middle as u32);
    if format == 1 {
        return middle;
    }
    let end = write_class_def(glyphs, classes, first, data, middle);
    put_object(objects, row + 1, middle as u32, end as u32);
    end
}

// Writes a new table of items `lo` up to `hi` of the one at `head`, and returns where it ends.
fn write_table(data: &mut [u8], head: usize, layout: Layout, lo: u16, hi: u16, at: usize) -> usize
    requires old { Old «data».old head layout at }
    requires lo_le_hi { (lo ≤ hi) × (hi ≤ layout.count) }
    requires hi_in_bounds { at + length (table_of «data».old head layout lo hi) ≤ length «data».old }
    ensures { Cloned (came «data») (shape_of (old_table (came «data») head layout)) (old_table (came «data») head layout) lo hi at (left «data») result }
{
    if layout.format == 1 {
        return write_format1(data, head, lo, hi, at);
    }
    write_format2(data, head, layout.item, lo, hi, at)
}

// Writes a new table and what stands beside it, from byte `at` and row `row` on. Returns where they end.
fn write_table_objects(
    data: &mut [u8],
    objects: &mut [u32],
    glyphs: &[u16],
    classes: &[u16],
    head: usize,
    layout: Layout,
    lo: u16,
    hi: u16,
    at: usize,
    row: usize,
) -> usize
    requires classes_len { length classes.now ≡ length glyphs.now }
    requires beside { Beside layout.format lo (paired glyphs.now classes.now) }
    requires old { Old «data».old head layout at }
    requires lo_le_hi { (lo ≤ hi) × (hi ≤ layout.count) }
    requires objects_room_lem { ObjectsRoom «data».old objects.old at row
        (table_of «data».old head layout lo hi ∷ parts_of layout.format (paired glyphs.now classes.now) lo) }
    ensures { Written (came «data») (came objects) at row
        (table_of (came «data») head layout lo hi ∷ parts_of layout.format (paired glyphs.now classes.now) lo) (left «data»)
        (left objects) result }
{
    let end = write_table(data, head, layout, lo, hi, at);
    put_object(objects, row, at as u32, end as u32);
    write_parts(
        data,
        objects,
        glyphs,
        classes,
        layout.format,
        lo,
        end,
        row + 1,
    )
}

// Writes the new tables of a split of the one at `head`, each with what stands beside it, from byte `at` and row `row` on; the glyphs of the first one start
// at `start`. Returns where they end.
fn write_tables(
    data: &mut [u8],
    objects: &mut [u32],
    glyphs: &[u16],
    classes: &[u16],
    cuts: &[u16],
    layout: Layout,
    head: usize,
    start: usize,
    byte_count: usize,
    object_count: usize,
) -> usize
    requires planned_parts { PlannedParts glyphs.now classes.now cuts.now layout }
    requires part_end { PartEnd classes.now 0 (get_or cuts.now 0 0) start }
    requires old { Old «data».old head layout byte_count }
    requires objects_room_lem { ObjectsRoom «data».old objects.old byte_count object_count
        (tables_of «data».old head layout (paired glyphs.now classes.now) cuts.now) }
    ensures { Written (came «data») (came objects) byte_count object_count
        (tables_of (came «data») head layout (paired glyphs.now classes.now) cuts.now) (left «data») (left objects) result }
{
    let mut from = start;
    let mut at = byte_count;
    let mut row = object_count;
    for (j, &lo) in cuts.iter().enumerate() {
        let hi = cut_after(cuts, j, layout.count);
        let to = part_end(classes, from, hi);
        at = write_table_objects(
            data,
            objects,
            &glyphs[from..to],
            &classes[from..to],
            head,
            layout,
            lo,
            hi,
            at,
            row,
        );
        row += layout.own + 1;
        from = to;
    }
    at
}

// Writes all new objects of a split of the table at `head`, from byte `byte_count` and row `object_count` on. Returns where they end.
pub fn write_objects(
    data: &mut [u8],
    objects: &mut [u32],
    glyphs: &[u16],
    classes: &[u16],
    cuts: &[u16],
    layout: Layout,
    head: usize,
    byte_count: usize,
    object_count: usize,
) -> usize
    requires planned_parts { PlannedParts glyphs.now classes.now cuts.now layout }
    requires old { Old «data».old head layout byte_count }
    requires objects_room_lem { ObjectsRoom «data».old objects.old byte_count object_count
        (objects_of «data».old head layout (paired glyphs.now classes.now) cuts.now) }
    ensures { Written (came «data») (came objects) byte_count object_count
        (objects_of (came «data») head layout (paired glyphs.now classes.now) cuts.now) (left «data») (left objects) result }
{
    let first = part_end(classes, 0, cuts[0]);
    let row = object_count + (layout.own + 1) * cuts.len();
    let at = write_tables(
        data,
        objects,
        glyphs,
        classes,
        cuts,
        layout,
        head,
        first,
        byte_count,
        object_count,
    );
    write_parts(
        data,
        objects,
        &glyphs[0..first],
        &classes[0..first],
        layout.format,
        0,
        at,
        row,
    )
}
