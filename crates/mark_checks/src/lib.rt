// The checks 1 to 5 of a MarkBasePos table, in document 02's order: one decision, which splits, cut plans and attachment readings share; then those of
// a call that is lent scratch. The Rust text asks some of this in `get_table_info` and in `sanitize` of the table and its arrays.
#![tactic(auto)]

pub mod call;
pub mod slots;

ghost use Rattle.std.specs.Prelude.{◌≡◌, true};
ghost use Rattle.ot_markbasepos.specs.Kinds.{array_at};
ghost use Rattle.store_rules.specs.Store.{sound};
ghost use Rattle.store_rules.specs.Moments.{store_came_with, store_now_with};
ghost use Rattle.mark_checks.specs.Checked.{Known, FindsArray, CoveragesRead, Checks};

use call_rules::Answer;
use glyph_parts::{Part, PartKind, glyphs_of, linked_part};
use ot_markbasepos::{ArrayKind, array_readable};
use ot_wire::u16_at;
use store_reader::{bytes_of, child_at, is_sound};

// A readable array: the object, and how many marks or bases it has.
#[derive(Clone, Copy)]
pub struct Array {
    pub object: u32,
    pub count: u16,
}

// A table that no check refuses.
#[derive(Clone, Copy)]
pub struct MarkTable {
    pub classes: u16,
    pub coverage: Part,
    pub glyphs: usize,
    pub base_coverage: Part,
    pub marks: Array,
    pub bases: Array,
}

// Checks a table of any store. The call has its answer where an error is returned, which for a table of another format is 0.
pub fn check_table(
    data: &[u8],
    objects: &[u32],
    links: &[u32],
    counts: [u32; 3],
    table: u32,
) -> Result<MarkTable, Answer>
    ensures { Checks (store_came_with «data» objects links counts) table result }
{
    if !is_sound(data, objects, links, counts) {
        return Err(Answer::Unsound);
    }
    if counts[1] <= table {
        return Err(Answer::NoTable);
    }
    let bytes = bytes_of(data, objects, table as usize);
    if bytes.len() < 2 {
        return Err(Answer::BadTable);
    }
    if u16_at(bytes, 0) != 1 {
        return Err(Answer::Done);
    }
    if bytes.len() != 12 {
        return Err(Answer::BadTable);
    }
    let classes = u16_at(bytes, 6);
    check_parts(data, objects, links, counts, table, classes)
}

// Checks 4 and 5 of a table of so many classes: its coverages, and then its arrays.
fn check_parts(
    data: &[u8],
    objects: &[u32],
    links: &[u32],
    counts: [u32; 3],
    table: u32,
    classes: u16,
) -> Result<MarkTable, Answer>
    requires { Known (store_now_with «data» objects links counts) table classes }
    ensures { Checks (store_came_with «data» objects links counts) table result }
{
    let first = linked_part(data, objects, links, counts, table, 2, PartKind::Coverage);
    let coverage = first.ok_or(Answer::BadParts)?;
    let second = linked_part(data, objects, links, counts, table, 4, PartKind::Coverage);
    let base_coverage = second.ok_or(Answer::BadParts)?;
    check_arrays(
        data,
        objects,
        links,
        counts,
        table,
        classes,
        coverage,
        base_coverage,
    )
}

// The same of a table whose coverages have been read.
fn check_arrays(
    data: &[u8],
    objects: &[u32],
    links: &[u32],
    counts: [u32; 3],
    table: u32,
    classes: u16,
    coverage: Part,
    base_coverage: Part,
) -> Result<MarkTable, Answer>
    requires { CoveragesRead (store_now_with «data» objects links counts) table classes coverage base_coverage }
    ensures { Checks (store_came_with «data» objects links counts) table result }
{
    let marks = linked_array(
        data,
        objects,
        links,
        counts,
        table,
        8,
        ArrayKind::Marks,
        classes,
    )
    .ok_or(Answer::BadParts)?;
    let bases = linked_array(
        data,
        objects,
        links,
        counts,
        table,
        10,
        ArrayKind::Bases,
        classes,
    )
    .ok_or(Answer::BadParts)?;
    let glyphs = glyphs_of(data, objects, coverage);
    if glyphs < (marks.count as usize) {
        return Err(Answer::FewGlyphs);
    }
    Ok(MarkTable {
        classes,
        coverage,
        glyphs,
        base_coverage,
        marks,
        bases,
    })
}

// The array of the kind, if one is linked at `position` and readable.
fn linked_array(
    data: &[u8],
    objects: &[u32],
    links: &[u32],
    counts: [u32; 3],
    table: u32,
    position: u32,
    kind: ArrayKind,
    classes: u16,
) -> Option<Array>
    requires { (sound (store_now_with «data» objects links counts) ≡ true) × (position ≡ array_at kind) }
    ensures { FindsArray kind (store_came_with «data» objects links counts) table classes result }
{
    let object = child_at(links, counts, table, position)?;
    let array = bytes_of(data, objects, object as usize);
    if !array_readable(array, kind, classes) {
        return None;
    }
    Some(Array {
        object,
        count: u16_at(array, 0),
    })
}
