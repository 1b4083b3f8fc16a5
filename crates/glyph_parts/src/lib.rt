// A coverage or a class definition that a table links: the object, read into its header, and what is looked up in it.
#![tactic(auto)]

ghost use Rattle.std.specs.Prelude.{◌≡◌, true, List, ℕ, length};
ghost use Rattle.ot_layouts.specs.Coverage.{coverage_of, cover_glyphs, cover_place};
ghost use Rattle.ot_layouts.specs.ClassDef.{class_def_of, class_of};
ghost use Rattle.store_rules.specs.Store.{lent, sound, bytes_of};
ghost use Rattle.store_rules.specs.Moments.{store_came_with, store_now_with};
ghost use Rattle.glyph_parts.specs.Parts.{read_as, linked_of, ReadPart};

use ot_class_def_reader::{class_of, read_class_def};
use ot_coverage_reader::{glyph_count, place_of, read_coverage};
use ot_layouts::Header;
use store_reader::{bytes_of, child_at};

// Which of the two an object is read as.
#[derive(Clone, Copy)]
pub enum PartKind {
    Coverage,
    ClassDef,
}

// A readable coverage or class definition: the object, and what it was read into.
#[derive(Clone, Copy)]
pub struct Part {
    pub object: u32,
    pub header: Header,
}

// What the bytes are, read as one of the two.
fn read_as(bytes: &[u8], kind: PartKind) -> Option<Header>
    ensures { result ≡ read_as kind bytes.now }
{
    match kind {
        PartKind::Coverage => read_coverage(bytes),
        PartKind::ClassDef => read_class_def(bytes),
    }
}

// The coverage or class definition that the table links at `position`, if one is linked there and readable.
pub fn linked_part(
    data: &[u8],
    objects: &[u32],
    links: &[u32],
    counts: [u32; 3],
    table: u32,
    position: u32,
    kind: PartKind,
) -> Option<Part>
    requires { sound (store_now_with «data» objects links counts) ≡ true }
    ensures { result ≡ linked_of (read_as kind) (store_came_with «data» objects links counts) table position }
{
    let child = child_at(links, counts, table, position);
    let Some(object) = child else {
        return None;
    };
    let header = read_as(bytes_of(data, objects, object as usize), kind)?;
    Some(Part { object, header })
}

// How many glyphs a coverage that was read covers.
pub fn glyphs_of(data: &[u8], objects: &[u32], coverage: Part) -> usize
    requires { ReadPart coverage_of «data».now objects.now coverage }
    ensures { (l c : List ℕ) → result ≡ length (cover_glyphs (bytes_of (lent «data».now objects.now l c) coverage.object)) }
{
    glyph_count(
        bytes_of(data, objects, coverage.object as usize),
        coverage.header,
    )
}

// The glyph's place in a coverage that was read.
pub fn place_in(data: &[u8], objects: &[u32], coverage: Part, glyph: u16) -> Option<usize>
    requires { ReadPart coverage_of «data».now objects.now coverage }
    ensures { (l c : List ℕ) → result ≡ cover_place (bytes_of (lent «data».now objects.now l c) coverage.object) glyph }
{
    place_of(
        bytes_of(data, objects, coverage.object as usize),
        coverage.header,
        glyph,
    )
}

// The glyph's class by a class definition that was read.
pub fn class_in(data: &[u8], objects: &[u32], class_def: Part, glyph: u16) -> u16
    requires { ReadPart class_def_of «data».now objects.now class_def }
    ensures { (l c : List ℕ) → result ≡ class_of (bytes_of (lent «data».now objects.now l c) class_def.object) glyph }
{
    class_of(
        bytes_of(data, objects, class_def.object as usize),
        class_def.header,
        glyph,
    )
}
