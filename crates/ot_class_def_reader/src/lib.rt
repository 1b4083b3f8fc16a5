// OpenType's ClassDef: the class of each glyph, read and looked up.
#![tactic(auto)]

use ot_layouts::{Header, Kind};
use ot_wire::u16_at;

pub mod in_ranges;
pub mod list;

ghost use Rattle.std.specs.Prelude.{◌≡◌, map, ◌≤◌, length, Some};
ghost use Rattle.folds.specs.Lists.{put};
ghost use Rattle.ot_layouts.specs.ClassDef.{class_def_of, class_of};
ghost use Rattle.ot_ranges.specs.Ascending.{Ascending};
ghost use Rattle.folds.specs.Moments.{came, left};

use in_ranges::{class_in_ranges, range_classes, read_ranges};
use list::{class_in_list, list_classes, read_list};

// What a class definition is read into; nothing, where it is malformed.
pub fn read_class_def(part: &[u8]) -> Option<Header>
    ensures { result ≡ class_def_of part.now }
{
    if part.len() < 4 {
        return None;
    }
    match u16_at(part, 0) {
        1 => read_list(part),
        2 => read_ranges(part),
        _ => None,
    }
}

// The class of a glyph, 0 where it is not named.
pub fn class_of(part: &[u8], header: Header, glyph: u16) -> u16
    requires { class_def_of part.now ≡ Some header }
    ensures { result ≡ class_of part.now glyph }
{
    let count = header.count;
    match header.kind {
        Kind::List => class_in_list(part, count, glyph),
        Kind::Ranges => class_in_ranges(part, count, glyph),
    }
}

// The classes of ascending glyphs, in order, at the front of `out`.
pub fn classes_into(part: &[u8], header: Header, glyphs: &[u16], out: &mut [u16])
    requires part_value { class_def_of part.now ≡ Some header }
    requires ascending { Ascending glyphs.now }
    requires glyphs_in_bounds { length glyphs.now ≤ length out.old }
    ensures { left out ≡ put (came out) 0 (map (class_of part.now) glyphs.now) }
{
    let count = header.count;
    match header.kind {
        Kind::List => list_classes(part, count, glyphs, out),
        Kind::Ranges => range_classes(part, count, glyphs, out),
    }
}
