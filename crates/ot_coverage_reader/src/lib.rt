// OpenType's Coverage: which glyphs a table speaks of, and each one's place. Read into a header, looked up and listed.
#![tactic(auto)]

pub mod in_ranges;
pub mod list;

ghost use Rattle.std.specs.Prelude.{◌≡◌, ◌≤◌, length, Some};
ghost use Rattle.folds.specs.Lists.{put};
ghost use Rattle.ot_layouts.specs.Coverage.{coverage_of, cover_glyphs, cover_place};
ghost use Rattle.folds.specs.Moments.{came, left};

use in_ranges::{count_in_ranges, indices_fit, place_in_ranges, ranges_into};
use list::{list_fits, list_into, place_in_list};
use ot_layouts::{Header, Kind};
use ot_ranges::ranges_fit;
use ot_wire::u16_at;

// What the bytes are: a list or ranges with their count; nothing, where they are no Coverage.
pub fn read_coverage(part: &[u8]) -> Option<Header>
    ensures { result ≡ coverage_of part.now }
{
    if part.len() < 4 {
        return None;
    }
    let count = usize::from(u16_at(part, 2));
    match u16_at(part, 0) {
        1 => list_fits(part, count).then_some(Header {
            kind: Kind::List,
            count,
        }),
        2 => (ranges_fit(part, count) && indices_fit(part, count)).then_some(Header {
            kind: Kind::Ranges,
            count,
        }),
        _ => None,
    }
}

// How many glyphs it covers.
pub fn glyph_count(part: &[u8], header: Header) -> usize
    requires { coverage_of part.now ≡ Some header }
    ensures { (result ≡ length (cover_glyphs part.now)) × (result ≤ 65536) }
{
    let count = header.count;
    match header.kind {
        Kind::List => count,
        Kind::Ranges => count_in_ranges(part, count),
    }
}

// The glyph's place among the covered ones.
pub fn place_of(part: &[u8], header: Header, glyph: u16) -> Option<usize>
    requires { coverage_of part.now ≡ Some header }
    ensures { result ≡ cover_place part.now glyph }
{
    let count = header.count;
    match header.kind {
        Kind::List => place_in_list(part, count, glyph),
        Kind::Ranges => place_in_ranges(part, count, glyph),
    }
}

// Writes all covered glyphs, in order, at the front of `out`.
pub fn glyphs_into(part: &[u8], header: Header, out: &mut [u16])
    requires part_value { coverage_of part.now ≡ Some header }
    requires part_in_bounds { length (cover_glyphs part.now) ≤ length out.old }
    ensures { left out ≡ put (came out) 0 (cover_glyphs part.now) }
{
    let count = header.count;
    match header.kind {
        Kind::List => list_into(part, count, out),
        Kind::Ranges => ranges_into(part, count, out),
    }
}
