// Format 2 read: ranges of glyphs of one class each, six bytes from byte 4 on: start, end, class.
ghost use Rattle.std.specs.Prelude.{◌≡◌, true, cond, ◌&&◌, map, ◌+◌, ◌*◌, ◌≤◌, length, leb, ltb};
ghost use Rattle.folds.specs.Lists.{put};
ghost use Rattle.ot_layouts.specs.Numbers.{u16_at};
ghost use Rattle.ot_layouts.specs.Coverage.{start_at, end_at, beside_at, ranges_fit};
ghost use Rattle.ot_layouts.specs.ClassDef.{class_def_of};
ghost use Rattle.ot_ranges.specs.Ascending.{Ascending};
ghost use Rattle.folds.specs.Moments.{came, left};
ghost use Rattle.ot_class_def_reader.specs.Lookup.{range_class};

use ot_layouts::{Header, Kind};
use ot_ranges::{range_of, ranges_fit};
use ot_wire::u16_at;

pub fn read_ranges(part: &[u8]) -> Option<Header>
    requires in_bounds { 4 ≤ length part.now }
    requires part_value { u16_at part.now 0 ≡ 2 }
    ensures { result ≡ class_def_of part.now }
{
    let count = usize::from(u16_at(part, 2));
    ranges_fit(part, count).then_some(Header {
        kind: Kind::Ranges,
        count,
    })
}

pub fn class_in_ranges(part: &[u8], count: usize, glyph: u16) -> u16
    requires { ranges_fit part.now count ≡ true }
    ensures { result ≡ range_class part.now count glyph }
{
    match range_of(part, count, glyph) {
        Some(k) => u16_at(part, 8 + 6 * k),
        None => 0,
    }
}

// Whether there is a range `k`, and it ends below the glyph.
pub fn ends_below(part: &[u8], count: usize, k: usize, glyph: u16) -> bool
    requires { length part.now ≡ 4 + 6 * count }
    ensures { result ≡ (ltb k count && ltb (end_at part.now k) glyph) }
{
    k < count && u16_at(part, 6 + 6 * k) < glyph
}

// The class beside range `k` where there is one and it starts no higher than the glyph, else 0.
pub fn class_beside(part: &[u8], count: usize, k: usize, glyph: u16) -> u16
    requires { length part.now ≡ 4 + 6 * count }
    ensures { result ≡ cond (ltb k count && leb (start_at part.now k) glyph) (beside_at part.now k) 0 }
{
    if k < count && u16_at(part, 4 + 6 * k) <= glyph {
        u16_at(part, 8 + 6 * k)
    } else {
        0
    }
}

// The classes of ascending glyphs, in order, at the front of `out`: ranges and glyphs are walked together.
pub fn range_classes(part: &[u8], count: usize, glyphs: &[u16], out: &mut [u16])
    requires count_value { ranges_fit part.now count ≡ true }
    requires ascending { Ascending glyphs.now }
    requires glyphs_in_bounds { length glyphs.now ≤ length out.old }
    ensures { left out ≡ put (came out) 0 (map (range_class part.now count) glyphs.now) }
{
    let mut k: usize = 0;
    let mut i: usize = 0;
    // each turn goes one further in one of the two
    while i < glyphs.len() {
        let glyph = glyphs[i];
        if ends_below(part, count, k, glyph) {
            k += 1;
        } else {
            out[i] = class_beside(part, count, k, glyph);
            i += 1;
        }
    }
}
