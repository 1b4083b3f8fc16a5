// Format 1 read: the classes of glyphs in a row, two bytes each from byte 6 on, behind the start glyph and the count.
ghost use Rattle.std.specs.Prelude.{◌≡◌, map, ◌+◌, ◌*◌, ◌≤◌, length};
ghost use Rattle.folds.specs.Lists.{put};
ghost use Rattle.ot_layouts.specs.Numbers.{u16_at};
ghost use Rattle.ot_layouts.specs.ClassDef.{class_def_of};
ghost use Rattle.folds.specs.Moments.{came, left};
ghost use Rattle.ot_class_def_reader.specs.Lookup.{list_class};

use ot_layouts::{Header, Kind};
use ot_wire::u16_at;

pub fn read_list(part: &[u8]) -> Option<Header>
    requires { u16_at part.now 0 ≡ 1 }
    ensures { result ≡ class_def_of part.now }
{
    if part.len() < 6 {
        return None;
    }
    let start = usize::from(u16_at(part, 2));
    let count = usize::from(u16_at(part, 4));
    (part.len() == 6 + 2 * count && start + count <= 65536).then_some(Header {
        kind: Kind::List,
        count,
    })
}

pub fn class_in_list(part: &[u8], count: usize, glyph: u16) -> u16
    requires { length part.now ≡ 6 + 2 * count }
    ensures { result ≡ list_class part.now count glyph }
{
    let start = u16_at(part, 2);
    if glyph < start {
        return 0;
    }
    let place = usize::from(glyph - start);
    if place < count {
        u16_at(part, 6 + 2 * place)
    } else {
        0
    }
}

// The classes of the glyphs, in order, at the front of `out`.
pub fn list_classes(part: &[u8], count: usize, glyphs: &[u16], out: &mut [u16])
    requires part_len { length part.now ≡ 6 + 2 * count }
    requires glyphs_in_bounds { length glyphs.now ≤ length out.old }
    ensures { left out ≡ put (came out) 0 (map (list_class part.now count) glyphs.now) }
{
    for (i, &glyph) in glyphs.iter().enumerate() {
        out[i] = class_in_list(part, count, glyph);
    }
}
