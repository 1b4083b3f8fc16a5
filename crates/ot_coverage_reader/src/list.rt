// Format 1 read: glyphs in strictly ascending order, two bytes each from byte 4 on.
ghost use Rattle.std.specs.Prelude.{◌≡◌, ◌≤◌, ◌<◌, length};
ghost use Rattle.folds.specs.Lists.{put};
ghost use Rattle.ot_layouts.specs.Coverage.{list_fits, cover_glyphs, cover_place};
ghost use Rattle.folds.specs.Moments.{came, left};
ghost use Rattle.ot_coverage_reader.specs.Coverage.{AsList};

use halving::partition_point;
use ot_wire::u16_at;

// Whether nothing stands behind `count` glyphs, and each is above the one before it.
pub fn list_fits(part: &[u8], count: usize) -> bool
    requires { count < 65536 }
    ensures { result ≡ list_fits part.now count }
{
    if part.len() != 4 + 2 * count {
        return false;
    }
    let mut next: usize = 0;
    for k in 0..count {
        let glyph = usize::from(u16_at(part, 4 + 2 * k));
        if glyph < next {
            return false;
        }
        next = glyph + 1;
    }
    true
}

// The glyph's place: that of the first which is not below it, where that is the glyph.
pub fn place_in_list(part: &[u8], count: usize, glyph: u16) -> Option<usize>
    requires { AsList part.now count }
    ensures { result ≡ cover_place part.now glyph }
{
    let k = partition_point(0, count, |k| u16_at(part, 4 + 2 * k) < glyph);
    if k < count && u16_at(part, 4 + 2 * k) == glyph {
        Some(k)
    } else {
        None
    }
}

// Writes the glyphs at the front of `out`.
pub fn list_into(part: &[u8], count: usize, out: &mut [u16])
    requires as_list { AsList part.now count }
    requires count_in_bounds { count ≤ length out.old }
    ensures { left out ≡ put (came out) 0 (cover_glyphs part.now) }
{
    for k in 0..count {
        out[k] = u16_at(part, 4 + 2 * k);
    }
}
