// Format 2 read: ranges of glyphs, six bytes each from byte 4 on: start, end, and the place of start.
ghost use Rattle.std.specs.Prelude.{◌≡◌, true, ◌+◌, ◌≤◌, length};
ghost use Rattle.folds.specs.Folds.{run};
ghost use Rattle.folds.specs.Lists.{put};
ghost use Rattle.ot_layouts.specs.Coverage.{ranges_fit, indexed, cover_glyphs, cover_place};
ghost use Rattle.folds.specs.Moments.{came, left};
ghost use Rattle.ot_coverage_reader.specs.Coverage.{AsRanges};

use ot_ranges::range_of;
use ot_wire::u16_at;

// Whether each range is numbered by the glyphs before it.
pub fn indices_fit(part: &[u8], count: usize) -> bool
    requires { ranges_fit part.now count ≡ true }
    ensures { result ≡ indexed part.now count }
{
    let mut total: usize = 0;
    for k in 0..count {
        let start = usize::from(u16_at(part, 4 + 6 * k));
        let end = usize::from(u16_at(part, 6 + 6 * k));
        let index = usize::from(u16_at(part, 8 + 6 * k));
        if index != total {
            return false;
        }
        total += end + 1 - start;
    }
    true
}

// How many glyphs there are: those before the last range, and its own.
pub fn count_in_ranges(part: &[u8], count: usize) -> usize
    requires { AsRanges part.now count }
    ensures { (result ≡ length (cover_glyphs part.now)) × (result ≤ 65536) }
{
    if count == 0 {
        return 0;
    }
    let last = count - 1;
    let start = usize::from(u16_at(part, 4 + 6 * last));
    let end = usize::from(u16_at(part, 6 + 6 * last));
    let index = usize::from(u16_at(part, 8 + 6 * last));
    index + (end + 1 - start)
}

// The glyph's place: that of the range's start, and on from there.
pub fn place_in_ranges(part: &[u8], count: usize, glyph: u16) -> Option<usize>
    requires { AsRanges part.now count }
    ensures { result ≡ cover_place part.now glyph }
{
    let k = range_of(part, count, glyph)?;
    let start = u16_at(part, 4 + 6 * k);
    let index = usize::from(u16_at(part, 8 + 6 * k));
    Some(index + usize::from(glyph - start))
}

// Writes `count` numbers from `from` on to `out`, at `at`.
fn run_into(out: &mut [u16], at: usize, from: usize, count: usize)
    requires count_in_bounds { at + count ≤ length out.old }
    requires count_bound { from + count ≤ 65536 }
    ensures { left out ≡ put (came out) at (run from count) }
{
    for j in 0..count {
        out[at + j] = (from + j) as u16;
    }
}

// Writes the glyphs at the front of `out`.
pub fn ranges_into(part: &[u8], count: usize, out: &mut [u16])
    requires as_ranges { AsRanges part.now count }
    requires part_in_bounds { length (cover_glyphs part.now) ≤ length out.old }
    ensures { left out ≡ put (came out) 0 (cover_glyphs part.now) }
{
    let mut at: usize = 0;
    for k in 0..count {
        let start = usize::from(u16_at(part, 4 + 6 * k));
        let end = usize::from(u16_at(part, 6 + 6 * k));
        let size = end + 1 - start;
        run_into(out, at, start, size);
        at += size;
    }
}
