// Ranges of glyphs, format 2 of Coverage and of ClassDef: six bytes each from byte 4 on, start, end, and a third number.
#![tactic(auto)]

ghost use Rattle.std.specs.Prelude.{◌≡◌, true, ◌+◌, ◌≤◌, ◌<◌, length};
ghost use Rattle.folds.specs.Lists.{put};
ghost use Rattle.ot_layouts.specs.Coverage.{ranges_fit};
ghost use Rattle.folds.specs.Moments.{came, left};
ghost use Rattle.ot_ranges.specs.Ranges.{range_of, range_bytes};

use halving::partition_point;
use ot_wire::{put_u16, u16_at};

// Whether `count` ranges fill the table, each with its start above the end before it and no higher than its own end.
pub fn ranges_fit(part: &[u8], count: usize) -> bool
    requires { count < 65536 }
    ensures { result ≡ ranges_fit part.now count }
{
    if part.len() != 4 + 6 * count {
        return false;
    }
    let mut next: usize = 0;
    for k in 0..count {
        let start = usize::from(u16_at(part, 4 + 6 * k));
        let end = usize::from(u16_at(part, 6 + 6 * k));
        if start < next {
            return false;
        }
        if end < start {
            return false;
        }
        next = end + 1;
    }
    true
}

// The range that has the glyph: the first that does not end below it, where that one starts no higher.
pub fn range_of(part: &[u8], count: usize, glyph: u16) -> Option<usize>
    requires { ranges_fit part.now count ≡ true }
    ensures { result ≡ range_of part.now count glyph }
{
    let k = partition_point(0, count, |k| u16_at(part, 6 + 6 * k) < glyph);
    if k < count && u16_at(part, 4 + 6 * k) <= glyph {
        Some(k)
    } else {
        None
    }
}

// Writes a range at `at`.
pub fn put_range(out: &mut [u8], at: usize, start: u16, end: u16, beside: u16)
    requires { at + 6 ≤ length out.old }
    ensures { left out ≡ put (came out) at (range_bytes start end beside) }
{
    put_u16(out, at, start);
    put_u16(out, at + 2, end);
    put_u16(out, at + 4, beside);
}
