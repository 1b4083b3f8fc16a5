// Both formats written, for glyphs in ascending order.
ghost use Rattle.std.specs.Prelude.{◌≡◌, ◌++◌, ◌+◌, ◌*◌, ◌≤◌, ◌<◌, length};
ghost use Rattle.folds.specs.Lists.{put};
ghost use Rattle.ot_layouts.specs.Numbers.{be16, words};
ghost use Rattle.ot_layouts.specs.Coverage.{plain, runs, cover_ranges};
ghost use Rattle.folds.specs.Moments.{came, left};
ghost use Rattle.ot_coverage_writer.specs.Joins.{joins_next};

use ot_ranges::put_range;
use ot_wire::put_u16;

// Whether there is a glyph after the one at `k`, and it is one more.
fn joins_next(glyphs: &[u16], k: usize) -> bool
    requires { k < length glyphs.now }
    ensures { result ≡ joins_next glyphs.now k }
{
    k + 1 < glyphs.len() && u32::from(glyphs[k]) + 1 == u32::from(glyphs[k + 1])
}

// How many runs the glyphs make: one ends at each glyph that the next one does not join.
pub fn run_count(glyphs: &[u16]) -> usize
    ensures { (result ≡ length (runs (plain glyphs.now))) × (result ≤ length glyphs.now) }
{
    let mut count: usize = 0;
    for k in 0..glyphs.len() {
        if joins_next(glyphs, k) {
            continue;
        }
        count += 1;
    }
    count
}

// Writes a format and a count at `at`.
fn put_head(out: &mut [u8], at: usize, format: u16, count: u16)
    requires { at + 4 ≤ length out.old }
    ensures { left out ≡ put (came out) at (be16 format ++ be16 count) }
{
    put_u16(out, at, format);
    put_u16(out, at + 2, count);
}

// Writes the glyphs as a list, at `at`.
pub fn write_list(glyphs: &[u16], out: &mut [u8], at: usize)
    requires glyphs_len_bound { length glyphs.now < 65536 }
    requires glyphs_in_bounds { at + (4 + 2 * length glyphs.now) ≤ length out.old }
    ensures { left out ≡ put (came out) at (be16 1 ++ be16 (length glyphs.now) ++ words glyphs.now) }
{
    put_head(out, at, 1, glyphs.len() as u16);
    let first = at + 4;
    for k in 0..glyphs.len() {
        put_u16(out, first + 2 * k, glyphs[k]);
    }
}

// Writes the glyphs as `count` ranges, at `at`: one where each run ends, from the glyph at `from` on.
pub fn write_ranges(glyphs: &[u16], count: usize, out: &mut [u8], at: usize)
    requires glyphs_len_bound { length glyphs.now ≤ 65536 }
    requires count_value { count ≡ length (runs (plain glyphs.now)) }
    requires count_bound { count < 65536 }
    requires count_in_bounds { at + (4 + 6 * count) ≤ length out.old }
    ensures { left out ≡ put (came out) at (be16 2 ++ be16 count ++ cover_ranges 0 (runs (plain glyphs.now))) }
{
    put_head(out, at, 2, count as u16);
    let mut end = at + 4;
    let mut from: usize = 0;
    for k in 0..glyphs.len() {
        if joins_next(glyphs, k) {
            continue;
        }
        put_range(out, end, glyphs[from], glyphs[k], from as u16);
        end += 6;
        from = k + 1;
    }
}
