// OpenType's Coverage written: the glyphs as a list, or as ranges where that is shorter.
#![tactic(auto)]

pub mod write;

ghost use Rattle.std.specs.Prelude.{◌≡◌, ◌+◌, ◌≤◌, length};
ghost use Rattle.folds.specs.Lists.{put};
ghost use Rattle.ot_layouts.specs.Coverage.{coverage_bytes};
ghost use Rattle.ot_ranges.specs.Ascending.{Ascending};
ghost use Rattle.folds.specs.Moments.{came, left};

use write::{run_count, write_list, write_ranges};

// How many bytes the Coverage of these glyphs takes.
pub fn coverage_length(glyphs: &[u16]) -> usize
    ensures { result ≡ length (coverage_bytes glyphs.now) }
{
    let runs = run_count(glyphs);
    if 3 * runs < glyphs.len() {
        4 + 6 * runs
    } else {
        4 + 2 * glyphs.len()
    }
}

// Writes the Coverage of these glyphs at byte `at` of `out`, and returns where it ends: in ranges only where that is shorter.
pub fn write_coverage(glyphs: &[u16], out: &mut [u8], at: usize) -> usize
    requires ascending { Ascending glyphs.now }
    requires glyphs_in_bounds { at + length (coverage_bytes glyphs.now) ≤ length out.old }
    ensures { (left out ≡ put (came out) at (coverage_bytes glyphs.now)) × (result ≡ at + length (coverage_bytes glyphs.now)) }
{
    let n = glyphs.len();
    let count = run_count(glyphs);
    if 3 * count < n {
        write_ranges(glyphs, count, out, at);
        at + (4 + 6 * count)
    } else {
        write_list(glyphs, out, at);
        at + (4 + 2 * n)
    }
}
