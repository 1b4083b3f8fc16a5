// OpenType's ClassDef written: the classes of glyphs in a row, or in ranges where that is shorter or a row can't count them.
#![tactic(auto)]

pub mod covered;
pub mod in_ranges;
pub mod list;
pub mod named;

ghost use Rattle.std.specs.Prelude.{◌≡◌, ◌+◌, ◌≤◌, ◌<◌, length};
ghost use Rattle.folds.specs.Lists.{put};
ghost use Rattle.ot_layouts.specs.Coverage.{runs};
ghost use Rattle.ot_layouts.specs.ClassDef.{named, class_def_bytes};
ghost use Rattle.ot_ranges.specs.Ascending.{Ascending};
ghost use Rattle.folds.specs.Moments.{came, left};
ghost use Rattle.ot_class_def_writer.specs.Entries.{reduced_entries};

use covered::Entries;
use named::ranges_win;

// How many bytes the class definition of these glyphs and classes has, the classes reduced by `first`.
pub fn class_def_length(glyphs: &[u16], classes: &[u16], first: u16) -> usize
    requires classes_len { length classes.now ≡ length glyphs.now }
    requires ascending { Ascending glyphs.now }
    ensures { result ≡ length (class_def_bytes (reduced_entries glyphs.now classes.now first)) }
{
    let entries = Entries {
        glyphs,
        classes,
        first,
    };
    let outline = entries.outline();
    let runs = outline.runs;
    let span = outline.span;
    if ranges_win(runs, span) {
        4 + 6 * runs
    } else {
        6 + 2 * span
    }
}

// Writes that class definition at `at`, and returns where it ends.
pub fn write_class_def(
    glyphs: &[u16],
    classes: &[u16],
    first: u16,
    out: &mut [u8],
    at: usize,
) -> usize
    requires classes_len { length classes.now ≡ length glyphs.now }
    requires ascending { Ascending glyphs.now }
    requires first_len_bound { length (runs (named (reduced_entries glyphs.now classes.now first))) < 65536 }
    requires first_in_bounds { at + length (class_def_bytes (reduced_entries glyphs.now classes.now first)) ≤ length out.old }
    ensures out_value { left out ≡ put (came out) at (class_def_bytes (reduced_entries glyphs.now classes.now first)) }
    ensures value { result ≡ at + length (class_def_bytes (reduced_entries glyphs.now classes.now first)) }
{
    let entries = Entries {
        glyphs,
        classes,
        first,
    };
    let outline = entries.outline();
    let runs = outline.runs;
    let span = outline.span;
    if ranges_win(runs, span) {
        entries.write_ranges(runs, out, at)
    } else {
        entries.write_list(outline, out, at)
    }
}
