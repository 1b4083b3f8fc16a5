// Format 2 written: ranges of glyphs of one class each, six bytes from byte 4 on: start, end, class.
ghost use Rattle.std.specs.Prelude.{◌≡◌, ◌++◌, ◌+◌, ◌*◌, ◌≤◌, ◌<◌, length};
ghost use Rattle.folds.specs.Lists.{put};
ghost use Rattle.ot_layouts.specs.Numbers.{be16};
ghost use Rattle.ot_layouts.specs.Coverage.{runs};
ghost use Rattle.ot_layouts.specs.ClassDef.{named, class_ranges};
ghost use Rattle.folds.specs.Moments.{came, left};
ghost use Rattle.ot_class_def_writer.specs.Entries.{entries_of};

use crate::covered::Entries;
use crate::named::run_last;
use ot_ranges::put_range;
use ot_wire::put_u16;

impl Entries<'_> {
    // Writes a range for each run of the named entries from `at` on, and returns where they end.
    pub fn put_runs(&self, out: &mut [u8], at: usize) -> usize
        requires first_in_bounds { at + 6 * length (runs (named (entries_of self.now))) ≤ length out.old }
        ensures out_value { left out ≡ put (came out) at (class_ranges (runs (named (entries_of self.now)))) }
        ensures value { result ≡ at + 6 * length (runs (named (entries_of self.now))) }
    {
        let mut end = at;
        let mut k: usize = 0;
        // Run by run, as in `count_runs`.
        while k < self.glyphs.len() {
            let class = self.classes[k];
            if self.first < class {
                let last = run_last(self.glyphs, self.classes, k);
                put_range(
                    out,
                    end,
                    self.glyphs[k],
                    self.glyphs[last],
                    class - self.first,
                );
                end += 6;
                k = last + 1;
            } else {
                k += 1;
            }
        }
        end
    }

    // Writes format 2 at `at`, of as many ranges as there are runs, and returns where it ends.
    pub fn write_ranges(&self, count: usize, out: &mut [u8], at: usize) -> usize
        requires count_value { count ≡ length (runs (named (entries_of self.now))) }
        requires count_bound { count < 65536 }
        requires count_in_bounds { at + (4 + 6 * count) ≤ length out.old }
        ensures out_value { left out ≡ put (came out) at
            (be16 2 ++ be16 count ++ class_ranges (runs (named (entries_of self.now)))) }
        ensures value { result ≡ at + (4 + 6 * count) }
    {
        put_u16(out, at, 2);
        put_u16(out, at + 2, count as u16);
        self.put_runs(out, at + 4)
    }
}
