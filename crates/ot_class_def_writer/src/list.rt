// Format 1 written: the classes of glyphs in a row, two bytes each from byte 6 on, behind the start glyph and the count.
ghost use Rattle.std.specs.Prelude.{◌≡◌, ◌&&◌, ◌++◌, ◌+◌, ◌-◌, ◌*◌, ◌≤◌, ◌<◌, length, get_or, ltb, eqb};
ghost use Rattle.folds.specs.Lists.{put};
ghost use Rattle.ot_layouts.specs.Numbers.{be16};
ghost use Rattle.ot_layouts.specs.ClassDef.{named};
ghost use Rattle.folds.specs.Moments.{came, left};
ghost use Rattle.ot_class_def_writer.specs.Entries.{entries_of, OutlineOf};
ghost use Rattle.ot_class_def_writer.specs.Written.{class_row};

use crate::covered::Entries;
use crate::named::Outline;
use ot_wire::put_u16;

// The class with `first` taken off, 0 where it is no higher.
pub fn reduced(class: u16, first: u16) -> u16
    ensures { result ≡ class - first }
{
    class.saturating_sub(first)
}

// Whether entry `k` is that of the glyph.
pub fn stands(glyphs: &[u16], k: usize, glyph: usize) -> bool
    ensures { result ≡ (ltb k (length glyphs.now) && eqb (get_or glyphs.now k 0) glyph) }
{
    k < glyphs.len() && usize::from(glyphs[k]) == glyph
}

impl Entries<'_> {
    // Writes the class of each glyph from the first named to the last, 0 for those between.
    pub fn put_classes(&self, outline: Outline, out: &mut [u8], at: usize)
        requires outlines { OutlineOf self.now outline }
        requires span_in_bounds { at + 2 * outline.span ≤ length out.old }
        ensures { left out ≡ put (came out) at (class_row (named (entries_of self.now)) outline.start outline.span) }
    {
        let start = outline.start;
        let span = outline.span;
        let mut k = outline.from;
        for j in 0..span {
            if stands(self.glyphs, k, start + j) {
                put_u16(out, at + 2 * j, reduced(self.classes[k], self.first));
                k += 1;
                continue;
            }
            put_u16(out, at + 2 * j, 0);
        }
    }

    // Writes format 1 at `at`, and returns where it ends.
    pub fn write_list(&self, outline: Outline, out: &mut [u8], at: usize) -> usize
        requires outlines { OutlineOf self.now outline }
        requires span_bound { outline.span < 65536 }
        requires span_in_bounds { at + (6 + 2 * outline.span) ≤ length out.old }
        ensures out_value { left out
            ≡ put (came out) at
            (be16 1 ++ be16 outline.start ++ be16 outline.span ++ class_row (named (entries_of self.now))
            outline.start outline.span) }
        ensures value { result ≡ at + (6 + 2 * outline.span) }
    {
        let start = outline.start;
        let span = outline.span;
        put_u16(out, at, 1);
        put_u16(out, at + 2, start as u16);
        put_u16(out, at + 4, span as u16);
        self.put_classes(outline, out, at + 6);
        at + 6 + 2 * span
    }
}
