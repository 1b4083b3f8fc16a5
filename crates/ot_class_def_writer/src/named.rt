// The entries that a class definition names, those of a class above `first`: their runs, and where they start and end.
ghost use Rattle.std.specs.Prelude.{◌≡◌, ◌≤◌, ◌<◌, length};
ghost use Rattle.ot_layouts.specs.Coverage.{runs};
ghost use Rattle.ot_layouts.specs.ClassDef.{named};
ghost use Rattle.ot_class_def_writer.specs.Entries.{entries_of, joins_at, RunTo, FirstNamed, LastNamed, OutlineOf};
ghost use Rattle.ot_class_def_writer.specs.Written.{ranges_win};

use crate::covered::Entries;

// What decides the format: how many runs, how many glyphs from first to last; and the entry and the glyph that they start with.
#[derive(Clone, Copy)]
pub struct Outline {
    pub runs: usize,
    pub from: usize,
    pub start: usize,
    pub span: usize,
}

// Whether the entry behind `k` has the next glyph and the same class.
pub fn joined(glyphs: &[u16], classes: &[u16], k: usize) -> bool
    requires classes_len { length classes.now ≡ length glyphs.now }
    requires k_in_bounds { k < length glyphs.now }
    ensures { result ≡ joins_at glyphs.now classes.now k }
{
    k + 1 < glyphs.len()
        && classes[k] == classes[k + 1]
        && u32::from(glyphs[k]) + 1 == u32::from(glyphs[k + 1])
}

// The last entry of the run that has entry `k`.
pub fn run_last(glyphs: &[u16], classes: &[u16], k: usize) -> usize
    requires classes_len { length classes.now ≡ length glyphs.now }
    requires k_in_bounds { k < length glyphs.now }
    ensures { RunTo glyphs.now classes.now k result }
{
    let mut last = k;
    // Entry by entry, as long as they join.
    while joined(glyphs, classes, last) {
        last += 1;
    }
    last
}

// The first entry that is named, or the number of entries.
pub fn first_named(classes: &[u16], first: u16) -> usize
    ensures { FirstNamed classes.now first result }
{
    classes
        .iter()
        .position(|class| first < *class)
        .unwrap_or(classes.len())
}

// One past the last entry that is named, or 0.
pub fn last_named(classes: &[u16], first: u16) -> usize
    ensures { LastNamed classes.now first result }
{
    for last in (0..classes.len()).rev() {
        if first < classes[last] {
            return last + 1;
        }
    }
    0
}

impl Entries<'_> {
    // How many runs the named entries make.
    pub fn count_runs(&self) -> usize
        ensures value { result ≡ length (runs (named (entries_of self.now))) }
        ensures upper_bound { result ≤ length self.now.glyphs.now }
    {
        let mut count: usize = 0;
        let mut k: usize = 0;
        // Run by run: a named run is stepped over at once.
        while k < self.glyphs.len() {
            if self.first < self.classes[k] {
                k = run_last(self.glyphs, self.classes, k) + 1;
                count += 1;
            } else {
                k += 1;
            }
        }
        count
    }

    // What decides the format.
    pub fn outline(&self) -> Outline
        ensures { OutlineOf self.now result }
    {
        let glyphs = self.glyphs;
        let runs = self.count_runs();
        let from = first_named(self.classes, self.first);
        if from < glyphs.len() {
            let last = last_named(self.classes, self.first) - 1;
            let start = glyphs[from] as usize;
            let end = glyphs[last] as usize + 1;
            Outline {
                runs,
                from,
                start,
                span: end - start,
            }
        } else {
            Outline {
                runs,
                from,
                start: 0,
                span: 0,
            }
        }
    }
}

// Whether ranges are shorter than a list of classes, or there are more glyphs than a list can count.
pub fn ranges_win(runs: usize, span: usize) -> bool
    requires runs_bound { runs ≤ 65536 }
    requires span_bound { span ≤ 65536 }
    ensures { result ≡ ranges_win runs span }
{
    4 + 6 * runs < 6 + 2 * span || span == 65536
}
