// The sizes of coverage and class definition 1, estimated over the classes since the last cut: the counterpart of `ClassDefSizeEstimator`.
// The glyphs of these classes are in a set that the caller lends; runs are counted as glyphs come in, or by the word where a class has many.
#![tactic(auto)]

ghost use Rattle.std.specs.Prelude.{◌≡◌, cond, [], ◌<◌, ◌≤◌, min, max, eqb, length, get_or};
ghost use Rattle.glyph_set.specs.GlyphSet.{blank_all};
ghost use Rattle.glyph_rules.specs.Estimates.{estimate, cover_size, class_size, beside_rows};
ghost use Rattle.folds.specs.Moments.{came, left};
ghost use Rattle.glyph_estimator.specs.States.{values_of, counted, starts_run, Takes, Taken, Covered, EstimatorReady, ClassAdded, Small};

use glyph_set::words::run_count;

// A class of fewer glyphs is added glyph by glyph.
const FEW: usize = 32;

// First and last glyph, glyphs and runs for coverage, and the two sizes of class definition 1: listed and in ranges.
#[derive(Clone, Copy)]
pub struct Estimator {
    pub first: u16,
    pub last: u16,
    pub glyphs: usize,
    pub runs: usize,
    pub listed: usize,
    pub ranged: usize,
}

impl Estimator {
    // No class yet. The set is emptied by `forget`.
    pub fn new() -> Self
        ensures { values_of result ≡ estimate [] }
    {
        Self {
            first: 0,
            last: 0,
            glyphs: 0,
            runs: 0,
            listed: 6,
            ranged: 4,
        }
    }

    // As at the start. The set is emptied by `forget`.
    pub fn reset(mut self) -> Self
        ensures { values_of result ≡ estimate [] }
    {
        self.first = 0;
        self.last = 0;
        self.glyphs = 0;
        self.runs = 0;
        self.listed = 6;
        self.ranged = 4;
        self
    }

    // Adds a class with its glyphs, which are not in the set yet, and puts them in. A class with no glyphs changes nothing.
    pub fn add(self, class: u16, glyphs: &[u16], set: &mut [u8]) -> Self
        requires { EstimatorReady self set.old glyphs.now }
        ensures { ClassAdded self (came set) class glyphs.now result (left set) }
    {
        if self.fills_words(glyphs) {
            return self.add_by_word(class, glyphs, set);
        }
        self.add_by_glyph(class, glyphs, set)
    }

    // Whether a class has two glyphs for each word of the set from the first glyph to the last, by its own first and last: from there on counting
    // by the word is quicker. Either way counts the same.
    fn fills_words(self, glyphs: &[u16]) -> bool {
        let n = glyphs.len();
        if n < FEW {
            return false;
        }
        let from = self.first_with(glyphs[0]) / 64;
        let to = self.last_with(glyphs[n - 1]) / 64;
        if to < from {
            return false;
        }
        2 * (usize::from(to - from) + 1) <= n
    }

    // Adds a class glyph by glyph, each with the runs that it makes or joins.
    fn add_by_glyph(mut self, class: u16, glyphs: &[u16], set: &mut [u8]) -> Self
        requires { EstimatorReady self set.old glyphs.now }
        ensures { ClassAdded self (came set) class glyphs.now result (left set) }
    {
        for k in 0..glyphs.len() {
            self = self.add_glyph(class, glyphs, k, set);
        }
        self
    }

    // Adds a class as a whole: once its glyphs are in the set, the runs are counted by the word.
    fn add_by_word(mut self, class: u16, glyphs: &[u16], set: &mut [u8]) -> Self
        requires { EstimatorReady self set.old glyphs.now }
        ensures { ClassAdded self (came set) class glyphs.now result (left set) }
    {
        for k in 0..glyphs.len() {
            self = self.take_glyph(class, glyphs, k, set);
        }
        self.runs = run_count(set, self.first, self.last);
        self
    }

    // Adds glyph `k` of a class.
    fn add_glyph(mut self, class: u16, glyphs: &[u16], k: usize, set: &mut [u8]) -> Self
        requires k_in_bounds { k < length glyphs.now }
        requires takes { Takes self set.old (get_or glyphs.now k 0) }
        ensures { Taken self (came set) class glyphs.now k result (left set) }
    {
        let joined = glyph_set::joined(set, glyphs[k]);
        self = self.take_glyph(class, glyphs, k, set);
        self.runs = self.runs + 1 - joined;
        self
    }

    // Adds glyph `k` of a class to all figures but the coverage's runs, and puts it in the set.
    fn take_glyph(mut self, class: u16, glyphs: &[u16], k: usize, set: &mut [u8]) -> Self
        requires k_in_bounds { k < length glyphs.now }
        requires takes { Takes (counted self set.old) set.old (get_or glyphs.now k 0) }
        ensures taken { Taken (counted self (came set)) (came set) class glyphs.now k (counted result (left set)) (left set) }
        ensures runs_value { result.runs ≡ self.runs }
    {
        self = self.cover(glyphs[k], set);
        if class == 0 {
            return self;
        }
        self.ranged += 6 * starts_run(glyphs, k);
        self
    }

    // Adds a glyph to the coverage, but for the runs, and puts it in the set.
    fn cover(mut self, glyph: u16, set: &mut [u8]) -> Self
        requires { Takes (counted self set.old) set.old glyph }
        ensures covered { Covered (counted self (came set)) (came set) glyph (counted result (left set)) (left set) }
        ensures runs_value { result.runs ≡ self.runs }
    {
        glyph_set::insert(set, glyph);
        let first = self.first_with(glyph);
        let last = self.last_with(glyph);
        self.first = first;
        self.last = last;
        self.glyphs += 1;
        self.listed = 6 + 2 * (usize::from(last - first) + 1);
        self
    }

    // The first glyph with one more.
    fn first_with(self, glyph: u16) -> u16
        ensures { result ≡ cond (eqb self.glyphs 0) glyph (min self.first glyph) }
    {
        if self.glyphs == 0 {
            glyph
        } else {
            self.first.min(glyph)
        }
    }

    // The last glyph with one more.
    fn last_with(self, glyph: u16) -> u16
        ensures { result ≡ cond (eqb self.glyphs 0) glyph (max self.last glyph) }
    {
        if self.glyphs == 0 {
            glyph
        } else {
            self.last.max(glyph)
        }
    }

    // The size of the coverage.
    pub fn coverage_size(self) -> usize
        requires { Small self }
        ensures { result ≡ cover_size (values_of self) }
    {
        (4 + 2 * self.glyphs).min(4 + 6 * self.runs)
    }

    // The size of class definition 1.
    pub fn class_def_size(self) -> usize
        ensures { result ≡ class_size (values_of self) }
    {
        self.listed.min(self.ranged)
    }

    // What coverage and class definitions add to the rows, class definition 2 being `class2` bytes: all but the largest of the three.
    pub fn beside(self, class2: usize) -> usize
        requires small { Small self }
        requires class2_bound { class2 ≤ 16777216 }
        ensures { result ≡ beside_rows class2 (values_of self) }
    {
        let coverage = self.coverage_size();
        let class1 = self.class_def_size();
        coverage + class1 + class2 - coverage.max(class1.max(class2))
    }
}

// Takes glyphs out of the set, each with its byte: all that were put in, and it is empty again.
pub fn forget(set: &mut [u8], glyphs: &[u16])
    requires { 8192 ≤ length set.old }
    ensures { left set ≡ blank_all (came set) glyphs.now }
{
    for glyph in glyphs {
        glyph_set::clear_byte(set, *glyph);
    }
}

// 1 where glyph `k` starts a run, 0 where it adjoins the one before it.
fn starts_run(glyphs: &[u16], k: usize) -> usize
    requires { k < length glyphs.now }
    ensures { result ≡ starts_run glyphs.now k }
{
    if k == 0 {
        return 1;
    }
    usize::from(u32::from(glyphs[k - 1]) + 1 != u32::from(glyphs[k]))
}
