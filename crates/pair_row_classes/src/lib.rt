// The classes of the rows in the table that is being filled: the estimator with the glyphs that it counts. The covered glyphs come in the
// order of their classes, so that each class's glyphs are one part, and those of the classes since the last cut are one part too.
#![tactic(auto)]

ghost use Rattle.std.specs.Prelude.{◌≡◌, List, ℕ, ◌+◌, ◌≤◌};
ghost use Rattle.ot_layouts.specs.Coverage.{Entry};
ghost use Rattle.folds.specs.Moments.{came, left};
ghost use Rattle.glyph_class_parts.specs.ClassParts.{OrderedByClass, start_of};
ghost use Rattle.pair_row_classes.specs.Classes.{Holds, Begins, AddsClass, RestartsClasses};

use glyph_class_parts::class_end;
use glyph_estimator::{Estimator, forget};

// The glyphs from `first` up to `to` are in the estimator and in the set; those of the last class start at `from`.
#[derive(Clone, Copy)]
pub struct Classes {
    pub estimator: Estimator,
    pub first: usize,
    pub from: usize,
    pub to: usize,
}

impl Classes {
    // No class yet.
    pub fn new() -> Self
        ensures { Begins result }
    {
        Classes {
            estimator: Estimator::new(),
            first: 0,
            from: 0,
            to: 0,
        }
    }

    // AddsClass the next class.
    pub fn add(self, class: u16, glyphs: &[u16], classes: &[u16], set: &mut [u8]) -> Self
        requires { (es : List Entry) × (a : ℕ) × (a ≤ class) × OrderedByClass es glyphs.now classes.now × Holds es glyphs.now a class self
            set.old }
        ensures { AddsClass glyphs.now classes.now class self (came set) result (left set) }
    {
        let from = self.to;
        let to = class_end(classes, from, class);
        let estimator = self.estimator;
        Classes {
            estimator: estimator.add(class, &glyphs[from..to], set),
            first: self.first,
            from,
            to,
        }
    }

    // Forgets all classes but the last.
    pub fn restart(self, class: u16, glyphs: &[u16], set: &mut [u8]) -> Self
        requires { (es : List Entry)
            × (cs : List ℕ)
            × (a : ℕ)
            × (a ≤ class)
            × OrderedByClass es glyphs.now cs
            × Holds es glyphs.now a (class + 1) self set.old
            × (self.from ≡ start_of es class) }
        ensures { RestartsClasses glyphs.now class self (came set) result (left set) }
    {
        let first = self.first;
        let from = self.from;
        let to = self.to;
        forget(set, &glyphs[first..to]);
        let estimator = self.estimator.reset();
        Classes {
            estimator: estimator.add(class, &glyphs[from..to], set),
            first: from,
            from,
            to,
        }
    }
}
