// What is counted and said.
ghost use Rattle.std.specs.Prelude.{◌≡◌, ◌≤◌, ◌+◌};

use crate::calls::Called;
use crate::store::Kind;
use std::{fmt, io};

// A case that is compared with what is stored of it, and whether all was as stored so far.
#[derive(Drop)]
pub struct Case<'a, R> {
    rt: &'a R,
    number: u64,
    agrees: bool,
}

impl<'a, R: Print> Case<'a, R> {
    pub fn new(rt: &'a R, number: u64) -> Case<'a, R> {
        Case {
            rt,
            number,
            agrees: true,
        }
    }

    // Says what of a call differs, where it does.
    pub fn same(&mut self, call: &str, what: &str, agrees: bool) -> io::Result<()> {
        if agrees {
            return Ok(());
        }
        self.agrees = false;
        let number = self.number;
        println!(self.rt; "case {number}, {call}: {what} differs")
    }

    // Something stored is not there.
    pub fn lacks(&mut self) {
        self.agrees = false;
    }

    pub fn agrees(&self) -> bool {
        self.agrees
    }
}

// What came of the cases, as numbers of them. No more differ than there are.
#[derive(Drop)]
pub struct Tally {
    cases: u32,
    cut: u64,
    uncut: u64,
    refused: [u64; 12],
    of_marks: u64,
    differing: u32,
    ghost few: { differing ≤ cases },
}

impl Tally {
    // The tally before so many cases are replayed.
    pub fn new(cases: u32) -> Tally
        ensures { (result.cases ≡ cases) × (result.differing ≡ 0) }
    {
        Tally {
            cases,
            cut: 0,
            uncut: 0,
            refused: [0; 12],
            of_marks: 0,
            differing: 0,
        }
    }

    // Adds a case of a kind of table and what its split answered. A number past the last refusal counts as that.
    pub fn add(&mut self, kind: Kind, split: Called)
        ensures { (self.new.cases ≡ self.old.cases) × (self.new.differing ≡ self.old.differing) }
    {
        match (split.count, split.answer) {
            (0, 0) => self.uncut = self.uncut.saturating_add(1),
            (0, refusal) => {
                let refused = &mut self.refused[refusal.clamp(1, 12) as usize - 1];
                *refused = refused.saturating_add(1);
            }
            _ => self.cut = self.cut.saturating_add(1),
        }
        match kind {
            Kind::Pairs => {}
            Kind::Marks => self.of_marks = self.of_marks.saturating_add(1),
        }
    }

    // Adds cases that are not as stored, or not there.
    pub fn add_differing(&mut self, count: u32)
        requires { self.old.differing + count ≤ self.old.cases }
        ensures { (self.new.cases ≡ self.old.cases) × (self.new.differing ≡ self.old.differing + count) }
    {
        self.differing += count;
    }
}

impl fmt::Display for Tally {
    fn fmt<W: fmt::Write>(&self, f: &mut fmt::Formatter<W>) -> fmt::Result {
        writeln!(f, "cut: {}", self.cut)?;
        writeln!(f, "nothing to cut: {}", self.uncut)?;
        for (k, count) in self.refused.iter().enumerate() {
            writeln!(f, "refused by {}: {count}", k + 1)?;
        }
        writeln!(f, "cases: {}", self.cases)?;
        writeln!(f, "cases of marks: {}", self.of_marks)?;
        write!(f, "not as stored: {}", self.differing)
    }
}
