// Answers, settings, scratch, room and outcomes of calls: in specs/ as definitions, and here what these share with code.
#![tactic(auto)]

ghost use Rattle.std.specs.Prelude.{◌≡◌, List, ℕ};
ghost use Rattle.folds.specs.Moments.{left};
ghost use Rattle.store_rules.specs.Store.{lent};
ghost use Rattle.call_rules.specs.Answers.{number, answer_of, count_of};
ghost use Rattle.call_rules.specs.Needs.{lent_of};
ghost use Rattle.call_rules.specs.Scratch.{lengths_of, scratch_of};
ghost use Rattle.call_rules.specs.Settings.{known};

// Every answer, those of refusals in the one order in which they are asked: a call skips what it does not have. `Done` is also asked: for another format between
// the two clauses of `BadTable`, and where there is no cut behind `UnsortedSets`. specs/Answers.antt gives each its number.
// As the error of a `Result` it says that the call has its answer; so `Done` is no refusal there, but the answer of a call that has nothing to do.
#[derive(Clone, Copy, Debug, PartialEq, Eq)]
pub enum Answer {
    Done,
    BadEdition,
    Unsound,
    NoTable,
    BadList,
    BadTable,
    BadParts,
    FewGlyphs,
    ShortScratch,
    BadLinks,
    UnsortedSets,
    ManySubtables,
    NoRoom,
}

// How long each scratch is.
#[derive(Clone, Copy)]
pub struct Lengths {
    pub walk: usize,
    pub glyph_set: usize,
    pub glyphs: usize,
    pub classes: usize,
    pub cuts: usize,
}

// How long the data, the object rows, the link rows and the result list are that the caller has lent.
#[derive(Clone, Copy)]
pub struct Lent {
    pub data: usize,
    pub objects: usize,
    pub links: usize,
    pub list: usize,
}

// What a call needs beside what is in use: new objects, new links, their bytes, and entries of the result list.
#[derive(Clone, Copy)]
pub struct Needs {
    pub objects: usize,
    pub links: usize,
    pub bytes: usize,
    pub entries: usize,
}

// How a call cuts: by which edition of the cutting rule.
#[derive(Clone, Copy)]
pub struct Settings {
    pub edition: u32,
}

// The number of an answer, as the calls give it out.
impl From<Answer> for u32 {
    ghost from_gives = { λ answer n. n ≡ number answer };

    fn from(answer: Answer) -> u32 {
        match answer {
            Answer::Done => 0,
            Answer::BadEdition => 12,
            Answer::Unsound => 1,
            Answer::NoTable => 2,
            Answer::BadList => 9,
            Answer::BadTable => 3,
            Answer::BadParts => 4,
            Answer::FewGlyphs => 5,
            Answer::ShortScratch => 6,
            Answer::BadLinks => 7,
            Answer::UnsortedSets => 11,
            Answer::ManySubtables => 10,
            Answer::NoRoom => 8,
        }
    }
}

impl Lengths {
    // How long these are.
    pub fn of(
        walk: &[u32],
        glyph_set: &[u8],
        glyphs: &[u16],
        classes: &[u16],
        cuts: &[u16],
    ) -> Lengths
        ensures { result ≡ lengths_of (scratch_of walk.now glyph_set.now glyphs.now classes.now cuts.now) }
    {
        Lengths {
            walk: walk.len(),
            glyph_set: glyph_set.len(),
            glyphs: glyphs.len(),
            classes: classes.len(),
            cuts: cuts.len(),
        }
    }
}

impl Lent {
    // How long these are, whatever is in use of them.
    pub fn of(data: &[u8], objects: &[u32], links: &[u32], list: &[u32]) -> Lent
        ensures { (c : List ℕ) → result ≡ lent_of (lent «data».now objects.now links.now c) list.now }
    {
        Lent {
            data: data.len(),
            objects: objects.len(),
            links: links.len(),
            list: list.len(),
        }
    }
}

// Gives out what a whole call has come to: the number of its answer, and how many it counts.
pub fn give_out(counted: Result<u32, Answer>, count: &mut u32) -> u32
    ensures answer { result ≡ answer_of counted }
    ensures count { left count ≡ count_of counted }
{
    match counted {
        Ok(number) => {
            *count = number;
            0
        }
        Err(answer) => {
            *count = 0;
            u32::from(answer)
        }
    }
}

// The edition is one of those that there are.
pub fn is_known(settings: Settings) -> bool
    ensures { result ≡ known settings }
{
    settings.edition == 1 || settings.edition == 2
}
