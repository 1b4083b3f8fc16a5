// Stored calls beside those of the proved functions.
ghost use Rattle.std.specs.Prelude.{◌<◌};

use crate::digest::Digest;
use crate::input::{Entry, Text};
use crate::report::Case;
use std::alloc::{AllocError, Global};
use std::io;

// The room of a list that a call is lent, and of most of its scratch.
const ROOM: usize = 8192;

// The room of a set of glyphs.
const SET_ROOM: usize = 16384;

// The scratch that a call is lent.
#[derive(Drop)]
pub struct Scratch {
    pub walk: Vec<u32>,
    pub glyph_set: Vec<u8>,
    pub glyphs: Vec<u16>,
    pub classes: Vec<u16>,
    pub cuts: Vec<u16>,
}

impl Scratch {
    // The scratch that stands next in a text.
    pub fn next(text: &mut Text<'_>, alloc: Global) -> Result<Scratch, AllocError> {
        Ok(Scratch {
            walk: text.next_list(alloc, ROOM)?,
            glyph_set: text.next_list(alloc, SET_ROOM)?,
            glyphs: text.next_list(alloc, ROOM)?,
            classes: text.next_list(alloc, ROOM)?,
            cuts: text.next_list(alloc, ROOM)?,
        })
    }

    pub fn digest(&self) -> Digest {
        Digest::new()
            .with(&self.walk)
            .with(&self.glyph_set)
            .with(&self.glyphs)
            .with(&self.classes)
            .with(&self.cuts)
    }
}

// What a call answers, how many numbers it puts into its list, and the digest of all that it leaves.
#[derive(Clone, Copy)]
pub struct Called {
    pub answer: u32,
    pub count: u32,
    pub digest: Digest,
}

// Lays what a call is lent beside the store, makes it, and compares its answer, its digest and its list. Answers what it answered, and its list.
pub fn call_agrees<T: Entry + Drop, R: Print, F: FnOnce(&mut Scratch, &mut [T]) -> Called>(
    case: &mut Case<'_, R>,
    text: &mut Text<'_>,
    alloc: Global,
    name: &str,
    entry: &str,
    call: F,
) -> io::Result<(Called, Vec<T>)>
    requires { F.IsAlwaysCallable call }
{
    let mut list = text.next_list(alloc, ROOM)?;
    let mut scratch = Scratch::next(text, alloc)?;
    let called = call(&mut scratch, &mut list);
    case.same(name, "the answer", text.next_number() == called.answer)?;
    let digest = u64::from(text.next_number());
    case.same(name, "what it leaves", digest == called.digest.number())?;
    let agrees = is_next(text, called.count, &list);
    case.same(name, entry, agrees)?;
    list.truncate(called.count as usize);
    Ok((called, list))
}

// The first numbers of a list, so many, are those that stand next. As many as are told of are read, as far as a list has room.
fn is_next<T: Entry>(text: &mut Text<'_>, count: u32, list: &[T]) -> bool {
    let stored_count = text.next_number();
    let mut agrees = stored_count == count;
    for k in 0..ROOM.min(stored_count as usize) {
        agrees &= has_at(list, k, text.next_number());
    }
    agrees
}

// A list has a number at a place, for which there is room.
fn has_at<T: Entry>(list: &[T], k: usize, number: u32) -> bool
    requires { k < 8192 }
{
    list.get(k).is_some_and(|entry| {
        let entry: u32 = (*entry).into();
        entry == number
    })
}

#[cfg(test)]
mod tests {
    use super::*;

    #[test]
    fn a_call_is_compared(rt: HostRuntime) -> io::Result<()> {
        let mut text = Text::new(
            b"list 2 2x5 walk 1 1 set 0 glyphs 0 classes 0 cuts 0 answer 3 digest 0 numbers 1 9",
        );
        let mut case = Case::new(&rt, 1);
        let (called, list) = call_agrees(
            &mut case,
            &mut text,
            rt.alloc(),
            "call",
            "a number",
            |_, list: &mut [u16]| {
                list.fill(9);
                Called {
                    answer: 3,
                    count: 1,
                    digest: Digest::new(),
                }
            },
        )?;
        assert!(rt; case.agrees());
        assert_eq!(rt; called.answer, 3);
        assert_eq!(rt; list.as_slice(), [9].as_slice());
        Ok(())
    }
}
