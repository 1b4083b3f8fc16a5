// Replays stored answers of the oracle. host/differential writes them, and says in src/vectors.rs how they were made and what stands where.
#![tactic(auto)]

mod calls;
mod digest;
mod input;
mod readings;
mod report;
mod store;

use calls::{Called, call_agrees};
use input::Text;
use readings::readings_agree;
use report::{Case, Tally};
use std::alloc::Global;
use std::io;
use std::io::Read;
use store::{Kind, Store};

// As many bytes of the input are read.
const MOST: usize = 524288;

fn main(rt: HostRuntime) -> io::Result<()> {
    let mut bytes = Vec::with_capacity(rt.alloc(), MOST)?;
    let _ = rt.reader().take(MOST as u64).read_to_end(&mut bytes)?;
    let Some(text) = Text::whole(&bytes) else {
        return println!(rt; "the stored answers are cut off");
    };
    replay(&rt, rt.alloc(), text)
}

// The text says how many cases it has; then come the cases.
fn replay(rt: &impl Print, alloc: Global, mut text: Text<'_>) -> io::Result<()> {
    let count = text.next_number();
    let mut tally = Tally::new(count);
    for k in 0..count {
        if text.is_at_end() {
            tally.add_differing(count - k);
            break;
        }
        let mut case = Case::new(rt, u64::from(k) + 1);
        let (kind, split) = replay_case(&mut case, &mut text, alloc)?;
        tally.add(kind, split);
        if !case.agrees() {
            tally.add_differing(1);
        }
    }
    println!(rt; "{tally}")
}

// Reads what is stored of glyphs, plans the cuts, splits, and reads again. Answers what kind of table it is of, and what the split answered.
fn replay_case<R: Print>(
    case: &mut Case<'_, R>,
    text: &mut Text<'_>,
    alloc: Global,
) -> io::Result<(Kind, Called)> {
    let mut store = Store::next(text, alloc)?;
    let mut readings = *text;
    readings_agree(case, text, &store, &[])?;
    let _ = call_agrees(
        case,
        text,
        alloc,
        "cut plan",
        "a place",
        |scratch, places| { store.plan(scratch, places) },
    )?;
    let (split, new_tables) = call_agrees(
        case,
        text,
        alloc,
        "split",
        "a new table",
        |scratch, list| { store.split(scratch, list) },
    )?;
    readings_agree(case, &mut readings, &store, &new_tables)?;
    Ok((store.kind, split))
}

#[cfg(test)]
mod tests {
    use super::*;

    #[test]
    fn a_case_is_replayed(rt: HostRuntime) -> io::Result<()> {
        let text = Text::new(
            b"1 type 2 table 0 edition 1 counts 0 data 0 objects 0 links 0 pairs 1 glyphs 1 2 answer 1 found 0 values 0",
        );
        replay(&rt, rt.alloc(), text)
    }
}
