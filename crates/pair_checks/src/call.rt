// All that a call asks of a table of a sound store before it needs its scratch: the checks 2 to 6, and the slots of check 7.
ghost use Rattle.std.specs.Prelude.{◌≡◌, true, List, ℕ, Ok};
ghost use Rattle.store_rules.specs.Store.{lent, sound};
ghost use Rattle.store_rules.specs.Moments.{store_came_with, store_now_with};
ghost use Rattle.call_rules.specs.Answers.{numbered};
ghost use Rattle.pair_checks.specs.Checked.{checked_of};
ghost use Rattle.pair_checks.specs.Called.{lent_by, called_of};

use crate::slots::links_at_slots;
use crate::{PairTable, check_sound_table};
use call_rules::{Answer, Lengths};
use call_scratch::is_short;

// The checks 2 to 6, and the slots of check 7: all that needs no scratch. That the store is sound is known.
pub fn check_call(
    data: &[u8],
    objects: &[u32],
    links: &[u32],
    counts: [u32; 3],
    table: u32,
    lengths: Lengths,
) -> Result<PairTable, Answer>
    requires { sound (store_now_with «data» objects links counts) ≡ true }
    ensures { numbered result ≡ called_of (store_came_with «data» objects links counts) table lengths }
{
    let opened = check_sound_table(data, objects, links, counts, table)?;
    check_lent(links, counts, table, opened, lengths)
}

// Check 6 of a table that is open, and then the slots of check 7.
fn check_lent(
    links: &[u32],
    counts: [u32; 3],
    table: u32,
    opened: PairTable,
    lengths: Lengths,
) -> Result<PairTable, Answer>
    requires { (b o : List ℕ) × (checked_of (lent b o links.now counts) table ≡ numbered (Ok opened)) }
    ensures { (b o : List ℕ)
        → checked_of (lent b o links.now counts) table
        ≡ numbered (Ok opened)
        → numbered result
        ≡ lent_by (lent b o links.now counts) table lengths opened }
{
    let layout = opened.layout;
    if is_short(lengths, counts[1], opened.glyphs, layout.count) {
        return Err(Answer::ShortScratch);
    }
    if !links_at_slots(links, counts, table, layout) {
        return Err(Answer::BadLinks);
    }
    Ok(opened)
}
