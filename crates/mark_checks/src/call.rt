// All that a call asks of a table before it needs its scratch: the checks 1 to 6, and the slots of check 7.
ghost use Rattle.std.specs.Prelude.{List, ℕ};
ghost use Rattle.store_rules.specs.Store.{lent};
ghost use Rattle.store_rules.specs.Moments.{store_came_with};
ghost use Rattle.mark_checks.specs.Opens.{Opens};
ghost use Rattle.mark_checks.specs.Called.{Calls};

use crate::slots::links_at_slots;
use crate::{MarkTable, check_table};
use call_rules::{Answer, Lengths};
use call_scratch::is_short;

// The checks 1 to 6, and the slots of check 7: all that needs no scratch.
pub fn check_call(
    data: &[u8],
    objects: &[u32],
    links: &[u32],
    counts: [u32; 3],
    table: u32,
    lengths: Lengths,
) -> Result<MarkTable, Answer>
    ensures { Calls (store_came_with «data» objects links counts) table lengths result }
{
    let opened = check_table(data, objects, links, counts, table)?;
    check_lent(links, counts, table, opened, lengths)
}

// Check 6 of a table that is open, and then the slots of check 7.
fn check_lent(
    links: &[u32],
    counts: [u32; 3],
    table: u32,
    opened: MarkTable,
    lengths: Lengths,
) -> Result<MarkTable, Answer>
    requires { (b o : List ℕ) × Opens (lent b o links.now counts) table opened }
    ensures { (b o : List ℕ) → Opens (lent b o links.now counts) table opened → Calls (lent b o links.now counts) table lengths result }
{
    if is_short(lengths, counts[1], opened.glyphs, opened.classes) {
        return Err(Answer::ShortScratch);
    }
    if !links_at_slots(links, counts, table, opened) {
        return Err(Answer::BadLinks);
    }
    Ok(opened)
}
