// What is decided before anything is written: the checks 12, 1, 2 and 9 of a lookup list and a table, and then all that a split asks of the table.
// The Rust text, which enters no table in a lookup, has no counterpart of it.
#![tactic(auto)]

ghost use Rattle.std.specs.Prelude.{◌≡◌};
ghost use Rattle.folds.specs.Moments.{left};
ghost use Rattle.store_rules.specs.Moments.{store_came_with};
ghost use Rattle.call_rules.specs.Answers.{first_case, refusal};
ghost use Rattle.call_rules.specs.Moments.{scratch_came};
ghost use Rattle.lookup_rules.specs.Calls.{list_cases};
ghost use Rattle.lookup_plan.specs.Deciding.{ListDecided};

use call_lists::Plan;
use call_rules::{Answer, Settings, is_known};
use lookup_checks::check_list;
use pair_checks::PairTable;
use pair_plan::decide_sound;
use store_reader::is_sound;

// The checks 12, 1, 2 of the table and of the list, and 9. The walk may be of any length, and hold anything.
fn ask_list(
    data: &[u8],
    objects: &[u32],
    links: &[u32],
    counts: [u32; 3],
    list: u32,
    table: u32,
    settings: Settings,
    walk: &mut [u32],
) -> Result<(), Answer>
    ensures { refusal result ≡ first_case (list_cases settings (store_came_with «data» objects links counts) list table) }
{
    if !is_known(settings) {
        return Err(Answer::BadEdition);
    }
    if !is_sound(data, objects, links, counts) {
        return Err(Answer::Unsound);
    }
    if counts[1] <= table {
        return Err(Answer::NoTable);
    }
    if counts[1] <= list {
        return Err(Answer::NoTable);
    }
    if !check_list(data, objects, links, counts, list, table, walk) {
        return Err(Answer::BadList);
    }
    Ok(())
}

// Decides for a list and a table of any store, with any scratch.
pub fn decide(
    data: &[u8],
    objects: &[u32],
    links: &[u32],
    counts: [u32; 3],
    list: u32,
    table: u32,
    settings: Settings,
    walk: &mut [u32],
    glyph_set: &mut [u8],
    glyphs: &mut [u16],
    classes: &mut [u16],
    cuts: &mut [u16],
) -> Result<Plan<PairTable>, Answer>
    ensures { ListDecided settings (store_came_with «data» objects links counts) list table (scratch_came walk glyph_set glyphs classes cuts) result
        (left glyphs) (left classes) (left cuts) }
{
    ask_list(data, objects, links, counts, list, table, settings, walk)?;
    decide_sound(
        data, objects, links, counts, table, settings, walk, glyph_set, glyphs, classes, cuts,
    )
}
