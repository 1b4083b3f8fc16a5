// What a split and a cut plan of a mark-to-base table decide before anything is written: the checks, and the cut places. Then the cut plan itself,
// which is the first half of `split_markbasepos` in the Rust text.
#![tactic(auto)]

pub mod cutting;

ghost use Rattle.std.specs.Prelude.{◌≡◌, true};
ghost use Rattle.folds.specs.Moments.{came, left};
ghost use Rattle.store_rules.specs.Moments.{store_came_with, store_now_with};
ghost use Rattle.call_rules.specs.Settings.{known};
ghost use Rattle.call_rules.specs.Scratch.{lengths_of};
ghost use Rattle.call_rules.specs.Moments.{scratch_came, scratch_left, scratch_now};
ghost use Rattle.call_rules.specs.Outcomes.{outcome};
ghost use Rattle.mark_rules.specs.Calls.{mark_plan_call};
ghost use Rattle.mark_checks.specs.Called.{Passed};
ghost use Rattle.mark_plan.specs.Decided.{Decided};

use call_lists::{Plan, hand_out};
use call_rules::{Answer, Lengths, Settings, give_out, is_known};
use call_scratch::clear_scratch;
use cutting::cut_table;
use mark_checks::MarkTable;
use mark_checks::call::check_call;
use store_walk::begin_walk;

// The rest of check 7, by a walk of all that the table leads to, and then the cut places. The scratch may hold anything.
pub fn decide_cuts(
    data: &[u8],
    objects: &[u32],
    links: &[u32],
    counts: [u32; 3],
    table: u32,
    settings: Settings,
    opened: MarkTable,
    walk: &mut [u32],
    glyph_set: &mut [u8],
    glyphs: &mut [u16],
    classes: &mut [u16],
    cuts: &mut [u16],
) -> Result<Plan<MarkTable>, Answer>
    requires settings_value { known settings ≡ true }
    requires passed { Passed (store_now_with «data» objects links counts) table (lengths_of (scratch_now walk glyph_set glyphs classes cuts)) opened }
    ensures { Decided settings (store_came_with «data» objects links counts) table (scratch_came walk glyph_set glyphs classes cuts) result (left cuts) }
{
    begin_walk(objects, links, counts, table, 12, walk);
    if walk[table as usize] != 0 {
        return Err(Answer::BadLinks);
    }
    let count = cut_table(
        data, objects, links, counts, settings, opened, walk, glyph_set, glyphs, classes, cuts,
    );
    Ok(Plan {
        table: opened,
        cuts: count,
    })
}

// Decides for a table of any store, with any scratch.
pub fn decide(
    data: &[u8],
    objects: &[u32],
    links: &[u32],
    counts: [u32; 3],
    table: u32,
    settings: Settings,
    walk: &mut [u32],
    glyph_set: &mut [u8],
    glyphs: &mut [u16],
    classes: &mut [u16],
    cuts: &mut [u16],
) -> Result<Plan<MarkTable>, Answer>
    ensures { Decided settings (store_came_with «data» objects links counts) table (scratch_came walk glyph_set glyphs classes cuts) result (left cuts) }
{
    if !is_known(settings) {
        return Err(Answer::BadEdition);
    }
    let lengths = Lengths::of(walk, glyph_set, glyphs, classes, cuts);
    let opened = check_call(data, objects, links, counts, table, lengths)?;
    decide_cuts(
        data, objects, links, counts, table, settings, opened, walk, glyph_set, glyphs, classes,
        cuts,
    )
}

// The cut places of a table of any store, in `places`, and how many there are. Scratch is zero after it.
pub fn cut_plan_markbasepos(
    data: &[u8],
    objects: &[u32],
    links: &[u32],
    counts: [u32; 3],
    table: u32,
    settings: Settings,
    walk: &mut [u32],
    glyph_set: &mut [u8],
    glyphs: &mut [u16],
    classes: &mut [u16],
    cuts: &mut [u16],
    places: &mut [u16],
    place_count: &mut u32,
) -> u32
    ensures { outcome result (left place_count) (store_came_with «data» objects links counts) (left places)
        (scratch_left walk glyph_set glyphs classes cuts)
        ≡ mark_plan_call settings (store_came_with «data» objects links counts) table (scratch_came walk glyph_set glyphs classes cuts)
        (came places) }
{
    let decision = decide(
        data, objects, links, counts, table, settings, walk, glyph_set, glyphs, classes, cuts,
    );
    let listed = hand_out(decision, cuts, places);
    clear_scratch(walk, glyph_set, glyphs, classes, cuts);
    give_out(listed, place_count)
}
