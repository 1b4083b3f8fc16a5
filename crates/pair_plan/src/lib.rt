// What a split and a cut plan decide before anything is written: the checks, the cut places, the loop of check 7, and check 11. Then the cut plan itself,
// which is the first half of `split_format1` and `split_format2` in the Rust text.
#![tactic(auto)]

pub mod cutting;

ghost use Rattle.std.specs.Prelude.{◌≡◌, true, ◌<◌, length, Ok};
ghost use Rattle.call_rules.specs.Outcomes.{outcome};
ghost use Rattle.call_rules.specs.Settings.{known};
ghost use Rattle.pair_rules.specs.Calls.{plan_call};
ghost use Rattle.call_rules.specs.Scratch.{lengths_of};
ghost use Rattle.folds.specs.Moments.{came, left};
ghost use Rattle.store_rules.specs.Store.{sound};
ghost use Rattle.store_rules.specs.Moments.{store_came_with, store_now_with};
ghost use Rattle.call_rules.specs.Moments.{scratch_came, scratch_left, scratch_now};
ghost use Rattle.call_rules.specs.Answers.{numbered};
ghost use Rattle.pair_checks.specs.Called.{called_of};
ghost use Rattle.pair_checks.specs.Opens.{Opens};
ghost use Rattle.pair_items.specs.Filled.{TellsCycle};
ghost use Rattle.pair_plan.specs.Decided.{settled_by, Decided};

use call_lists::{Plan, hand_out};
use call_rules::{Answer, Lengths, Settings, give_out, is_known};
use call_scratch::clear_scratch;
use cutting::cut_table;
use pair_checks::PairTable;
use pair_checks::call::check_call;
use pair_sets::linked::sets_sorted;
use store_reader::is_sound;
use store_walk::begin_walk;

// The rest of check 7, and check 11. What has found the places has walked all that the table leads to, and the walk tells of a cycle; after that its
// scratch serves to look at each pair set once.
fn settle_cuts(
    data: &[u8],
    objects: &[u32],
    links: &[u32],
    counts: [u32; 3],
    table: u32,
    plan: Plan<PairTable>,
    walk: &mut [u32],
) -> Result<Plan<PairTable>, Answer>
    requires opens { Opens (store_now_with «data» objects links counts) table plan.table }
    requires tells_cycle { TellsCycle (store_now_with «data» objects links counts) table walk.old × (table < length walk.old) }
    ensures { result ≡ settled_by (store_came_with «data» objects links counts) table plan }
{
    if walk[table as usize] != 0 {
        return Err(Answer::BadLinks);
    }
    let opened = plan.table;
    let layout = opened.layout;
    if !sets_sorted(data, objects, links, counts, table, layout, walk) {
        return Err(Answer::UnsortedSets);
    }
    Ok(plan)
}

// The cut places, and what is asked once they are found. The scratch may hold anything.
pub fn decide_cuts(
    data: &[u8],
    objects: &[u32],
    links: &[u32],
    counts: [u32; 3],
    table: u32,
    settings: Settings,
    opened: PairTable,
    walk: &mut [u32],
    glyph_set: &mut [u8],
    glyphs: &mut [u16],
    classes: &mut [u16],
    cuts: &mut [u16],
) -> Result<Plan<PairTable>, Answer>
    requires settings_value { known settings ≡ true }
    requires cuts_value { called_of (store_now_with «data» objects links counts) table (lengths_of (scratch_now walk glyph_set glyphs classes cuts)) ≡ numbered
        (Ok opened) }
    ensures { Decided settings (store_came_with «data» objects links counts) table (scratch_came walk glyph_set glyphs classes cuts) result
        (left glyphs) (left classes) (left cuts) }
{
    let layout = opened.layout;
    begin_walk(objects, links, counts, table, layout.header as u32, walk);
    let count = cut_table(
        data, objects, links, counts, table, settings, opened, walk, glyph_set, glyphs, classes,
        cuts,
    );
    let plan = Plan {
        table: opened,
        cuts: count,
    };
    settle_cuts(data, objects, links, counts, table, plan, walk)
}

// Decides for a table of a store that is known to be sound, with any scratch.
pub fn decide_sound(
    data: &[u8],
    objects: &[u32],
    links: &[u32],
    counts: [u32; 3],
    table: u32,
    settings: Settings,
    walk: &mut [u32],
    glyph_set: &mut [u8],
    glyphs: &mut [u16],
    classes: &mut [u16],
    cuts: &mut [u16],
) -> Result<Plan<PairTable>, Answer>
    requires settings_value { known settings ≡ true }
    requires counts_value { sound (store_now_with «data» objects links counts) ≡ true }
    ensures { Decided settings (store_came_with «data» objects links counts) table (scratch_came walk glyph_set glyphs classes cuts) result
        (left glyphs) (left classes) (left cuts) }
{
    let lengths = Lengths::of(walk, glyph_set, glyphs, classes, cuts);
    let opened = check_call(data, objects, links, counts, table, lengths)?;
    decide_cuts(
        data, objects, links, counts, table, settings, opened, walk, glyph_set, glyphs, classes,
        cuts,
    )
}

// Decides for a table of any store, with any scratch.
pub fn decide(
    data: &[u8],
    objects: &[u32],
    links: &[u32],
    counts: [u32; 3],
    table: u32,
    settings: Settings,
    walk: &mut [u32],
    glyph_set: &mut [u8],
    glyphs: &mut [u16],
    classes: &mut [u16],
    cuts: &mut [u16],
) -> Result<Plan<PairTable>, Answer>
    ensures { Decided settings (store_came_with «data» objects links counts) table (scratch_came walk glyph_set glyphs classes cuts) result
        (left glyphs) (left classes) (left cuts) }
{
    if !is_known(settings) {
        return Err(Answer::BadEdition);
    }
    if !is_sound(data, objects, links, counts) {
        return Err(Answer::Unsound);
    }
    decide_sound(
        data, objects, links, counts, table, settings, walk, glyph_set, glyphs, classes, cuts,
    )
}

// The cut places of a table of any store, in `places`, and how many there are. Scratch is zero after it.
pub fn cut_plan(
    data: &[u8],
    objects: &[u32],
    links: &[u32],
    counts: [u32; 3],
    table: u32,
    settings: Settings,
    walk: &mut [u32],
    glyph_set: &mut [u8],
    glyphs: &mut [u16],
    classes: &mut [u16],
    cuts: &mut [u16],
    places: &mut [u16],
    place_count: &mut u32,
) -> u32
    ensures { outcome result (left place_count) (store_came_with «data» objects links counts) (left places)
        (scratch_left walk glyph_set glyphs classes cuts)
        ≡ plan_call settings (store_came_with «data» objects links counts) table (scratch_came walk glyph_set glyphs classes cuts) (came places) }
{
    let decision = decide(
        data, objects, links, counts, table, settings, walk, glyph_set, glyphs, classes, cuts,
    );
    let listed = hand_out(decision, cuts, places);
    clear_scratch(walk, glyph_set, glyphs, classes, cuts);
    give_out(listed, place_count)
}
