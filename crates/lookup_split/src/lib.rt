// New tables of a split entered in the lookups that list the old one: decided, carried out, and the scratch cleared. It calls the parts of a split of a pair
// table, and puts its own in between.
#![tactic(auto)]

ghost use Rattle.std.specs.Prelude.{◌≡◌};
ghost use Rattle.folds.specs.Lists.{part};
ghost use Rattle.folds.specs.Moments.{came, left};
ghost use Rattle.store_rules.specs.Moments.{store_came, store_left, store_now};
ghost use Rattle.call_rules.specs.Answers.{answer_of, count_of};
ghost use Rattle.call_rules.specs.Scratch.{Scratch, cleared};
ghost use Rattle.call_rules.specs.Moments.{scratch_came, scratch_left};
ghost use Rattle.call_rules.specs.Outcomes.{outcome};
ghost use Rattle.lookup_rules.specs.Calls.{lookup_call};
ghost use Rattle.lookup_split.specs.Entering.{room_cases, entered_unless, entered_then, EnterReady, Placing};

use call_lists::Plan;
use call_room::is_short_for_both;
use call_rules::{Answer, Lent, Settings, give_out};
use call_scratch::clear_scratch;
use lookup_carrying::carrying::carry_all;
use lookup_carrying::measuring::measure_all;
use lookup_checks::order::order_lookups;
use lookup_plan::decide;
use pair_checks::PairTable;

// Splits a table at any places that ascend within it and enters the new tables in these lookups, if their counts fit and there is room, and says how
// many tables are new. The lists have their exact lengths.
fn enter_at(
    data: &mut [u8],
    objects: &mut [u32],
    links: &mut [u32],
    counts: &mut [u32; 3],
    table: u32,
    opened: PairTable,
    marks: &[u32],
    lookups: &[u32],
    glyphs: &mut [u16],
    classes: &mut [u16],
    cuts: &[u16],
    new_tables: &mut [u32],
) -> Result<u32, Answer>
    requires { Placing (store_now «data» objects links counts) table opened glyphs.old classes.old cuts.now marks.now lookups.now }
    ensures { (w : Scratch)
        → outcome (answer_of result) (count_of result) (store_left «data» objects links counts) (left new_tables) (cleared w)
        ≡ entered_unless (room_cases (store_came «data» objects links counts) table cuts.now lookups.now (came new_tables))
        (store_came «data» objects links counts) table cuts.now lookups.now w (came new_tables) }
{
    let Ok(measures) = measure_all(
        data, objects, links, *counts, table, opened, lookups, glyphs, classes, cuts,
    ) else {
        return Err(Answer::ManySubtables);
    };
    let lent = Lent::of(data, objects, links, new_tables);
    let split = measures.split;
    let entered = measures.lookups;
    if is_short_for_both(lent, *counts, split, entered) {
        return Err(Answer::NoRoom);
    }
    carry_all(
        data, objects, links, counts, table, opened, split, glyphs, classes, cuts, marks, lookups,
        new_tables,
    );
    Ok(cuts.len() as u32)
}

// Enters the new tables of a table at the places of a plan, whatever they come from: nothing to cut, too many subtables, no room, or the split.
fn enter_planned(
    data: &mut [u8],
    objects: &mut [u32],
    links: &mut [u32],
    counts: &mut [u32; 3],
    list: u32,
    table: u32,
    plan: Plan<PairTable>,
    walk: &mut [u32],
    glyphs: &mut [u16],
    classes: &mut [u16],
    cuts: &[u16],
    new_tables: &mut [u32],
) -> Result<u32, Answer>
    requires { EnterReady (store_now «data» objects links counts) list table plan glyphs.old classes.old cuts.now walk.old }
    ensures { (w : Scratch)
        → outcome (answer_of result) (count_of result) (store_left «data» objects links counts) (left new_tables) (cleared w)
        ≡ entered_then (store_came «data» objects links counts) list table (part cuts.now 0 plan.cuts) w (came new_tables) }
{
    let count = plan.cuts;
    if count == 0 {
        return Err(Answer::Done);
    }
    let opened = plan.table;
    let covered = opened.glyphs;
    let marks = counts[1] as usize;
    let found = order_lookups(data, objects, links, *counts, list, table, walk);
    let ordered = &walk[..];
    enter_at(
        data,
        objects,
        links,
        counts,
        table,
        opened,
        &ordered[..marks],
        &ordered[marks..marks + found],
        &mut glyphs[0..covered],
        &mut classes[0..covered],
        &cuts[0..count],
        new_tables,
    )
}

// Enters the new tables of a table in the lookups of a list, or refuses to; the scratch is left as it then is.
fn enter_any(
    data: &mut [u8],
    objects: &mut [u32],
    links: &mut [u32],
    counts: &mut [u32; 3],
    list: u32,
    table: u32,
    settings: Settings,
    walk: &mut [u32],
    glyph_set: &mut [u8],
    glyphs: &mut [u16],
    classes: &mut [u16],
    cuts: &mut [u16],
    new_tables: &mut [u32],
) -> Result<u32, Answer>
    ensures { outcome (answer_of result) (count_of result) (store_left «data» objects links counts) (left new_tables)
        (cleared (scratch_came walk glyph_set glyphs classes cuts))
        ≡ lookup_call settings (store_came «data» objects links counts) list table (scratch_came walk glyph_set glyphs classes cuts)
        (came new_tables) }
{
    let plan = decide(
        data, objects, links, *counts, list, table, settings, walk, glyph_set, glyphs, classes,
        cuts,
    )?;
    enter_planned(
        data, objects, links, counts, list, table, plan, walk, glyphs, classes, cuts, new_tables,
    )
}

// Splits a table of any store, and enters the new tables in the lookups of the list that name it. The numbers of the new tables come to the front of
// `new_tables`. Scratch is zero after it.
pub fn split_in_lookups(
    data: &mut [u8],
    objects: &mut [u32],
    links: &mut [u32],
    counts: &mut [u32; 3],
    list: u32,
    table: u32,
    settings: Settings,
    walk: &mut [u32],
    glyph_set: &mut [u8],
    glyphs: &mut [u16],
    classes: &mut [u16],
    cuts: &mut [u16],
    new_tables: &mut [u32],
    new_count: &mut u32,
) -> u32
    ensures { outcome result (left new_count) (store_left «data» objects links counts) (left new_tables)
        (scratch_left walk glyph_set glyphs classes cuts)
        ≡ lookup_call settings (store_came «data» objects links counts) list table (scratch_came walk glyph_set glyphs classes cuts)
        (came new_tables) }
{
    let entered = enter_any(
        data, objects, links, counts, list, table, settings, walk, glyph_set, glyphs, classes,
        cuts, new_tables,
    );
    clear_scratch(walk, glyph_set, glyphs, classes, cuts);
    give_out(entered, new_count)
}
