// The split of a table of any store: decided, carried out, and the scratch cleared. The counterpart of `split_pairpos` in the Rust text, and of
// what `split_format1` and `split_format2` do once they have their cuts.
#![tactic(auto)]

ghost use Rattle.std.specs.Prelude.{◌≡◌};
ghost use Rattle.call_rules.specs.Scratch.{Scratch, cleared};
ghost use Rattle.call_rules.specs.Answers.{answer_of, count_of};
ghost use Rattle.call_rules.specs.Outcomes.{outcome};
ghost use Rattle.pair_rules.specs.Calls.{last_cases, split_unless, split_call};
ghost use Rattle.folds.specs.Lists.{part};
ghost use Rattle.folds.specs.Moments.{came, left};
ghost use Rattle.store_rules.specs.Moments.{store_came, store_left, store_now};
ghost use Rattle.call_rules.specs.Moments.{scratch_came, scratch_left};
ghost use Rattle.pair_carrying.specs.Arranging.{Arranging};
ghost use Rattle.pair_split.specs.Splitting.{PlanReady, CutIfRoom};

use call_lists::Plan;
use call_room::is_short;
use call_rules::{Answer, Lent, Settings, give_out};
use call_scratch::clear_scratch;
use pair_carrying::carrying::carry_out;
use pair_carrying::measuring::measure_needs;
use pair_checks::PairTable;
use pair_plan::decide;

// Splits a table at any places that ascend within it, if there is room. The lists have their exact lengths.
pub fn split_at(
    data: &mut [u8],
    objects: &mut [u32],
    links: &mut [u32],
    counts: &mut [u32; 3],
    table: u32,
    opened: PairTable,
    glyphs: &mut [u16],
    classes: &mut [u16],
    cuts: &[u16],
    new_tables: &mut [u32],
) -> Result<(), Answer>
    requires { Arranging (store_now «data» objects links counts) table opened glyphs.old classes.old cuts.now }
    ensures { CutIfRoom (store_came «data» objects links counts) table cuts.now (came new_tables) result (store_left «data» objects links counts)
        (left new_tables) }
{
    let needs = measure_needs(data, objects, opened, glyphs, classes, cuts);
    let lent = Lent::of(data, objects, links, new_tables);
    if is_short(lent, *counts, needs) {
        return Err(Answer::NoRoom);
    }
    carry_out(
        data, objects, links, counts, table, opened, needs, glyphs, classes, cuts, new_tables,
    );
    Ok(())
}

// Splits a table at the places of a plan, whatever they come from: nothing to cut, no room, or the split, and then how many tables are new.
fn split_planned(
    data: &mut [u8],
    objects: &mut [u32],
    links: &mut [u32],
    counts: &mut [u32; 3],
    table: u32,
    plan: Plan<PairTable>,
    glyphs: &mut [u16],
    classes: &mut [u16],
    cuts: &[u16],
    new_tables: &mut [u32],
) -> Result<u32, Answer>
    requires { PlanReady (store_now «data» objects links counts) table plan glyphs.old classes.old cuts.now }
    ensures { (w : Scratch)
        → outcome (answer_of result) (count_of result) (store_left «data» objects links counts) (left new_tables) (cleared w)
        ≡ split_unless
        (last_cases (store_came «data» objects links counts) table (part cuts.now 0 plan.cuts) (came new_tables))
        (store_came «data» objects links counts) table (part cuts.now 0 plan.cuts) w (came new_tables) }
{
    let count = plan.cuts;
    if count == 0 {
        return Err(Answer::Done);
    }
    let opened = plan.table;
    let covered = opened.glyphs;
    split_at(
        data,
        objects,
        links,
        counts,
        table,
        opened,
        &mut glyphs[0..covered],
        &mut classes[0..covered],
        &cuts[0..count],
        new_tables,
    )?;
    Ok(count as u32)
}

// Splits a table, or refuses to; the scratch is left as it then is.
fn split_any(
    data: &mut [u8],
    objects: &mut [u32],
    links: &mut [u32],
    counts: &mut [u32; 3],
    table: u32,
    settings: Settings,
    walk: &mut [u32],
    glyph_set: &mut [u8],
    glyphs: &mut [u16],
    classes: &mut [u16],
    cuts: &mut [u16],
    new_tables: &mut [u32],
) -> Result<u32, Answer>
    ensures { outcome (answer_of result) (count_of result) (store_left «data» objects links counts) (left new_tables)
        (cleared (scratch_came walk glyph_set glyphs classes cuts))
        ≡ split_call settings (store_came «data» objects links counts) table (scratch_came walk glyph_set glyphs classes cuts) (came new_tables) }
{
    let plan = decide(
        data, objects, links, *counts, table, settings, walk, glyph_set, glyphs, classes, cuts,
    )?;
    split_planned(
        data, objects, links, counts, table, plan, glyphs, classes, cuts, new_tables,
    )
}

// Splits a table of any store. The numbers of the new tables come to the front of `new_tables`. Scratch is zero after it.
pub fn split_pairpos(
    data: &mut [u8],
    objects: &mut [u32],
    links: &mut [u32],
    counts: &mut [u32; 3],
    table: u32,
    settings: Settings,
    walk: &mut [u32],
    glyph_set: &mut [u8],
    glyphs: &mut [u16],
    classes: &mut [u16],
    cuts: &mut [u16],
    new_tables: &mut [u32],
    new_count: &mut u32,
) -> u32
    ensures { outcome result (left new_count) (store_left «data» objects links counts) (left new_tables)
        (scratch_left walk glyph_set glyphs classes cuts)
        ≡ split_call settings (store_came «data» objects links counts) table (scratch_came walk glyph_set glyphs classes cuts) (came new_tables) }
{
    let split = split_any(
        data, objects, links, counts, table, settings, walk, glyph_set, glyphs, classes, cuts,
        new_tables,
    );
    clear_scratch(walk, glyph_set, glyphs, classes, cuts);
    give_out(split, new_count)
}
