// The split of a mark-to-base table of any store: decided, carried out, and the scratch cleared. The counterpart of `split_markbasepos` in the
// Rust text, graph/markbasepos_graph.rs.
#![tactic(auto)]

ghost use Rattle.std.specs.Prelude.{◌≡◌};
ghost use Rattle.folds.specs.Lists.{part};
ghost use Rattle.folds.specs.Moments.{came, left};
ghost use Rattle.store_rules.specs.Moments.{store_came, store_left, store_now};
ghost use Rattle.call_rules.specs.Scratch.{Scratch, cleared};
ghost use Rattle.call_rules.specs.Moments.{scratch_came, scratch_left};
ghost use Rattle.call_rules.specs.Answers.{answer_of, count_of};
ghost use Rattle.call_rules.specs.Outcomes.{outcome};
ghost use Rattle.mark_rules.specs.Calls.{last_cases, split_unless, mark_split_call};
ghost use Rattle.mark_split.specs.Splitting.{Cuttable, CutIfRoom, PlanReady};

use call_lists::Plan;
use call_room::is_short;
use call_rules::{Answer, Lent, Settings, give_out};
use call_scratch::clear_scratch;
use mark_carrying::carrying::carry_out;
use mark_carrying::measuring::measure_needs;
use mark_checks::MarkTable;
use mark_plan::decide;

// Splits a table at any places that ascend within it, if there is room, and says whether there was. `glyphs` has an entry for each covered glyph,
// `classes` one for each mark.
pub fn split_at(
    data: &mut [u8],
    objects: &mut [u32],
    links: &mut [u32],
    counts: &mut [u32; 3],
    table: u32,
    opened: MarkTable,
    glyphs: &mut [u16],
    classes: &mut [u16],
    glyph_set: &mut [u8],
    cuts: &[u16],
    new_tables: &mut [u32],
) -> bool
    requires { Cuttable (store_now «data» objects links counts) table opened glyphs.old classes.old glyph_set.old cuts.now }
    ensures { CutIfRoom (store_came «data» objects links counts) table cuts.now (came new_tables) result (store_left «data» objects links counts)
        (left new_tables) }
{
    let needs = measure_needs(
        data, objects, links, *counts, opened, glyphs, classes, glyph_set, cuts,
    );
    let lent = Lent::of(data, objects, links, new_tables);
    if is_short(lent, *counts, needs) {
        return false;
    }
    let count = opened.marks.count as usize;
    carry_out(
        data,
        objects,
        links,
        counts,
        table,
        opened,
        needs,
        &mut glyphs[0..count],
        classes,
        glyph_set,
        cuts,
        new_tables,
    );
    true
}

// Splits a table at the places of a plan, whatever they come from: nothing to cut, no room, or the split, and then how many tables are new.
fn split_planned(
    data: &mut [u8],
    objects: &mut [u32],
    links: &mut [u32],
    counts: &mut [u32; 3],
    table: u32,
    plan: Plan<MarkTable>,
    glyphs: &mut [u16],
    classes: &mut [u16],
    glyph_set: &mut [u8],
    cuts: &[u16],
    new_tables: &mut [u32],
) -> Result<u32, Answer>
    requires { PlanReady (store_now «data» objects links counts) table plan glyphs.old classes.old glyph_set.old cuts.now }
    ensures { (w : Scratch)
        → outcome (answer_of result) (count_of result) (store_left «data» objects links counts) (left new_tables) (cleared w)
        ≡ split_unless
        (last_cases (store_came «data» objects links counts) table (part cuts.now 0 plan.cuts) (came new_tables))
        (store_came «data» objects links counts) table (part cuts.now 0 plan.cuts) w (came new_tables) }
{
    let count = plan.cuts;
    if count == 0 {
        return Err(Answer::Done);
    }
    let opened = plan.table;
    let covered = opened.glyphs;
    let marked = opened.marks.count as usize;
    let split = split_at(
        data,
        objects,
        links,
        counts,
        table,
        opened,
        &mut glyphs[0..covered],
        &mut classes[0..marked],
        glyph_set,
        &cuts[0..count],
        new_tables,
    );
    if !split {
        return Err(Answer::NoRoom);
    }
    Ok(count as u32)
}

// Splits a table, or refuses to; the scratch is left as it then is.
fn split_any(
    data: &mut [u8],
    objects: &mut [u32],
    links: &mut [u32],
    counts: &mut [u32; 3],
    table: u32,
    settings: Settings,
    walk: &mut [u32],
    glyph_set: &mut [u8],
    glyphs: &mut [u16],
    classes: &mut [u16],
    cuts: &mut [u16],
    new_tables: &mut [u32],
) -> Result<u32, Answer>
    ensures { outcome (answer_of result) (count_of result) (store_left «data» objects links counts) (left new_tables)
        (cleared (scratch_came walk glyph_set glyphs classes cuts))
        ≡ mark_split_call settings (store_came «data» objects links counts) table (scratch_came walk glyph_set glyphs classes cuts)
        (came new_tables) }
{
    let plan = decide(
        data, objects, links, *counts, table, settings, walk, glyph_set, glyphs, classes, cuts,
    )?;
    split_planned(
        data, objects, links, counts, table, plan, glyphs, classes, glyph_set, cuts, new_tables,
    )
}

// Splits a table of any store. The numbers of the new tables come to the front of `new_tables`. Scratch is zero after it.
pub fn split_markbasepos(
    data: &mut [u8],
    objects: &mut [u32],
    links: &mut [u32],
    counts: &mut [u32; 3],
    table: u32,
    settings: Settings,
    walk: &mut [u32],
    glyph_set: &mut [u8],
    glyphs: &mut [u16],
    classes: &mut [u16],
    cuts: &mut [u16],
    new_tables: &mut [u32],
    new_count: &mut u32,
) -> u32
    ensures { outcome result (left new_count) (store_left «data» objects links counts) (left new_tables)
        (scratch_left walk glyph_set glyphs classes cuts)
        ≡ mark_split_call settings (store_came «data» objects links counts) table (scratch_came walk glyph_set glyphs classes cuts)
        (came new_tables) }
{
    let split = split_any(
        data, objects, links, counts, table, settings, walk, glyph_set, glyphs, classes, cuts,
        new_tables,
    );
    clear_scratch(walk, glyph_set, glyphs, classes, cuts);
    give_out(split, new_count)
}
