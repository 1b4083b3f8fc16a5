// What a caller may rely on of new tables entered in lookups.
ghost use Rattle.call_rules.specs.Settings.{settings_of};
ghost use Rattle.call_rules.specs.Outcomes.{outcome};
ghost use Rattle.promise_lookups.specs.Calls.{LookupKeeps};
ghost use Rattle.folds.specs.Moments.{came, left};
ghost use Rattle.store_rules.specs.Moments.{store_came, store_left};
ghost use Rattle.call_rules.specs.Moments.{scratch_came, scratch_left};

// A split that enters its new tables: a refusal, and no cut, change nothing, the scratch is zero, and after a cut nothing is lost and each lookup gives what it
// gave.
pub fn enter(
    data: &mut [u8],
    objects: &mut [u32],
    links: &mut [u32],
    counts: &mut [u32; 3],
    list: u32,
    table: u32,
    edition: u32,
    walk: &mut [u32],
    glyph_set: &mut [u8],
    glyphs: &mut [u16],
    classes: &mut [u16],
    cuts: &mut [u16],
    new_tables: &mut [u32],
    new_count: &mut u32,
) -> u32
    ensures { LookupKeeps (settings_of edition) (store_came «data» objects links counts) list table
        (scratch_came walk glyph_set glyphs classes cuts) (came new_tables)
        (outcome result (left new_count) (store_left «data» objects links counts) (left new_tables)
        (scratch_left walk glyph_set glyphs classes cuts)) }
{
    splitter::split_in_lookups(
        data, objects, links, counts, list, table, edition, walk, glyph_set, glyphs, classes, cuts,
        new_tables, new_count,
    )
}
