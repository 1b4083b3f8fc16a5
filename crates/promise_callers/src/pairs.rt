// What a caller may rely on of pair tables.
ghost use Rattle.call_rules.specs.Settings.{settings_of};
ghost use Rattle.call_rules.specs.Outcomes.{outcome};
ghost use Rattle.pair_reading.specs.Reading.{pair_outcome};
ghost use Rattle.promise_pairs.specs.Calls.{SplitKeeps, PlanKeeps, PairKeeps};
ghost use Rattle.folds.specs.Moments.{came, left};
ghost use Rattle.store_rules.specs.Moments.{store_came, store_left, store_read};
ghost use Rattle.call_rules.specs.Moments.{scratch_came, scratch_left};

// A split: a refusal, and no cut, change nothing, the scratch is zero, and after a cut nothing is lost.
pub fn split(
    data: &mut [u8],
    objects: &mut [u32],
    links: &mut [u32],
    counts: &mut [u32; 3],
    table: u32,
    edition: u32,
    walk: &mut [u32],
    glyph_set: &mut [u8],
    glyphs: &mut [u16],
    classes: &mut [u16],
    cuts: &mut [u16],
    new_tables: &mut [u32],
    new_count: &mut u32,
) -> u32
    ensures { SplitKeeps (settings_of edition) (store_came «data» objects links counts) table (scratch_came walk glyph_set glyphs classes cuts) (came new_tables)
        (outcome result (left new_count) (store_left «data» objects links counts) (left new_tables)
        (scratch_left walk glyph_set glyphs classes cuts)) }
{
    splitter::split_pairpos(
        data, objects, links, counts, table, edition, walk, glyph_set, glyphs, classes, cuts,
        new_tables, new_count,
    )
}

// A cut plan: a refusal changes nothing, the store is only read, the scratch is zero, and the places are document 01's.
pub fn plan(
    data: &[u8],
    objects: &[u32],
    links: &[u32],
    counts: &[u32; 3],
    table: u32,
    edition: u32,
    walk: &mut [u32],
    glyph_set: &mut [u8],
    glyphs: &mut [u16],
    classes: &mut [u16],
    cuts: &mut [u16],
    places: &mut [u16],
    place_count: &mut u32,
) -> u32
    ensures { PlanKeeps (settings_of edition) (store_read «data» objects links counts) table (scratch_came walk glyph_set glyphs classes cuts) (came places)
        (outcome result (left place_count) (store_read «data» objects links counts) (left places)
        (scratch_left walk glyph_set glyphs classes cuts)) }
{
    splitter::cut_plan(
        data,
        objects,
        links,
        counts,
        table,
        edition,
        walk,
        glyph_set,
        glyphs,
        classes,
        cuts,
        places,
        place_count,
    )
}

// A pair reading: a refusal has no pair and sixteen zeros.
pub fn pair(
    data: &[u8],
    objects: &[u32],
    links: &[u32],
    counts: &[u32; 3],
    table: u32,
    first: u16,
    second: u16,
    values: &mut [i32; 16],
    found: &mut u32,
) -> u32
    ensures { PairKeeps (store_read «data» objects links counts) table first second (pair_outcome result (left found) (left values)) }
{
    splitter::read_pair(
        data, objects, links, counts, table, first, second, values, found,
    )
}
