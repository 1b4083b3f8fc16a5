// What a caller may rely on beyond that under edition 2.
ghost use Rattle.call_rules.specs.Outcomes.{outcome};
ghost use Rattle.promise_editions.specs.OfPairs.{PairsGuaranteedThen};
ghost use Rattle.promise_editions.specs.OfMarks.{MarksGuaranteedThen};
ghost use Rattle.folds.specs.Moments.{left};
ghost use Rattle.store_rules.specs.Moments.{store_came, store_left};
ghost use Rattle.call_rules.specs.Moments.{scratch_left};

// A split of a pair table: after a cut each resulting table of two or more items fits, and none is cut again; in format 1 no fewer cuts do.
pub fn split_pairs(
    data: &mut [u8],
    objects: &mut [u32],
    links: &mut [u32],
    counts: &mut [u32; 3],
    table: u32,
    walk: &mut [u32],
    glyph_set: &mut [u8],
    glyphs: &mut [u16],
    classes: &mut [u16],
    cuts: &mut [u16],
    new_tables: &mut [u32],
    new_count: &mut u32,
) -> u32
    ensures { PairsGuaranteedThen (store_came «data» objects links counts) table
        (outcome result (left new_count) (store_left «data» objects links counts) (left new_tables)
        (scratch_left walk glyph_set glyphs classes cuts)) }
{
    splitter::split_pairpos(
        data, objects, links, counts, table, 2, walk, glyph_set, glyphs, classes, cuts, new_tables,
        new_count,
    )
}

// A split of a mark-to-base table: after a cut each resulting table of two or more classes fits, none is cut again, and no fewer cuts do.
pub fn split_marks(
    data: &mut [u8],
    objects: &mut [u32],
    links: &mut [u32],
    counts: &mut [u32; 3],
    table: u32,
    walk: &mut [u32],
    glyph_set: &mut [u8],
    glyphs: &mut [u16],
    classes: &mut [u16],
    cuts: &mut [u16],
    new_tables: &mut [u32],
    new_count: &mut u32,
) -> u32
    ensures { MarksGuaranteedThen (store_came «data» objects links counts) table
        (outcome result (left new_count) (store_left «data» objects links counts) (left new_tables)
        (scratch_left walk glyph_set glyphs classes cuts)) }
{
    splitter::split_markbasepos(
        data, objects, links, counts, table, 2, walk, glyph_set, glyphs, classes, cuts, new_tables,
        new_count,
    )
}
