// The functions that are exported: those of the crate splitter, by the same names and with the same contracts. They only call.
#![tactic(auto)]

ghost use Rattle.std.specs.Prelude.{◌≡◌};
ghost use Rattle.call_rules.specs.Outcomes.{outcome};
ghost use Rattle.call_rules.specs.Settings.{settings_of};
ghost use Rattle.pair_rules.specs.Calls.{split_call, plan_call, pair_call};
ghost use Rattle.pair_reading.specs.Reading.{pair_outcome};
ghost use Rattle.mark_rules.specs.Calls.{mark_split_call, mark_plan_call, mark_call};
ghost use Rattle.mark_reading.specs.Reading.{mark_outcome};
ghost use Rattle.lookup_rules.specs.Calls.{lookup_call};
ghost use Rattle.compact_rules.specs.Calls.{compact_outcome, compaction_call};
ghost use Rattle.folds.specs.Moments.{came, left};
ghost use Rattle.store_rules.specs.Moments.{store_came, store_left, store_read};
ghost use Rattle.call_rules.specs.Moments.{scratch_came, scratch_left};

// Splits a table of any store: the answer, the numbers of the new tables at the front of their list, and how many there are. Scratch is zero after it.
#[unsafe(no_mangle)]
pub extern "C" fn split_pairpos(
    data: &mut [u8],
    objects: &mut [u32],
    links: &mut [u32],
    counts: &mut [u32; 3],
    table: u32,
    edition: u32,
    walk: &mut [u32],
    glyph_set: &mut [u8],
    glyphs: &mut [u16],
    classes: &mut [u16],
    cuts: &mut [u16],
    new_tables: &mut [u32],
    new_count: &mut u32,
) -> u32
    ensures { outcome result (left new_count) (store_left «data» objects links counts) (left new_tables)
        (scratch_left walk glyph_set glyphs classes cuts)
        ≡ split_call (settings_of edition) (store_came «data» objects links counts) table (scratch_came walk glyph_set glyphs classes cuts)
        (came new_tables) }
{
    splitter::split_pairpos(
        data, objects, links, counts, table, edition, walk, glyph_set, glyphs, classes, cuts,
        new_tables, new_count,
    )
}

// The cut places of a table of any store: the answer, the places at the front of their list, and how many there are. Scratch is zero after it.
#[unsafe(no_mangle)]
pub extern "C" fn cut_plan(
    data: &[u8],
    objects: &[u32],
    links: &[u32],
    counts: &[u32; 3],
    table: u32,
    edition: u32,
    walk: &mut [u32],
    glyph_set: &mut [u8],
    glyphs: &mut [u16],
    classes: &mut [u16],
    cuts: &mut [u16],
    places: &mut [u16],
    place_count: &mut u32,
) -> u32
    ensures { outcome result (left place_count) (store_read «data» objects links counts) (left places)
        (scratch_left walk glyph_set glyphs classes cuts)
        ≡ plan_call (settings_of edition) (store_read «data» objects links counts) table (scratch_came walk glyph_set glyphs classes cuts)
        (came places) }
{
    splitter::cut_plan(
        data,
        objects,
        links,
        counts,
        table,
        edition,
        walk,
        glyph_set,
        glyphs,
        classes,
        cuts,
        places,
        place_count,
    )
}

// Reads the pair of two glyphs by a table of any store: the answer, whether there is a pair, and the sixteen numbers.
#[unsafe(no_mangle)]
pub extern "C" fn read_pair(
    data: &[u8],
    objects: &[u32],
    links: &[u32],
    counts: &[u32; 3],
    table: u32,
    first: u16,
    second: u16,
    values: &mut [i32; 16],
    found: &mut u32,
) -> u32
    ensures { pair_outcome result (left found) (left values) ≡ pair_call (store_read «data» objects links counts) table first second }
{
    splitter::read_pair(
        data, objects, links, counts, table, first, second, values, found,
    )
}

// Splits a mark-to-base table of any store, as `split_pairpos` splits a pair table.
#[unsafe(no_mangle)]
pub extern "C" fn split_markbasepos(
    data: &mut [u8],
    objects: &mut [u32],
    links: &mut [u32],
    counts: &mut [u32; 3],
    table: u32,
    edition: u32,
    walk: &mut [u32],
    glyph_set: &mut [u8],
    glyphs: &mut [u16],
    classes: &mut [u16],
    cuts: &mut [u16],
    new_tables: &mut [u32],
    new_count: &mut u32,
) -> u32
    ensures { outcome result (left new_count) (store_left «data» objects links counts) (left new_tables)
        (scratch_left walk glyph_set glyphs classes cuts)
        ≡ mark_split_call (settings_of edition) (store_came «data» objects links counts) table (scratch_came walk glyph_set glyphs classes cuts)
        (came new_tables) }
{
    splitter::split_markbasepos(
        data, objects, links, counts, table, edition, walk, glyph_set, glyphs, classes, cuts,
        new_tables, new_count,
    )
}

// The cut places of a mark-to-base table of any store, as `cut_plan` gives those of a pair table.
#[unsafe(no_mangle)]
pub extern "C" fn cut_plan_markbasepos(
    data: &[u8],
    objects: &[u32],
    links: &[u32],
    counts: &[u32; 3],
    table: u32,
    edition: u32,
    walk: &mut [u32],
    glyph_set: &mut [u8],
    glyphs: &mut [u16],
    classes: &mut [u16],
    cuts: &mut [u16],
    places: &mut [u16],
    place_count: &mut u32,
) -> u32
    ensures { outcome result (left place_count) (store_read «data» objects links counts) (left places)
        (scratch_left walk glyph_set glyphs classes cuts)
        ≡ mark_plan_call (settings_of edition) (store_read «data» objects links counts) table (scratch_came walk glyph_set glyphs classes cuts)
        (came places) }
{
    splitter::cut_plan_markbasepos(
        data,
        objects,
        links,
        counts,
        table,
        edition,
        walk,
        glyph_set,
        glyphs,
        classes,
        cuts,
        places,
        place_count,
    )
}

// Reads the attachment of a mark glyph to a base glyph by a table of any store: the answer, whether there is one, and the two anchor objects, each as
// its number plus one.
#[unsafe(no_mangle)]
pub extern "C" fn read_mark(
    data: &[u8],
    objects: &[u32],
    links: &[u32],
    counts: &[u32; 3],
    table: u32,
    mark: u16,
    base: u16,
    anchors: &mut [u32; 2],
    found: &mut u32,
) -> u32
    ensures { mark_outcome result (left found) (left anchors) ≡ mark_call (store_read «data» objects links counts) table mark base }
{
    splitter::read_mark(
        data, objects, links, counts, table, mark, base, anchors, found,
    )
}

// Splits a pair table of any store, and enters the new tables in the type 2 lookups of a lookup list that name it: the answer, the numbers of the new tables
// at the front of their list, and how many there are. Scratch is zero after it.
#[unsafe(no_mangle)]
pub extern "C" fn split_in_lookups(
    data: &mut [u8],
    objects: &mut [u32],
    links: &mut [u32],
    counts: &mut [u32; 3],
    list: u32,
    table: u32,
    edition: u32,
    walk: &mut [u32],
    glyph_set: &mut [u8],
    glyphs: &mut [u16],
    classes: &mut [u16],
    cuts: &mut [u16],
    new_tables: &mut [u32],
    new_count: &mut u32,
) -> u32
    ensures { outcome result (left new_count) (store_left «data» objects links counts) (left new_tables)
        (scratch_left walk glyph_set glyphs classes cuts)
        ≡ lookup_call (settings_of edition) (store_came «data» objects links counts) list table (scratch_came walk glyph_set glyphs classes cuts)
        (came new_tables) }
{
    splitter::split_in_lookups(
        data, objects, links, counts, list, table, edition, walk, glyph_set, glyphs, classes, cuts,
        new_tables, new_count,
    )
}

// Compacts any store by a list of roots: the answer, the bytes moved, and the roots under their new numbers. Scratch is zero after it.
#[unsafe(no_mangle)]
pub extern "C" fn compact(
    data: &mut [u8],
    objects: &mut [u32],
    links: &mut [u32],
    counts: &mut [u32; 3],
    roots: &mut [u32],
    walk: &mut [u32],
    moved: &mut u32,
) -> u32
    ensures { compact_outcome result (left moved) (store_left «data» objects links counts) (left roots) (left walk)
        ≡ compaction_call (store_came «data» objects links counts) (came roots) (came walk) }
{
    splitter::compact(data, objects, links, counts, roots, walk, moved)
}
