// The checks 1 to 5 of a table, in document 01's order: one decision, which splits, cut plans and pair readings share; then those of a call that
// is lent scratch. The Rust text asks some of this in `PairPosFormat1::sanitize`, `PairPosFormat2::sanitize` and `get_table_info`.
#![tactic(auto)]

pub mod call;
pub mod slots;

ghost use Rattle.std.specs.Prelude.{◌≡◌, true, ◌<◌, length};
ghost use Rattle.ot_layouts.specs.Coverage.{coverage_of, cover_glyphs};
ghost use Rattle.ot_layouts.specs.ClassDef.{class_def_of};
ghost use Rattle.store_rules.specs.Store.{Store, sound, bytes_of};
ghost use Rattle.store_rules.specs.Moments.{store_came_with, store_now_with};
ghost use Rattle.glyph_parts.specs.Parts.{linked_of};
ghost use Rattle.call_rules.specs.Answers.{numbered};
ghost use Rattle.pair_checks.specs.Checked.{checked_of, parts_by, sets_by, rows_by};

use call_rules::Answer;
use glyph_parts::{Part, PartKind, glyphs_of, linked_part};
use ot_pairpos::{Layout, Opened, open};
use store_reader::{bytes_of, is_sound};

// A table that no check refuses. In format 1 there are no class definitions, and the coverage stands for them.
#[derive(Clone, Copy)]
pub struct PairTable {
    pub layout: Layout,
    pub coverage: Part,
    pub glyphs: usize,
    pub class1: Part,
    pub class2: Part,
}

// Checks a table of any store. The call has its answer where an error is returned, which for a table of another format is 0.
pub fn check_table(
    data: &[u8],
    objects: &[u32],
    links: &[u32],
    counts: [u32; 3],
    table: u32,
) -> Result<PairTable, Answer>
    ensures { numbered result ≡ checked_of (store_came_with «data» objects links counts) table }
{
    if !is_sound(data, objects, links, counts) {
        return Err(Answer::Unsound);
    }
    check_sound_table(data, objects, links, counts, table)
}

// Checks a table of a store that is known to be sound.
pub fn check_sound_table(
    data: &[u8],
    objects: &[u32],
    links: &[u32],
    counts: [u32; 3],
    table: u32,
) -> Result<PairTable, Answer>
    requires { sound (store_now_with «data» objects links counts) ≡ true }
    ensures { numbered result ≡ checked_of (store_came_with «data» objects links counts) table }
{
    if counts[1] <= table {
        return Err(Answer::NoTable);
    }
    let opened = open(bytes_of(data, objects, table as usize));
    match opened {
        Opened::Bad => Err(Answer::BadTable),
        Opened::Other => Err(Answer::Done),
        Opened::Pair(layout) => check_parts(data, objects, links, counts, table, layout),
    }
}

// Checks 4 and 5 of a table whose layout is known.
fn check_parts(
    data: &[u8],
    objects: &[u32],
    links: &[u32],
    counts: [u32; 3],
    table: u32,
    layout: Layout,
) -> Result<PairTable, Answer>
    requires { sound (store_now_with «data» objects links counts) ≡ true }
    ensures { numbered result ≡ parts_by (store_came_with «data» objects links counts) table layout
        (linked_of coverage_of (store_came_with «data» objects links counts) table 2) }
{
    let linked = linked_part(data, objects, links, counts, table, 2, PartKind::Coverage);
    let coverage = linked.ok_or(Answer::BadParts)?;
    let glyphs = glyphs_of(data, objects, coverage);
    if layout.format == 1 {
        return check_sets(layout, coverage, glyphs);
    }
    check_rows(
        data, objects, links, counts, table, layout, coverage, glyphs,
    )
}

// Check 5, of format 1.
fn check_sets(layout: Layout, coverage: Part, glyphs: usize) -> Result<PairTable, Answer>
    requires { layout.count < 65536 }
    ensures { (s : Store) → glyphs ≡ length (cover_glyphs (bytes_of s coverage.object)) → numbered result ≡ sets_by s layout coverage }
{
    if glyphs < (layout.count as usize) {
        return Err(Answer::FewGlyphs);
    }
    Ok(PairTable {
        layout,
        coverage,
        glyphs,
        class1: coverage,
        class2: coverage,
    })
}

// Check 4 of the class definitions, of format 2.
fn check_rows(
    data: &[u8],
    objects: &[u32],
    links: &[u32],
    counts: [u32; 3],
    table: u32,
    layout: Layout,
    coverage: Part,
    glyphs: usize,
) -> Result<PairTable, Answer>
    requires counts_value { sound (store_now_with «data» objects links counts) ≡ true }
    requires glyphs_value { glyphs ≡ length (cover_glyphs (bytes_of (store_now_with «data» objects links counts) coverage.object)) }
    ensures { numbered result
        ≡ rows_by (store_came_with «data» objects links counts) layout coverage
        (linked_of class_def_of (store_came_with «data» objects links counts) table 8)
        (linked_of class_def_of (store_came_with «data» objects links counts) table 10) }
{
    let first = linked_part(data, objects, links, counts, table, 8, PartKind::ClassDef);
    let class1 = first.ok_or(Answer::BadParts)?;
    let second = linked_part(data, objects, links, counts, table, 10, PartKind::ClassDef);
    let class2 = second.ok_or(Answer::BadParts)?;
    Ok(PairTable {
        layout,
        coverage,
        glyphs,
        class1,
        class2,
    })
}
