// What a MarkBasePos table says of a mark glyph and a base glyph: their two anchors. The Rust text has no such reading; this is OpenType's.
#![tactic(auto)]

ghost use Rattle.std.specs.Prelude.{◌≡◌, List, ℕ, ◌<◌};
ghost use Rattle.folds.specs.Moments.{left};
ghost use Rattle.ot_layouts.specs.Coverage.{coverage_of};
ghost use Rattle.store_rules.specs.Store.{lent, bytes_of};
ghost use Rattle.store_rules.specs.Moments.{store_came_with, store_now_with};
ghost use Rattle.glyph_parts.specs.Parts.{ReadPart};
ghost use Rattle.mark_rules.specs.Table.{marks_in, bases_in};
ghost use Rattle.mark_rules.specs.Attachments.{attach_of};
ghost use Rattle.mark_rules.specs.Calls.{reported, mark_call};
ghost use Rattle.mark_checks.specs.Opens.{Opens};
ghost use Rattle.mark_reading.specs.Reading.{attached_as, place_below, attach_at, mark_outcome};

mod anchors;

pub use anchors::Anchors;
use glyph_parts::{Part, place_in};
use mark_checks::{MarkTable, check_table};
use ot_wire::u16_at;
use store_reader::{bytes_of, child_at};

// The glyph's place in a coverage, if it is one of the first `count`.
fn place_below(
    data: &[u8],
    objects: &[u32],
    coverage: Part,
    glyph: u16,
    count: u16,
) -> Option<usize>
    requires { ReadPart coverage_of «data».now objects.now coverage }
    ensures { (l c : List ℕ) → result ≡ place_below (bytes_of (lent «data».now objects.now l c) coverage.object) glyph count }
{
    place_in(data, objects, coverage, glyph).filter(|&i| i < usize::from(count))
}

// The anchors of mark `i` and, for its class, of base `j`.
fn anchors_at(
    data: &[u8],
    objects: &[u32],
    links: &[u32],
    counts: [u32; 3],
    table: u32,
    opened: MarkTable,
    i: usize,
    j: usize,
) -> Option<Anchors>
    requires opens { Opens (store_now_with «data» objects links counts) table opened }
    requires i_bound { (i < marks_in (store_now_with «data» objects links counts) table) × (j < bases_in (store_now_with «data» objects links counts) table) }
    ensures { attached_as result ≡ attach_at (store_came_with «data» objects links counts) table i j }
{
    let marks = opened.marks;
    let bases = opened.bases;
    let array = bytes_of(data, objects, marks.object as usize);
    let class = usize::from(u16_at(array, 2 + 4 * i));
    let mark = child_at(links, counts, marks.object, (4 + 4 * i) as u32)?;
    let slot = j * usize::from(opened.classes) + class;
    let base = child_at(links, counts, bases.object, (2 + 2 * slot) as u32)?;
    Some(Anchors { mark, base })
}

// The attachment of a mark glyph to a base glyph, by a table that no check refuses.
fn attachment_of(
    data: &[u8],
    objects: &[u32],
    links: &[u32],
    counts: [u32; 3],
    table: u32,
    opened: MarkTable,
    mark: u16,
    base: u16,
) -> Option<Anchors>
    requires { Opens (store_now_with «data» objects links counts) table opened }
    ensures { attached_as result ≡ attach_of (store_came_with «data» objects links counts) table mark base }
{
    let i = place_below(data, objects, opened.coverage, mark, opened.marks.count)?;
    let j = place_below(
        data,
        objects,
        opened.base_coverage,
        base,
        opened.bases.count,
    )?;
    anchors_at(data, objects, links, counts, table, opened, i, j)
}

// Hands out an answer with an attachment: of each anchor its number plus one, and two zeros where there is none.
fn report(answer: u32, attachment: Option<Anchors>, anchors: &mut [u32; 2], found: &mut u32) -> u32
    ensures { mark_outcome result (left found) (left anchors) ≡ reported answer (attached_as attachment) }
{
    match attachment {
        None => {
            *anchors = [0, 0];
            *found = 0;
            answer
        }
        Some(two) => {
            *anchors = [two.mark + 1, two.base + 1];
            *found = 1;
            answer
        }
    }
}

// Reads the attachment of two glyphs by a table of any store: the answer, whether there is one, and the two anchors.
pub fn read_mark(
    data: &[u8],
    objects: &[u32],
    links: &[u32],
    counts: [u32; 3],
    table: u32,
    mark: u16,
    base: u16,
    anchors: &mut [u32; 2],
    found: &mut u32,
) -> u32
    ensures { mark_outcome result (left found) (left anchors) ≡ mark_call (store_came_with «data» objects links counts) table mark base }
{
    let checked = check_table(data, objects, links, counts, table);
    match checked {
        Err(answer) => report(u32::from(answer), None, anchors, found),
        Ok(opened) => {
            let attachment = attachment_of(data, objects, links, counts, table, opened, mark, base);
            report(0, attachment, anchors, found)
        }
    }
}
