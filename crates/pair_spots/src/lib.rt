// Where a pair's values stand: in format 1 by the set of the first glyph's place, in format 2 by the classes of both glyphs. The Rust text reads no pair.
#![tactic(auto)]

ghost use Rattle.std.specs.Prelude.{◌≡◌, true, Ok, List, ℕ, ◌+◌, ◌*◌, ◌≤◌, length};
ghost use Rattle.store_reader.specs.Rows.{Inside};
ghost use Rattle.ot_layouts.specs.ClassDef.{class_def_of};
ghost use Rattle.ot_layouts.specs.PairPos.{set_sorted};
ghost use Rattle.glyph_parts.specs.Parts.{ReadPart};
ghost use Rattle.store_rules.specs.Store.{lent, sound, bytes_of};
ghost use Rattle.pair_rules.specs.Table.{sets_sorted};
ghost use Rattle.pair_rules.specs.Pairs.{spot_of};
ghost use Rattle.call_rules.specs.Answers.{numbered};
ghost use Rattle.pair_checks.specs.Checked.{checked_of};
ghost use Rattle.store_rules.specs.Moments.{store_came_with, store_now_with};
ghost use Rattle.pair_spots.specs.Spots.{spot_found, SlotSorted, in_set, by_set, by_classes};

use glyph_parts::{class_in, place_in};
use ot_pairpos::{Layout, record_size};
use pair_checks::PairTable;
use pair_sets::record_in_set;
use store_reader::{bytes_of, child_at};

// Where a pair's values stand: in which object, and from which byte on.
#[derive(Clone, Copy)]
pub struct Spot {
    pub object: u32,
    pub at: usize,
}

// The values of the second glyph in the pair set `object`, which is sorted.
fn spot_in_set(data: &[u8], objects: &[u32], object: u32, size: usize, second: u16) -> Option<Spot>
    requires inside { Inside (length «data».now) objects.now object }
    requires size_bound { (size ≤ 32) × ((l c : List ℕ) → set_sorted (bytes_of (lent «data».now objects.now l c) object) size ≡ true) }
    ensures { (l c : List ℕ) → spot_found result ≡ in_set (lent «data».now objects.now l c) size second object }
{
    let set = bytes_of(data, objects, object as usize);
    let r = record_in_set(set, size, second)?;
    let at = 4 + (2 + size) * r;
    Some(Spot { object, at })
}

// Format 1: in the set that is linked at slot `k`.
fn spot_by_set(
    data: &[u8],
    objects: &[u32],
    links: &[u32],
    counts: [u32; 3],
    table: u32,
    layout: Layout,
    k: usize,
    second: u16,
) -> Option<Spot>
    requires { (sound (store_now_with «data» objects links counts) ≡ true) × SlotSorted (store_now_with «data» objects links counts) table layout k }
    ensures { spot_found result ≡ by_set (store_came_with «data» objects links counts) table layout second k }
{
    if usize::from(layout.count) <= k {
        return None;
    }
    let object = child_at(links, counts, table, (10 + 2 * k) as u32)?;
    let size = record_size(layout.value1, layout.value2);
    spot_in_set(data, objects, object, size, second)
}

// The record of a row and a column.
fn spot_in_row(table: u32, layout: Layout, row: u16, column: u16) -> Spot
    requires { layout.unit ≤ 32 }
    ensures { result ≡ record { object = table; at = 16 + layout.unit * (row * layout.columns + column) } }
{
    let record = usize::from(row) * usize::from(layout.columns) + usize::from(column);
    let at = 16 + layout.unit * record;
    Spot { object: table, at }
}

// Format 2: in the row of the first glyph's class and the column of the second's.
fn spot_by_classes(
    data: &[u8],
    objects: &[u32],
    table: u32,
    opened: PairTable,
    first: u16,
    second: u16,
) -> Option<Spot>
    requires unit_bound { opened.layout.unit ≤ 32 }
    requires read_part { ReadPart class_def_of «data».now objects.now opened.class1 }
    requires read_part_2 { ReadPart class_def_of «data».now objects.now opened.class2 }
    ensures { (l c : List ℕ) → spot_found result ≡ by_classes (lent «data».now objects.now l c) table opened first second }
{
    let layout = opened.layout;
    let row = class_in(data, objects, opened.class1, first);
    if layout.count <= row {
        return None;
    }
    let column = class_in(data, objects, opened.class2, second);
    if layout.columns <= column {
        return None;
    }
    Some(spot_in_row(table, layout, row, column))
}

// In either format: the first glyph is covered, and then by its set or by both classes.
pub fn spot_of(
    data: &[u8],
    objects: &[u32],
    links: &[u32],
    counts: [u32; 3],
    table: u32,
    opened: PairTable,
    first: u16,
    second: u16,
) -> Option<Spot>
    requires table_value { checked_of (store_now_with «data» objects links counts) table ≡ numbered (Ok opened) }
    requires table_value_2 { sets_sorted (store_now_with «data» objects links counts) table ≡ true }
    ensures { spot_found result ≡ spot_of (store_came_with «data» objects links counts) table first second }
{
    let k = place_in(data, objects, opened.coverage, first)?;
    let layout = opened.layout;
    if layout.format == 1 {
        spot_by_set(data, objects, links, counts, table, layout, k, second)
    } else {
        spot_by_classes(data, objects, table, opened, first, second)
    }
}
