// The numbers of a pair's two value records, where they stand. The Rust text reads no pair.
#![tactic(auto)]

ghost use Rattle.std.specs.Prelude.{◌≡◌, List, ℕ, ◌+◌, ◌*◌, ◌<◌, get_or};
ghost use Rattle.folds.specs.Folds.{upto};
ghost use Rattle.store_reader.specs.Rows.{InOrder};
ghost use Rattle.ot_layouts.specs.Numbers.{signed16};
ghost use Rattle.ot_layouts.specs.Values.{field_count};
ghost use Rattle.store_rules.specs.Store.{per_link, row_child, lent, child_at};
ghost use Rattle.pair_rules.specs.Pairs.{device_number, number_of};
ghost use Rattle.store_rules.specs.Moments.{store_came_with, store_now_with};
ghost use Rattle.pair_values.specs.Values.{as_pair, ValueRecord, value_pair};

use ot_layouts::field_at;
use ot_pairpos::Layout;
use ot_values::{field_count, has_field, position};
use ot_wire::u16_at;
use store_reader::{bytes_of, child_at};

// A pair as it is answered: whether there is one, and eight numbers for each glyph.
#[derive(Clone, Copy)]
pub struct PairAnswer {
    pub found: bool,
    pub first: [i32; 8],
    pub second: [i32; 8],
}

// Sixteen bits as a signed number.
fn signed(v: u16) -> i32
    ensures { result ≡ signed16 v }
{
    if v < 32768 {
        return v as i32;
    }
    (v as i32) - 65536
}

// A device's number: one more than the object that is linked at `position`, or 0.
fn device_number(links: &[u32], counts: [u32; 3], object: u32, position: u32) -> i32
    requires in_order_lem { InOrder links.now (get_or counts 2 0) }
    requires by_index { (k : ℕ) → k < get_or counts 2 0 → get_or links.now (per_link * k + row_child) 0 < 65536 }
    ensures { (b o : List ℕ) → result ≡ device_number (child_at (lent b o links.now counts) object position) }
{
    let child = child_at(links, counts, object, position);
    match child {
        Some(c) => (c + 1) as i32,
        None => 0,
    }
}

// Field `j` of a value record of `format` at byte `at` of an object. The raw bytes of a device are not read.
fn number_at(
    data: &[u8],
    objects: &[u32],
    links: &[u32],
    counts: [u32; 3],
    object: u32,
    at: usize,
    format: u16,
    j: usize,
) -> i32
    requires value_record { ValueRecord (store_now_with «data» objects links counts) object at format }
    requires j_bound { j < 8 }
    ensures { result ≡ number_of (store_came_with «data» objects links counts) object at format j }
{
    if !has_field(format, j) {
        return 0;
    }
    let place = at + 2 * position(format, j);
    if field_at(j).device {
        return device_number(links, counts, object, place as u32);
    }
    signed(u16_at(bytes_of(data, objects, object as usize), place))
}

// The eight numbers of a value record, each at the place that its field's name says.
fn numbers_at(
    data: &[u8],
    objects: &[u32],
    links: &[u32],
    counts: [u32; 3],
    object: u32,
    at: usize,
    format: u16,
) -> [i32; 8]
    requires { ValueRecord (store_now_with «data» objects links counts) object at format }
    ensures { result ≡ upto (number_of (store_came_with «data» objects links counts) object at format) 8 }
{
    let mut numbers = [0i32; 8];
    for j in 0..8 {
        let name = field_at(j).name;
        numbers[name] = number_at(data, objects, links, counts, object, at, format, j);
    }
    numbers
}

// The pair whose two value records stand at byte `at` of an object, the second behind the first.
pub fn pair_at(
    data: &[u8],
    objects: &[u32],
    links: &[u32],
    counts: [u32; 3],
    layout: Layout,
    object: u32,
    at: usize,
) -> PairAnswer
    requires value_record { ValueRecord (store_now_with «data» objects links counts) object at layout.value1 }
    requires value_record_2 { ValueRecord (store_now_with «data» objects links counts) object (at + 2 * field_count layout.value1) layout.value2 }
    ensures { as_pair result ≡ value_pair (store_came_with «data» objects links counts) layout.value1 layout.value2 object at }
{
    let first = numbers_at(data, objects, links, counts, object, at, layout.value1);
    let behind = at + 2 * field_count(layout.value1);
    let second = numbers_at(data, objects, links, counts, object, behind, layout.value2);
    PairAnswer {
        found: true,
        first,
        second,
    }
}
