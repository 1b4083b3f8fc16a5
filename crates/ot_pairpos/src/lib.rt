// A PairPos table's header and slots: the counterpart of `PairPosFormat1` and `PairPosFormat2`.
#![tactic(auto)]

ghost use Rattle.std.specs.Prelude.{◌≡◌, List, ◌++◌, ℕ, ◌+◌, ◌*◌, ◌≤◌, length};
ghost use Rattle.folds.specs.Lists.{among};
ghost use Rattle.ot_layouts.specs.Numbers.{u16_at};
ghost use Rattle.ot_layouts.specs.Values.{field_count};
ghost use Rattle.ot_layouts.specs.PairPos.{own_in, shared_in, format_of, record_size, shape_of, shape1, shape2, is_slot};
ghost use Rattle.ot_pairpos.specs.Layout.{layout_of, opened_as, opened_of, slots_of};

use ot_values::{field_count, is_device};
use ot_wire::u16_at;

// What stands where in a table: both formats are a header and a count of items, each of some units (a slot, or a pair's two value records). The header has
// `heads` links, of which `own` lead to parts that are the table's own, and the count at `count_at`.
#[derive(Clone, Copy)]
pub struct Layout {
    pub format: u16,
    pub header: usize,
    pub own: usize,
    pub heads: usize,
    pub count_at: usize,
    pub count: u16,
    pub item: usize,
    pub unit: usize,
    pub value1: u16,
    pub value2: u16,
    pub columns: u16,
}

// A table of format 1 or 2 of the exact length, one of another format, or one that is too short or of another length.
#[derive(Clone, Copy)]
pub enum Opened {
    Pair(Layout),
    Other,
    Bad,
}

// Opens a table.
pub fn open(table: &[u8]) -> Opened
    ensures { opened_as result ≡ opened_of table.now }
{
    if table.len() < 2 {
        return Opened::Bad;
    }
    match u16_at(table, 0) {
        1 => open_format1(table),
        2 => open_format2(table),
        _ => Opened::Other,
    }
}

fn open_format1(table: &[u8]) -> Opened
    requires { (2 ≤ length table.now) × (format_of table.now ≡ 1) }
    ensures { opened_as result ≡ opened_of table.now }
{
    if table.len() < 10 {
        return Opened::Bad;
    }
    let count = u16_at(table, 8);
    if table.len() != 10 + 2 * usize::from(count) {
        return Opened::Bad;
    }
    Opened::Pair(Layout {
        format: 1,
        header: 10,
        own: 1,
        heads: 1,
        count_at: 8,
        count,
        item: 2,
        unit: 2,
        value1: u16_at(table, 4),
        value2: u16_at(table, 6),
        columns: 0,
    })
}

// The bytes of a pair's two value records.
pub fn record_size(value1: u16, value2: u16) -> usize
    ensures { (result ≡ 2 * (field_count value1 + field_count value2)) × (result ≤ 32) }
{
    2 * (field_count(value1) + field_count(value2))
}

fn open_format2(table: &[u8]) -> Opened
    requires { (2 ≤ length table.now) × (format_of table.now ≡ 2) }
    ensures { opened_as result ≡ opened_of table.now }
{
    if table.len() < 16 {
        return Opened::Bad;
    }
    let value1 = u16_at(table, 4);
    let value2 = u16_at(table, 6);
    let count = u16_at(table, 12);
    let columns = u16_at(table, 14);
    let unit = record_size(value1, value2);
    let item = unit * usize::from(columns);
    if table.len() != 16 + item * usize::from(count) {
        return Opened::Bad;
    }
    Opened::Pair(Layout {
        format: 2,
        header: 16,
        own: 2,
        heads: 3,
        count_at: 12,
        count,
        item,
        unit,
        value1,
        value2,
        columns,
    })
}

// Whether a link may stand at `position` of a table.
pub fn is_slot(layout: Layout, position: usize) -> bool
    ensures { (b : List ℕ) → layout ≡ layout_of b → result ≡ is_slot (shape_of b) position }
{
    if layout.format == 1 {
        is_slot1(position)
    } else {
        is_slot2(layout.unit, layout.value1, layout.value2, position)
    }
}

// Format 1: at the coverage, or at a pair set's slot.
fn is_slot1(position: usize) -> bool
    ensures { (b : List ℕ) → result ≡ is_slot (shape1 b) position }
{
    position == 2 || (10 <= position && (position - 10) % 2 == 0)
}

// Format 2: at the coverage or a class definition, or at a device of a value record.
fn is_slot2(unit: usize, value1: u16, value2: u16, position: usize) -> bool
    ensures { (b : List ℕ) → unit ≡ record_size b → value1 ≡ u16_at b 4 → value2 ≡ u16_at b 6 → result ≡ is_slot (shape2 b) position }
{
    if position < 16 {
        return is_head2(position);
    }
    unit != 0 && is_device_slot(value1, value2, (position - 16) % unit)
}

// Where the header of format 2 has its links.
fn is_head2(position: usize) -> bool
    ensures { result ≡ among position (own_in 2 ++ shared_in 2) }
{
    matches!(position, 2 | 8 | 10)
}

// Whether a device stands at byte `offset` of a pair's two value records.
fn is_device_slot(value1: u16, value2: u16, offset: usize) -> bool
    ensures { result ≡ among offset (slots_of value1 value2) }
{
    if offset % 2 == 1 {
        return false;
    }
    let k = offset / 2;
    let first = field_count(value1);
    if k < first {
        is_device(value1, k)
    } else {
        is_device(value2, k - first)
    }
}
