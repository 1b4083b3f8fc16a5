// A lookup list and a lookup: their counts, exact lengths and slots.
#![tactic(auto)]

ghost use Rattle.std.specs.Prelude.{◌≡◌, ◌≤◌, length, eqb};
ghost use Rattle.ot_layouts.specs.Lookup.{is_one_of, lookup_count, list_exact, lookup_type, pair_type, subtable_count, lookup_header, filters, lookup_exact};

use ot_wire::u16_at;

// Where the offsets of a lookup list start.
pub const LIST_HEADER: u32 = 2;

// Where those of a lookup do.
pub const LOOKUP_HEADER: u32 = 6;

// Whether `position` is one of `count` slots of two bytes each, of which the first is at `start`.
pub fn is_one_of(start: u32, count: u16, position: u32) -> bool
    ensures { result ≡ is_one_of start count position }
{
    if position < start {
        return false;
    }
    let past = position - start;
    past < 2 * u32::from(count) && past % 2 == 0
}

// Whether a lookup list has exactly its length.
pub fn list_exact(list: &[u8]) -> bool
    ensures { result ≡ list_exact list.now }
{
    list.len() >= 2 && list.len() == 2 + 2 * usize::from(lookup_count(list))
}

// How many lookups a list has, empty slots counted.
pub fn lookup_count(list: &[u8]) -> u16
    requires { 2 ≤ length list.now }
    ensures { result ≡ lookup_count list.now }
{
    u16_at(list, 0)
}

// Whether a lookup has exactly its length.
pub fn lookup_exact(lookup: &[u8]) -> bool
    ensures { result ≡ lookup_exact lookup.now }
{
    if lookup.len() < 6 {
        return false;
    }
    let subtables = usize::from(subtable_count(lookup));
    let set = usize::from(filters(lookup));
    lookup.len() == 6 + 2 * subtables + 2 * set
}

// How many subtables a lookup has, empty slots counted.
pub fn subtable_count(lookup: &[u8]) -> u16
    requires { lookup_header ≤ length lookup.now }
    ensures { result ≡ subtable_count lookup.now }
{
    u16_at(lookup, 4)
}

// 1 where a mark filtering set stands behind the offsets of a lookup, else 0.
fn filters(lookup: &[u8]) -> u16
    requires { lookup_header ≤ length lookup.now }
    ensures { result ≡ filters lookup.now }
{
    u16_at(lookup, 2) / 0x10 % 2
}

// Whether a lookup is of pair adjustment.
pub fn is_of_pairs(lookup: &[u8]) -> bool
    requires { lookup_header ≤ length lookup.now }
    ensures { result ≡ eqb (lookup_type lookup.now) pair_type }
{
    u16_at(lookup, 0) == 2
}
