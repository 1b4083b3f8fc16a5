// Pair sets: whether one is sorted, and the record of a second glyph in one that is. The Rust text looks at no pair set's records.
#![tactic(auto)]

pub mod linked;
pub mod marked;

ghost use Rattle.std.specs.Prelude.{◌≡◌, true, ◌+◌, ◌-◌, ◌*◌, ◌≤◌, ◌<◌, length};
ghost use Rattle.ot_layouts.specs.PairPos.{set_sorted, first_record};
ghost use Rattle.folds.specs.Moments.{left};
ghost use Rattle.pair_sets.specs.Rising.{second_at, rises, RisesFrom};

use halving::partition_point;
use ot_wire::u16_at;

// The second glyph of record `k`. A record has `size` bytes behind it.
fn glyph_of(set: &[u8], size: usize, k: usize) -> u16
    requires { 2 + (2 + size) * k + (2 + size) ≤ length set.now }
    ensures { result ≡ second_at set.now size k }
{
    u16_at(set, 2 + (2 + size) * k)
}

// Whether the glyphs of five records rise, of which the first stands at `at` and each `step` bytes behind the one before.
fn five_rise(set: &[u8], step: usize, at: usize) -> bool
    requires { at + 4 * step + 2 ≤ length set.now }
    ensures { RisesFrom set.now step at 4 result }
{
    let first = u16_at(set, at);
    let second = u16_at(set, at + step);
    if second <= first {
        return false;
    }
    let third = u16_at(set, at + 2 * step);
    if third <= second {
        return false;
    }
    let fourth = u16_at(set, at + 3 * step);
    if fourth <= third {
        return false;
    }
    fourth < u16_at(set, at + 4 * step)
}

// Whether those of seventeen do: four fives, of which each begins with the last of the one before.
fn seventeen_rise(set: &[u8], step: usize, at: usize) -> bool
    requires { at + 16 * step + 2 ≤ length set.now }
    ensures { RisesFrom set.now step at 16 result }
{
    if !five_rise(set, step, at) {
        return false;
    }
    if !five_rise(set, step, at + 4 * step) {
        return false;
    }
    if !five_rise(set, step, at + 8 * step) {
        return false;
    }
    five_rise(set, step, at + 12 * step)
}

// Whether the glyphs of a set rise, seventeen at a time. The last seventeen are looked at whole, whatever was seen of them: how many would be left
// is hard to foresee for a processor, and costs more than looking twice.
fn many_rise(set: &[u8], size: usize, count: usize) -> bool
    requires { (size ≤ 32) × (length set.now ≡ 2 + (2 + size) * count) × (17 ≤ count) × (count < 65536) }
    ensures { result ≡ rises set.now size 0 (count - 1) }
{
    let step = 2 + size;
    let last = set.len() - 17 * step;
    let mut at: usize = 2;
    loop {
        if !seventeen_rise(set, step, at) {
            return false;
        }
        if last <= at {
            return true;
        }
        at = (at + 16 * step).min(last);
    }
}

// Whether the glyphs of a set rise, one by one.
fn few_rise(set: &[u8], size: usize, count: usize) -> bool
    requires { (length set.now ≡ 2 + (2 + size) * count) × (count < 65536) }
    ensures { result ≡ rises set.now size 0 (count - 1) }
{
    if count == 0 {
        return true;
    }
    let mut last = glyph_of(set, size, 0);
    for k in 1..count {
        let glyph = glyph_of(set, size, k);
        if glyph <= last {
            return false;
        }
        last = glyph;
    }
    true
}

// Whether nothing stands behind the records of a set, and each one's glyph is above the one before it.
pub fn is_sorted(set: &[u8], size: usize) -> bool
    requires { size ≤ 32 }
    ensures { result ≡ set_sorted set.now size }
{
    if set.len() < 2 {
        return false;
    }
    let count = usize::from(u16_at(set, 0));
    if set.len() != 2 + (2 + size) * count {
        return false;
    }
    if count < 17 {
        return few_rise(set, size, count);
    }
    many_rise(set, size, count)
}

// The record of a sorted set with the second glyph: the first whose glyph is not below it, where that is the glyph.
pub fn record_in_set(set: &[u8], size: usize, glyph: u16) -> Option<usize>
    requires { (size ≤ 32) × (set_sorted set.now size ≡ true) }
    ensures { result ≡ first_record set.now size glyph }
{
    let count = usize::from(u16_at(set, 0));
    let k = partition_point(0, count, |k| glyph_of(set, size, k) < glyph);
    if k < count && glyph_of(set, size, k) == glyph {
        Some(k)
    } else {
        None
    }
}
