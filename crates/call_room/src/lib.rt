// Check 8: whether there is room for what a call needs, whatever it splits or adds. The Rust text grows its graph and has no such check.
#![tactic(auto)]

ghost use Rattle.std.specs.Prelude.{◌≡◌, ◌+◌, ◌≤◌, ltb};
ghost use Rattle.call_rules.specs.Needs.{InUse, short_by, together};

use call_rules::{Lent, Needs};
use store_reader::PER_LINK;

// Whether a room is too small for what is in use and what is needed.
fn lacks(room: usize, used: u32, needed: usize) -> bool
    requires { used ≤ room }
    ensures { result ≡ ltb room (used + needed) }
{
    room - (used as usize) < needed
}

// Whether what is lent is too little for what is in use and what is needed.
#[tactic(auto, unfolding(call_rules::specs::Needs::short_by, store_rules::specs::Store::object_room, store_rules::specs::Store::link_room, store_rules::specs::Store::byte_room))]
pub fn is_short(lent: Lent, counts: [u32; 3], needs: Needs) -> bool
    requires { InUse lent counts }
    ensures { result ≡ short_by lent counts needs }
{
    let objects = lacks((lent.objects / 2).min(65536), counts[1], needs.objects);
    let links = lacks((lent.links / PER_LINK).min(262144), counts[2], needs.links);
    let bytes = lacks(lent.data.min(16777216), counts[0], needs.bytes);
    objects || links || bytes || lent.list < needs.entries
}

// The same of two parts of a call together: what the first takes is in use when the second is asked.
pub fn is_short_for_both(lent: Lent, counts: [u32; 3], first: Needs, second: Needs) -> bool
    requires { InUse lent counts }
    ensures { result ≡ short_by lent counts (together first second) }
{
    if is_short(lent, counts, first) {
        return true;
    }
    let used = [
        counts[0] + (first.bytes as u32),
        counts[1] + (first.objects as u32),
        counts[2] + (first.links as u32),
    ];
    let left = Lent {
        data: lent.data,
        objects: lent.objects,
        links: lent.links,
        list: lent.list - first.entries,
    };
    is_short(left, used, second)
}
