// Links that keep both ends, one behind the other under their ends' new numbers, and zeros behind the last.
ghost use Rattle.std.specs.Prelude.{◌≡◌, true, ◌&&◌, List, [], ℕ, ◌<◌, length, get_or};
ghost use Rattle.folds.specs.Moments.{came, left};
ghost use Rattle.store_rules.specs.Store.{lent, sound};
ghost use Rattle.compact_rules.specs.Marks.{has_mark};
ghost use Rattle.compact_carrying.specs.Packing.{Numbered, PackedLinks, LinksLeft};

use store_link_rows::renumber_row;
use store_reader::{CHILD, PARENT, PER_LINK};

// Whether both ends of a link are marked.
fn keeps_ends(walk: &[u32], parent: usize, child: usize) -> bool
    requires { (parent < length walk.now) × (child < length walk.now) }
    ensures { result ≡ has_mark walk.now parent && has_mark walk.now child }
{
    0 < walk[parent] && 0 < walk[child]
}

// Writes the links that keep both ends behind one another, under their ends' new numbers; how many they are.
fn pack_links(links: &mut [u32], counts: [u32; 3], walk: &[u32]) -> u32
    requires by_index { (b o : List ℕ) × (sound (lent b o links.old counts) ≡ true) }
    requires numbered { Numbered walk.now (get_or counts 1 0) }
    ensures { PackedLinks (lent [] [] (came links) counts) (has_mark walk.now) (left links) result }
{
    let mut j: usize = 0;
    for k in 0..counts[2] as usize {
        let parent = links[PER_LINK * k + PARENT] as usize;
        let child = links[PER_LINK * k + CHILD] as usize;
        if keeps_ends(walk, parent, child) {
            let n = counts[1] as usize;
            renumber_row(links, k, j, walk[n + parent], walk[n + child]);
            j += 1;
        }
    }
    j as u32
}

// The same, and makes zero what they leave.
pub fn compact_links(links: &mut [u32], counts: [u32; 3], walk: &[u32]) -> u32
    requires by_index { (b o : List ℕ) × (sound (lent b o links.old counts) ≡ true) }
    requires numbered { Numbered walk.now (get_or counts 1 0) }
    ensures { LinksLeft (lent [] [] (came links) counts) (has_mark walk.now) (left links) result }
{
    let kept = pack_links(links, counts, walk);
    links[PER_LINK * (kept as usize)..PER_LINK * (counts[2] as usize)].fill(0);
    kept
}
