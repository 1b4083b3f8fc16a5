// Check 7's first half: every offset of the table stands at a slot. Order-only links have no position, and are not asked.
ghost use Rattle.std.specs.Prelude.{◌≡◌, true, List, ℕ, ◌<◌, get_or};
ghost use Rattle.store_reader.specs.Rows.{InOrder};
ghost use Rattle.ot_pairpos.specs.Layout.{layout_of};
ghost use Rattle.store_rules.specs.Store.{lent, bytes_of, sound};
ghost use Rattle.pair_rules.specs.Table.{all_at_slots};

use ot_pairpos::{Layout, is_slot};
use store_reader::all_offsets;

// Whether each offset of `table`, whose layout is known, stands at a slot.
pub fn links_at_slots(links: &[u32], counts: [u32; 3], table: u32, layout: Layout) -> bool
    requires { (InOrder links.now (get_or counts 2 0)) × (table < 65536) }
    ensures { (b o : List ℕ)
        → sound (lent b o links.now counts) ≡ true
        → layout
        ≡ layout_of (bytes_of (lent b o links.now counts) table)
        → result
        ≡ all_at_slots (lent b o links.now counts) table }
{
    all_offsets(
        links,
        counts,
        table,
        |position| is_slot(layout, position as usize),
    )
}
