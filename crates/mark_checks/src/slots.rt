// Check 7's first half: every offset of the table and of its arrays stands at a slot. Order-only links have no position, and are not asked.
ghost use Rattle.std.specs.Prelude.{◌≡◌, List, ℕ};
ghost use Rattle.store_rules.specs.Store.{lent};
ghost use Rattle.mark_rules.specs.Table.{all_at_slots};
ghost use Rattle.mark_checks.specs.Opens.{Opens};

use crate::MarkTable;
use ot_markbasepos::{Holder, is_slot};
use store_reader::all_offsets;

// Whether each offset of the table and of its arrays stands at a slot. An object that is both arrays is judged as either.
pub fn links_at_slots(links: &[u32], counts: [u32; 3], table: u32, opened: MarkTable) -> bool
    requires { (b o : List ℕ) × Opens (lent b o links.now counts) table opened }
    ensures { (b o : List ℕ) → Opens (lent b o links.now counts) table opened → result ≡ all_at_slots (lent b o links.now counts) table }
{
    let marks = opened.marks.object;
    let bases = opened.bases.object;
    if !all_offsets(
        links,
        counts,
        table,
        |position| is_slot(Holder::Table, position),
    ) {
        return false;
    }
    if !all_offsets(
        links,
        counts,
        marks,
        |position| is_slot(Holder::Marks, position),
    ) {
        return false;
    }
    all_offsets(
        links,
        counts,
        bases,
        |position| is_slot(Holder::Bases, position),
    )
}
