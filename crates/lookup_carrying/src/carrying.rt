// New tables entered in lookups: all that can refuse it has been asked, so nothing here fails.
ghost use Rattle.std.specs.Prelude.{◌≡◌};
ghost use Rattle.folds.specs.Moments.{came, left};
ghost use Rattle.store_rules.specs.Moments.{store_came, store_left, store_now};
ghost use Rattle.lookup_rules.specs.Written.{entered_store};
ghost use Rattle.lookup_carrying.specs.Carrying.{CarryingAll, EnteredAt};
ghost use Rattle.lookup_carrying.specs.Lookups.{LookupsReady};

use call_rules::Needs;
use lookup_links::{enter_links, redirect_links};
use lookup_new_objects::write_lookups;
use pair_carrying::carrying::carry_out;
use pair_checks::PairTable;

// Writes the new lookups behind all that is in use, enters the new tables in them, and leads every link to an old one to its new one.
fn enter_lookups(
    data: &mut [u8],
    objects: &mut [u32],
    links: &mut [u32],
    counts: &mut [u32; 3],
    table: u32,
    tables: &[u32],
    marks: &[u32],
    lookups: &[u32],
)
    requires { LookupsReady (store_now «data» objects links counts) table tables.now marks.now lookups.now }
    ensures { store_left «data» objects links counts
        ≡ entered_store (store_came «data» objects links counts) table tables.now lookups.now (store_came «data» objects links counts) }
{
    let first = counts[1];
    let bytes = write_lookups(data, objects, links, *counts, table, tables.len(), lookups);
    let rows = enter_links(links, *counts, table, tables, lookups, first);
    redirect_links(links, rows, marks, first);
    let byte_count = bytes as u32;
    let object_count = first + (lookups.len() as u32);
    let link_count = rows as u32;
    // Stored whole, so that the array's length is known.
    *counts = [byte_count, object_count, link_count];
}

// Splits the table at `cuts`, which needs `needs`, and enters the new tables in these lookups.
pub fn carry_all(
    data: &mut [u8],
    objects: &mut [u32],
    links: &mut [u32],
    counts: &mut [u32; 3],
    table: u32,
    opened: PairTable,
    needs: Needs,
    glyphs: &[u16],
    classes: &[u16],
    cuts: &[u16],
    marks: &[u32],
    lookups: &[u32],
    new_tables: &mut [u32],
)
    requires { CarryingAll (store_now «data» objects links counts) table opened needs glyphs.now classes.now cuts.now new_tables.old
        marks.now lookups.now }
    ensures { EnteredAt (store_came «data» objects links counts) table cuts.now lookups.now (came new_tables)
        (store_left «data» objects links counts) (left new_tables) }
{
    let count = cuts.len();
    carry_out(
        data, objects, links, counts, table, opened, needs, glyphs, classes, cuts, new_tables,
    );
    enter_lookups(
        data,
        objects,
        links,
        counts,
        table,
        &new_tables[..count],
        marks,
        lookups,
    );
}
