// The covered glyphs with their items, as the new objects are written from them: each table's glyphs together, and in order.
ghost use Rattle.std.specs.Prelude.{List, ℕ};
ghost use Rattle.store_rules.specs.Store.{lent};
ghost use Rattle.folds.specs.Moments.{came, left};
ghost use Rattle.pair_carrying.specs.Arranging.{Arranging, Arranges};

use buffers::number_u16;
use cut_parts::order_parts;
use ot_coverage_reader::glyphs_into;
use pair_checks::PairTable;
use store_reader::bytes_of;

// Arranges the covered glyphs of a table that is cut; in format 2 they come in the order of their classes.
pub fn arrange(
    data: &[u8],
    objects: &[u32],
    opened: PairTable,
    glyphs: &mut [u16],
    classes: &mut [u16],
    cuts: &[u16],
)
    requires { (l c : List ℕ) × (t : ℕ) × Arranging (lent «data».now objects.now l c) t opened glyphs.old classes.old cuts.now }
    ensures { Arranges «data».now objects.now opened (came glyphs) (came classes) cuts.now (left glyphs) (left classes) }
{
    let layout = opened.layout;
    if layout.format == 1 {
        let coverage = opened.coverage;
        glyphs_into(
            bytes_of(data, objects, coverage.object as usize),
            coverage.header,
            glyphs,
        );
        // A covered glyph's item is its place.
        number_u16(classes);
        return;
    }
    order_parts(glyphs, classes, cuts, layout.count);
}
