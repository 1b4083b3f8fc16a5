// What a split at given places needs beside what is in use: its new objects are counted from the covered glyphs, arranged by table.
ghost use Rattle.std.specs.Prelude.{◌≡◌, List, ℕ, ◌≤◌, ◌<◌};
ghost use Rattle.folds.specs.Moments.{came, left};
ghost use Rattle.ot_layouts.specs.PairPos.{shape_of};
ghost use Rattle.ot_pairpos.specs.Layout.{layout_of};
ghost use Rattle.store_rules.specs.Store.{lent};
ghost use Rattle.pair_rules.specs.Written.{needs_of};
ghost use Rattle.pair_carrying.specs.Arranging.{Arranging};
ghost use Rattle.pair_carrying.specs.Measuring.{MeasuresNeeds};

use crate::arranging::arrange;
use call_rules::Needs;
use ot_pairpos::Layout;
use pair_checks::PairTable;
use pair_new_objects::new_length;

// What so many cuts need, whose new objects take `bytes` bytes: the kept table gets no new object for itself.
fn needs_of(layout: Layout, cuts: usize, bytes: usize) -> Needs
    requires { (cuts < 65536) × (layout.own ≤ 2) × (layout.heads ≤ 3) }
    ensures { (b : List ℕ) → layout ≡ layout_of b → result ≡ needs_of (shape_of b) cuts bytes }
{
    Needs {
        objects: (layout.own + 1) * cuts + layout.own,
        links: layout.heads * cuts,
        bytes,
        entries: cuts,
    }
}

// Arranges the covered glyphs of a table by the tables that `cuts` make of it, and counts what these need.
pub fn measure_needs(
    data: &[u8],
    objects: &[u32],
    opened: PairTable,
    glyphs: &mut [u16],
    classes: &mut [u16],
    cuts: &[u16],
) -> Needs
    requires { (l c : List ℕ) × (t : ℕ) × Arranging (lent «data».now objects.now l c) t opened glyphs.old classes.old cuts.now }
    ensures { MeasuresNeeds «data».now objects.now opened (came glyphs) (came classes) cuts.now (left glyphs) (left classes) result }
{
    let layout = opened.layout;
    arrange(data, objects, opened, glyphs, classes, cuts);
    let bytes = new_length(glyphs, classes, cuts, layout);
    needs_of(layout, cuts.len(), bytes)
}
