// Where to cut a MarkBasePos table: the counterpart of `compute_split_points`, which is edition 1's.
#![tactic(auto)]

ghost use Rattle.std.specs.Prelude.{List, ℕ, ◌<◌};
ghost use Rattle.store_rules.specs.Store.{lent};
ghost use Rattle.folds.specs.Moments.{came, left};
ghost use Rattle.mark_arrays.specs.Arrays.{RowsKnown};
ghost use Rattle.mark_points.specs.Points.{PointsReady, Below, Weighs, FindsPlaces};

use crate::anchors::{class_size, class_size_at_cut};
use call_rules::Settings;
use cut_filling::Filling;
use glyph_class_parts::class_end;
use mark_arrays::ArrayRows;

pub mod anchors;
pub mod table_info;

pub use table_info::TableInfo;

// The table that is being filled, where the next class's marks start, and the length of the coverage of the marks in the table.
#[derive(Clone, Copy)]
pub struct Columns {
    pub filling: Filling,
    pub from: usize,
    pub partial: u64,
}

// The cut places, at the front of `cuts`, and how many there are. The marks' places come with their classes, in the order of these.
pub fn compute_split_points(
    objects: &[u32],
    links: &[u32],
    counts: [u32; 3],
    info: TableInfo,
    settings: Settings,
    places: &[u16],
    classes: &[u16],
    walk: &mut [u32],
    cuts: &mut [u16],
) -> usize
    requires { (b : List ℕ) × (t : ℕ) × PointsReady (lent b objects.now links.now counts) t info places.now classes.now walk.old cuts.old }
    ensures { FindsPlaces settings objects.now links.now counts info places.now classes.now (came walk) (came cuts) (left cuts) result }
{
    let rows = ArrayRows::of(links, counts, info.arrays);
    let mut columns = Columns {
        filling: Filling::new(info.start as u64),
        from: 0,
        partial: 4,
    };
    let mut held = [0u32; 4096];
    for class in 0..info.arrays.classes {
        columns = weigh_class(
            objects, links, counts, info, settings, rows, columns, class, places, classes,
            &mut held, walk, cuts,
        );
    }
    columns.filling.cuts
}

// Weighs `class`. After a cut the coverage has its marks alone.
fn weigh_class(
    objects: &[u32],
    links: &[u32],
    counts: [u32; 3],
    info: TableInfo,
    settings: Settings,
    rows: ArrayRows,
    columns: Columns,
    class: u16,
    places: &[u16],
    classes: &[u16],
    held: &mut [u32; 4096],
    walk: &mut [u32],
    cuts: &mut [u16],
) -> Columns
    requires rows_known { RowsKnown links.now counts info.arrays rows }
    requires class_lt_classes { (class < info.arrays.classes)
        ×
        ((b : List ℕ)
        × (t : ℕ)
        × (d : List ℕ)
        × Below settings (lent b objects.now links.now counts) t info places.now classes.now d class columns walk.old cuts.old) }
    ensures { Weighs settings objects.now links.now counts info places.now classes.now class columns (came walk) (came cuts) result (left walk)
        (left cuts) }
{
    let filling = columns.filling;
    let from = columns.from;
    let to = class_end(classes, from, class);
    let marks = (to - from) as u64;
    let epoch = info.epoch + (filling.cuts as u32);
    let own = &places[from..to];
    let size = class_size(
        objects, links, counts, info, rows, class, own, epoch, held, walk,
    );
    let slots = 2 * (info.arrays.bases as u64) + 4 * marks;
    let alone = 4 + 2 * marks;
    let partial = columns.partial + 2 * marks;
    if filling.is_due(class, slots + size, partial, settings.edition) {
        let again = class_size_at_cut(
            objects,
            links,
            counts,
            info,
            rows,
            class,
            own,
            size,
            settings.edition,
            epoch + 1,
            held,
            walk,
        );
        return Columns {
            filling: filling.cut(class, slots + again, info.start as u64, cuts),
            from: to,
            partial: alone,
        };
    }
    Columns {
        filling: filling.add(slots + size),
        from: to,
        partial,
    }
}
