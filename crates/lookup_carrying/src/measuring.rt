// What a split and its lookups need beside what is in use, each by itself.
ghost use Rattle.folds.specs.Moments.{left};
ghost use Rattle.store_rules.specs.Moments.{store_came_with, store_now_with};
ghost use Rattle.lookup_carrying.specs.Measuring.{MeasuringAll, MeasuredAll};

use call_rules::Needs;
use lookup_new_objects::measure;
use pair_carrying::measuring::measure_needs;
use pair_checks::PairTable;

// What the split needs, and what its lookups need.
#[derive(Clone, Copy)]
pub struct Measures {
    pub split: Needs,
    pub lookups: Needs,
}

// Arranges the covered glyphs of a table by the tables that `cuts` make of it, and measures these and the lookups that they are entered in.
// They are an error where one of the lookups would have more subtables than its count can say.
pub fn measure_all(
    data: &[u8],
    objects: &[u32],
    links: &[u32],
    counts: [u32; 3],
    table: u32,
    opened: PairTable,
    lookups: &[u32],
    glyphs: &mut [u16],
    classes: &mut [u16],
    cuts: &[u16],
) -> Result<Measures, Measures>
    requires { MeasuringAll (store_now_with «data» objects links counts) table opened glyphs.old classes.old cuts.now lookups.now }
    ensures { MeasuredAll (store_came_with «data» objects links counts) table (left glyphs) (left classes) cuts.now lookups.now result }
{
    let split = measure_needs(data, objects, opened, glyphs, classes, cuts);
    match measure(data, objects, links, counts, table, cuts.len(), lookups) {
        Ok(lookups) => Ok(Measures { split, lookups }),
        Err(lookups) => Err(Measures { split, lookups }),
    }
}
