// The lists that a call hands out, whatever kind of table it is on: a cut plan's places, and the numbers of a split's new tables.
#![tactic(auto)]

ghost use Rattle.std.specs.Prelude.{◌≡◌, ◌+◌, ◌*◌, ◌≤◌, ◌<◌, length};
ghost use Rattle.folds.specs.Folds.{upto};
ghost use Rattle.folds.specs.Lists.{put};
ghost use Rattle.folds.specs.Moments.{came, left};
ghost use Rattle.call_rules.specs.Answers.{answer_of, count_of, refusal};
ghost use Rattle.call_lists.specs.Handed.{handed, places_handed, handed_by, planned_cuts, HandingOut};

use call_rules::Answer;

// A table that is not refused, and how many cuts it gets; they stand at the front of the scratch.
#[derive(Clone, Copy)]
pub struct Plan<T> {
    pub table: T,
    pub cuts: usize,
}

// Copies the places to the front of the list. One by one: a copy of the library calls `memmove`, which the archive for C would then need from outside.
fn copy_places(cuts: &[u16], places: &mut [u16])
    requires { length cuts.now ≤ length places.old }
    ensures { left places ≡ put (came places) 0 cuts.now }
{
    for k in 0..cuts.len() {
        places[k] = cuts[k];
    }
}

// Lists the places, if the list is long enough, and says how many they are.
pub fn list_places(cuts: &[u16], places: &mut [u16]) -> Result<u32, Answer>
    requires { length cuts.now < 65536 }
    ensures { handed (answer_of result) (count_of result) (left places) ≡ places_handed cuts.now (came places) }
{
    let count = cuts.len();
    if places.len() < count {
        return Err(Answer::NoRoom);
    }
    copy_places(cuts, places);
    Ok(count as u32)
}

// Lists the cuts of the plan that was decided on, if there is one.
pub fn hand_out<T: Copy>(
    decision: Result<Plan<T>, Answer>,
    cuts: &[u16],
    places: &mut [u16],
) -> Result<u32, Answer>
    requires { HandingOut decision cuts.now }
    ensures { handed (answer_of result) (count_of result) (left places) ≡ handed_by (refusal decision) (planned_cuts decision cuts.now) (came places) }
{
    let plan = decision?;
    list_places(&cuts[..plan.cuts], places)
}

// The numbers of the new tables, at the front of the result list.
pub fn number_tables(new_tables: &mut [u32], first: u32, per_table: usize, count: usize)
    requires { (count ≤ length new_tables.old) × (first + per_table * count < 4294967296) }
    ensures { left new_tables ≡ put (came new_tables) 0 (upto (λ j. first + per_table * j) count) }
{
    for j in 0..count {
        new_tables[j] = (first as usize + per_table * j) as u32;
    }
}
