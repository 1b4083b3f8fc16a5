// The call that compacts a store: the checks 1, 2 and 6, then the marks, then the compaction itself. Each step is linear.
#![tactic(auto)]

ghost use Rattle.std.specs.Prelude.{◌≡◌};
ghost use Rattle.folds.specs.Moments.{came, left};
ghost use Rattle.store_rules.specs.Moments.{store_came, store_came_with, store_left};
ghost use Rattle.call_rules.specs.Answers.{first_case, refusal};
ghost use Rattle.compact_rules.specs.Calls.{roots_used, compact_cases, compact_outcome, compaction_call};

use call_rules::Answer;
use compact_carrying::carry_out;
use compact_marking::mark_kept;
use store_reader::is_sound;

// Whether each root is below `count`.
fn roots_used(roots: &[u32], count: u32) -> bool
    ensures { result ≡ roots_used count roots.now }
{
    roots.iter().all(|&root| root < count)
}

// The checks, in their order: an error is the answer of the first that refuses.
fn check(
    data: &[u8],
    objects: &[u32],
    links: &[u32],
    counts: [u32; 3],
    roots: &[u32],
    walk: &[u32],
) -> Result<(), Answer>
    ensures { first_case (compact_cases (store_came_with «data» objects links counts) roots.now walk.now) ≡ refusal result }
{
    if !is_sound(data, objects, links, counts) {
        return Err(Answer::Unsound);
    }
    if !roots_used(roots, counts[1]) {
        return Err(Answer::NoTable);
    }
    if walk.len() < 2 * (counts[1] as usize) {
        return Err(Answer::ShortScratch);
    }
    Ok(())
}

// Compacts any store by its roots: the answer, how many bytes have moved, and the roots under their new numbers. Scratch is zero after it.
pub fn compact(
    data: &mut [u8],
    objects: &mut [u32],
    links: &mut [u32],
    counts: &mut [u32; 3],
    roots: &mut [u32],
    walk: &mut [u32],
    moved: &mut u32,
) -> u32
    ensures { compact_outcome result (left moved) (store_left «data» objects links counts) (left roots) (left walk)
        ≡ compaction_call (store_came «data» objects links counts) (came roots) (came walk) }
{
    if let Err(answer) = check(data, objects, links, *counts, roots, walk) {
        walk.fill(0);
        *moved = 0;
        return u32::from(answer);
    }
    mark_kept(objects, links, *counts, roots, walk);
    *moved = carry_out(data, objects, links, counts, roots, walk);
    0
}
