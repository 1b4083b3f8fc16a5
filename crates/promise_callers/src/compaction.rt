// What a caller may rely on of a compaction.
ghost use Rattle.compact_rules.specs.Calls.{compact_outcome};
ghost use Rattle.promise_compaction.specs.Calls.{CompactKeeps};
ghost use Rattle.folds.specs.Moments.{came, left};
ghost use Rattle.store_rules.specs.Moments.{store_came, store_left};

// A compaction: a refusal changes nothing, the scratch is zero, and else exactly what the roots reach is kept, in order and without gaps, and every reading of a
// kept table is the same under the new numbers.
pub fn compact(
    data: &mut [u8],
    objects: &mut [u32],
    links: &mut [u32],
    counts: &mut [u32; 3],
    roots: &mut [u32],
    walk: &mut [u32],
    moved: &mut u32,
) -> u32
    ensures { CompactKeeps (store_came «data» objects links counts) (came roots) (came walk)
        (compact_outcome result (left moved) (store_left «data» objects links counts) (left roots) (left walk)) }
{
    splitter::compact(data, objects, links, counts, roots, walk, moved)
}
