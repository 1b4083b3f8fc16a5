// Marks of objects that have been met, one number for each.
ghost use Rattle.std.specs.Prelude.{◌+◌, ◌<◌, ◌≡◌, length, set};
ghost use Rattle.folds.specs.Moments.{came, left};
ghost use Rattle.lookup_checks.specs.Marks.{MarkedOnce};

// Whether an object has a mark. One that has a place and no mark gets 1.
pub fn was_marked(marks: &mut [u32], object: u32) -> bool
    ensures { MarkedOnce (came marks) object (left marks) result }
{
    let at = object as usize;
    if marks.len() <= at {
        return false;
    }
    if marks[at] != 0 {
        return true;
    }
    marks[at] = 1;
    false
}

// Gives a lookup the mark of number `found`, and puts it behind `marks` marks.
pub fn put_lookup(walk: &mut [u32], marks: usize, found: usize, lookup: u32)
    requires { (lookup < length walk.old) × (marks + found < length walk.old) × (found < 65536) }
    ensures { left walk ≡ set (set (came walk) lookup (found + 2)) (marks + found) lookup }
{
    walk[lookup as usize] = (found as u32) + 2;
    walk[marks + found] = lookup;
}
