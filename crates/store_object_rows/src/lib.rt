// Object rows, two numbers each, head and tail, rewritten when a table is split: the table is shortened, and new objects come behind those in use.
#![tactic(auto)]

ghost use Rattle.std.specs.Prelude.{◌≡◌, [], ◌∷◌, ◌+◌, ◌*◌, ◌<◌, length, get_or, set};
ghost use Rattle.folds.specs.Lists.{put};
ghost use Rattle.folds.specs.Moments.{came, left};

// The numbers of an object row.
const PER_OBJECT: usize = 2;

// Writes the row of object k.
pub fn put_object(objects: &mut [u32], k: usize, head: u32, tail: u32)
    requires { 2 * k + 1 < length objects.old }
    ensures { left objects ≡ put (came objects) (2 * k) (head ∷ tail ∷ []) }
{
    let at = PER_OBJECT * k;
    objects[at] = head;
    objects[at + 1] = tail;
}

// Object k keeps its first `kept` bytes.
pub fn shorten(objects: &mut [u32], k: usize, kept: u32)
    requires { (2 * k + 1 < length objects.old) × (get_or objects.old (2 * k) 0 + kept < 4294967296) }
    ensures { left objects ≡ set (came objects) (2 * k + 1) (get_or (came objects) (2 * k) 0 + kept) }
{
    let at = PER_OBJECT * k;
    objects[at + 1] = objects[at] + kept;
}
