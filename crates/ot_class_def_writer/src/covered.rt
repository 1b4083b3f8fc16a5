// The entries of a class definition, as two slices.
ghost use Rattle.std.specs.Prelude.{◌≡◌, length};
ghost use Rattle.ot_ranges.specs.Ascending.{Ascending};

// Covered glyphs in ascending order with their classes, which a class definition has reduced by `first`.
#[derive(Clone, Copy)]
pub struct Entries<'a> {
    pub glyphs: &'a [u16],
    pub classes: &'a [u16],
    pub first: u16,
    ghost same_length: { length classes.now ≡ length glyphs.now },
    ghost ascending: { Ascending glyphs.now },
}
