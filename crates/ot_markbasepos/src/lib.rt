// A MarkBasePos table's arrays and slots: the counterpart of `MarkArray` and `BaseArray`.
#![tactic(auto)]

ghost use Rattle.std.specs.Prelude.{◌≡◌, ◌+◌, ◌*◌, ◌≤◌, length, ltb};
ghost use Rattle.folds.specs.Folds.{all};
ghost use Rattle.ot_layouts.specs.MarkBasePos.{mark_class, marks_readable, bases_readable, is_table_slot, is_mark_slot, is_base_slot};
ghost use Rattle.ot_markbasepos.specs.Kinds.{readable_as, slot_of};

use ot_wire::u16_at;

// Which of its two arrays.
#[derive(Clone, Copy)]
pub enum ArrayKind {
    Marks,
    Bases,
}

// What a link belongs to: the table itself, its mark array, or its base array.
#[derive(Clone, Copy)]
pub enum Holder {
    Table,
    Marks,
    Bases,
}

// Whether an array of a table of so many classes can be read.
pub fn array_readable(array: &[u8], kind: ArrayKind, classes: u16) -> bool
    ensures { result ≡ readable_as kind classes array.now }
{
    match kind {
        ArrayKind::Marks => marks_readable(array, classes),
        ArrayKind::Bases => bases_readable(array, classes),
    }
}

// Whether a mark array has exactly its length, and each of its marks a class below `classes`.
fn marks_readable(array: &[u8], classes: u16) -> bool
    ensures { result ≡ marks_readable classes array.now }
{
    if array.len() < 2 {
        return false;
    }
    let marks = usize::from(u16_at(array, 0));
    array.len() == 2 + 4 * marks && classes_below(array, marks, classes)
}

// Whether each of so many marks has a class below `classes`.
fn classes_below(array: &[u8], marks: usize, classes: u16) -> bool
    requires { 2 + 4 * marks ≤ length array.now }
    ensures { result ≡ all (λ i. ltb (mark_class array.now i) classes) marks }
{
    (0..marks).all(|i| u16_at(array, 2 + 4 * i) < classes)
}

// Whether a base array has exactly its length.
fn bases_readable(array: &[u8], classes: u16) -> bool
    ensures { result ≡ bases_readable classes array.now }
{
    if array.len() < 2 {
        return false;
    }
    let bases = usize::from(u16_at(array, 0));
    array.len() == 2 + 2 * (bases * usize::from(classes))
}

// Whether a link may stand at `position`.
pub fn is_slot(holder: Holder, position: u32) -> bool
    ensures { result ≡ slot_of holder position }
{
    match holder {
        Holder::Table => is_table_slot(position),
        Holder::Marks => is_mark_slot(position),
        Holder::Bases => is_base_slot(position),
    }
}

// At a coverage or an array.
fn is_table_slot(position: u32) -> bool
    ensures { result ≡ is_table_slot position }
{
    matches!(position, 2 | 4 | 8 | 10)
}

// Behind a mark's class.
fn is_mark_slot(position: u32) -> bool
    ensures { result ≡ is_mark_slot position }
{
    4 <= position && position % 4 == 0
}

// Behind the count of bases.
fn is_base_slot(position: u32) -> bool
    ensures { result ≡ is_base_slot position }
{
    2 <= position && position % 2 == 0
}
