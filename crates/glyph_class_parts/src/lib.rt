// Glyphs in the order of their classes: those of a class are one part.
#![tactic(auto)]

ghost use Rattle.std.specs.Prelude.{◌≡◌, ◌==◌, ◌≤◌, length};
ghost use Rattle.std.specs.List.{take_while};
ghost use Rattle.glyph_class_parts.specs.ClassParts.{ClassEnd};

// How many entries at the front are of the class.
fn count_front(entries: &[u16], class: u16) -> usize
    ensures { result ≡ length (take_while (λ k. k == class) entries.now) }
{
    entries.iter().take_while(|k| **k == class).count()
}

// Where the entries of a class, which start at `from`, end.
pub fn class_end(classes: &[u16], from: usize, class: u16) -> usize
    requires { from ≤ length classes.now }
    ensures { ClassEnd classes.now from class result }
{
    from + count_front(&classes[from..], class)
}
