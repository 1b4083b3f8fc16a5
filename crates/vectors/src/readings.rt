// Stored readings beside what tables give.
use crate::input::{Entry, Text};
use crate::report::Case;
use crate::store::{Numbers, Reading, Store};
use std::io;

// A reading of two glyphs as it is stored.
#[derive(Clone, Copy)]
struct Stored {
    first: u16,
    second: u16,
    answer: u32,
    found: u32,
    numbers: [u32; 16],
}

impl Stored {
    // The reading that stands next in a text.
    fn next(text: &mut Text<'_>) -> Stored {
        let first = u16::low(text.next_number());
        let second = u16::low(text.next_number());
        let answer = text.next_number();
        let found = text.next_number();
        let mut numbers = [0; 16];
        text.lay_list(&mut numbers);
        Stored {
            first,
            second,
            answer,
            found,
            numbers,
        }
    }

    // A reading is as stored.
    fn is(&self, reading: &Reading) -> bool {
        reading.answer == self.answer && reading.found == self.found && self.has(&reading.numbers)
    }

    // A value is stored raised by 65,536.
    fn has(&self, numbers: &Numbers) -> bool {
        match numbers {
            Numbers::Values(values) => values.iter().zip(self.numbers.iter()).all(|(
                value,
                stored,
            )| *value == (*stored % 131073) as i32 - 65536),
            Numbers::Anchors(anchors) => anchors
                .iter()
                .zip(self.numbers.iter())
                .all(|(anchor, stored)| anchor == stored),
        }
    }

    // The reading by the first of a store's table and new tables that has something of the two glyphs, or else by the last.
    fn again(&self, store: &Store, new_tables: &[u32]) -> Reading {
        let mut reading = store.read(store.table, self.first, self.second);
        for table in new_tables {
            if reading.found != 0 {
                break;
            }
            reading = store.read(*table, self.first, self.second);
        }
        reading
    }
}

// Each of some stored readings is there, and is what a store's table and new tables give.
pub fn readings_agree<R: Print>(
    case: &mut Case<'_, R>,
    text: &mut Text<'_>,
    store: &Store,
    new_tables: &[u32],
) -> io::Result<()> {
    for _ in 0..text.next_number() {
        if text.is_at_end() {
            case.lacks();
            break;
        }
        let stored = Stored::next(text);
        let agrees = stored.is(&stored.again(store, new_tables));
        case.same("reading", "what two glyphs have", agrees)?;
    }
    Ok(())
}
