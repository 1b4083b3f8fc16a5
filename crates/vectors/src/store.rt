// The store of a case, and the calls on it.
use crate::calls::{Called, Scratch};
use crate::input::Text;
use splitter::{
    cut_plan, cut_plan_markbasepos, read_mark, read_pair, split_markbasepos, split_pairpos,
};
use std::alloc::{AllocError, Global};

// The two kinds of tables.
#[derive(Clone, Copy)]
pub enum Kind {
    Pairs,
    Marks,
}

impl Kind {
    // A lookup type of 4 is that of a table of marks, 2 that of one of pairs, for which any other is taken too.
    pub fn of_lookup(lookup_type: u32) -> Kind {
        match lookup_type {
            4 => Kind::Marks,
            _ => Kind::Pairs,
        }
    }
}

// What a table has of two glyphs: the values of a pair, or the anchors of an attachment.
#[derive(Clone, Copy)]
pub enum Numbers {
    Values([i32; 16]),
    Anchors([u32; 2]),
}

// What a reading answers, whether two glyphs have something, and what.
#[derive(Clone, Copy)]
pub struct Reading {
    pub answer: u32,
    pub found: u32,
    pub numbers: Numbers,
}

// A store as it is lent to calls, the table that they are of, and the edition by which it is cut.
#[derive(Drop)]
pub struct Store {
    pub kind: Kind,
    pub table: u32,
    edition: u32,
    counts: [u32; 3],
    data: Vec<u8>,
    objects: Vec<u32>,
    links: Vec<u32>,
}

impl Store {
    // The store that stands next in a text.
    pub fn next(text: &mut Text<'_>, alloc: Global) -> Result<Store, AllocError> {
        let kind = Kind::of_lookup(text.next_number());
        let table = text.next_number();
        let edition = text.next_number();
        let mut counts = [0; 3];
        text.lay_list(&mut counts);
        Ok(Store {
            kind,
            table,
            edition,
            counts,
            data: text.next_list(alloc, 524288)?,
            objects: text.next_list(alloc, 16384)?,
            links: text.next_list(alloc, 32768)?,
        })
    }

    // The reading of two glyphs by a table. What it answers with is 7 before, so that a call that leaves it shows.
    pub fn read(&self, table: u32, first: u16, second: u16) -> Reading {
        let mut found = 7;
        match self.kind {
            Kind::Pairs => {
                let mut values = [7; 16];
                let answer = read_pair(
                    &self.data,
                    &self.objects,
                    &self.links,
                    &self.counts,
                    table,
                    first,
                    second,
                    &mut values,
                    &mut found,
                );
                Reading {
                    answer,
                    found,
                    numbers: Numbers::Values(values),
                }
            }
            Kind::Marks => {
                let mut anchors = [7; 2];
                let answer = read_mark(
                    &self.data,
                    &self.objects,
                    &self.links,
                    &self.counts,
                    table,
                    first,
                    second,
                    &mut anchors,
                    &mut found,
                );
                Reading {
                    answer,
                    found,
                    numbers: Numbers::Anchors(anchors),
                }
            }
        }
    }

    // The cut plan of the table. The digest is over all that the call may write: scratch, and the places.
    pub fn plan(&self, scratch: &mut Scratch, places: &mut [u16]) -> Called {
        let mut count = 7;
        let answer = match self.kind {
            Kind::Pairs => cut_plan(
                &self.data,
                &self.objects,
                &self.links,
                &self.counts,
                self.table,
                self.edition,
                &mut scratch.walk,
                &mut scratch.glyph_set,
                &mut scratch.glyphs,
                &mut scratch.classes,
                &mut scratch.cuts,
                places,
                &mut count,
            ),
            Kind::Marks => cut_plan_markbasepos(
                &self.data,
                &self.objects,
                &self.links,
                &self.counts,
                self.table,
                self.edition,
                &mut scratch.walk,
                &mut scratch.glyph_set,
                &mut scratch.glyphs,
                &mut scratch.classes,
                &mut scratch.cuts,
                places,
                &mut count,
            ),
        };
        Called {
            answer,
            count,
            digest: scratch.digest().with(places),
        }
    }

    // The split of the table. The digest is over all that is lent, in use or not: scratch, the store, and the numbers of the new tables.
    pub fn split(&mut self, scratch: &mut Scratch, new_tables: &mut [u32]) -> Called {
        let mut count = 7;
        let answer = match self.kind {
            Kind::Pairs => split_pairpos(
                &mut self.data,
                &mut self.objects,
                &mut self.links,
                &mut self.counts,
                self.table,
                self.edition,
                &mut scratch.walk,
                &mut scratch.glyph_set,
                &mut scratch.glyphs,
                &mut scratch.classes,
                &mut scratch.cuts,
                new_tables,
                &mut count,
            ),
            Kind::Marks => split_markbasepos(
                &mut self.data,
                &mut self.objects,
                &mut self.links,
                &mut self.counts,
                self.table,
                self.edition,
                &mut scratch.walk,
                &mut scratch.glyph_set,
                &mut scratch.glyphs,
                &mut scratch.classes,
                &mut scratch.cuts,
                new_tables,
                &mut count,
            ),
        };
        Called {
            answer,
            count,
            digest: scratch
                .digest()
                .with(&self.data)
                .with(&self.objects)
                .with(&self.links)
                .with(&self.counts)
                .with(new_tables),
        }
    }
}

#[cfg(test)]
mod tests {
    use super::*;

    #[test]
    fn a_store_is_laid(rt: HostRuntime) -> Result<(), AllocError> {
        let mut text = Text::new(
            b"type 4 table 1 edition 2 counts 3 2 1 0 data 2 2x9 objects 2 0 2 links 0",
        );
        let store = Store::next(&mut text, rt.alloc())?;
        assert_eq!(rt; store.table, 1);
        assert_eq!(rt; store.counts, [2, 1, 0]);
        assert_eq!(rt; store.data.as_slice(), [9, 9].as_slice());
        Ok(())
    }
}
