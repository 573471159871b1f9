//! The rows of an id, one after the other.

ghost use Rattle.std.specs.Prelude.{◌≡◌, []};
ghost use Rattle.std.specs.Option.{option_map};
ghost use Rattle.type_chunks.specs.Row.{row_of};
ghost use Rattle.overlay_map.specs.Links.{numbers_from};
ghost use Rattle.overlay_map.specs.Places.{row_in, rows_in, StandIn};

use crate::link::Link;
use std::marker::Model;
use type_chunks::{CheckedType, Row};

/// The rows of one id that are left, in the order of the file.
#[derive(Drop)]
pub struct IndexedRows<'t, 'a> {
    types: &'t [CheckedType<'a>],
    /// The index of the entry that each of these rows is, in its type.
    entry: u16,
    /// The links among which the next one is the last.
    links: &'t [Link],
    /// How many links stand up to the next one, with that one; 0 where none is left.
    next: u32,
    ghost found: { StandIn types.now entry (numbers_from links.now next) (rows_in types.now entry (numbers_from links.now next)) },
}

impl<'t, 'a> Model for IndexedRows<'t, 'a> {
    ghost use Rattle.std.specs.Prelude.{List};
    ghost use Rattle.type_chunks.specs.Row.{RowOf};
    ghost use Rattle.overlay_map.specs.Links.{numbers_from};
    ghost use Rattle.overlay_map.specs.Places.{rows_in};

    ghost Value = { List RowOf };

    ghost view = { λ s. rows_in s.types.now s.entry (numbers_from s.links.now s.next) };
}

impl<'t, 'a> IndexedRows<'t, 'a> {
    pub(crate) fn new(
        types: &'t [CheckedType<'a>],
        entry: u16,
        links: &'t [Link],
        next: u32,
    ) -> Self
        requires { StandIn types.now entry (numbers_from links.now next) (rows_in types.now entry (numbers_from links.now next)) }
        ensures { result ≡ rows_in types.now entry (numbers_from links.now next) }
    {
        IndexedRows {
            types,
            entry,
            links,
            next,
        }
    }

    /// No rows.
    #[tactic(auto, using(crate::proofs::LinkSteps::link_steps))]
    pub fn none() -> Self
        ensures { result ≡ [] }
    {
        IndexedRows {
            types: &[],
            entry: 0,
            links: &[],
            next: 0,
        }
    }
}

impl<'t, 'a> Iterator for IndexedRows<'t, 'a> {
    ghost use Rattle.std.specs.Iterator.{YieldsFirstBy, item_count};
    ghost use Rattle.type_chunks.specs.Row.{row_of};

    type Item = Row<'a>;

    ghost next_gives = { YieldsFirstBy row_of (λ s. s) };

    ghost remaining = { item_count (λ s. s) };

    fn next(&mut self) -> Option<Row<'a>> {
        if self.next == 0 {
            return None;
        }
        let index = self.next as usize - 1;
        let Some(link) = self.links.get(index) else {
            return None;
        };
        let (earlier, _) = self.links.split_at(index);
        self.links = earlier;
        self.next = link.next;
        find_row(self.types, link.type_number as usize, self.entry)
    }
}

// The row of an entry in the type of a number.
fn find_row<'a>(types: &[CheckedType<'a>], type_number: usize, entry: u16) -> Option<Row<'a>>
    ensures { option_map row_of result ≡ row_in types.now entry type_number }
{
    match types.get(type_number) {
        Some(found) => found.row(u32::from(entry)),
        None => None,
    }
}
