//! The rows of types, read one after the other.

ghost use Rattle.std.specs.Prelude.{◌≡◌};
ghost use Rattle.type_entries.specs.TypeRows.{rows_of_type};

use crate::checked_type::CheckedType;
use crate::row::Row;
use std::marker::Model;

/// The rows of a type that are left, in the order of their indexes.
#[derive(Drop)]
pub struct TypeRows<'a> {
    of: CheckedType<'a>,
    /// The first position that is left.
    position: u32,
}

impl<'a> Model for TypeRows<'a> {
    ghost use Rattle.std.specs.Prelude.{List};
    ghost use Rattle.type_entries.specs.Row.{RowOf};
    ghost use Rattle.type_entries.specs.TypeChunk.{type_chunk_of};
    ghost use Rattle.type_entries.specs.Entries.{rows_from};

    ghost Value = { List RowOf };

    ghost view = { λ s. rows_from (type_chunk_of s.of.chunk) s.position };
}

impl<'a> TypeRows<'a> {
    #[tactic(auto, unfolding(crate::specs::TypeRows::rows_of_type))]
    pub(crate) fn new(of: CheckedType<'a>) -> Self
        ensures { result ≡ rows_of_type of.entry }
    {
        TypeRows { of, position: 0 }
    }
}

impl<'a> Iterator for TypeRows<'a> {
    ghost use Rattle.std.specs.Iterator.{YieldsFirstBy, item_count};
    ghost use Rattle.type_entries.specs.Row.{row_of};

    type Item = Row<'a>;

    ghost next_gives = { YieldsFirstBy row_of (λ s. s) };

    ghost remaining = { item_count (λ s. s) };

    #[tactic(auto, using(crate::proofs::TypeRowsSteps::type_rows_steps))]
    fn next(&mut self) -> Option<Row<'a>> {
        while let Some(position) = self.of.chunk.next_entry(self.position) {
            self.position = position + 1;
            if let Some(row) = self.of.row_at_position(position) {
                return Some(row);
            }
        }
        None
    }
}
