//! Types whose entries were checked.

ghost use Rattle.std.specs.Prelude.{◌≡◌};
ghost use Rattle.type_entries.specs.TypeChunk.{type_chunk_of};
ghost use Rattle.type_entries.specs.Entries.{IsChecked};

use crate::type_chunk::TypeChunk;
use crate::type_rows::TypeRows;

/// A type (AOSP: `ResTable_type`), whose entry offsets and entries were checked. Its rows are read from its bytes as
/// they are asked for.
#[derive(Clone, Copy)]
pub struct CheckedType<'a> {
    pub chunk: TypeChunk<'a>,
    ghost checked: { IsChecked (type_chunk_of chunk) },
}

impl<'a> CheckedType<'a> {
    ghost use Rattle.type_entries.specs.Row.{set_aside_count};
    ghost use Rattle.type_entries.specs.TypeRows.{rows_of_type};

    /// The id of the package that it is of.
    pub fn package_id(&self) -> u8
        ensures { result ≡ self.now.chunk.owner.id }
    {
        self.chunk.owner.id
    }

    /// Its id: that of its rows' ids.
    pub fn id(&self) -> u8
        ensures { result ≡ self.now.chunk.id }
    {
        self.chunk.id
    }

    /// How many entries its type spec counts. The indexes of its rows are below this.
    pub fn counted_entries(&self) -> usize
        ensures { result ≡ self.now.chunk.spec.entry_count }
    {
        self.chunk.spec.entry_count as usize
    }

    /// Its rows, in the order of their indexes.
    pub fn rows(&self) -> TypeRows<'a>
        ensures { result ≡ rows_of_type self.now }
    {
        TypeRows::new(*self)
    }

    /// How many of its rows are set aside: all or none, since all have its record. Where none is, no row is read.
    #[tactic(auto, using(crate::proofs::TypeRowsSteps::aside_steps))]
    pub fn set_aside(&self) -> u32
        ensures { result ≡ set_aside_count (rows_of_type self.now) }
    {
        if !self.chunk.config.set_aside() {
            return 0;
        }
        self.rows().count() as u32
    }
}
