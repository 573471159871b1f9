//! Why a table is refused.

ghost use Rattle.std.specs.Prelude.{◌≡◌};
ghost use Rattle.type_entries.specs.declared.fault.TableFault.TheVariants.{Chunk as in_chunk, OutOfMemory};

use std::alloc::{AllocError, AllocFailed};
use std::fmt::{self, Debug, Display, Formatter};
use string_pool::{ChunkFault, PoolFault};
use thiserror::Error;

/// What is wrong with a table: the first fault in the order of the file, with the place of the
/// chunk, entry or value that has it, from the file's first byte.
#[derive(Clone, Copy, Error)]
pub enum TableFault {
    /// A chunk does not stand as a chunk has to.
    #[error("Chunk {0}")]
    Chunk(ChunkFault),
    /// The file's first chunk is no table.
    #[error("NotTable")]
    NotTable,
    /// A package's id is 0 or above 255.
    #[error("PackageId {0}")]
    PackageId(usize),
    /// Where a package's header puts the names of its types or its entries, no pool can stand or stands:
    /// the place is no multiple of four, is not behind the header, is not in the package, or holds a
    /// chunk of another kind.
    #[error("PackageHeader {0}")]
    PackageHeader(usize),
    /// A string pool does not open.
    #[error("Pool {1} {0}")]
    Pool(usize, PoolFault),
    /// The id of a type spec or a type is 0.
    #[error("TypeId {0}")]
    TypeId(usize),
    /// A type has no type spec of its id before it in its package.
    #[error("TypeWithoutSpec {0}")]
    TypeWithoutSpec(usize),
    /// A type's configuration is too short or passes the header.
    #[error("Config {0}")]
    Config(usize),
    /// The flags of a type spec or the entry offsets of a type do not fit, or the indexes of a sparse type do not rise.
    #[error("Offsets {0}")]
    Offsets(usize),
    /// An entry stands at no multiple of four, is too short, or does not fit with what it holds.
    #[error("Entry {0}")]
    Entry(usize),
    /// A value's size is not that of a value.
    #[error("Value {0}")]
    Value(usize),
    #[error("OutOfMemory")]
    OutOfMemory,
}

/// By its text.
impl Debug for TableFault {
    fn fmt<W: fmt::Write>(&self, f: &mut Formatter<W>) -> fmt::Result {
        Display::fmt(self, f)
    }
}

impl From<ChunkFault> for TableFault {
    ghost from_gives = { λ fault e. e ≡ in_chunk fault };

    fn from(fault: ChunkFault) -> TableFault {
        TableFault::Chunk(fault)
    }
}

impl From<AllocError> for TableFault {
    ghost from_gives = { λ _ e. e ≡ OutOfMemory };

    fn from(_error: AllocError) -> TableFault {
        TableFault::OutOfMemory
    }
}

impl<T: Drop> From<AllocFailed<T>> for TableFault {
    ghost from_gives = { λ _ e. e ≡ OutOfMemory };

    fn from(_error: AllocFailed<T>) -> TableFault {
        TableFault::OutOfMemory
    }
}
