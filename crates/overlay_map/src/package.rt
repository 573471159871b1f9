//! Packages.

ghost use Rattle.std.specs.Prelude.{◌≡◌};

use crate::package_header::PackageHeader;
use crate::package_rows::PackageRows;
use std::alloc::Global;
use type_chunks::{Chunk, Owner, PackageTypes, TableFault, Text, Types, types_of_children};

/// A package (AOSP: `ResTable_package`): its rows, with their names.
#[derive(Drop)]
pub struct Package<'a> {
    pub(crate) header: PackageHeader<'a>,
    pub(crate) types: PackageTypes<'a>,
}

impl<'a> Package<'a> {
    ghost use Rattle.type_chunks.specs.chunk_walk.Chunk.{chunk_of};
    ghost use Rattle.contract_words.specs.Exact.{GivesOr};
    ghost use Rattle.type_chunks.specs.string_pool.Text.{text_of};
    ghost use Rattle.type_chunks.specs.type_entries.declared.fault.TableFault.TheVariants.{OutOfMemory};
    ghost use Rattle.type_chunks.specs.TypeRows.{rows_of_each};
    ghost use Rattle.overlay_map.specs.Package.{package_of, package_in};

    /// The package that a chunk is; `index` packages stand before it.
    #[tactic(auto, unfolding(crate::specs::Package::package_in))]
    pub(crate) fn read(
        alloc: Global,
        index: usize,
        chunk: &Chunk<'a>,
    ) -> Result<Package<'a>, TableFault>
        ensures { GivesOr OutOfMemory package_of result (package_in index (chunk_of chunk.now)) }
    {
        let header = PackageHeader::read(chunk)?;
        let owner = Owner {
            id: header.id,
            index,
        };
        let types = types_of_children(alloc, owner, chunk)?;
        Ok(Package { header, types })
    }

    /// The upper byte of its resources' ids: 1 is the system, 0x7f an app.
    pub fn id(&self) -> u8
        ensures { result ≡ (package_of self.now).header.id }
    {
        self.header.id
    }

    pub fn name(&self) -> Text<'a>
        ensures { text_of result ≡ (package_of self.now).header.name }
    {
        self.header.name
    }

    /// Its rows, in the order of the file.
    pub fn rows(&self) -> PackageRows<'_, 'a>
        ensures { result ≡ (package_of self.now).rows }
    {
        PackageRows::new(self.types())
    }

    /// Its types, in the order of the file: each the entries of one type id for one configuration. They are read
    /// anew from their headers.
    pub fn types(&self) -> Types<'_, 'a>
        ensures { rows_of_each result ≡ (package_of self.now).rows }
    {
        self.types.types()
    }
}
