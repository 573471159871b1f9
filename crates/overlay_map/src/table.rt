//! Tables.

ghost use Rattle.std.specs.Prelude.{◌≡◌, ◌<◌, ◌^◌, length};
ghost use Rattle.type_chunks.specs.chunk_walk.Chunk.{chunk_of, seen};
ghost use Rattle.contract_words.specs.Exact.{GivesOr};
ghost use Rattle.type_chunks.specs.string_pool.Pool.{pool_of};
ghost use Rattle.type_chunks.specs.type_entries.declared.fault.TableFault.TheVariants.{OutOfMemory};
ghost use Rattle.type_chunks.specs.Row.{with_id};
ghost use Rattle.overlay_map.specs.Package.{packages_of};
ghost use Rattle.overlay_map.specs.Table.{table_of_children, table_in, rows_of};
ghost use Rattle.overlay_map.specs.KnownChildren.{IsChildRead};

use crate::known_children::KnownChildren;
use crate::layout::{kind, table_header};
use crate::package::Package;
use crate::pool::open_pool;
use crate::rows::{AllRows, Rows};
use std::alloc::Global;
use std::marker::Model;
use string_pool::chunk_at;
use type_chunks::{Chunk, ChunkFault, Pool, ResId, TableFault};

/// A resource table (AOSP: `ResTable`), whose bytes are lent by the input. Contracts see it as its
/// packages with their rows, in the order of the file, and the strings of its values.
#[derive(Drop)]
pub struct Table<'a> {
    packages: Vec<Package<'a>>,
    strings: Pool<'a>,
    ghost few: { length packages.items < 2 ^ 29 },
}

impl<'a> Model for Table<'a> {
    ghost use Rattle.overlay_map.specs.Table.{TableOf};
    ghost use Rattle.overlay_map.specs.Package.{packages_of};
    ghost use Rattle.type_chunks.specs.string_pool.Pool.{pool_of};

    ghost Value = { TableOf };

    ghost view = { λ table. record { packages = packages_of table.packages.items; strings = pool_of table.strings } };
}

impl<'a> Table<'a> {
    /// The table that a file's bytes spell, all of it checked. What follows the table is passed over.
    #[tactic(auto, using(contract_words::proofs::SequenceSteps::with_front_nil), unfolding(crate::specs::Table::table_in))]
    pub fn open(alloc: Global, bytes: &'a [u8]) -> Result<Table<'a>, TableFault>
        ensures { GivesOr OutOfMemory (λ table. table) result (table_in bytes.now) }
    {
        let table = chunk_at(bytes, 0, table_header::LEAST_SIZE)?;
        if table.kind != kind::TABLE {
            return Err(TableFault::NotTable);
        }
        Table::read_children(alloc, &table)
    }

    // The table that the chunks in a table are.
    #[tactic(auto, using(contract_words::proofs::SequenceSteps::knowing_steps))]
    fn read_children(alloc: Global, table: &Chunk<'a>) -> Result<Table<'a>, TableFault>
        ensures { GivesOr OutOfMemory (λ table. table) result (table_of_children (chunk_of table.now)) }
    {
        let mut packages = Vec::new(alloc);
        let mut known = KnownChildren::none();
        for found in table.children() {
            push_child(alloc, found, &mut known, &mut packages)?;
        }
        Ok(Table {
            packages,
            strings: known.strings_or_none(),
        })
    }

    /// Its packages, in the order of the file.
    pub fn packages(&self) -> &[Package<'a>]
        ensures packages { packages_of result.now ≡ self.now.packages }
        // A chunk is shorter than 4 GiB, so it holds few packages.
        ensures few { length result.now < 2 ^ 29 }
    {
        &self.packages
    }

    /// The strings that its values name.
    pub fn strings(&self) -> Pool<'a>
        ensures { pool_of result ≡ self.now.strings }
    {
        self.strings
    }

    /// All rows, in the order of the file.
    pub fn all_rows(&self) -> AllRows<'_, 'a>
        ensures rows { result ≡ rows_of self.now }
        ensures few { length result < 2 ^ 92 }
    {
        AllRows::new(&self.packages)
    }

    /// The rows of an id, in the order of the file: for one look-up, since it walks over all rows and takes no
    /// memory. An `IndexedTable` is for many.
    ///
    /// ```text
    /// for row in table.rows(ResId(0x7f01_0000)) {
    ///     row.config.write_qualifiers(&mut out)?; // [locale=fr]
    /// }
    /// ```
    pub fn rows(&self, id: ResId) -> Rows<'_, 'a>
        ensures { result ≡ with_id id.0 (rows_of self.now) }
    {
        Rows::new(&self.packages, id)
    }
}

// Pushes a chunk in a table, where it is a package; `known` says what the chunks before it are.
fn push_child<'a>(
    alloc: Global,
    found: Result<Chunk<'a>, ChunkFault>,
    known: &mut KnownChildren<'a>,
    packages: &mut Vec<Package<'a>>,
) -> Result<(), TableFault>
    requires { known.old.packages < 2 ^ 60 }
    ensures { IsChildRead known.old known.new (length packages.old.items) (length packages.new.items) (packages_of packages.old.items) (packages_of packages.new.items) result (seen found.entry) }
{
    let chunk = found?;
    match chunk.kind {
        kind::PACKAGE => {
            packages.push(Package::read(alloc, known.packages, &chunk)?)?;
            known.packages += 1;
        }
        kind::POOL if known.strings.is_none() => known.strings = Some(open_pool(&chunk)?),
        _ => {}
    }
    Ok(())
}
