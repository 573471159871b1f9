//! String pools in a table.

ghost use Rattle.std.specs.Prelude.{◌≡◌};
ghost use Rattle.type_chunks.specs.chunk_walk.Chunk.{chunk_of};
ghost use Rattle.overlay_map.specs.TablePools.{seen_table_pool, pool_of_chunk};

use type_chunks::{Chunk, Pool, TableFault};

/// Opens the pool that a chunk is; its fault is given with the place of the chunk.
pub(crate) fn open_pool<'a>(chunk: &Chunk<'a>) -> Result<Pool<'a>, TableFault>
    ensures { seen_table_pool result ≡ pool_of_chunk (chunk_of chunk.now) }
{
    match Pool::open(chunk) {
        Ok(pool) => Ok(pool),
        Err(fault) => Err(TableFault::Pool(chunk.place, fault)),
    }
}
