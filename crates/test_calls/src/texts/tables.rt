//! Faults of tables, and of what is in them.

use crate::texts::show;
use chunk_walk::ChunkFault;
use config_record::RecordFault;
use overlay_map::TableFault;
use res_value::MapRowsFault;
use string_pool::{PoolFault, StringFault};

pub fn print(rt: &HostRuntime) {
    show(rt, ChunkFault::Oversize(4_294_967_643));
    show(rt, PoolFault::Start);
    show(rt, StringFault::NotEnded);
    show(rt, MapRowsFault::Short);
    show(rt, MapRowsFault::ValueSize(7));
    show(rt, RecordFault::Outside);
    show(rt, TableFault::Chunk(ChunkFault::Oversize(8)));
    show(rt, TableFault::NotTable);
    show(rt, TableFault::Pool(12, PoolFault::Start));
    show(rt, TableFault::Entry(400));
}
