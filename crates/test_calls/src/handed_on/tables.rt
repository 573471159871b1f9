//! What is called of the crates that read tables, and of the one that writes texts, by the crate that hands it on: who uses
//! the library finds it there.

use chunk_walk::{Chunk, ChunkFault, Chunks, chunk_at, u16_at, u32_at};
use overlay_map::{Row, Rows, Table, TableFault};
use res_value::{Cell, Goal, GoalFault, MapRows, ResId, Value, write_value};
use resource_text::{
    LayersFault, ToolFault, dump_text, end_text, explain, fault_text, rows_text, verdict_text,
};
use string_pool::{Pool, PoolFault, Span, Spans, StringFault, Text};
