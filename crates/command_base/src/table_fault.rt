//! Faults of a table, written.

ghost use Rattle.std.specs.Prelude.{◌≡◌};
ghost use Rattle.answer_text.specs.contract_words.Writes.{Writes};
ghost use Rattle.command_base.specs.TableFaultText.{names_and_place, table_fault_text};

use answer_text::{PoolFault, TableFault, write_named_number};
use cert_tree::ChunkFault;
use std::io::{self, Write};

/// Writes the names of a table's fault from outside in, and its place.
#[tactic(auto, unfolding(crate::specs::TableFaultText::table_fault_text))]
pub fn write_table_fault<W: Write + Drop>(fault: TableFault, out: &mut W) -> io::Result<()>
    ensures { Writes W.contents out.old out.new result (table_fault_text fault) }
{
    let (names, place) = names_and_place(fault);
    match place {
        Some(place) => write_named_number(names, place as u128, out),
        None => out.write_all(names.as_bytes()),
    }
}

fn names_and_place(fault: TableFault) -> (&'static str, Option<usize>)
    ensures { (result.0.now, result.1) ≡ names_and_place fault }
{
    match fault {
        TableFault::Chunk(ChunkFault::Truncated(place)) => ("Chunk Truncated", Some(place)),
        TableFault::Chunk(ChunkFault::HeaderShort(place)) => ("Chunk HeaderShort", Some(place)),
        TableFault::Chunk(ChunkFault::HeaderLong(place)) => ("Chunk HeaderLong", Some(place)),
        TableFault::Chunk(ChunkFault::Misaligned(place)) => ("Chunk Misaligned", Some(place)),
        TableFault::Chunk(ChunkFault::Oversize(place)) => ("Chunk Oversize", Some(place)),
        TableFault::NotTable => ("NotTable", None),
        TableFault::PackageId(place) => ("PackageId", Some(place)),
        TableFault::PackageHeader(place) => ("PackageHeader", Some(place)),
        TableFault::Pool(place, PoolFault::HeaderSize) => ("Pool HeaderSize", Some(place)),
        TableFault::Pool(place, PoolFault::Offsets) => ("Pool Offsets", Some(place)),
        TableFault::Pool(place, PoolFault::Start) => ("Pool Start", Some(place)),
        TableFault::TypeId(place) => ("TypeId", Some(place)),
        TableFault::TypeWithoutSpec(place) => ("TypeWithoutSpec", Some(place)),
        TableFault::Config(place) => ("Config", Some(place)),
        TableFault::Offsets(place) => ("Offsets", Some(place)),
        TableFault::Entry(place) => ("Entry", Some(place)),
        TableFault::Value(place) => ("Value", Some(place)),
        // No command comes here with it: `From` of `ToolFault` makes it the command's own.
        TableFault::OutOfMemory => ("OutOfMemory", None),
    }
}
