//! The check of all entries of a type.

ghost use Rattle.std.specs.Prelude.{◌≡◌, ◌≢◌, ◌<◌, true, Err, OnOk, IfOk, IfErr};
ghost use Rattle.type_entries.specs.declared.fault.TableFault.TheVariants.{OutOfMemory};
ghost use Rattle.type_entries.specs.Entries.{AreRead, IsChecked};
ghost use Rattle.type_entries.specs.EntryOffsets.{indexes_rise};
ghost use Rattle.type_entries.specs.Entries.{rows_of_entries};
ghost use Rattle.type_entries.specs.TypeChunk.{type_chunk_of};

use crate::bag_checks::BagChecks;
use crate::fault::TableFault;
use crate::type_chunk::TypeChunk;
use std::alloc::Global;

/// The first fault of the entry offsets and entries of a type. Memory is asked for between the checks, and only where
/// entries share bags, or bags overlap.
#[tactic(auto, using(crate::proofs::EntriesSteps::check_steps))]
pub fn check_entries(alloc: Global, chunk: &TypeChunk<'_>) -> Result<(), TableFault>
    ensures checked { OnOk result (IsChecked (type_chunk_of chunk.now)) }
    ensures fault { IfErr result (λ fault. fault ≢ OutOfMemory → rows_of_entries (type_chunk_of chunk.now) ≡ Err fault) }
{
    if !chunk.indexes_rise() {
        return Err(TableFault::Offsets(chunk.place));
    }
    let mut bags = BagChecks::new(alloc, chunk.whole);
    let mut from = 0;
    while from < chunk.offset_count {
        bags.make_ready(alloc)?;
        from = check_from(chunk, &mut bags, from)?;
    }
    Ok(())
}

// The first fault of the entries from a position on, as long as no counts are needed; or the position behind those
// that were checked.
#[tactic(auto, using(crate::proofs::EntriesSteps::check_steps))]
fn check_from<'a>(
    chunk: &TypeChunk<'a>,
    bags: &mut BagChecks<'a>,
    from: u32,
) -> Result<u32, TableFault>
    requires within { from < chunk.now.offset_count }
    requires bags { bags.old.whole.now ≡ chunk.now.whole.now }
    requires rise { indexes_rise (type_chunk_of chunk.now) ≡ true }
    requires read { AreRead (type_chunk_of chunk.now) from }
    ensures same { bags.new.whole.now ≡ bags.old.whole.now }
    ensures more { IfOk result (λ behind. from < behind) }
    ensures read { IfOk result (λ behind. AreRead (type_chunk_of chunk.now) behind) }
    ensures fault { IfErr result (λ fault. rows_of_entries (type_chunk_of chunk.now) ≡ Err fault) }
{
    let mut behind = from;
    while let Some(position) = chunk.next_entry(behind) {
        chunk.check_entry(bags, position)?;
        behind = position + 1;
        if bags.need_counts() {
            return Ok(behind);
        }
    }
    Ok(chunk.offset_count)
}
