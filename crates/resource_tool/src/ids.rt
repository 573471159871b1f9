//! The command `ids`.

ghost use Rattle.std.specs.Prelude.{◌≡◌, None, Ok, IfOk, IfSome};
ghost use Rattle.contract_words.specs.Writes.{Writes};
ghost use Rattle.command_base.specs.FilesSeen.{layers_held};
ghost use Rattle.command_base.specs.Output.{Prints};
ghost use Rattle.command_base.specs.names.IdsOfType.{ids_of_type};
ghost use Rattle.command_base.specs.overlay_map.Layer.{base_tables};
ghost use Rattle.command_base.specs.declared.fault.ToolFault.TheVariants.{Write};
ghost use Rattle.resource_tool.specs.TableOutput.{ListsIds, id_line, ids_output, ids_text, listed_ids};
ghost use Rattle.command_base.specs.CarriesOut.{IsKept};

use crate::text::ended;
use answer_text::{write_id, write_its_name};
use command_base::{
    Inputs, LayerFiles, ResId, Stack, Status, Stop, ToolFault, open_stack, status_or_stop,
};
use names::{StackNames, ids_of_type};
use std::alloc::{AllocError, Global};
use std::io::{self, Write};

/// What the words of `ids` ask: the ids of the base layers.
#[derive(Drop)]
pub struct Ids<'a> {
    /// Where the list of layers lies.
    pub layers: &'a str,
}

impl<'a> Ids<'a> {
    /// Reads the layers, and answers. Where it is not answered, nothing is written, unless a write fails.
    pub fn answer<I: Inputs, W: Write + Drop>(
        &self,
        alloc: Global,
        inputs: &I,
        out: &mut W,
    ) -> Result<Status, Stop<'a>>
        ensures answers { IfSome (I.places inputs.now) (λ places. ListsIds W.contents out.old out.new places self.now result) }
        ensures unwritten { IsKept out.old out.new result }
    {
        let files = LayerFiles::read(alloc, inputs, self.layers)?;
        status_or_stop(ids_of_files(alloc, &files, out))
    }
}

// Prints a line for each id that base layers have rows of, in rising order, with its names beside it. Overlays have none of
// their own.
#[tactic(auto, unfolding(crate::specs::TableOutput::ids_output))]
fn ids_of_files<W: Write + Drop>(
    alloc: Global,
    files: &LayerFiles,
    out: &mut W,
) -> Result<Status, ToolFault>
    ensures { Prints W.contents out.old out.new result (ids_output (layers_held files.now)) }
{
    let layers = files.layers(alloc)?;
    let stack = open_stack(alloc, &layers)?;
    print_ids(alloc, &stack, out)
}

fn print_ids<W: Write + Drop>(
    alloc: Global,
    stack: &Stack<'_>,
    out: &mut W,
) -> Result<Status, ToolFault>
    ensures { Prints W.contents out.old out.new result (Ok (listed_ids stack.now)) }
{
    let ids = base_ids(alloc, stack)?;
    let names = StackNames::of(alloc, stack)?;
    ended(Status::Done, write_ids(&names, &ids, out))
}

fn base_ids(alloc: Global, stack: &Stack<'_>) -> Result<Vec<ResId>, AllocError>
    ensures { IfOk result (λ ids. ids.items ≡ ids_of_type None (base_tables stack.now)) }
{
    let tables = stack.base_tables(alloc)?;
    ids_of_type(alloc, &tables, None)
}

#[tactic(auto, using(crate::proofs::Cited::item_steps))]
fn write_ids<W: Write + Drop>(
    stack: &StackNames<'_, '_>,
    ids: &[ResId],
    out: &mut W,
) -> io::Result<()>
    ensures { Writes W.contents out.old out.new result (ids_text stack.now ids.now) }
{
    for id in ids {
        write_id_line(stack, *id, out)?;
    }
    Ok(())
}

fn write_id_line<W: Write + Drop>(
    stack: &StackNames<'_, '_>,
    id: ResId,
    out: &mut W,
) -> io::Result<()>
    ensures { Writes W.contents out.old out.new result (id_line stack.now id) }
{
    write_id(id, out)?;
    write_its_name(stack, id, out)?;
    out.write_all(b"\n")
}
