//! The command `map`.

ghost use Rattle.std.specs.Prelude.{◌≡◌, Ok, IfSome, OnOk};
ghost use Rattle.command_base.specs.Stop.{GivesOrStops};
ghost use Rattle.command_base.specs.declared.fault.ToolFault.TheVariants.{Write};
ghost use Rattle.command_base.specs.MadeMap.{made_map};
ghost use Rattle.command_base.specs.MapText.{MadeMapReadsBack, ReadsBack};
ghost use Rattle.resource_tool.specs.MapOutput.{PrintsBoth, PrintsMap, map_files, map_held, map_json_output, map_printed, overlay_held, map_output, output_of_map};
ghost use Rattle.command_base.specs.CarriesOut.{IsKept};
ghost use Rattle.command_base.specs.Output.{Prints};

mod json;

use crate::map::json::map_json;
use crate::text::print_text;
use answer_text::write_on_line;
use command_base::{
    Inputs, MadeMap, Status, Stop, Table, TableFile, ToolFault, layer_table_file, open_table,
    status_or_stop,
};
use resource_text::LineForm;
use std::alloc::Global;
use std::io::Write;

/// Which layer the target is, as a fault names it.
const TARGET_LAYER: usize = 0;

/// Which the overlay is.
const OVERLAY_LAYER: usize = 1;

/// What the words of `map` ask: the id map of an overlay.
#[derive(Drop)]
pub struct Map<'a> {
    /// Where the table of the target lies; `-` is the standard input.
    pub target: &'a str,
    /// Where that of the overlay lies.
    pub overlay: &'a str,
    /// How it is printed: as the map that a list of layers names, or as lines of JSON, with what it leaves out.
    pub form: LineForm,
}

impl<'a> Map<'a> {
    /// Reads both tables, and answers. Where it is not answered, nothing is written, unless a write fails.
    pub fn answer<I: Inputs, W: Write + Drop, E: Write + Drop>(
        &self,
        alloc: Global,
        inputs: &I,
        out: &mut W,
        errors: &mut E,
    ) -> Result<Status, Stop<'a>>
        ensures answers { IfSome (I.places inputs.now) (λ places. PrintsMap W.contents E.contents out.old out.new
            errors.old errors.new places self.now result) }
        ensures unwritten { IsKept out.old out.new result }
        ensures unsaid { IsKept errors.old errors.new result }
    {
        let files = MapFiles::read(inputs, self.target, self.overlay)?;
        let (target, overlay) = (files.target.table(), files.overlay());
        status_or_stop(self.print(alloc, target, overlay, out, errors))
    }

    fn print<W: Write + Drop, E: Write + Drop>(
        &self,
        alloc: Global,
        target: &[u8],
        overlay: &[u8],
        out: &mut W,
        errors: &mut E,
    ) -> Result<Status, ToolFault>
        ensures { PrintsBoth W.contents E.contents out.old out.new errors.old errors.new result (map_printed self.now.form target.now overlay.now) }
    {
        match self.form {
            LineForm::Text(_) => map_bytes(alloc, target, overlay, out, errors),
            LineForm::Json => print_json(alloc, target, overlay, out),
        }
    }
}

/// The files of a table, and of an overlay's.
#[derive(Drop)]
struct MapFiles {
    target: TableFile,
    /// None where both words name one file.
    overlay: Option<TableFile>,
}

impl MapFiles {
    /// Reads a table and then that of an overlay; what both words name is read once.
    #[tactic(auto, unfolding(crate::specs::MapOutput::map_files))]
    fn read<'a, I: Inputs>(
        inputs: &I,
        target_path: &'a str,
        overlay_path: &'a str,
    ) -> Result<MapFiles, Stop<'a>>
        ensures { IfSome (I.places inputs.now) (λ places. GivesOrStops map_held result
            (map_files places target_path.entry.now overlay_path.entry.now)) }
    {
        let target = layer_table_file(inputs, TARGET_LAYER, target_path)?;
        if overlay_path == target_path {
            return Ok(MapFiles {
                target,
                overlay: None,
            });
        }
        let overlay = layer_table_file(inputs, OVERLAY_LAYER, overlay_path)?;
        Ok(MapFiles {
            target,
            overlay: Some(overlay),
        })
    }

    /// The table of the overlay.
    fn overlay(&self) -> &[u8]
        ensures { result.now ≡ overlay_held self.now }
    {
        match &self.overlay {
            Some(file) => file.table(),
            None => self.target.table(),
        }
    }
}

/// Prints the id map of an overlay: each id of the target, and the overlay's id of the same names. To `errors` goes a
/// line for each id of the overlay that stands for no target, and one for each of its references to an id of its own
/// that does not lead there; then the status is Negative. The target is layer 0 and the overlay layer 1. What is printed
/// is read as that map.
#[tactic(auto, unfolding(crate::specs::MapOutput::map_output))]
pub fn map_bytes<W: Write + Drop, E: Write + Drop>(
    alloc: Global,
    target: &[u8],
    overlay: &[u8],
    out: &mut W,
    errors: &mut E,
) -> Result<Status, ToolFault>
    ensures prints { PrintsBoth W.contents E.contents out.old out.new errors.old errors.new result (map_output target.now overlay.now) }
    ensures reads_back { OnOk result (MadeMapReadsBack target.now overlay.now) }
{
    let target = open_table(alloc, TARGET_LAYER, target)?;
    let overlay = open_table(alloc, OVERLAY_LAYER, overlay)?;
    print_map(alloc, &target, &overlay, out, errors)
}

fn print_map<W: Write + Drop, E: Write + Drop>(
    alloc: Global,
    target: &Table<'_>,
    overlay: &Table<'_>,
    out: &mut W,
    errors: &mut E,
) -> Result<Status, ToolFault>
    ensures prints { PrintsBoth W.contents E.contents out.old out.new errors.old errors.new result (Ok (output_of_map overlay.now (made_map target.now overlay.now))) }
    ensures reads_back { OnOk result (ReadsBack (made_map target.now overlay.now)) }
{
    let made = MadeMap::of(alloc, target, overlay)?;
    out.write_all(&made.json)?;
    write_on_line(&made.left, errors)?;
    Ok(Status::negative_if(!made.is_whole))
}

// Prints the map and what it leaves out as lines of JSON.
#[tactic(auto, unfolding(crate::specs::MapOutput::map_json_output))]
fn print_json<W: Write + Drop>(
    alloc: Global,
    target: &[u8],
    overlay: &[u8],
    out: &mut W,
) -> Result<Status, ToolFault>
    ensures { Prints W.contents out.old out.new result (map_json_output target.now overlay.now) }
{
    let target = open_table(alloc, TARGET_LAYER, target)?;
    let overlay = open_table(alloc, OVERLAY_LAYER, overlay)?;
    let lines = map_json(alloc, &target, &overlay)?;
    print_text(Status::negative_if(!lines.is_whole), &lines.text, out)
}
