//! The command `bag`.

ghost use Rattle.resource_text.specs.BagJson.{rows_json};
ghost use Rattle.resource_text.specs.BagNotation.{rows_told};
ghost use Rattle.std.specs.Prelude.{◌≡◌, map, string_bytes, Ok, IfOk, IfSome};
ghost use Rattle.std.specs.List.{flat_map};
ghost use Rattle.contract_words.specs.Writes.{Writes};
ghost use Rattle.command_base.specs.FilesSeen.{device_held};
ghost use Rattle.command_base.specs.Output.{Prints};
ghost use Rattle.command_base.specs.StackBytesSeen.{layer_bytes};
ghost use Rattle.command_base.specs.declared.fault.ToolFault.TheVariants.{Write};
ghost use Rattle.resource_tool.specs.OpenedSeen.{id_seen, opened_of};
ghost use Rattle.resource_tool.specs.BagOutput.{bag_row_line, bag_answer, bag_in_json, bag_in_notation, bag_output, bag_printed, PrintsBag, PrintsBagFiles};
ghost use Rattle.command_base.specs.CarriesOut.{IsKept};

use crate::no_bag::{print_no_bag, print_no_bag_json};
use crate::opened::{OpenId, Opened};
use crate::text::{ended, print_text};
use answer_text::{NamesBeside, bag, write_id, write_layer, write_value};
use command_base::{
    BagRow, DeviceFiles, Inputs, LayerParts, LocaleRule, Named, ResId, Status, Stop, ToolFault,
    status_or_stop,
};
use resource_text::{Form, LineForm, Naming, bag_rows_json, bag_text};
use std::alloc::{AllocError, Global};
use std::io::{self, Write};

/// What the words of `bag` ask: the rows of the bag that a resource selects for a device.
#[derive(Drop)]
pub struct Bag<'a> {
    /// Where the list of layers lies.
    pub layers: &'a str,
    /// Where the device lies.
    pub device: &'a str,
    /// By which rule its locale is compared.
    pub locales: LocaleRule,
    /// Whether the name of each id is printed beside it.
    pub names: bool,
    /// How they are printed; in any form but the raw one by their names.
    pub form: LineForm,
    /// The resource, by its id or by its name.
    pub resource: Named<'a>,
}

impl<'a> Bag<'a> {
    /// Reads what the words name, and answers them. Where it is not answered, nothing is written, unless a write fails.
    pub fn answer<I: Inputs, W: Write + Drop>(
        &self,
        alloc: Global,
        inputs: &I,
        out: &mut W,
    ) -> Result<Status, Stop<'a>>
        ensures answers { IfSome (I.places inputs.now) (λ places. PrintsBag W.contents out.old out.new places self.now result) }
        ensures unwritten { IsKept out.old out.new result }
    {
        let files = DeviceFiles::read(alloc, inputs, self.layers, self.device)?;
        self.answer_of(alloc, &files, out)
    }

    fn answer_of<W: Write + Drop>(
        &self,
        alloc: Global,
        files: &DeviceFiles<'a>,
        out: &mut W,
    ) -> Result<Status, Stop<'a>>
        ensures answers { PrintsBagFiles W.contents out.old out.new self.now (Ok (device_held files.now)) result }
        ensures unwritten { IsKept out.old out.new result }
    {
        let asked = OpenId::open(
            alloc,
            &files.layers,
            &files.device,
            self.locales,
            self.resource,
        )?;
        status_or_stop(self.print(alloc, files.layers.paths(), &asked, out))
    }

    // Prints them in the form that is asked for, where the tables of the layers lie at these paths.
    fn print<W: Write + Drop>(
        &self,
        alloc: Global,
        paths: &[String],
        asked: &OpenId<'_>,
        out: &mut W,
    ) -> Result<Status, ToolFault>
        ensures { Prints W.contents out.old out.new result (Ok (bag_printed self.now (map string_bytes paths.now) (id_seen asked.now))) }
    {
        let (opened, id) = (&asked.opened, asked.id);
        match self.form {
            LineForm::Text(Form::Raw) => opened.bag(alloc, id, self.names, out),
            LineForm::Text(Form::Android) => opened.bag_in_notation(alloc, paths, id, out),
            LineForm::Json => opened.bag_in_json(alloc, paths, id, out),
        }
    }
}

/// Prints a line for each row of the bag that an id selects for a device, those that it inherits among them, or
/// one that says why there is no such bag; then the status is Negative.
#[tactic(auto, unfolding(crate::specs::BagOutput::bag_output))]
pub fn bag_bytes<W: Write + Drop>(
    alloc: Global,
    layers: &[LayerParts<&[u8]>],
    device: &[u8],
    id: ResId,
    out: &mut W,
) -> Result<Status, ToolFault>
    ensures { Prints W.contents out.old out.new result (bag_output (map layer_bytes layers.now) device.now id.0) }
{
    let opened = Opened::read(alloc, layers, device)?;
    opened.bag(alloc, id, false, out)
}

impl Opened<'_> {
    /// What `bag_bytes` prints of the same layers and device. Where names are asked for, that of each id stands beside it.
    pub fn bag<W: Write + Drop>(
        &self,
        alloc: Global,
        id: ResId,
        names: bool,
        out: &mut W,
    ) -> Result<Status, ToolFault>
        ensures { Prints W.contents out.old out.new result (Ok (bag_answer (opened_of self.now) id.0 names)) }
    {
        let names = NamesBeside::of(alloc, &self.stack, names)?;
        match bag(alloc, &self.stack, id, &self.device) {
            Ok(rows) => ended(Status::Done, write_rows(&names, rows.as_slice(), out)),
            Err(fault) => print_no_bag(fault, out),
        }
    }

    /// The same in Android's notation, where the tables of the layers lie at these paths.
    pub fn bag_in_notation<W: Write + Drop>(
        &self,
        alloc: Global,
        paths: &[String],
        id: ResId,
        out: &mut W,
    ) -> Result<Status, ToolFault>
        ensures { Prints W.contents out.old out.new result (Ok (bag_in_notation (opened_of self.now) (map string_bytes paths.now) id.0)) }
    {
        match bag(alloc, &self.stack, id, &self.device) {
            Ok(rows) => {
                let text = self.rows_told(alloc, paths, id, rows.as_slice())?;
                print_text(Status::Done, &text, out)
            }
            Err(fault) => print_no_bag(fault, out),
        }
    }

    // The text of its rows.
    fn rows_told(
        &self,
        alloc: Global,
        paths: &[String],
        id: ResId,
        rows: &[BagRow],
    ) -> Result<Vec<u8>, AllocError>
        ensures { IfOk result (λ text. text.items ≡
            rows_told (record { stack = self.now.stack; paths = map string_bytes paths.now }) id.0 rows.now) }
    {
        let naming = Naming::of(alloc, &self.stack, paths)?;
        bag_text(&naming, id, rows)
    }

    /// The same as lines of JSON.
    pub fn bag_in_json<W: Write + Drop>(
        &self,
        alloc: Global,
        paths: &[String],
        id: ResId,
        out: &mut W,
    ) -> Result<Status, ToolFault>
        ensures { Prints W.contents out.old out.new result (Ok (bag_in_json (opened_of self.now) (map string_bytes paths.now) id.0)) }
    {
        match bag(alloc, &self.stack, id, &self.device) {
            Ok(rows) => {
                let text = self.rows_as_json(alloc, paths, id, rows.as_slice())?;
                print_text(Status::Done, &text, out)
            }
            Err(fault) => print_no_bag_json(fault, out),
        }
    }

    // The lines of its rows.
    fn rows_as_json(
        &self,
        alloc: Global,
        paths: &[String],
        id: ResId,
        rows: &[BagRow],
    ) -> Result<Vec<u8>, AllocError>
        ensures { IfOk result (λ text. text.items ≡
            rows_json (record { stack = self.now.stack; paths = map string_bytes paths.now }) id.0 rows.now) }
    {
        let naming = Naming::of(alloc, &self.stack, paths)?;
        bag_rows_json(&naming, id, rows)
    }
}

#[tactic(auto, using(crate::proofs::Cited::item_steps))]
fn write_rows<W: Write + Drop>(
    names: &NamesBeside<'_, '_>,
    rows: &[BagRow],
    out: &mut W,
) -> io::Result<()>
    ensures { Writes W.contents out.old out.new result (flat_map (bag_row_line names.now.stack names.now.asked) rows.now) }
{
    for row in rows {
        write_row(names, *row, out)?;
    }
    Ok(())
}

#[tactic(auto, unfolding(crate::specs::BagOutput::bag_row_line, crate::specs::BagOutput::id_and_layer))]
fn write_row<W: Write + Drop>(
    names: &NamesBeside<'_, '_>,
    row: BagRow,
    out: &mut W,
) -> io::Result<()>
    ensures { Writes W.contents out.old out.new result (bag_row_line names.now.stack names.now.asked row) }
{
    write_id(row.name, out)?;
    names.write(row.name, out)?;
    out.write_all(b" ")?;
    write_layer(row.layer, out)?;
    out.write_all(b" ")?;
    write_value(row.value, out)?;
    out.write_all(b"\n")
}
