//! The command `explain`.

ghost use Rattle.resource_text.specs.ExplainJson.{explain_json};
ghost use Rattle.resource_text.specs.ExplainNotation.{explain_notation};
ghost use Rattle.command_base.specs.answer_text.config_record.DeviceSeen.{device_numbers};
ghost use Rattle.std.specs.Prelude.{◌≡◌, map, string_bytes, Ok, IfOk, IfSome};
ghost use Rattle.command_base.specs.FilesSeen.{device_held};
ghost use Rattle.command_base.specs.Output.{Prints};
ghost use Rattle.command_base.specs.StackBytesSeen.{layer_bytes};
ghost use Rattle.command_base.specs.declared.fault.ToolFault.TheVariants.{Write};
ghost use Rattle.resource_tool.specs.OpenedSeen.{opened_of, id_seen};
ghost use Rattle.resource_tool.specs.ExplainOutput.{explain_answer, explain_in_notation, explain_in_json, explain_output, explain_printed, Explains, ExplainsFiles};
ghost use Rattle.command_base.specs.CarriesOut.{IsKept};

use crate::end_status::status_of_end;
use crate::opened::{OpenId, Opened};
use crate::text::print_text;
use answer_text::{NamesBeside, explain, resolve};
use command_base::{
    DeviceFiles, Inputs, LayerParts, LocaleRule, Named, ResId, Status, Stop, ToolFault,
    status_or_stop,
};
use resource_text::{Form, LineForm, Naming, explain_json, explain_text};
use std::alloc::{AllocError, Global};
use std::io::Write;

/// What the words of `explain` ask: how a resource comes to its end for a device.
#[derive(Drop)]
pub struct Explain<'a> {
    /// Where the list of layers lies.
    pub layers: &'a str,
    /// Where the device lies.
    pub device: &'a str,
    /// By which rule its locale is compared.
    pub locales: LocaleRule,
    /// Whether the name of each id is printed beside it.
    pub names: bool,
    /// How it is printed: by ids and indexes, in Android's notation, where each id is told by its name, or as lines of JSON.
    pub form: LineForm,
    /// Whether candidates that do not match are printed in Android's notation too.
    pub all: bool,
    /// The resource, by its id or by its name.
    pub resource: Named<'a>,
}

impl<'a> Explain<'a> {
    /// Reads what the words name, and answers them. Where it is not answered, nothing is written, unless a write fails.
    pub fn answer<I: Inputs, W: Write + Drop>(
        &self,
        alloc: Global,
        inputs: &I,
        out: &mut W,
    ) -> Result<Status, Stop<'a>>
        ensures answers { IfSome (I.places inputs.now) (λ places. Explains W.contents out.old out.new places self.now result) }
        ensures unwritten { IsKept out.old out.new result }
    {
        let files = DeviceFiles::read(alloc, inputs, self.layers, self.device)?;
        self.answer_of(alloc, &files, out)
    }

    fn answer_of<W: Write + Drop>(
        &self,
        alloc: Global,
        files: &DeviceFiles<'a>,
        out: &mut W,
    ) -> Result<Status, Stop<'a>>
        ensures answers { ExplainsFiles W.contents out.old out.new self.now (Ok (device_held files.now)) result }
        ensures unwritten { IsKept out.old out.new result }
    {
        let asked = OpenId::open(
            alloc,
            &files.layers,
            &files.device,
            self.locales,
            self.resource,
        )?;
        status_or_stop(self.print(alloc, files.layers.paths(), &asked, out))
    }

    // Prints it in the form that is asked for, where the tables of the layers lie at these paths.
    fn print<W: Write + Drop>(
        &self,
        alloc: Global,
        paths: &[String],
        asked: &OpenId<'_>,
        out: &mut W,
    ) -> Result<Status, ToolFault>
        ensures { Prints W.contents out.old out.new result (Ok (explain_printed self.now (map string_bytes paths.now) (id_seen asked.now))) }
    {
        let (opened, id) = (&asked.opened, asked.id);
        match self.form {
            LineForm::Text(Form::Raw) => opened.explain(alloc, id, self.names, out),
            LineForm::Text(Form::Android) => {
                opened.explain_in_notation(alloc, paths, self.all, id, out)
            }
            LineForm::Json => opened.explain_in_json(alloc, paths, id, out),
        }
    }
}

/// Prints how an id comes to its end for a device: a line for each id that is looked up and one for each of its
/// candidates, with the rule that decided, and last the end. The status is Negative where the end is absent or
/// too long.
#[tactic(auto, unfolding(crate::specs::ExplainOutput::explain_output))]
pub fn explain_bytes<W: Write + Drop>(
    alloc: Global,
    layers: &[LayerParts<&[u8]>],
    device: &[u8],
    id: ResId,
    out: &mut W,
) -> Result<Status, ToolFault>
    ensures { Prints W.contents out.old out.new result (explain_output (map layer_bytes layers.now) device.now id.0) }
{
    let opened = Opened::read(alloc, layers, device)?;
    opened.explain(alloc, id, false, out)
}

impl Opened<'_> {
    /// What `explain_bytes` prints of the same layers and device. Where names are asked for, that of each id stands
    /// beside it.
    pub fn explain<W: Write + Drop>(
        &self,
        alloc: Global,
        id: ResId,
        names: bool,
        out: &mut W,
    ) -> Result<Status, ToolFault>
        ensures { Prints W.contents out.old out.new result (Ok (explain_answer (opened_of self.now) id.0 names)) }
    {
        let names = NamesBeside::of(alloc, &self.stack, names)?;
        let end = explain(&names, id, &self.device, out)?;
        Ok(status_of_end(end))
    }

    /// The same in Android's notation, where the tables of the layers lie at these paths; of all candidates, or of those that
    /// match.
    pub fn explain_in_notation<W: Write + Drop>(
        &self,
        alloc: Global,
        paths: &[String],
        all: bool,
        id: ResId,
        out: &mut W,
    ) -> Result<Status, ToolFault>
        ensures { Prints W.contents out.old out.new result (Ok (explain_in_notation (opened_of self.now) (map string_bytes paths.now) all id.0)) }
    {
        let text = self.explanation(alloc, paths, all, id)?;
        let status = status_of_end(resolve(&self.stack, id, &self.device));
        print_text(status, &text, out)
    }

    /// The same as lines of JSON, of all candidates.
    pub fn explain_in_json<W: Write + Drop>(
        &self,
        alloc: Global,
        paths: &[String],
        id: ResId,
        out: &mut W,
    ) -> Result<Status, ToolFault>
        ensures { Prints W.contents out.old out.new result (Ok (explain_in_json (opened_of self.now) (map string_bytes paths.now) id.0)) }
    {
        let lines = self.explanation_as_json(alloc, paths, id)?;
        let status = status_of_end(resolve(&self.stack, id, &self.device));
        print_text(status, &lines, out)
    }

    // Its lines.
    fn explanation_as_json(
        &self,
        alloc: Global,
        paths: &[String],
        id: ResId,
    ) -> Result<Vec<u8>, AllocError>
        ensures { IfOk result (λ lines. lines.items ≡
            explain_json (record { stack = self.now.stack; paths = map string_bytes paths.now }) (device_numbers self.now.device) id.0) }
    {
        let naming = Naming::of(alloc, &self.stack, paths)?;
        explain_json(&naming, &self.device, id)
    }

    // Its text.
    fn explanation(
        &self,
        alloc: Global,
        paths: &[String],
        all: bool,
        id: ResId,
    ) -> Result<Vec<u8>, AllocError>
        ensures { IfOk result (λ text. text.items ≡
            explain_notation (record { stack = self.now.stack; paths = map string_bytes paths.now }) all (device_numbers self.now.device) id.0) }
    {
        let naming = Naming::of(alloc, &self.stack, paths)?;
        explain_text(&naming, all, &self.device, id)
    }
}
