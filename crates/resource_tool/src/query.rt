//! The command `query`.

ghost use Rattle.resource_text.specs.EndJson.{ends_json};
ghost use Rattle.resource_text.specs.EndNotation.{ends_notation};
ghost use Rattle.std.specs.Prelude.{◌≡◌, ◌++◌, map, string_bytes, Ok, IfOk, IfSome};
ghost use Rattle.contract_words.specs.Writes.{Writes};
ghost use Rattle.command_base.specs.answer_text.config_record.DeviceSeen.{device_numbers};
ghost use Rattle.std.specs.List.{list_any};
ghost use Rattle.command_base.specs.SetAside.{rows_set_aside};
ghost use Rattle.command_base.specs.answer_text.QueryText.{set_aside_line};
ghost use Rattle.command_base.specs.answer_text.config_record.Device.{device_locale};
ghost use Rattle.command_base.specs.answer_text.config_record.locales.LocaleRule.{rule_of};
ghost use Rattle.command_base.specs.DeviceText.{device_text_of};
ghost use Rattle.command_base.specs.FilesSeen.{asked_held, layers_held};
ghost use Rattle.command_base.specs.Output.{Prints};
ghost use Rattle.command_base.specs.StackBytesSeen.{layer_bytes};
ghost use Rattle.command_base.specs.Stop.{GivesOrStops};
ghost use Rattle.command_base.specs.declared.fault.ToolFault.TheVariants.{Write};
ghost use Rattle.resource_tool.specs.OpenedSeen.{opened_of};
ghost use Rattle.resource_tool.specs.QueryOutput.{end_for, is_unresolved_for, line_of, query_status, query_text, query_answer, query_notation, query_json, query_output, query_printed, query_seen, query_opened, Queries, QueriesFiles};
ghost use Rattle.command_base.specs.CarriesOut.{IsKept};

use crate::end_status::is_unresolved;
use crate::opened::Opened;
use crate::text::print_text;
use answer_text::{NamesBeside, query_line, resolve, set_aside_line};
use command_base::{
    AskedFiles, Device, DeviceText, End, Inputs, LayerFiles, LayerParts, LocaleRule, ResId, Stack,
    Status, Stop, ToolFault, asked_sets, rows_set_aside, status_or_stop,
};
use names::ids_named;
use resource_text::{Form, LineForm, Naming, ends_json, ends_text};
use std::alloc::{AllocError, Global};
use std::io::{self, Write};

/// What the words of `query` ask: the values that a device loads for some resources.
#[derive(Drop)]
pub struct Query<'a> {
    /// Where the list of layers lies.
    pub layers: &'a str,
    /// Where the device lies.
    pub device: &'a str,
    /// By which rule its locale is compared.
    pub locales: LocaleRule,
    /// Whether the name of each id is printed beside it.
    pub names: bool,
    /// How they are printed: by ids and indexes, in Android's notation, where each id is told by its name, or as lines of JSON.
    pub form: LineForm,
    /// The words that ask for resources, or name a file of such words.
    pub words: Vec<&'a str>,
}

impl<'a> Query<'a> {
    /// Reads what the words name, and answers them. Where it is not answered, nothing is written, unless a write fails.
    pub fn answer<I: Inputs, W: Write + Drop>(
        &self,
        alloc: Global,
        inputs: &I,
        out: &mut W,
    ) -> Result<Status, Stop<'a>>
        ensures answers { IfSome (I.places inputs.now) (λ places. Queries W.contents out.old out.new places self.now result) }
        ensures unwritten { IsKept out.old out.new result }
    {
        let files = AskedFiles::read(alloc, inputs, self.layers, self.device, &self.words)?;
        self.answer_of(alloc, &files, out)
    }

    fn answer_of<W: Write + Drop>(
        &self,
        alloc: Global,
        files: &AskedFiles<'a>,
        out: &mut W,
    ) -> Result<Status, Stop<'a>>
        ensures answers { QueriesFiles W.contents out.old out.new self.now (Ok (asked_held files.now)) result }
        ensures unwritten { IsKept out.old out.new result }
    {
        let asked = OpenQuery::open(
            alloc,
            &files.layers,
            &files.device,
            self.locales,
            &files.words,
        )?;
        status_or_stop(self.print(alloc, files.layers.paths(), &asked, out))
    }

    // Prints them in the form that is asked for, where the tables of the layers lie at these paths.
    fn print<W: Write + Drop>(
        &self,
        alloc: Global,
        paths: &[String],
        asked: &OpenQuery<'_>,
        out: &mut W,
    ) -> Result<Status, ToolFault>
        ensures { Prints W.contents out.old out.new result
            (Ok (query_printed self.now.form self.now.names (map string_bytes paths.now) (query_seen asked.now))) }
    {
        let opened = &asked.opened;
        match self.form {
            LineForm::Text(Form::Raw) => opened.query(alloc, &asked.ids, self.names, out),
            LineForm::Text(Form::Android) => {
                opened.query_in_notation(alloc, paths, &asked.ids, out)
            }
            LineForm::Json => opened.query_in_json(alloc, paths, &asked.ids, out),
        }
    }
}

/// Layers and a device that were opened, and the resources that are asked for.
#[derive(Drop)]
struct OpenQuery<'a> {
    opened: Opened<'a>,
    ids: Vec<ResId>,
}

impl<'a> OpenQuery<'a> {
    /// Reads the words, opens the layers, reads the device, and then finds what the words ask for.
    #[tactic(auto, unfolding(crate::specs::QueryOutput::query_opened))]
    fn open<'t>(
        alloc: Global,
        files: &'a LayerFiles,
        device: &DeviceText<'t>,
        rule: LocaleRule,
        words: &[String],
    ) -> Result<OpenQuery<'a>, Stop<'t>>
        ensures { GivesOrStops query_seen result
            (query_opened rule (layers_held files.now) (device_text_of device.now) (map string_bytes words.now)) }
    {
        let sets = asked_sets(alloc, words)?;
        let opened = Opened::read_by(alloc, files, device, rule)?;
        let ids = ids_named(alloc, &opened.stack, &sets)?;
        Ok(OpenQuery { opened, ids })
    }
}

/// Prints a line for each of some ids with its end for a device, in the order of the ids, and one with the
/// number of rows of all layers that are set aside. The status is Negative where an end is absent or too long.
#[tactic(auto, unfolding(crate::specs::QueryOutput::query_output))]
pub fn query_bytes<W: Write + Drop>(
    alloc: Global,
    layers: &[LayerParts<&[u8]>],
    device: &[u8],
    ids: &[ResId],
    out: &mut W,
) -> Result<Status, ToolFault>
    ensures { Prints W.contents out.old out.new result (query_output (map layer_bytes layers.now) device.now ids.now) }
{
    let opened = Opened::read(alloc, layers, device)?;
    opened.query(alloc, ids, false, out)
}

impl Opened<'_> {
    /// What `query_bytes` prints of the same layers and device. Where names are asked for, that of each id stands
    /// beside it.
    pub fn query<W: Write + Drop>(
        &self,
        alloc: Global,
        ids: &[ResId],
        names: bool,
        out: &mut W,
    ) -> Result<Status, ToolFault>
        ensures { Prints W.contents out.old out.new result (Ok (query_answer (opened_of self.now) ids.now names)) }
    {
        let names = NamesBeside::of(alloc, &self.stack, names)?;
        Ok(write_ends(&names, &self.device, ids, out)?)
    }

    /// The same in Android's notation, where the tables of the layers lie at these paths.
    #[tactic(auto, unfolding(crate::specs::QueryOutput::notation_text))]
    pub fn query_in_notation<W: Write + Drop>(
        &self,
        alloc: Global,
        paths: &[String],
        ids: &[ResId],
        out: &mut W,
    ) -> Result<Status, ToolFault>
        ensures { Prints W.contents out.old out.new result (Ok (query_notation (opened_of self.now) (map string_bytes paths.now) ids.now)) }
    {
        let text = self.ends_told(alloc, paths, ids)?;
        write_notation(&self.stack, &self.device, &text, out)?;
        let unresolved = has_unresolved(&self.stack, &self.device, ids);
        Ok(Status::negative_if(unresolved))
    }

    /// The same as lines of JSON.
    pub fn query_in_json<W: Write + Drop>(
        &self,
        alloc: Global,
        paths: &[String],
        ids: &[ResId],
        out: &mut W,
    ) -> Result<Status, ToolFault>
        ensures { Prints W.contents out.old out.new result (Ok (query_json (opened_of self.now) (map string_bytes paths.now) ids.now)) }
    {
        let lines = self.ends_as_json(alloc, paths, ids)?;
        let unresolved = has_unresolved(&self.stack, &self.device, ids);
        print_text(Status::negative_if(unresolved), &lines, out)
    }

    // All these lines.
    fn ends_as_json(
        &self,
        alloc: Global,
        paths: &[String],
        ids: &[ResId],
    ) -> Result<Vec<u8>, AllocError>
        ensures { IfOk result (λ lines. lines.items ≡
            ends_json (record { stack = self.now.stack; paths = map string_bytes paths.now }) (device_numbers self.now.device) ids.now) }
    {
        let naming = Naming::of(alloc, &self.stack, paths)?;
        ends_json(&naming, &self.device, ids)
    }

    // The text of where the ids end.
    fn ends_told(
        &self,
        alloc: Global,
        paths: &[String],
        ids: &[ResId],
    ) -> Result<Vec<u8>, AllocError>
        ensures { IfOk result (λ text. text.items ≡
            ends_notation (record { stack = self.now.stack; paths = map string_bytes paths.now }) (device_numbers self.now.device) ids.now) }
    {
        let naming = Naming::of(alloc, &self.stack, paths)?;
        ends_text(&naming, &self.device, ids)
    }
}

// Writes the lines of ids, and one with the number of rows that are set aside.
fn write_notation<W: Write + Drop>(
    stack: &Stack<'_>,
    device: &Device,
    lines: &[u8],
    out: &mut W,
) -> io::Result<()>
    ensures { Writes W.contents out.old out.new result
        (lines.now ++ set_aside_line (rows_set_aside (rule_of (device_locale (device_numbers device.now))) stack.now)) }
{
    out.write_all(lines)?;
    let rule = LocaleRule::of(device.locale());
    set_aside_line(rows_set_aside(stack, rule), out)
}

fn has_unresolved(stack: &Stack<'_>, device: &Device, ids: &[ResId]) -> bool
    ensures { result ≡ list_any (is_unresolved_for stack.now (device_numbers device.now)) ids.now }
{
    for id in ids {
        if is_unresolved(resolve(stack, *id, device)) {
            return true;
        }
    }
    false
}

// Writes a line for each id, and one with the number of rows that are set aside.
#[tactic(auto, using(crate::proofs::QuerySteps::query_steps), unfolding(crate::specs::QueryOutput::query_text))]
fn write_ends<W: Write + Drop>(
    names: &NamesBeside<'_, '_>,
    device: &Device,
    ids: &[ResId],
    out: &mut W,
) -> io::Result<Status>
    ensures text { Writes W.contents out.old out.new result (query_text names.now.stack (device_numbers device.now) ids.now names.now.asked) }
    ensures status { IfOk result (λ status. status ≡ query_status names.now.stack (device_numbers device.now) ids.now) }
{
    let mut status = Status::Done;
    for id in ids {
        let end = write_end(names, device, *id, out)?;
        if is_unresolved(end) {
            status = Status::Negative;
        }
    }
    let rule = LocaleRule::of(device.locale());
    set_aside_line(rows_set_aside(names.stack(), rule), out)?;
    Ok(status)
}

// Writes the line of an id, and gives where it ends.
fn write_end<W: Write + Drop>(
    names: &NamesBeside<'_, '_>,
    device: &Device,
    id: ResId,
    out: &mut W,
) -> io::Result<End>
    ensures text { Writes W.contents out.old out.new result (line_of names.now.stack (device_numbers device.now) names.now.asked id) }
    ensures end { IfOk result (λ end. end ≡ end_for names.now.stack (device_numbers device.now) id) }
{
    let end = resolve(names.stack(), id, device);
    query_line(names, id, end, out)?;
    Ok(end)
}
