//! The command `attr`.

ghost use Rattle.std.specs.Prelude.{◌≡◌, map, string_bytes, Ok, IfSome};
ghost use Rattle.contract_words.specs.Writes.{Writes};
ghost use Rattle.command_base.specs.DeviceText.{device_text_of};
ghost use Rattle.command_base.specs.FilesSeen.{asked_held, layers_held};
ghost use Rattle.command_base.specs.Output.{Prints};
ghost use Rattle.command_base.specs.StackBytesSeen.{layer_bytes};
ghost use Rattle.command_base.specs.Stop.{GivesOrStops};
ghost use Rattle.command_base.specs.declared.fault.ToolFault.TheVariants.{Write};
ghost use Rattle.command_base.specs.names.Named.{named_of};
ghost use Rattle.resource_tool.specs.OpenedSeen.{opened_of};
ghost use Rattle.resource_tool.specs.AttrOutput.{attribute_line, attr_answer, attr_in_json, attr_in_notation, attr_output, attr_printed, attr_seen, attr_opened, PrintsAttr, PrintsAttrFiles};
ghost use Rattle.command_base.specs.CarriesOut.{IsKept};

use crate::end_status::status_of_end;
use crate::no_bag::{print_no_bag, print_no_bag_json};
use crate::opened::Opened;
use crate::text::{ended, print_text};
use answer_text::{NamesBeside, write_end_with_name, write_id};
use command_base::{
    AskedFiles, DeviceText, End, Inputs, LayerFiles, LayerParts, LocaleRule, Named, ResId, Status,
    Stop, Theme, ToolFault, asked_sets, status_or_stop,
};
use names::{id_named, ids_named};
use resource_text::{Form, LineForm, Naming, attr_lines_json, attr_text};
use std::alloc::Global;
use std::io::{self, Write};

/// What the words of `attr` ask: where an attribute ends for a device after styles.
#[derive(Drop)]
pub struct Attr<'a> {
    /// Where the list of layers lies.
    pub layers: &'a str,
    /// Where the device lies.
    pub device: &'a str,
    /// By which rule its locale is compared.
    pub locales: LocaleRule,
    /// Whether the name of each id is printed beside it.
    pub names: bool,
    /// How it is printed; in any form but the raw one by names.
    pub form: LineForm,
    /// Whether the styles are applied with force.
    pub force: bool,
    /// The attribute, by its id or by its name.
    pub attr: Named<'a>,
    /// The words that ask for styles, or name a file of such words.
    pub styles: Vec<&'a str>,
}

impl<'a> Attr<'a> {
    /// Reads what the words name, and answers them. Where it is not answered, nothing is written, unless a write fails.
    pub fn answer<I: Inputs, W: Write + Drop>(
        &self,
        alloc: Global,
        inputs: &I,
        out: &mut W,
    ) -> Result<Status, Stop<'a>>
        ensures answers { IfSome (I.places inputs.now) (λ places. PrintsAttr W.contents out.old out.new places self.now result) }
        ensures unwritten { IsKept out.old out.new result }
    {
        let files = AskedFiles::read(alloc, inputs, self.layers, self.device, &self.styles)?;
        self.answer_of(alloc, &files, out)
    }

    fn answer_of<W: Write + Drop>(
        &self,
        alloc: Global,
        files: &AskedFiles<'a>,
        out: &mut W,
    ) -> Result<Status, Stop<'a>>
        ensures answers { PrintsAttrFiles W.contents out.old out.new self.now (Ok (asked_held files.now)) result }
        ensures unwritten { IsKept out.old out.new result }
    {
        let asked = OpenAttr::open(
            alloc,
            &files.layers,
            &files.device,
            self.locales,
            self.attr,
            &files.words,
        )?;
        status_or_stop(self.print(alloc, files.layers.paths(), &asked, out))
    }

    // Prints it in the form that is asked for, where the tables of the layers lie at these paths.
    fn print<W: Write + Drop>(
        &self,
        alloc: Global,
        paths: &[String],
        asked: &OpenAttr<'_>,
        out: &mut W,
    ) -> Result<Status, ToolFault>
        ensures { Prints W.contents out.old out.new result
            (Ok (attr_printed self.now.form self.now.names self.now.force (map string_bytes paths.now) (attr_seen asked.now))) }
    {
        let (opened, attr, styles) = (&asked.opened, asked.attr, &asked.styles);
        match self.form {
            LineForm::Text(Form::Raw) => {
                opened.attr(alloc, attr, styles, self.force, self.names, out)
            }
            LineForm::Text(Form::Android) => {
                opened.attr_in_notation(alloc, paths, attr, styles, self.force, out)
            }
            LineForm::Json => opened.attr_in_json(alloc, paths, attr, styles, self.force, out),
        }
    }
}

/// Layers and a device that were opened, an attribute, and the styles that are applied.
#[derive(Drop)]
struct OpenAttr<'a> {
    opened: Opened<'a>,
    attr: ResId,
    styles: Vec<ResId>,
}

impl<'a> OpenAttr<'a> {
    /// Opens the layers, reads the device, and then finds the attribute and what words ask for.
    #[tactic(auto, unfolding(crate::specs::AttrOutput::attr_opened))]
    fn open<'t>(
        alloc: Global,
        files: &'a LayerFiles,
        device: &DeviceText<'t>,
        rule: LocaleRule,
        attr: Named<'_>,
        words: &[String],
    ) -> Result<OpenAttr<'a>, Stop<'t>>
        ensures { GivesOrStops attr_seen result
            (attr_opened rule (layers_held files.now) (device_text_of device.now) (named_of attr.entry) (map string_bytes words.now)) }
    {
        let sets = asked_sets(alloc, words)?;
        let opened = Opened::read_by(alloc, files, device, rule)?;
        let attr = id_named(alloc, &opened.stack, attr)?;
        let styles = ids_named(alloc, &opened.stack, &sets)?;
        Ok(OpenAttr {
            opened,
            attr,
            styles,
        })
    }
}

/// Prints where an attribute ends for a device after styles that are applied in their order, with `force` or
/// without, or why the first style that is no bag, or has too many parents, is refused. The status is Negative
/// there, and where the end is absent or too long.
#[tactic(auto, unfolding(crate::specs::AttrOutput::attr_output))]
pub fn attr_bytes<W: Write + Drop>(
    alloc: Global,
    layers: &[LayerParts<&[u8]>],
    device: &[u8],
    attr: ResId,
    styles: &[ResId],
    force: bool,
    out: &mut W,
) -> Result<Status, ToolFault>
    ensures { Prints W.contents out.old out.new result
        (attr_output (map layer_bytes layers.now) device.now attr.0 styles.now force) }
{
    let opened = Opened::read(alloc, layers, device)?;
    opened.attr(alloc, attr, styles, force, false, out)
}

impl Opened<'_> {
    /// What `attr_bytes` prints of the same layers and device. Where names are asked for, that of each id stands
    /// beside it.
    pub fn attr<W: Write + Drop>(
        &self,
        alloc: Global,
        attr: ResId,
        styles: &[ResId],
        force: bool,
        names: bool,
        out: &mut W,
    ) -> Result<Status, ToolFault>
        ensures { Prints W.contents out.old out.new result (Ok (attr_answer (opened_of self.now) attr.0 styles.now force names)) }
    {
        let names = NamesBeside::of(alloc, &self.stack, names)?;
        match Theme::of_styles(alloc, &self.stack, styles, force, &self.device) {
            Ok(theme) => {
                let end = theme.attribute(&self.stack, attr, &self.device);
                drop(theme);
                ended(status_of_end(end), write_attribute(&names, attr, end, out))
            }
            Err(fault) => print_no_bag(fault, out),
        }
    }

    /// The same in Android's notation, where the tables of the layers lie at these paths.
    pub fn attr_in_notation<W: Write + Drop>(
        &self,
        alloc: Global,
        paths: &[String],
        attr: ResId,
        styles: &[ResId],
        force: bool,
        out: &mut W,
    ) -> Result<Status, ToolFault>
        ensures { Prints W.contents out.old out.new result (Ok (attr_in_notation (opened_of self.now) (map string_bytes paths.now) attr.0 styles.now force)) }
    {
        match Theme::of_styles(alloc, &self.stack, styles, force, &self.device) {
            Ok(theme) => {
                let slot = theme.slot(attr);
                let status = status_of_end(theme.attribute(&self.stack, attr, &self.device));
                drop(theme);
                let naming = Naming::of(alloc, &self.stack, paths)?;
                let text = attr_text(&naming, &self.device, force, attr, styles, slot)?;
                drop(naming);
                print_text(status, &text, out)
            }
            Err(fault) => print_no_bag(fault, out),
        }
    }

    /// The same as lines of JSON.
    pub fn attr_in_json<W: Write + Drop>(
        &self,
        alloc: Global,
        paths: &[String],
        attr: ResId,
        styles: &[ResId],
        force: bool,
        out: &mut W,
    ) -> Result<Status, ToolFault>
        ensures { Prints W.contents out.old out.new result (Ok (attr_in_json (opened_of self.now) (map string_bytes paths.now) attr.0 styles.now force)) }
    {
        match Theme::of_styles(alloc, &self.stack, styles, force, &self.device) {
            Ok(theme) => {
                let slot = theme.slot(attr);
                let status = status_of_end(theme.attribute(&self.stack, attr, &self.device));
                drop(theme);
                let naming = Naming::of(alloc, &self.stack, paths)?;
                let lines = attr_lines_json(&naming, &self.device, force, attr, styles, slot)?;
                drop(naming);
                print_text(status, &lines, out)
            }
            Err(fault) => print_no_bag_json(fault, out),
        }
    }
}

#[tactic(auto, unfolding(crate::specs::AttrOutput::attribute_line))]
fn write_attribute<W: Write + Drop>(
    names: &NamesBeside<'_, '_>,
    attr: ResId,
    end: End,
    out: &mut W,
) -> io::Result<()>
    ensures { Writes W.contents out.old out.new result (attribute_line names.now.stack attr.0 end names.now.asked) }
{
    write_id(attr, out)?;
    names.write(attr, out)?;
    out.write_all(b" ")?;
    write_end_with_name(names, None, end, out)?;
    out.write_all(b"\n")
}
