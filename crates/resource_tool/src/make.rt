//! The command `make`.

ghost use Rattle.std.specs.Prelude.{◌≡◌, ◌∷◌, ◌++◌, ◌||◌, [], false, map, Ok, OnOk, IfOk, IfSome};
ghost use Rattle.contract_words.specs.Exact.{GivesOr};
ghost use Rattle.contract_words.specs.Writes.{Writes};
ghost use Rattle.serde_json.specs.Written.{compact_text};
ghost use Rattle.command_base.specs.declared.fault.ToolFault.TheVariants.{OutOfMemory, Write};
ghost use Rattle.command_base.specs.Output.{IsOfInput, Prints, PrintsOneOf};
ghost use Rattle.command_base.specs.StackBytesSeen.{layer_bytes};
ghost use Rattle.command_base.specs.Stop.{GivesOrStops};
ghost use Rattle.resource_text.specs.cert_maker.cert_tree.Certificate.{goals_of};
ghost use Rattle.resource_text.specs.cert_maker.res_value.Goal.{goal_seen};
ghost use Rattle.resource_text.specs.cert_maker.cert_tree.WrittenJson.{cert_data};
ghost use Rattle.command_base.specs.answer_text.config_record.DeviceSeen.{device_numbers};
ghost use Rattle.resource_tool.specs.Answered.{PrintsBothOneOf, status_in, goal_in};
ghost use Rattle.resource_tool.specs.BoxFiles.{asked_box_held};
ghost use Rattle.resource_tool.specs.Make.{Makes, MakesFiles, PrintsMade, PrintsTold, PrintsToldFirst, looked_at, make_opened, make_seen, most_goals};
ghost use Rattle.resource_text.specs.cert_maker.Omitting.{IsOmitting};
ghost use Rattle.resource_tool.specs.MakeOutput.{IsMakeOutput, IsMakeOutputAbout, IsMakeAnswer, make_inputs, make_inputs_by, counterexample_text, status_of_made, goal_of_made, made_output};
ghost use Rattle.resource_tool.specs.OmitOutput.{IsOmitOutput};
ghost use Rattle.resource_tool.specs.LineReadsBack.{LineReadsBack, TreesReadBack};
ghost use Rattle.resource_tool.specs.OpenedSeen.{opened_box};
ghost use Rattle.command_base.specs.CarriesOut.{IsKept};

use crate::answered::Answered;
use crate::box_files::AskedBoxFiles;
use crate::goal_told::write_goal_told;
use crate::opened_box::OpenedBox;
use crate::progress::{ProgressLine, Watch};
use answer_text::NamesBeside;
use cert_maker::make_watched;
use command_base::{
    Device, End, Inputs, LayerParts, LocaleRule, Stack, Status, Stop, ToolFault, asked_goals,
    open_stack, status_or_stop,
};
use names::first_goals;
use resource_text::{Cert, ConfigBox, Goal, Made, Omitting, Progress, Unwatched, device_with_end};
use std::alloc::{AllocError, Global};
use std::io::{self, Write};
use std::time::Clock;

/// What the words of `make` ask: a certificate of some goals for a box of devices.
#[derive(Drop)]
pub struct Make<'a> {
    /// Where the list of layers lies.
    pub layers: &'a str,
    /// Where the box lies.
    pub box_path: &'a str,
    /// By which rule locales are compared.
    pub locales: LocaleRule,
    /// Whether the goal of a counterexample is told with its names.
    pub names: bool,
    /// Whether goals without a value are left out.
    pub omit: bool,
    /// How many nodes the trees of all goals have together at most.
    pub max_nodes: u32,
    /// The words that ask for goals, or name a file of such words.
    pub goals: Vec<&'a str>,
}

impl<'a> Make<'a> {
    /// Reads what the words name, and makes a certificate of it. Where it is not answered, nothing is written, unless a
    /// write fails; nor is anything told then, but on a terminal the line of the work.
    pub fn answer<I: Inputs, C: Clock, O: Write + Drop, E: Write + Drop>(
        &self,
        alloc: Global,
        inputs: &I,
        watch: Watch<'_, C>,
        out: &mut O,
        errors: &mut E,
    ) -> Result<Status, Stop<'a>>
        ensures answers { IfSome (I.places inputs.now) (λ places. Makes watch.entry.is_terminal O.contents E.contents out.old out.new
            errors.old errors.new places self.now result) }
        ensures unwritten { IsKept out.old out.new result }
        ensures quiet { watch.entry.is_terminal ≡ false → (self.now.names || self.now.omit) ≡ false → errors.new ≡ errors.old }
        ensures unsaid { watch.entry.is_terminal ≡ false → IsKept errors.old errors.new result }
    {
        let files = AskedBoxFiles::read(alloc, inputs, self.layers, self.box_path, &self.goals)?;
        self.answer_of(alloc, &files, watch, out, errors)
    }

    fn answer_of<C: Clock, O: Write + Drop, E: Write + Drop>(
        &self,
        alloc: Global,
        files: &AskedBoxFiles,
        watch: Watch<'_, C>,
        out: &mut O,
        errors: &mut E,
    ) -> Result<Status, Stop<'static>>
        ensures answers { MakesFiles watch.entry.is_terminal self.now O.contents E.contents
            out.old out.new errors.old errors.new (Ok (asked_box_held files.now)) result }
        ensures unwritten { IsKept out.old out.new result }
        ensures quiet { watch.entry.is_terminal ≡ false → (self.now.names || self.now.omit) ≡ false → errors.new ≡ errors.old }
        ensures unsaid { watch.entry.is_terminal ≡ false → IsKept errors.old errors.new result }
    {
        let make = OpenMake::open(alloc, files, self)?;
        status_or_stop(make.answer(alloc, self, watch, out, errors))
    }

    // How many goals are looked at. Where goals without a value are left out all are, else as many as decide: the tree of each
    // has one node at least.
    fn most_goals(&self) -> usize
        ensures { result ≡ most_goals self.now.omit self.now.max_nodes }
    {
        if self.omit {
            usize::MAX
        } else {
            self.max_nodes as usize + 1
        }
    }
}

/// Layers and a box that were opened, and the goals that are asked for.
#[derive(Drop)]
pub(crate) struct OpenMake<'a> {
    opened: OpenedBox<'a>,
    goals: Vec<Goal>,
}

impl<'a> OpenMake<'a> {
    /// Reads the words, opens the layers, reads the box, and then finds what the words ask for: the first goals, as many as are
    /// looked at.
    #[tactic(auto, unfolding(crate::specs::Make::make_opened))]
    fn open(
        alloc: Global,
        files: &'a AskedBoxFiles,
        asked: &Make<'_>,
    ) -> Result<OpenMake<'a>, Stop<'static>>
        ensures { GivesOrStops make_seen result (looked_at asked.now.omit asked.now.max_nodes
            (make_opened asked.now.locales (asked_box_held files.now).layers (asked_box_held files.now).box_json (asked_box_held files.now).words)) }
    {
        let named = asked_goals(alloc, &files.words)?;
        let layers = files.layers.layers(alloc)?;
        let opened = OpenedBox::read_by(alloc, &layers, &files.box_json, asked.locales)?;
        let most = asked.most_goals();
        let goals = first_goals(alloc, &opened.stack, &named, most)?;
        Ok(OpenMake { opened, goals })
    }

    /// Makes a certificate of all goals, or one of those that have a value.
    fn answer<C: Clock, W: Write + Drop, E: Write + Drop>(
        &self,
        alloc: Global,
        asked: &Make<'_>,
        watch: Watch<'_, C>,
        out: &mut W,
        errors: &mut E,
    ) -> Result<Status, ToolFault>
        ensures made { PrintsMade watch.entry.is_terminal asked.now.omit asked.now.names asked.now.max_nodes W.contents E.contents
            out.old out.new errors.old errors.new (make_seen self.now) result }
        ensures quiet { watch.entry.is_terminal ≡ false → (asked.now.names || asked.now.omit) ≡ false → errors.new ≡ errors.old }
    {
        if asked.omit {
            self.make_omitting(alloc, asked.max_nodes, watch, out, errors)
        } else {
            self.make(alloc, asked.names, asked.max_nodes, watch, out, errors)
        }
    }

    /// Makes a certificate. On a terminal a line says how far that is, and is gone before anything else is said.
    fn make<C: Clock, W: Write + Drop, E: Write + Drop>(
        &self,
        alloc: Global,
        names: bool,
        max_nodes: u32,
        watch: Watch<'_, C>,
        out: &mut W,
        errors: &mut E,
    ) -> Result<Status, ToolFault>
        ensures told { PrintsTold watch.entry.is_terminal (IsMakeAnswer (make_seen self.now).goals max_nodes names)
            W.contents E.contents out.old out.new errors.old errors.new result (Ok (make_seen self.now).opened) }
        ensures quiet { watch.entry.is_terminal ≡ false → names ≡ false → errors.new ≡ errors.old }
    {
        let names = NamesBeside::of(alloc, &self.opened.stack, names)?;
        let answered = self.make_shown(alloc, max_nodes, watch, out, errors)?;
        write_goal_told(&names, &self.goals, answered.about, errors)?;
        Ok(answered.status)
    }

    // The same but for what is said of the goal that the answer is about.
    fn make_shown<C: Clock, W: Write + Drop, E: Write + Drop>(
        &self,
        alloc: Global,
        max_nodes: u32,
        watch: Watch<'_, C>,
        out: &mut W,
        errors: &mut E,
    ) -> Result<Answered, ToolFault>
        ensures about { PrintsOneOf (IsMakeOutputAbout (make_seen self.now).goals max_nodes (goal_in result)) W.contents out.old out.new
            (status_in result) (Ok (make_seen self.now).opened) }
        ensures quiet { watch.entry.is_terminal ≡ false → errors.new ≡ errors.old }
    {
        let (opened, goals) = (&self.opened, self.goals.as_slice());
        if !watch.is_terminal {
            return opened.make(alloc, goals, max_nodes, &mut Unwatched, out);
        }
        let mut line = ProgressLine::new(errors, watch);
        line.goals_done(0, goals.len());
        let answered = opened.make(alloc, goals, max_nodes, &mut line, out);
        line.clear();
        answered
    }

    /// The same, where goals without a value are left out.
    fn make_omitting<C: Clock, W: Write + Drop, E: Write + Drop>(
        &self,
        alloc: Global,
        max_nodes: u32,
        watch: Watch<'_, C>,
        out: &mut W,
        errors: &mut E,
    ) -> Result<Status, ToolFault>
        ensures { PrintsToldFirst watch.entry.is_terminal (IsOmitOutput (make_seen self.now).goals max_nodes)
            W.contents E.contents out.old out.new errors.old errors.new result (Ok (make_seen self.now).opened) }
    {
        let omitting = self.omit_shown(alloc, max_nodes, watch, errors)?;
        self.opened
            .print_omitting(alloc, &self.goals, &omitting, out, errors)
    }

    // What is made of the goals, and which are left out.
    fn omit_shown<C: Clock, E: Write + Drop>(
        &self,
        alloc: Global,
        max_nodes: u32,
        watch: Watch<'_, C>,
        errors: &mut E,
    ) -> Result<Omitting, AllocError>
        ensures made { IfOk result (IsOmitting (make_seen self.now).opened.stack (make_seen self.now).opened.sets (make_seen self.now).goals max_nodes) }
        ensures quiet { watch.entry.is_terminal ≡ false → errors.new ≡ errors.old }
    {
        let (opened, goals) = (&self.opened, self.goals.as_slice());
        if !watch.is_terminal {
            return opened.make_omitting(alloc, goals, max_nodes, &mut Unwatched);
        }
        let mut line = ProgressLine::new(errors, watch);
        line.goals_done(0, goals.len());
        let omitting = opened.make_omitting(alloc, goals, max_nodes, &mut line);
        line.clear();
        omitting
    }
}

/// Prints a certificate that `check_bytes` accepts for the same layers, box and goals, in one line of JSON; then
/// the status is Done. Or it prints the place of a goal, from 0, with a device of the box for which that goal ends
/// at no value and no bag, and where it ends; or `node limit`, where the trees of all goals can have more than
/// `max_nodes` nodes together. A certificate of more than 1,000,000 nodes, or of a goal with
/// more than 64 styles, is not read again.
pub fn make_bytes<W: Write + Drop>(
    alloc: Global,
    layers: &[LayerParts<&[u8]>],
    box_json: &[u8],
    goals: &[Goal],
    max_nodes: u32,
    out: &mut W,
) -> Result<Status, ToolFault>
    ensures { PrintsOneOf (IsMakeOutput (map goal_seen goals.now) max_nodes) W.contents out.old out.new result
        (make_inputs (map layer_bytes layers.now) box_json.now) }
{
    let opened = OpenedBox::read_by(alloc, layers, box_json, LocaleRule::LanguageAndRegion)?;
    let answered = opened.make(alloc, goals, max_nodes, &mut Unwatched, out)?;
    Ok(answered.status)
}

impl<'a> OpenedBox<'a> {
    /// Opens the layers, and then reads the box, whose locales are read and compared by a rule.
    #[tactic(auto, unfolding(crate::specs::MakeOutput::make_inputs_by))]
    pub fn read_by(
        alloc: Global,
        layers: &[LayerParts<&'a [u8]>],
        box_json: &[u8],
        rule: LocaleRule,
    ) -> Result<OpenedBox<'a>, ToolFault>
        ensures value { GivesOr OutOfMemory opened_box result (make_inputs_by rule (map layer_bytes layers.now) box_json.now) }
        ensures of_input { IsOfInput result }
    {
        let stack = open_stack(alloc, layers)?;
        let members = ConfigBox::read_by(alloc, box_json, rule)?;
        Ok(OpenedBox {
            stack,
            members,
            rule,
        })
    }

    /// What `make_bytes` prints of the same layers and box, and which goal that is about: `write_goal_told` writes its names.
    /// `progress` comes to know after each goal how many have their tree.
    pub fn make<W: Write + Drop, P: Progress>(
        &self,
        alloc: Global,
        goals: &[Goal],
        max_nodes: u32,
        progress: &mut P,
        out: &mut W,
    ) -> Result<Answered, ToolFault>
        ensures about { PrintsOneOf (IsMakeOutputAbout (map goal_seen goals.now) max_nodes (goal_in result)) W.contents out.old out.new
            (status_in result) (Ok (opened_box self.now)) }
        ensures prints { PrintsOneOf (IsMakeOutput (map goal_seen goals.now) max_nodes) W.contents out.old out.new
            (status_in result) (Ok (opened_box self.now)) }
    {
        let made = make_watched(
            alloc,
            &self.stack,
            &self.members,
            goals,
            max_nodes,
            progress,
        )?;
        let status = print_made(alloc, &made, out)?;
        let about = goal_of_made(&made);
        Ok(Answered { status, about })
    }
}

// What is printed of a certificate is read as the same.
#[tactic(auto, unfolding(crate::specs::MakeOutput::made_text, crate::specs::MakeOutput::certificate_line))]
fn print_made<W: Write + Drop>(alloc: Global, made: &Made, out: &mut W) -> Result<Status, ToolFault>
    ensures output { Prints W.contents out.old out.new result (Ok (made_output made.now)) }
    ensures reads_back { OnOk result (LineReadsBack made.now) }
{
    match made {
        Made::Cert(certificate) => {
            let text = certificate_text(alloc, certificate)?;
            write_line(text.as_slice(), out)?;
        }
        Made::Counter {
            goal,
            device,
            ending,
        } => write_counterexample(*goal, device, *ending, out)?,
        Made::NodeLimit => out.write_all(b"node limit\n")?,
    }
    Ok(status_of_made(made))
}

/// The text of a certificate, without the end of its line.
pub(crate) fn certificate_text(alloc: Global, certificate: &Cert) -> Result<Vec<u8>, AllocError>
    ensures text { IfOk result (λ text. text.items ≡ compact_text (cert_data (goals_of certificate.now))) }
    ensures reads_back { IfOk result (λ _. TreesReadBack (goals_of certificate.now)) }
{
    let text = certificate.write(alloc)?;
    Ok(text)
}

fn status_of_made(made: &Made) -> Status
    ensures { result ≡ status_of_made made.now }
{
    match made {
        Made::Cert(_) => Status::Done,
        Made::Counter { .. } => Status::Negative,
        Made::NodeLimit => Status::Negative,
    }
}

fn goal_of_made(made: &Made) -> Option<usize>
    ensures { result ≡ goal_of_made made.now }
{
    match made {
        Made::Counter { goal, .. } => Some(*goal),
        Made::Cert(_) => None,
        Made::NodeLimit => None,
    }
}

pub(crate) fn write_line<W: Write + Drop>(text: &[u8], out: &mut W) -> io::Result<()>
    ensures { Writes W.contents out.old out.new result (text.now ++ 10 ∷ []) }
{
    out.write_all(text)?;
    out.write_all(b"\n")
}

#[tactic(auto, unfolding(crate::specs::MakeOutput::counterexample_text, crate::specs::MakeOutput::counterexample_line))]
fn write_counterexample<W: Write + Drop>(
    goal: usize,
    device: &Device,
    end: End,
    out: &mut W,
) -> io::Result<()>
    ensures { Writes W.contents out.old out.new result (counterexample_text goal (device_numbers device.now) end) }
{
    writeln!(out, "counter goal {goal}")?;
    device_with_end(device, end, out)
}
