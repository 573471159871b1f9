//! The command `check`.

ghost use Rattle.std.specs.Prelude.{◌≡◌, false, map, string_bytes, Ok, IfOk, IfSome};
ghost use Rattle.contract_words.specs.Exact.{GivesOr};
ghost use Rattle.contract_words.specs.Writes.{Writes};
ghost use Rattle.command_base.specs.declared.fault.ToolFault.TheVariants.{OutOfMemory, Write};
ghost use Rattle.command_base.specs.Output.{PrintsOneOf, IsOfInput};
ghost use Rattle.command_base.specs.StackBytesSeen.{layer_bytes};
ghost use Rattle.command_base.specs.Stop.{GivesOrStops};
ghost use Rattle.resource_text.specs.cert_maker.res_value.Goal.{goal_seen};
ghost use Rattle.resource_tool.specs.Answered.{PrintsBothOneOf};
ghost use Rattle.resource_tool.specs.Check.{Checks, ChecksFiles, check_files, check_held, check_opened, check_seen, first_opened, telling_of};
ghost use Rattle.resource_tool.specs.CheckOutput.{IsCheckOutput, IsCheckAnswer, check_inputs, check_inputs_by, said_lines, status_of_verdict};
ghost use Rattle.resource_tool.specs.CheckHeadline.{HeadlineHolds};
ghost use Rattle.resource_tool.specs.OpenedSeen.{opened_cert};
ghost use Rattle.command_base.specs.CarriesOut.{IsKept};

use crate::box_files::BoxFiles;
use crate::verdict_told::write_verdict;
use cert_checker::check;
use command_base::{
    Inputs, LayerFiles, LayerParts, LocaleRule, Stack, Status, Stop, ToolFault, asked_goals,
    asked_words, file_bytes, open_stack, status_or_stop,
};
use names::first_goals;
use resource_text::{Cert, ConfigBox, Goal, LineForm, Verdict};
use std::alloc::Global;
use std::io::{self, Write};

/// What the words of `check` ask: whether a certificate is true of some goals for a box of devices.
#[derive(Drop)]
pub struct Check<'a> {
    /// Where the list of layers lies.
    pub layers: &'a str,
    /// Where the box lies.
    pub box_path: &'a str,
    /// Where the certificate lies.
    pub certificate: &'a str,
    /// By which rule locales are compared.
    pub locales: LocaleRule,
    /// Whether the goal at which it is rejected is told with its names.
    pub names: bool,
    /// Whether the rejections of all goals are printed.
    pub all: bool,
    /// How the verdict is printed.
    pub form: LineForm,
    /// The words that ask for goals, or name a file of such words.
    pub goals: Vec<&'a str>,
}

impl<'a> Check<'a> {
    /// Reads what the words name, and checks the certificate. Where it is not answered, nothing is written or told, unless
    /// a write fails.
    pub fn answer<I: Inputs, O: Write + Drop, E: Write + Drop>(
        &self,
        alloc: Global,
        inputs: &I,
        out: &mut O,
        errors: &mut E,
    ) -> Result<Status, Stop<'a>>
        ensures answers { IfSome (I.places inputs.now) (λ places. Checks O.contents E.contents out.old out.new errors.old errors.new
            places self.now result) }
        ensures unwritten { IsKept out.old out.new result }
        ensures quiet { self.now.names ≡ false → errors.new ≡ errors.old }
        ensures unsaid { IsKept errors.old errors.new result }
    {
        let files = CheckFiles::read(
            alloc,
            inputs,
            self.layers,
            self.box_path,
            self.certificate,
            &self.goals,
        )?;
        self.answer_of(alloc, &files, out, errors)
    }

    fn answer_of<O: Write + Drop, E: Write + Drop>(
        &self,
        alloc: Global,
        files: &CheckFiles,
        out: &mut O,
        errors: &mut E,
    ) -> Result<Status, Stop<'static>>
        ensures answers { ChecksFiles O.contents E.contents out.old out.new errors.old errors.new self.now
            (Ok (check_held files.now)) result }
        ensures unwritten { IsKept out.old out.new result }
        ensures quiet { self.now.names ≡ false → errors.new ≡ errors.old }
        ensures unsaid { IsKept errors.old errors.new result }
    {
        let OpenCheck { opened, goals } = OpenCheck::open(alloc, files, self.locales)?;
        let paths = files.layers.paths();
        status_or_stop(opened.tell(alloc, &goals, self, paths, out, errors))
    }
}

/// The bytes of layers, of a box and of a certificate, and the words of goals.
#[derive(Drop)]
pub struct CheckFiles {
    layers: LayerFiles,
    box_json: Vec<u8>,
    certificate: Vec<u8>,
    words: Vec<String>,
}

impl CheckFiles {
    /// Reads a list of layers with the files that it names, then a box, a certificate, and the files of words.
    #[tactic(auto, unfolding(crate::specs::Check::check_files))]
    pub fn read<'a, I: Inputs>(
        alloc: Global,
        inputs: &I,
        layers_path: &'a str,
        box_path: &'a str,
        certificate_path: &'a str,
        words: &[&'a str],
    ) -> Result<CheckFiles, Stop<'a>>
        ensures { IfSome (I.places inputs.now) (λ places. GivesOrStops check_held result
            (check_files places layers_path.entry.now box_path.entry.now certificate_path.entry.now (map (λ word. word.now) words.now))) }
    {
        let BoxFiles { layers, box_json } = BoxFiles::read(alloc, inputs, layers_path, box_path)?;
        let certificate = file_bytes(inputs, certificate_path)?;
        let words = asked_words(alloc, inputs, words)?;
        Ok(CheckFiles {
            layers,
            box_json,
            certificate,
            words,
        })
    }
}

/// Layers, a box and a certificate that were opened, and the goals that are asked for.
#[derive(Drop)]
pub struct OpenCheck<'a> {
    pub opened: OpenedCert<'a>,
    pub goals: Vec<Goal>,
}

impl<'a> OpenCheck<'a> {
    /// Reads the words, opens the layers, reads the box and the certificate, and then finds what the words ask for: the first
    /// goals, one more than the certificate has trees. Where there are more, its list is another one.
    #[tactic(auto, unfolding(crate::specs::Check::check_opened))]
    pub fn open(
        alloc: Global,
        files: &'a CheckFiles,
        rule: LocaleRule,
    ) -> Result<OpenCheck<'a>, Stop<'static>>
        ensures { GivesOrStops check_seen result (first_opened (check_opened rule (check_held files.now).layers
            (check_held files.now).box_json (check_held files.now).certificate (check_held files.now).words)) }
    {
        let named = asked_goals(alloc, &files.words)?;
        let layers = files.layers.layers(alloc)?;
        let opened = OpenedCert::read_by(
            alloc,
            &layers,
            &files.box_json,
            &files.certificate,
            rule,
        )?;
        let most = opened.certificate.goals.len() + 1;
        let goals = first_goals(alloc, &opened.stack, &named, most)?;
        Ok(OpenCheck { opened, goals })
    }
}

/// Prints whether a certificate is true of some goals for every device of a box, or the first of its nodes that
/// fails with the devices that show it; and a line with the number of rows of all layers that are set aside.
/// The certificate has to have a tree for each of the goals, in their order. The status is Negative where it is
/// rejected.
pub fn check_bytes<W: Write + Drop>(
    alloc: Global,
    layers: &[LayerParts<&[u8]>],
    box_json: &[u8],
    cert: &[u8],
    goals: &[Goal],
    out: &mut W,
) -> Result<Status, ToolFault>
    ensures verdict { PrintsOneOf (IsCheckOutput (map goal_seen goals.now)) W.contents out.old out.new result
        (check_inputs (map layer_bytes layers.now) box_json.now cert.now) }
    ensures headline { IfOk result (HeadlineHolds (map layer_bytes layers.now) box_json.now cert.now (map goal_seen goals.now)
        (W.contents out.old) (W.contents out.new)) }
{
    let rule = LocaleRule::LanguageAndRegion;
    let opened = OpenedCert::read_by(alloc, layers, box_json, cert, rule)?;
    Ok(opened.check(alloc, goals, out)?)
}

/// The layers, the box and the certificate that `check` is asked of.
#[derive(Drop)]
pub struct OpenedCert<'a> {
    pub stack: Stack<'a>,
    pub members: ConfigBox,
    pub certificate: Cert,
    /// By which rule the locales of the box and of the certificate are compared.
    pub rule: LocaleRule,
}

impl<'a> OpenedCert<'a> {
    /// Opens the layers, and then reads the box and the certificate, whose locales are read and compared by a rule.
    #[tactic(auto, unfolding(crate::specs::CheckOutput::check_inputs_by))]
    fn read_by(
        alloc: Global,
        layers: &[LayerParts<&'a [u8]>],
        box_json: &[u8],
        cert: &[u8],
        rule: LocaleRule,
    ) -> Result<OpenedCert<'a>, ToolFault>
        ensures value { GivesOr OutOfMemory opened_cert result (check_inputs_by rule (map layer_bytes layers.now) box_json.now cert.now) }
        ensures of_input { IsOfInput result }
    {
        let stack = open_stack(alloc, layers)?;
        let members = ConfigBox::read_by(alloc, box_json, rule)?;
        let certificate = Cert::read_by(alloc, cert, rule)?;
        Ok(OpenedCert {
            stack,
            members,
            certificate,
            rule,
        })
    }

    /// What `check_bytes` prints of the same layers, box and certificate.
    fn check<W: Write + Drop>(
        &self,
        alloc: Global,
        goals: &[Goal],
        out: &mut W,
    ) -> Result<Status, ToolFault>
        ensures { PrintsOneOf (IsCheckOutput (map goal_seen goals.now)) W.contents out.old out.new result (Ok (opened_cert self.now)) }
    {
        let verdict = check(alloc, &self.stack, &self.members, goals, &self.certificate)?;
        write_verdict(&verdict, self, out)?;
        Ok(status_of_verdict(verdict))
    }

    /// Prints the same in a form; or all rejections, where these are asked for and there are any. Where names are asked for, a line
    /// with each goal of the list at which the certificate is rejected and its names goes to `errors`, after all else was written. The
    /// tables of the layers lie at these paths.
    fn tell<W: Write + Drop, E: Write + Drop>(
        self,
        alloc: Global,
        goals: &[Goal],
        asked: &Check<'_>,
        paths: &[String],
        out: &mut W,
        errors: &mut E,
    ) -> Result<Status, ToolFault>
        ensures both { PrintsBothOneOf (IsCheckAnswer (map goal_seen goals.now) (telling_of asked.now (map string_bytes paths.now)))
            W.contents E.contents out.old out.new errors.old errors.new result (Ok (opened_cert self.entry)) }
        ensures quiet { asked.now.names ≡ false → errors.new ≡ errors.old }
    {
        let verdict = check(alloc, &self.stack, &self.members, goals, &self.certificate)?;
        let status = status_of_verdict(verdict);
        let Ok(told) = self.told(alloc, goals, asked, paths, verdict) else {
            // In memory only a want of it is a fault.
            return Err(ToolFault::OutOfMemory);
        };
        out.write_all(&told.text)?;
        say(asked.names, &told.lines, errors)?;
        Ok(status)
    }
}

// Nothing is written where names are not asked for.
fn say<W: Write + Drop>(names: bool, lines: &[u8], errors: &mut W) -> io::Result<()>
    ensures said { Writes W.contents errors.old errors.new result (said_lines names lines.now) }
    ensures quiet { names ≡ false → errors.new ≡ errors.old }
{
    if names {
        errors.write_all(lines)?;
    }
    Ok(())
}

fn status_of_verdict(verdict: Verdict) -> Status
    ensures { result ≡ status_of_verdict verdict }
{
    match verdict {
        Verdict::Accepted => Status::Done,
        Verdict::Rejected { .. } => Status::Negative,
    }
}
