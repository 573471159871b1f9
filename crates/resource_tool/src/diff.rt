//! The command `diff`.

ghost use Rattle.std.specs.Prelude.{◌≡◌, map, Some, Ok, IfSome};
ghost use Rattle.contract_words.specs.Exact.{GivesOr};
ghost use Rattle.command_base.specs.Output.{Prints, PrintsOneOf};
ghost use Rattle.command_base.specs.Stop.{GivesOrStops};
ghost use Rattle.command_base.specs.declared.fault.ToolFault.TheVariants.{OutOfMemory, Write};
ghost use Rattle.stack_diff.specs.names.Pairs.{pair_of};
ghost use Rattle.stack_diff.specs.Stacks.{stacks_of};
ghost use Rattle.resource_tool.specs.Diff.{Diffs, DiffsFiles, DiffsOpened, diff_files, diff_held};
ghost use Rattle.resource_tool.specs.DiffInputs.{diff_inputs_by};
ghost use Rattle.resource_tool.specs.DiffOutput.{told_output, IsDiffOutput};
ghost use Rattle.resource_tool.specs.Judged.{told_of};
ghost use Rattle.resource_tool.specs.OpenedDiffSeen.{named_diff};
ghost use Rattle.command_base.specs.CarriesOut.{IsKept};

use crate::asked_pairs::asked_pairs;
use crate::json_lines::{names_json, write_diff_json};
use crate::judged::tell_all;
use crate::lines::{print_node_limit, some_differ, write_lines};
use crate::opened_diff::{NamedDiff, OpenedDiff};
use crate::told::Told;
use command_base::{
    Inputs, LayerFiles, LocaleRule, NamedSet, Progress, Side, Status, Stop, ToolFault, asked_sets,
    asked_words, file_bytes, status_or_stop,
};
use resource_text::LineForm;
use stack_diff::{NamePair, Stacks};
use std::alloc::Global;
use std::io::Write;

/// What the words of `diff` ask: what a change of layers alters of some resources, for every device of a box.
#[derive(Drop)]
pub struct Diff<'a> {
    /// Where the list of the layers before the change lies.
    pub old: &'a str,
    /// Where that of the layers after it lies.
    pub new: &'a str,
    /// Where the box lies.
    pub box_path: &'a str,
    /// By which rule locales are compared.
    pub locales: LocaleRule,
    /// How it is written.
    pub form: LineForm,
    /// How many nodes the trees that part the devices have together at most.
    pub max_nodes: u32,
    /// The words that ask for resources, or name a file of such words.
    pub words: Vec<&'a str>,
}

impl<'a> Diff<'a> {
    /// Reads what the words name, and answers them; `progress` comes to know how many names are compared. Where it is not
    /// answered, nothing is written, unless a write fails.
    pub fn answer<I: Inputs, P: Progress, W: Write + Drop>(
        &self,
        alloc: Global,
        inputs: &I,
        progress: &mut P,
        out: &mut W,
    ) -> Result<Status, Stop<'a>>
        ensures answers { IfSome (I.places inputs.now) (λ places. Diffs W.contents out.old out.new places self.now result) }
        ensures unwritten { IsKept out.old out.new result }
    {
        let files = DiffFiles::read(
            alloc,
            inputs,
            self.old,
            self.new,
            self.box_path,
            &self.words,
        )?;
        self.answer_of(alloc, &files, progress, out)
    }

    // Reads the words, opens the layers, reads the box, finds what the words ask for, and then prints what becomes of it.
    #[tactic(auto, unfolding(crate::specs::Diff::opened_asked))]
    fn answer_of<P: Progress, W: Write + Drop>(
        &self,
        alloc: Global,
        files: &DiffFiles,
        progress: &mut P,
        out: &mut W,
    ) -> Result<Status, Stop<'static>>
        ensures { DiffsFiles W.contents out.old out.new self.now (Ok (diff_held files.now)) result
            × IsKept out.old out.new result }
    {
        let sets = asked_sets(alloc, &files.words)?;
        let opened = OpenedDiff::of_files(alloc, files, self.locales)?;
        let named = opened.named(alloc)?;
        named.diff_asked(alloc, self, &sets, progress, out)
    }
}

/// The bytes of two stacks of layers that are compared, and of a box, and the words of the argument that takes several.
#[derive(Drop)]
struct DiffFiles {
    old: LayerFiles,
    new: LayerFiles,
    box_json: Vec<u8>,
    words: Vec<String>,
}

impl DiffFiles {
    /// Reads the list of the layers before a change with the files that it names, the same of those after it, then a box,
    /// and the files of words.
    #[tactic(auto, unfolding(crate::specs::Diff::diff_files))]
    fn read<'a, I: Inputs>(
        alloc: Global,
        inputs: &I,
        old_path: &'a str,
        new_path: &'a str,
        box_path: &'a str,
        words: &[&'a str],
    ) -> Result<DiffFiles, Stop<'a>>
        ensures { IfSome (I.places inputs.now) (λ places. GivesOrStops diff_held result
            (diff_files places old_path.entry.now new_path.entry.now box_path.entry.now (map (λ word. word.now) words.now))) }
    {
        let old = LayerFiles::read_side(alloc, inputs, Side::Old, old_path)?;
        let new = LayerFiles::read_side(alloc, inputs, Side::New, new_path)?;
        let box_json = file_bytes(inputs, box_path)?;
        let words = asked_words(alloc, inputs, words)?;
        Ok(DiffFiles {
            old,
            new,
            box_json,
            words,
        })
    }
}

impl<'a> OpenedDiff<'a> {
    ghost use Rattle.resource_tool.specs.OpenedDiffSeen.{opened_diff};

    // Opens the layers, and then reads the box.
    fn of_files(
        alloc: Global,
        files: &'a DiffFiles,
        rule: LocaleRule,
    ) -> Result<OpenedDiff<'a>, ToolFault>
        ensures { GivesOr OutOfMemory opened_diff result
            (diff_inputs_by rule (diff_held files.now).old (diff_held files.now).new (diff_held files.now).box_json) }
    {
        let old = files.old.layers(alloc)?;
        let new = files.new.layers(alloc)?;
        OpenedDiff::read_by(alloc, &old, &new, &files.box_json, rule)
    }
}

impl<'o, 'a> NamedDiff<'o, 'a> {
    ghost use Rattle.resource_tool.specs.AskedPairs.{asked_of};
    ghost use Rattle.stack_diff.specs.names.NamedSet.{named_set_of};

    // Finds what words ask for, and then prints what becomes of it.
    fn diff_asked<P: Progress, W: Write + Drop>(
        &self,
        alloc: Global,
        asked: &Diff<'_>,
        sets: &[NamedSet<'_>],
        progress: &mut P,
        out: &mut W,
    ) -> Result<Status, Stop<'static>>
        ensures { DiffsOpened W.contents out.old out.new asked.now.form asked.now.max_nodes
            (asked_of (named_diff self.now) (map named_set_of sets.now)) result
            × IsKept out.old out.new result }
    {
        let pairs = asked_pairs(alloc, self.stacks(), sets)?;
        let (form, most) = (asked.form, asked.max_nodes);
        status_or_stop(self.diff(alloc, form, &pairs, most, progress, out))
    }

    /// Prints what the new layers say otherwise than the old ones, for some labels and all devices of the box; the status is
    /// Done where nothing differs. Or it prints `node limit`, where the trees that part the devices can have more than
    /// `max_nodes` nodes together. All memory is taken before the first line is written.
    fn diff<P: Progress, W: Write + Drop>(
        &self,
        alloc: Global,
        form: LineForm,
        pairs: &[NamePair<'a>],
        max_nodes: u32,
        progress: &mut P,
        out: &mut W,
    ) -> Result<Status, ToolFault>
        ensures { PrintsOneOf (IsDiffOutput form (map pair_of pairs.now) max_nodes) W.contents out.old out.new result (Ok (named_diff self.now)) }
    {
        let stacks = self.stacks();
        let told = tell_all(
            alloc,
            form,
            stacks,
            pairs,
            self.members,
            max_nodes,
            progress,
        )?;
        match told {
            Some(told) => print_told(alloc, form, self.rule, stacks, pairs, &told, out),
            None => print_node_limit(form, out),
        }
    }
}

// All memory is taken before the first line is written.
#[tactic(auto, unfolding(crate::specs::DiffOutput::lines_of_told))]
fn print_told<W: Write + Drop>(
    alloc: Global,
    form: LineForm,
    rule: LocaleRule,
    stacks: Stacks<'_, '_>,
    pairs: &[NamePair<'_>],
    told: &[Told],
    out: &mut W,
) -> Result<Status, ToolFault>
    ensures { Prints W.contents out.old out.new result (Ok (told_output form rule (stacks_of stacks.entry) (map pair_of pairs.now) (Some (map told_of told.now)))) }
{
    match form {
        LineForm::Text(_) => write_lines(rule, stacks, pairs, told, out)?,
        LineForm::Json => {
            let names = names_json(alloc, stacks.packages(), pairs)?;
            write_diff_json(rule, stacks, pairs, &names, told, out)?;
        }
    }
    Ok(Status::negative_if(some_differ(told)))
}
