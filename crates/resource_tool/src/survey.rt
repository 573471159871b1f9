//! The command `survey`.

ghost use Rattle.std.specs.Prelude.{◌≡◌, map, Ok, IfOk, IfSome};
ghost use Rattle.std.specs.List.{flat_map, list_any};
ghost use Rattle.std.specs.Option.{option_map};
ghost use Rattle.contract_words.specs.Writes.{Writes};
ghost use Rattle.command_base.specs.cert_tree.config_box.config_record.declared.coord.Coord as coord;
ghost use Rattle.command_base.specs.cert_tree.config_box.config_record.Coord.{all_coords};
ghost use Rattle.command_base.specs.FilesSeen.{bytes_of};
ghost use Rattle.command_base.specs.Inputs.{file_of, where_given};
ghost use Rattle.command_base.specs.Output.{Prints};
ghost use Rattle.command_base.specs.StackBytesSeen.{layer_bytes};
ghost use Rattle.command_base.specs.Stop.{GivesOrStops};
ghost use Rattle.command_base.specs.declared.fault.ToolFault.TheVariants.{Write};
ghost use Rattle.command_base.specs.names.Shared.{shared_ids, shared_of};
ghost use Rattle.resource_tool.specs.Qualifiers.{rows_in_stack, numbers_at, spread_of};
ghost use Rattle.resource_tool.specs.Counting.{spread_in};
ghost use Rattle.resource_tool.specs.BoxGaps.{lacks};
ghost use Rattle.resource_tool.specs.OpenedSeen.{opened_survey};
ghost use Rattle.resource_tool.specs.Survey.{Surveys, SurveysFiles, survey_files, survey_held};
ghost use Rattle.resource_tool.specs.SurveyForm.{form_seen, lacking_in, qualifier_in};
ghost use Rattle.resource_tool.specs.SurveyOutput.{lacking_text, lacks_some, survey_answer, survey_output_by};
ghost use Rattle.command_base.specs.CarriesOut.{IsKept};

mod box_gaps;
mod chunks;
mod entries;
mod finding;
mod findings;
mod form;
mod json;
mod layers;
mod layout;
mod opened;
mod qualifiers;
mod refused;
mod rows;
mod said_numbers;
mod site;
mod text;
mod types;

use crate::survey::form::SurveyForm;
use crate::survey::layers::write_layers;
use crate::survey::opened::OpenedSurvey;
use crate::survey::qualifiers::Qualifiers;
use crate::survey::refused::survey_refused;
use crate::text::print_text;
use command_base::{
    Coord, Inputs, LayerFiles, LayerParts, LocaleRule, Status, Stop, ToolFault, file_bytes,
    status_or_stop,
};
use resource_text::LineForm;
use std::alloc::Global;
use std::io::{self, Write};

/// What the words of `survey` ask: what of some layers a device may read otherwise, and what a box lacks.
#[derive(Drop)]
pub struct Survey<'a> {
    /// Where the list of layers lies.
    pub layers: &'a str,
    /// Where the box lies, if one is asked about.
    pub box_path: Option<&'a str>,
    /// By which rule locales are compared.
    pub locales: LocaleRule,
    /// How its lines are written.
    pub form: LineForm,
}

impl<'a> Survey<'a> {
    /// Reads what the words name, and answers them. Where it is not answered, nothing is written, unless a write fails.
    pub fn answer<I: Inputs, W: Write + Drop>(
        &self,
        alloc: Global,
        inputs: &I,
        out: &mut W,
    ) -> Result<Status, Stop<'a>>
        ensures answers { IfSome (I.places inputs.now) (λ places. Surveys W.contents out.old out.new places self.now result) }
        ensures unwritten { IsKept out.old out.new result }
    {
        let files = SurveyFiles::read(alloc, inputs, self.layers, self.box_path)?;
        self.answer_of(alloc, &files, out)
    }

    fn answer_of<W: Write + Drop>(
        &self,
        alloc: Global,
        files: &SurveyFiles,
        out: &mut W,
    ) -> Result<Status, Stop<'static>>
        ensures { SurveysFiles W.contents out.old out.new self.now (Ok (survey_held files.now)) result
            × IsKept out.old out.new result }
    {
        let layers = files.layers.layers(alloc)?;
        let box_json = files.box_json.as_deref();
        let form = SurveyForm {
            alloc,
            lines: self.form,
            paths: files.layers.paths(),
        };
        status_or_stop(survey_by(&form, &layers, box_json, self.locales, out))
    }
}

/// The bytes of layers, and of a box of devices, if one is named.
#[derive(Drop)]
struct SurveyFiles {
    layers: LayerFiles,
    box_json: Option<Vec<u8>>,
}

impl SurveyFiles {
    /// Reads a list of layers with the files that it names, and then the box.
    #[tactic(auto, unfolding(crate::specs::Survey::survey_files))]
    fn read<'a, I: Inputs>(
        alloc: Global,
        inputs: &I,
        layers_path: &'a str,
        box_path: Option<&'a str>,
    ) -> Result<SurveyFiles, Stop<'a>>
        ensures { IfSome (I.places inputs.now) (λ places. GivesOrStops survey_held result
            (survey_files places layers_path.entry.now (option_map (λ path. path.now) box_path.entry))) }
    {
        let layers = LayerFiles::read(alloc, inputs, layers_path)?;
        let box_json = box_bytes(inputs, box_path)?;
        Ok(SurveyFiles { layers, box_json })
    }
}

// The bytes of a box, where its path is given.
fn box_bytes<'a, I: Inputs>(
    inputs: &I,
    box_path: Option<&'a str>,
) -> Result<Option<Vec<u8>>, Stop<'a>>
    ensures { IfSome (I.places inputs.now) (λ places. GivesOrStops (option_map bytes_of) result
        (where_given (file_of places) (option_map (λ path. path.now) box_path.entry))) }
{
    match box_path {
        Some(path) => Ok(Some(file_bytes(inputs, path)?)),
        None => Ok(None),
    }
}

// Prints what of some layers is read otherwise than a device would read it, the qualifiers that their rows have, and those
// that the box lacks. The status is Negative where an answer can differ by it from a device's. Where a table is refused,
// this is told of the chunks of all tables, if an answer could differ by those of the one that is refused.
#[tactic(auto, unfolding(crate::specs::SurveyOutput::survey_output_by))]
fn survey_by<W: Write + Drop>(
    form: &SurveyForm<'_>,
    layers: &[LayerParts<&[u8]>],
    box_json: Option<&[u8]>,
    rule: LocaleRule,
    out: &mut W,
) -> Result<Status, ToolFault>
    ensures { Prints W.contents out.old out.new result
        (survey_output_by (form_seen form.now) rule (map layer_bytes layers.now) (option_map (λ json. json.now) box_json.entry)) }
{
    match OpenedSurvey::read(form.alloc, layers, box_json, rule) {
        Ok(opened) => print_answer(form, layers, &opened, out),
        Err(fault) if matches!(fault, ToolFault::LayerTable(..)) => {
            survey_refused(form, layers, fault, out)
        }
        Err(fault) => Err(fault),
    }
}

fn print_answer<W: Write + Drop>(
    form: &SurveyForm<'_>,
    layers: &[LayerParts<&[u8]>],
    opened: &OpenedSurvey<'_>,
    out: &mut W,
) -> Result<Status, ToolFault>
    requires { opened.now.shared ≡ shared_of (shared_ids opened.now.stack) }
    ensures { Prints W.contents out.old out.new result (Ok (survey_answer (form_seen form.now) (map layer_bytes layers.now) (opened_survey opened.now))) }
{
    let mut text = Vec::new(form.alloc);
    match write_answer(form, layers, opened, &mut text) {
        Ok(status) => print_text(status, &text, out),
        // To a `Vec` only a want of memory is a fault.
        Err(_) => Err(ToolFault::OutOfMemory),
    }
}

#[tactic(auto, unfolding(crate::specs::SurveyOutput::survey_answer))]
fn write_answer<W: Write + Drop>(
    form: &SurveyForm<'_>,
    layers: &[LayerParts<&[u8]>],
    opened: &OpenedSurvey<'_>,
    out: &mut W,
) -> io::Result<Status>
    requires { opened.now.shared ≡ shared_of (shared_ids opened.now.stack) }
    ensures { Writes W.contents out.old out.new result (survey_answer (form_seen form.now) (map layer_bytes layers.now) (opened_survey opened.now)).text
        × IfOk result (λ status. status ≡ (survey_answer (form_seen form.now) (map layer_bytes layers.now) (opened_survey opened.now)).status) }
{
    let locales = opened.locales();
    let differs = write_layers(form, &opened.stack, opened.rule, locales, layers, out)?;
    form.write_shared(opened.shared, out)?;
    let qualifiers = Qualifiers::of_stack(&opened.stack);
    write_lines(form, &qualifiers, out)?;
    let lacks = write_all_lacking(form, opened, &qualifiers, out)?;
    let shares = opened.shared.is_some();
    Ok(Status::negative_if(differs || shares || lacks))
}

#[tactic(auto, unfolding(crate::specs::Unfolded::all_coords))]
fn write_lines<W: Write + Drop>(
    form: &SurveyForm<'_>,
    qualifiers: &Qualifiers,
    out: &mut W,
) -> io::Result<()>
    ensures { Writes W.contents out.old out.new result
        (flat_map (λ c. qualifier_in (form_seen form.now) c (spread_in qualifiers.now c)) all_coords) }
{
    write_each_line(form, qualifiers, &Coord::ALL, out)
}

#[tactic(auto, using(crate::proofs::AnySteps::finds))]
fn write_each_line<W: Write + Drop>(
    form: &SurveyForm<'_>,
    qualifiers: &Qualifiers,
    coords: &[Coord],
    out: &mut W,
) -> io::Result<()>
    ensures { Writes W.contents out.old out.new result
        (flat_map (λ c. qualifier_in (form_seen form.now) c (spread_in qualifiers.now c)) coords.now) }
{
    for coord in coords {
        form.write_qualifier(*coord, qualifiers.spread(*coord), out)?;
    }
    Ok(())
}

// Writes the qualifiers that the box lacks, and says whether there are some.
#[tactic(auto, unfolding(crate::specs::SurveyOutput::lacking_text, crate::specs::SurveyOutput::lacks_some, crate::specs::Unfolded::all_coords))]
fn write_all_lacking<W: Write + Drop>(
    form: &SurveyForm<'_>,
    opened: &OpenedSurvey<'_>,
    qualifiers: &Qualifiers,
    out: &mut W,
) -> io::Result<bool>
    requires { (c : coord.Coord) → spread_in qualifiers.now c ≡ spread_of (numbers_at c (rows_in_stack opened.now.stack)) }
    ensures text { Writes W.contents out.old out.new result (lacking_text (form_seen form.now) (opened_survey opened.now)) }
    ensures lacks { IfOk result (λ some. some ≡ lacks_some (opened_survey opened.now)) }
{
    write_each_lacking(form, opened, qualifiers, &Coord::ALL, out)
}

#[tactic(auto, using(crate::proofs::AnySteps::finds))]
fn write_each_lacking<W: Write + Drop>(
    form: &SurveyForm<'_>,
    opened: &OpenedSurvey<'_>,
    qualifiers: &Qualifiers,
    coords: &[Coord],
    out: &mut W,
) -> io::Result<bool>
    requires { (c : coord.Coord) → spread_in qualifiers.now c ≡ spread_of (numbers_at c (rows_in_stack opened.now.stack)) }
    ensures text { Writes W.contents out.old out.new result
        (flat_map (λ c. lacking_in (form_seen form.now) (lacks (opened_survey opened.now).sets (rows_in_stack opened.now.stack) c) c) coords.now) }
    ensures lacks { IfOk result (λ some. some ≡ list_any (lacks (opened_survey opened.now).sets (rows_in_stack opened.now.stack)) coords.now) }
{
    let mut some = false;
    for coord in coords {
        let lacking = opened.lacks(*coord, qualifiers.spread(*coord));
        form.write_lacking(lacking, *coord, out)?;
        some |= lacking;
    }
    Ok(some)
}
