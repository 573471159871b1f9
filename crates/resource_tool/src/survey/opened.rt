//! What a survey is asked of: layers, and perhaps a box, opened from their bytes.

ghost use Rattle.std.specs.Prelude.{◌≡◌, map, IfOk};
ghost use Rattle.std.specs.Option.{option_map};
ghost use Rattle.contract_words.specs.Exact.{GivesOr};
ghost use Rattle.command_base.specs.cert_tree.config_box.config_record.declared.coord.Coord as coord;
ghost use Rattle.command_base.specs.cert_tree.box_answers.NumberSet.{locale_numbers};
ghost use Rattle.command_base.specs.declared.fault.ToolFault.TheVariants.{OutOfMemory};
ghost use Rattle.command_base.specs.Output.{IsOfInput};
ghost use Rattle.command_base.specs.StackBytesSeen.{layer_bytes};
ghost use Rattle.command_base.specs.names.Shared.{shared_ids, shared_of};
ghost use Rattle.resource_tool.specs.Qualifiers.{rows_in_stack, numbers_at, spread_of};
ghost use Rattle.resource_tool.specs.BoxGaps.{locales_of_box, lacks};
ghost use Rattle.resource_tool.specs.SurveyOutput.{sets_in, survey_inputs_by};

use crate::survey::box_gaps::{is_unknown, locales_of};
use crate::survey::qualifiers::Spread;
use command_base::{
    ConfigBox, Coord, LayerParts, Locale, LocaleRule, NamedStack, SharedNames, Stack, ToolFault,
    open_stack,
};
use std::alloc::{AllocError, Global};

/// The layers and the box that a survey is asked of.
#[derive(Drop)]
pub(crate) struct OpenedSurvey<'a> {
    pub stack: Stack<'a>,
    pub members: Option<ConfigBox>,
    /// By which rule locales are compared.
    pub rule: LocaleRule,
    pub shared: Option<SharedNames>,
}

impl<'a> OpenedSurvey<'a> {
    ghost use Rattle.resource_tool.specs.OpenedSeen.{opened_survey};

    /// Opens the layers, and then reads the box, where the texts of locales are read by a rule, by which they are then
    /// compared.
    #[tactic(auto, unfolding(crate::specs::SurveyOutput::survey_inputs_by))]
    pub fn read(
        alloc: Global,
        layers: &[LayerParts<&'a [u8]>],
        box_json: Option<&[u8]>,
        rule: LocaleRule,
    ) -> Result<OpenedSurvey<'a>, ToolFault>
        ensures { GivesOr OutOfMemory opened_survey result (survey_inputs_by rule (map layer_bytes layers.now) (option_map (λ json. json.now) box_json.entry))
            × IsOfInput result
            × IfOk result (λ opened. opened.shared ≡ shared_of (shared_ids opened.stack)) }
    {
        let stack = open_stack(alloc, layers)?;
        let members = read_box(alloc, box_json, rule)?;
        let shared = shared_names(alloc, &stack)?;
        Ok(OpenedSurvey {
            stack,
            members,
            rule,
            shared,
        })
    }

    /// The locales of the box.
    #[tactic(auto, unfolding(crate::specs::BoxGaps::locales_of_box))]
    pub fn locales(&self) -> &[Locale]
        ensures { locale_numbers result.now ≡ locales_of_box (opened_survey self.now).sets }
    {
        match &self.members {
            Some(members) => locales_of(members.values(Coord::Locale)),
            None => &[],
        }
    }

    /// Whether the box leaves a coordinate unknown that rows have, of which this is the spread.
    #[tactic(auto, unfolding(crate::specs::BoxGaps::lacks, crate::specs::Qualifiers::spread_of))]
    pub fn lacks(&self, coord: Coord, spread: Spread) -> bool
        requires { spread ≡ spread_of (numbers_at coord (rows_in_stack self.now.stack)) }
        ensures { result ≡ lacks (opened_survey self.now).sets (rows_in_stack self.now.stack) coord }
    {
        match &self.members {
            Some(members) => spread.count != 0 && is_unknown(members.values(coord)),
            None => false,
        }
    }
}

// The ids whose names stand for others.
fn shared_names(alloc: Global, stack: &Stack<'_>) -> Result<Option<SharedNames>, AllocError>
    ensures { IfOk result (λ shared. shared ≡ shared_of (shared_ids stack.now)) }
{
    let named = NamedStack::of(alloc, stack)?;
    Ok(named.shared_names())
}

fn read_box(
    alloc: Global,
    box_json: Option<&[u8]>,
    rule: LocaleRule,
) -> Result<Option<ConfigBox>, ToolFault>
    ensures { GivesOr OutOfMemory (λ members. members) result (sets_in rule (option_map (λ json. json.now) box_json.entry)) × IsOfInput result }
{
    let Some(json) = box_json else {
        return Ok(None);
    };
    let members = ConfigBox::read_by(alloc, json, rule)?;
    Ok(Some(members))
}
