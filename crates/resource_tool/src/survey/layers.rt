//! What the layers of a stack have that a device may read otherwise.

ghost use Rattle.std.specs.Prelude.{◌≡◌, map, IfOk};
ghost use Rattle.contract_words.specs.Writes.{Writes};
ghost use Rattle.command_base.specs.cert_tree.box_answers.NumberSet.{locale_numbers};
ghost use Rattle.command_base.specs.StackBytesSeen.{layer_bytes};
ghost use Rattle.resource_tool.specs.LayerNotes.{layer_differs};
ghost use Rattle.resource_tool.specs.SurveyOutput.{layers_differ};
ghost use Rattle.resource_tool.specs.LayersText.{layer_lines, layers_text};
ghost use Rattle.resource_tool.specs.SurveyForm.{form_seen};

use crate::survey::findings::Findings;
use crate::survey::form::SurveyForm;
use crate::survey::rows::note_rows;
use command_base::{LayerParts, Locale, LocaleRule, Stack};
use std::io::{self, Write};

/// Writes what is found in each layer, where locales are compared by a rule, and these are those of the box. Says whether
/// an answer can differ by it from a device's.
#[tactic(auto, using(crate::proofs::AnySteps::finds), unfolding(crate::specs::LayersText::layers_text, crate::specs::SurveyOutput::layers_differ))]
pub(crate) fn write_layers<W: Write + Drop>(
    form: &SurveyForm<'_>,
    stack: &Stack<'_>,
    rule: LocaleRule,
    locales: &[Locale],
    layers: &[LayerParts<&[u8]>],
    out: &mut W,
) -> io::Result<bool>
    ensures text { Writes W.contents out.old out.new result (layers_text (form_seen form.now) rule stack.now (locale_numbers locales.now) (map layer_bytes layers.now)) }
    ensures differs { IfOk result (λ differs. differs ≡ layers_differ rule stack.now (locale_numbers locales.now) (map layer_bytes layers.now)) }
{
    let mut differs = false;
    for (place, layer) in layers.iter().enumerate() {
        differs |= write_layer(form, stack, rule, locales, place, *layer, out)?;
    }
    Ok(differs)
}

#[tactic(auto, unfolding(crate::specs::LayersText::layer_lines))]
fn write_layer<W: Write + Drop>(
    form: &SurveyForm<'_>,
    stack: &Stack<'_>,
    rule: LocaleRule,
    locales: &[Locale],
    place: usize,
    layer: LayerParts<&[u8]>,
    out: &mut W,
) -> io::Result<bool>
    ensures { Writes W.contents out.old out.new result (layer_lines (form_seen form.now) rule stack.now (locale_numbers locales.now) (place, layer_bytes layer.entry))
        × IfOk result (λ differs. differs ≡ layer_differs rule stack.now (locale_numbers locales.now) (place, layer_bytes layer.entry)) }
{
    let (bytes, _) = layer;
    let mut findings = Findings::none();
    findings.add_chunks(bytes);
    note_rows(stack, rule, locales, place, &mut findings);
    form.write_findings(place, &findings, out)?;
    Ok(findings.differs())
}
