//! What is printed where a table is refused.

ghost use Rattle.std.specs.Prelude.{◌≡◌, ◌≢◌, map, Ok};
ghost use Rattle.contract_words.specs.Writes.{Writes};
ghost use Rattle.command_base.specs.declared.fault.ToolFault.TheVariants.{Write};
ghost use Rattle.command_base.specs.Output.{Prints};
ghost use Rattle.command_base.specs.StackBytesSeen.{layer_bytes};
ghost use Rattle.resource_tool.specs.Refused.{chunks_differ, differs_where_refused, refused_text, refused_output};
ghost use Rattle.resource_tool.specs.SurveyForm.{form_seen};

use crate::survey::findings::Findings;
use crate::survey::form::SurveyForm;
use crate::survey::layers::write_layers;
use crate::text::print_text;
use command_base::{LayerParts, LocaleRule, Stack, Status, ToolFault};
use std::io::{self, Write};

/// Prints what the chunks of all layers have, and the fault. Where no answer could differ by the chunks of a table that is
/// refused, the fault is the answer.
#[tactic(auto, unfolding(crate::specs::Refused::refused_output))]
pub(crate) fn survey_refused<W: Write + Drop>(
    form: &SurveyForm<'_>,
    layers: &[LayerParts<&[u8]>],
    fault: ToolFault,
    out: &mut W,
) -> Result<Status, ToolFault>
    requires { fault ≢ Write }
    ensures { Prints W.contents out.old out.new result (refused_output (form_seen form.now) (map layer_bytes layers.now) fault) }
{
    if !differs_where_refused(layers, &fault) {
        return Err(fault);
    }
    let mut text = Vec::new(form.alloc);
    match write_refused(form, layers, &fault, &mut text) {
        Ok(()) => print_text(Status::Negative, &text, out),
        // To a `Vec` only a want of memory is a fault.
        Err(_) => Err(ToolFault::OutOfMemory),
    }
}

#[tactic(auto, unfolding(crate::specs::Refused::refused_text))]
fn write_refused<W: Write + Drop>(
    form: &SurveyForm<'_>,
    layers: &[LayerParts<&[u8]>],
    fault: &ToolFault,
    out: &mut W,
) -> io::Result<()>
    ensures { Writes W.contents out.old out.new result (refused_text (form_seen form.now) (map layer_bytes layers.now) fault.now) }
{
    // Without layers there are no rows, whose locales a rule would compare.
    let no_rows = Stack::new(form.alloc);
    let rule = LocaleRule::LanguageAndRegion;
    write_layers(form, &no_rows, rule, &[], layers, out)?;
    form.write_refused(fault, out)
}

fn differs_where_refused(layers: &[LayerParts<&[u8]>], fault: &ToolFault) -> bool
    ensures { result ≡ differs_where_refused (map layer_bytes layers.now) fault.now }
{
    let ToolFault::LayerTable(place, _) = fault else {
        return false;
    };
    match layers.get(*place) {
        Some(layer) => chunks_differ(*layer),
        None => false,
    }
}

fn chunks_differ(layer: LayerParts<&[u8]>) -> bool
    ensures { result ≡ chunks_differ (layer_bytes layer.entry) }
{
    let (bytes, _) = layer;
    let mut findings = Findings::none();
    findings.add_chunks(bytes);
    findings.differs()
}
