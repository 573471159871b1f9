//! How two resources differ, as it stands behind their name.

ghost use Rattle.std.specs.Prelude.{◌≡◌, IfOk};
ghost use Rattle.serde_json.specs.Written.{compact_text};
ghost use Rattle.stack_diff.specs.DifferenceSeen.{difference_of};
ghost use Rattle.resource_text.specs.ChangeBlock.{change_block};
ghost use Rattle.resource_text.specs.ChangeJson.{change_data};
ghost use Rattle.resource_text.specs.DifferenceText.{difference_text};

use crate::change_json::change_json;
use crate::difference_text::write_difference;
use crate::line_form::LineForm;
use answer_text::Form;
use stack_diff::{ConfigBox, Difference, PackageNames};
use std::alloc::{AllocError, Global};

/// How a resource differs on the devices of a part of the whole box: a block of lines, or the text of a JSON object.
#[tactic(auto, unfolding(crate::specs::ChangeBlock::change_block))]
pub fn change_block(
    alloc: Global,
    form: LineForm,
    packages: &PackageNames<'_>,
    difference: &Difference<'_>,
    whole: &ConfigBox,
    part: &ConfigBox,
) -> Result<Vec<u8>, AllocError>
    ensures { IfOk result (λ block. block.items ≡ change_block form packages.now (difference_of difference.now) whole.now part.now) }
{
    match form {
        LineForm::Text(form) => text_block(alloc, form, packages, difference, whole, part),
        LineForm::Json => json_block(alloc, packages, difference, whole, part),
    }
}

fn text_block(
    alloc: Global,
    form: Form,
    packages: &PackageNames<'_>,
    difference: &Difference<'_>,
    whole: &ConfigBox,
    part: &ConfigBox,
) -> Result<Vec<u8>, AllocError>
    ensures { IfOk result (λ block. block.items ≡ difference_text form packages.now (difference_of difference.now) whole.now part.now) }
{
    let mut block = Vec::new(alloc);
    match write_difference(form, packages, difference, whole, part, &mut block) {
        Ok(()) => Ok(block),
        // To a `Vec` only a want of memory is a fault.
        Err(_) => Err(AllocError),
    }
}

fn json_block(
    alloc: Global,
    packages: &PackageNames<'_>,
    difference: &Difference<'_>,
    whole: &ConfigBox,
    part: &ConfigBox,
) -> Result<Vec<u8>, AllocError>
    ensures { IfOk result (λ block. block.items ≡ compact_text (change_data packages.now (difference_of difference.now) whole.now part.now)) }
{
    let change = change_json(alloc, packages, difference, whole, part)?;
    let text = change.to_vec(alloc)?;
    Ok(text)
}
