//! What is told of a label, behind its name.

ghost use Rattle.std.specs.Prelude.{◌≡◌, ◌++◌, map, IfOk, OnOk};
ghost use Rattle.stack_diff.specs.Changes.{change_of};
ghost use Rattle.answer_text.specs.InOrder.{in_order};
ghost use Rattle.resource_tool.specs.Judged.{told_of};
ghost use Rattle.resource_tool.specs.Telling.{change_blocks, is_block_before, blocks_of, changes_told};

use resource_text::{LineForm, change_block};
use stack_diff::{Change, ConfigBox, PackageNames};
use std::alloc::{AllocError, Global};
use std::rc::Rc;

/// What is told of a label, behind its name.
#[derive(Drop)]
pub(crate) enum Told {
    /// The new stack does not have it.
    Removed,
    /// The old stack does not have it.
    Added,
    /// It says the same in both.
    Same,
    /// Blocks, each of lines or a JSON object, in the order of their bytes. Labels that stand for the same resources share them.
    Changed(Rc<Vec<Vec<u8>>>),
}

impl Told {
    /// What these changes are told by, for a label that both stacks have.
    pub fn of(
        alloc: Global,
        form: LineForm,
        packages: &PackageNames<'_>,
        whole: &ConfigBox,
        changes: &[Change<'_>],
    ) -> Result<Told, AllocError>
        ensures { IfOk result (λ told. told_of told ≡ changes_told form packages.now whole.now (map change_of changes.now)) }
    {
        if changes.is_empty() {
            return Ok(Told::Same);
        }
        let blocks = blocks_of(alloc, form, packages, whole, changes)?;
        Ok(Told::Changed(Rc::new(alloc, blocks)?))
    }

    /// The same, of another label.
    pub fn shared(&self) -> Result<Told, AllocError>
        ensures { IfOk result (λ told. told_of told ≡ told_of self.now) }
    {
        match self {
            Told::Removed => Ok(Told::Removed),
            Told::Added => Ok(Told::Added),
            Told::Same => Ok(Told::Same),
            Told::Changed(blocks) => Ok(Told::Changed(blocks.clone()?)),
        }
    }
}

#[tactic(auto, unfolding(crate::specs::Telling::blocks_of))]
fn blocks_of(
    alloc: Global,
    form: LineForm,
    packages: &PackageNames<'_>,
    whole: &ConfigBox,
    changes: &[Change<'_>],
) -> Result<Vec<Vec<u8>>, AllocError>
    ensures { IfOk result (λ blocks. map (λ block. block.items) blocks.items ≡ blocks_of form packages.now whole.now (map change_of changes.now)) }
{
    let mut blocks = Vec::new(alloc);
    for change in changes {
        add_blocks(alloc, form, packages, whole, change, &mut blocks)?;
    }
    sort_blocks(&mut blocks)?;
    Ok(blocks)
}

// Adds the blocks of a change.
fn add_blocks(
    alloc: Global,
    form: LineForm,
    packages: &PackageNames<'_>,
    whole: &ConfigBox,
    change: &Change<'_>,
    blocks: &mut Vec<Vec<u8>>,
) -> Result<(), AllocError>
    ensures { OnOk result (map (λ block. block.items) blocks.new.items ≡ map (λ block. block.items) blocks.old.items ++ change_blocks form packages.now whole.now (change_of change.now)) }
{
    for part in &change.boxes {
        let block = change_block(alloc, form, packages, &change.difference, whole, part)?;
        blocks.push(block)?;
    }
    Ok(())
}

fn sort_blocks(blocks: &mut Vec<Vec<u8>>) -> Result<(), AllocError>
    ensures { OnOk result (map (λ block. block.items) blocks.new.items ≡ in_order is_block_before (map (λ block. block.items) blocks.old.items)) }
{
    blocks.sort_by(|block, other| block.cmp(other))?;
    Ok(())
}
