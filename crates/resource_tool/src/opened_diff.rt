//! What a comparison is asked of: two stacks and a box, opened from their bytes.

ghost use Rattle.std.specs.Prelude.{◌≡◌, map, IfOk};
ghost use Rattle.contract_words.specs.Exact.{GivesOr};
ghost use Rattle.command_base.specs.declared.fault.ToolFault.TheVariants.{OutOfMemory};
ghost use Rattle.command_base.specs.Output.{IsOfInput};
ghost use Rattle.command_base.specs.StackBytesSeen.{layer_bytes};
ghost use Rattle.resource_tool.specs.DiffInputs.{have_same_bytes, diff_inputs_by};
ghost use Rattle.resource_tool.specs.OpensChanged.{OpensChanged};

use command_base::{LayerParts, LocaleRule, Side, ToolFault, open_side};
use stack_diff::{ConfigBox, NamedStack, PackageNames, Stack, Stacks};
use std::alloc::{AllocError, Global};

/// The layers before a change and those after it, and the box.
#[derive(Drop)]
pub(crate) struct OpenedDiff<'a> {
    old: Stack<'a>,
    /// The new stack; none where its layers have the same bytes as the old ones, so that the old stack serves for both.
    changed: Option<Stack<'a>>,
    members: ConfigBox,
    /// By which rule the locales of the box are compared.
    rule: LocaleRule,
}

/// The same, with the names and the packages of both stacks.
#[derive(Drop)]
pub(crate) struct NamedDiff<'o, 'a> {
    old: NamedStack<'o, 'a>,
    changed: Option<NamedStack<'o, 'a>>,
    packages: PackageNames<'a>,
    pub(crate) members: &'o ConfigBox,
    pub(crate) rule: LocaleRule,
}

impl<'a> OpenedDiff<'a> {
    ghost use Rattle.std.specs.Prelude.{unwrap_or};
    ghost use Rattle.resource_tool.specs.OpenedDiffSeen.{named_diff, opened_diff};

    /// Opens the old layers, then the new ones, and then reads the box, whose locales are read and compared by a rule.
    #[tactic(auto, unfolding(crate::specs::DiffInputs::diff_inputs_by))]
    pub fn read_by(
        alloc: Global,
        old: &[LayerParts<&'a [u8]>],
        new: &[LayerParts<&'a [u8]>],
        box_json: &[u8],
        rule: LocaleRule,
    ) -> Result<OpenedDiff<'a>, ToolFault>
        ensures value { GivesOr OutOfMemory opened_diff result (diff_inputs_by rule (map layer_bytes old.now) (map layer_bytes new.now) box_json.now) }
        ensures of_input { IsOfInput result }
    {
        let stack = open_side(alloc, Side::Old, old)?;
        let changed = open_changed(alloc, old, new)?;
        let members = ConfigBox::read_by(alloc, box_json, rule)?;
        Ok(OpenedDiff {
            old: stack,
            changed,
            members,
            rule,
        })
    }

    fn new_stack(&self) -> &Stack<'a>
        ensures { result.now ≡ unwrap_or self.now.changed self.now.old }
    {
        match &self.changed {
            Some(stack) => stack,
            None => &self.old,
        }
    }

    /// Notes the names of both stacks, in one walk over the rows of each.
    pub fn named(&self, alloc: Global) -> Result<NamedDiff<'_, 'a>, AllocError>
        ensures { IfOk result (λ named. named_diff named ≡ opened_diff self.now) }
    {
        let old = NamedStack::of(alloc, &self.old)?;
        let changed = match &self.changed {
            Some(stack) => Some(NamedStack::of(alloc, stack)?),
            None => None,
        };
        let packages = PackageNames::of_both(alloc, &self.old, self.new_stack())?;
        Ok(NamedDiff {
            old,
            changed,
            packages,
            members: &self.members,
            rule: self.rule,
        })
    }
}

impl<'o, 'a> NamedDiff<'o, 'a> {
    ghost use Rattle.stack_diff.specs.Stacks.{stacks_of};
    ghost use Rattle.resource_tool.specs.OpenedDiffSeen.{named_diff};

    /// Both stacks.
    pub(crate) fn stacks(&self) -> Stacks<'_, 'a>
        ensures { stacks_of result ≡ (named_diff self.now).stacks }
    {
        match &self.changed {
            Some(changed) => Stacks::two(&self.old, changed, &self.packages),
            None => Stacks::one(&self.old, &self.packages),
        }
    }
}

// The new stack, if its layers have other bytes than the old ones.
fn open_changed<'a>(
    alloc: Global,
    old: &[LayerParts<&'a [u8]>],
    new: &[LayerParts<&'a [u8]>],
) -> Result<Option<Stack<'a>>, ToolFault>
    ensures { OpensChanged (map layer_bytes old.now) (map layer_bytes new.now) result }
{
    if have_same_bytes(old, new) {
        return Ok(None);
    }
    let stack = open_side(alloc, Side::New, new)?;
    Ok(Some(stack))
}

// Whether both lists of layers have the same bytes. Then they are the same stack, since a stack is what its bytes mean.
fn have_same_bytes(old: &[LayerParts<&[u8]>], new: &[LayerParts<&[u8]>]) -> bool
    ensures { result ≡ have_same_bytes (map layer_bytes old.now) (map layer_bytes new.now) }
{
    old == new
}
