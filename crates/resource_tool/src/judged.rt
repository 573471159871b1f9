//! What becomes of labels, one after the other.

ghost use Rattle.std.specs.Prelude.{map, option_map, IfOk};
ghost use Rattle.stack_diff.specs.names.Pairs.{pair_of};
ghost use Rattle.stack_diff.specs.names.declared.pair.Sides.TheVariants as of_sides;
ghost use Rattle.stack_diff.specs.Stacks.{stacks_of};
ghost use Rattle.resource_tool.specs.Judged.{told_of, IsJudged, IsKept};
ghost use Rattle.resource_tool.specs.Telling.{AreTold};

use crate::told::Told;
use command_base::Progress;
use resource_text::LineForm;
use stack_diff::{ConfigBox, NamePair, ResId, Sides, Stacks, compare};
use std::alloc::{AllocError, Global};
use std::collections::BTreeMap;

/// What is told of a label, and how many nodes the tree had that found it.
#[derive(Drop)]
struct Judged {
    told: Told,
    nodes: usize,
}

/// What is told of the labels; none where the trees that find it may have more nodes than the limit. The lines of a label
/// are made as soon as it is compared. Two ids are compared once, however many labels stand for them. Before each label the
/// caller comes to know how many are told.
pub(crate) fn tell_all<'a, P: Progress>(
    alloc: Global,
    form: LineForm,
    stacks: Stacks<'_, 'a>,
    pairs: &[NamePair<'a>],
    members: &ConfigBox,
    max_nodes: u32,
    progress: &mut P,
) -> Result<Option<Vec<Told>>, AllocError>
    ensures { IfOk result (λ told. AreTold form (stacks_of stacks.entry) members.now (map pair_of pairs.now) max_nodes (option_map (λ all. map told_of all.items) told)) }
{
    let mut told = Vec::with_capacity(alloc, pairs.len())?;
    let mut kept = BTreeMap::new(alloc);
    let mut spare = max_nodes as usize;
    for pair in pairs {
        progress.goals_done(told.len(), pairs.len());
        let Some(judged) = judge(alloc, form, stacks, pair.sides, members, spare, &mut kept)? else {
            return Ok(None);
        };
        spare -= judged.nodes;
        told.push(judged.told)?;
    }
    Ok(Some(told))
}

// What is told of a label that stands for these ids; none where the tree that finds it has more nodes than this. What was
// found of two ids is kept.
fn judge<'a>(
    alloc: Global,
    form: LineForm,
    stacks: Stacks<'_, 'a>,
    sides: Sides,
    members: &ConfigBox,
    most: usize,
    kept: &mut BTreeMap<(u32, u32), Judged>,
) -> Result<Option<Judged>, AllocError>
    requires { IsKept form (stacks_of stacks) members.now kept.old }
    ensures { IfOk result (λ judged. IsJudged form (stacks_of stacks.entry) members.now sides most judged
        × IsKept form (stacks_of stacks.entry) members.now kept.new) }
{
    match sides {
        Sides::Removed { .. } => Ok(Some(Judged {
            told: Told::Removed,
            nodes: 0,
        })),
        Sides::Added { .. } => Ok(Some(Judged {
            told: Told::Added,
            nodes: 0,
        })),
        Sides::Both { old, new } => {
            if let Some(judged) = kept.get(&(old.0, new.0)) {
                return judged.within(most);
            }
            let Some(judged) = judge_both(alloc, form, stacks, old, new, members, most)? else {
                return Ok(None);
            };
            kept.insert((old.0, new.0), judged.shared()?)?;
            Ok(Some(judged))
        }
    }
}

// The same of two ids, by a comparison.
fn judge_both<'a>(
    alloc: Global,
    form: LineForm,
    stacks: Stacks<'_, 'a>,
    old: ResId,
    new: ResId,
    members: &ConfigBox,
    most: usize,
) -> Result<Option<Judged>, AllocError>
    ensures { IfOk result (IsJudged form (stacks_of stacks.entry) members.now (of_sides.Both old new) most) }
{
    let Some(compared) = compare(alloc, stacks, old, new, members, most)? else {
        return Ok(None);
    };
    let told = Told::of(alloc, form, stacks.packages(), members, &compared.changes)?;
    let nodes = compared.nodes;
    Ok(Some(Judged { told, nodes }))
}

impl Judged {
    ghost use Rattle.std.specs.Prelude.{◌≡◌, IfOk};
    ghost use Rattle.resource_text.specs.declared.line_form.LineForm.{LineForm};
    ghost use Rattle.stack_diff.specs.Stacks.{StacksOf};
    ghost use Rattle.stack_diff.specs.names.declared.pair.Sides.{Sides};
    ghost use Rattle.stack_diff.specs.config_box.box_answers.NumberSet.{SetOf};
    ghost use Rattle.std.specs.Prelude.{List};
    ghost use Rattle.resource_tool.specs.Judged.{told_of, IsRight, IsJudged};

    // The same of another label that stands for the same ids.
    fn shared(&self) -> Result<Judged, AllocError>
        ensures { IfOk result (λ judged. (told_of judged.told ≡ told_of self.now.told) × (judged.nodes ≡ self.now.nodes)) }
    {
        Ok(Judged {
            told: self.told.shared()?,
            nodes: self.nodes,
        })
    }

    // The same, if its tree is within this limit.
    fn within(&self, most: usize) -> Result<Option<Judged>, AllocError>
        ensures { IfOk result (λ judged. (form : LineForm) (stacks : StacksOf) (sets : List SetOf) (sides : Sides) → IsRight form stacks sets sides self.now → IsJudged form stacks sets sides most judged) }
    {
        if self.nodes > most {
            return Ok(None);
        }
        Ok(Some(self.shared()?))
    }
}
