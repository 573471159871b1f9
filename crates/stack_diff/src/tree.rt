//! The tree that parts a box until all members of each part have one trace in either stack.

ghost use Rattle.std.specs.Prelude.{◌≡◌, ℕ, List, [], ◌∷◌, ◌++◌, ◌+◌, IfOk, OnOk};
ghost use Rattle.std.specs.Option.{option_map};
ghost use Rattle.answer_text.specs.config_record.DeviceSeen.{device_numbers};
ghost use Rattle.cert_maker.specs.box_answers.NumberSet.{SetOf};
ghost use Rattle.cert_maker.specs.box_answers.Members.{IsMember};
ghost use Rattle.stack_diff.specs.DifferenceSeen.{difference_of};
ghost use Rattle.stack_diff.specs.Sides.{ends_told, pair_traces};
ghost use Rattle.stack_diff.specs.Parting.{HaveOneTrace};
ghost use Rattle.stack_diff.specs.PairBox.{EndAt, IsOpen, AreOpen, AreWhole};
ghost use Rattle.stack_diff.specs.Tree.{TellsLeaf, TakesBox, IsGrown};

use crate::compared_with::ComparedWith;
use crate::difference::{Difference, difference_of_ends};
use crate::pair::Pair;
use crate::pair_box::{PairBox, PairBoxes, PairTrace};
use answer_text::{Device, End, content_of_end};
use cert_maker::{ConfigBox, OutOfMemory, parting_test};
use std::alloc::{AllocError, Global};

/// How the two stacks differ for all members of a leaf.
#[derive(Drop)]
pub(crate) struct Leaf<'a> {
    pub(crate) difference: Box<Difference<'a>>,
    pub(crate) members: ConfigBox,
}

/// The leaves of a tree where the two stacks differ, and how many nodes it has.
#[derive(Drop)]
pub(crate) struct Leaves<'a> {
    pub(crate) told: Vec<Leaf<'a>>,
    pub(crate) nodes: usize,
}

/// Grows the tree of a resource, of at most so many nodes; none where it has more.
pub(crate) fn grow_tree<'a>(
    alloc: Global,
    pair: Pair<'_, 'a>,
    members: &ConfigBox,
    most: usize,
) -> Result<Option<Leaves<'a>>, OutOfMemory>
    ensures { IfOk result (IsGrown pair.entry members.now most) }
{
    let mut open_boxes = PairBoxes::whole(alloc, pair, members)?;
    let grown = grow_nodes(alloc, pair, most, &mut open_boxes);
    open_boxes.close();
    grown
}

// The same from a whole box on. Each open box needs at least one node, so a tree is given up where its nodes and the open
// boxes together exceed the limit.
fn grow_nodes<'a, 's>(
    alloc: Global,
    pair: Pair<'_, 'a>,
    most: usize,
    open_boxes: &mut PairBoxes<'a, 's>,
) -> Result<Option<Leaves<'a>>, OutOfMemory>
    requires { AreOpen pair open_boxes.old }
    ensures { IfOk result (λ grown. (sets : List SetOf) → AreWhole pair.entry sets open_boxes.old → IsGrown pair.entry sets most grown) }
{
    let mut nodes: usize = 0;
    let mut told = Vec::new(alloc);
    'boxes: loop {
        if nodes as u128 + open_boxes.len() as u128 > most as u128 {
            return Ok(None);
        }
        let Some(mut part) = open_boxes.pop() else {
            return Ok(Some(Leaves { told, nodes }));
        };
        let added = add_node(alloc, pair, &mut part, open_boxes, &mut told);
        part.close();
        added?;
        nodes += 1;
    }
}

/// Adds the node to which the members of an open box come: a test, which opens its halves, or a leaf, which tells how
/// the stacks differ for them.
fn add_node<'a, 's>(
    alloc: Global,
    pair: Pair<'_, 'a>,
    part: &mut PairBox<'a, 's>,
    open_boxes: &mut PairBoxes<'a, 's>,
    told: &mut Vec<Leaf<'a>>,
) -> Result<(), OutOfMemory>
    requires { IsOpen pair part.old }
    ensures { IfOk result (λ _. TakesBox pair.entry part.old open_boxes.old open_boxes.new told.old.items told.new.items) }
{
    let parting = match part.trace(alloc, pair)? {
        PairTrace::Parted(parting) => parting,
        PairTrace::One { before, after } => {
            return tell_leaf(alloc, pair, before, after, part.members(), told);
        }
    };
    let test = parting_test(alloc, part.members(), &parting)?;
    open_boxes.push_halves(alloc, part, &test)
}

// Tells how the stacks differ for these members, which come to these ends, if they do.
fn tell_leaf<'a>(
    alloc: Global,
    pair: Pair<'_, 'a>,
    before: End,
    after: End,
    members: &ConfigBox,
    told: &mut Vec<Leaf<'a>>,
) -> Result<(), OutOfMemory>
    requires one { HaveOneTrace (IsMember members.now) (pair_traces pair) }
    requires ends { EndAt pair members.now before after }
    ensures { OnOk result (TellsLeaf pair.entry members.now told.old.items told.new.items) }
{
    let device = members.corner();
    let found = told_of_ends(alloc, pair, before, after, &device)?;
    if let Some(difference) = found {
        let difference = Box::new(alloc, difference)?;
        let members = members.shared(alloc)?;
        told.push(Leaf {
            difference,
            members,
        })?;
    }
    Ok(())
}

// What is told of two ends, to which the resources lead at this device.
fn told_of_ends<'a>(
    alloc: Global,
    pair: Pair<'_, 'a>,
    before: End,
    after: End,
    device: &Device,
) -> Result<Option<Difference<'a>>, AllocError>
    ensures { IfOk result (λ it. option_map difference_of it ≡ ends_told pair.entry before after (device_numbers device.now)) }
{
    let (old, new) = (pair.before.stack, pair.after.stack);
    match pair.compared {
        ComparedWith::Nothing => {
            let content = content_of_end(alloc, new, after, device)?;
            Ok(Some(Difference::FromNothing(content)))
        }
        ComparedWith::Other | ComparedWith::Itself => {
            difference_of_ends(alloc, old, before, new, after, device)
        }
    }
}
