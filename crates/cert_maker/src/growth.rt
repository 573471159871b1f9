//! One node more.

ghost use Rattle.std.specs.Prelude.{◌≡◌, IfOk, MatchOption, false};
ghost use Rattle.cert_checker.specs.reference_resolver.Ends.{is_value};
ghost use Rattle.cert_checker.specs.cert_tree.Certificate.{node_of};
ghost use Rattle.cert_checker.specs.Paths.{leaf_end};
ghost use Rattle.cert_maker.specs.Growth.{AddsOrEnds};

use crate::next_test::parting_test;
use cert_checker::{
    CommonTrace, Device, End, Halving, MOST_LAYERS, Node, OpenBox, OpenBoxes, OutOfMemory, Stack,
};
use std::alloc::Global;

/// Adds the node to which the members of an open box come, and opens the boxes behind it, which go on where its members
/// part; or gives a member for which the goal ends at no value and no bag, with that end.
pub(crate) fn add_node<'a, 's>(
    alloc: Global,
    stack: &Stack<'a>,
    part: &mut OpenBox<'a, 's>,
    nodes: &mut Vec<Node>,
    open_boxes: &mut OpenBoxes<'a, 's>,
) -> Result<Option<(Device, End)>, OutOfMemory>
    ensures { IfOk result (AddsOrEnds stack.now part.old nodes.old.items nodes.new.items open_boxes.old open_boxes.new) }
{
    match part.common_trace(alloc, stack)? {
        CommonTrace::One(end) => match leaf_of(end) {
            Some(leaf) => {
                // A certificate can name 64 layers, and a stack has no more.
                let layers = stack.len();
                prove!(layers <= MOST_LAYERS);
                nodes.push(leaf)?;
                Ok(None)
            }
            None => Ok(Some((part.members.corner(), end))),
        },
        CommonTrace::Mixed(first) => {
            let parting = part.weightiest_parting(alloc, first)?;
            let test = parting_test(alloc, &part.members, &parting)?;
            let halving = open_boxes.push_halves(alloc, part, &test)?;
            match halving {
                Halving::Opened => {
                    nodes.push(Node::Test(test))?;
                    Ok(None)
                }
                // The test is one that can be asked of these members, and parts two of them.
                Halving::WrongKind => unreachable!(),
                Halving::EmptyHalf => unreachable!(),
            }
        }
    }
}

/// The leaf that says an end, where it is a value or a bag.
fn leaf_of(end: End) -> Option<Node>
    ensures { MatchOption result (is_value end ≡ false) (λ leaf. leaf_end (node_of leaf) ≡ Some end) }
{
    match end {
        End::Value { layer, value } => Some(Node::Value { layer, value }),
        End::Bag { id } => Some(Node::Bag { id }),
        End::Absent { .. } | End::TooLong { .. } => None,
    }
}
