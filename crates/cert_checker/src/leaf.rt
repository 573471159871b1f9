//! The rules of leaves.

ghost use Rattle.std.specs.Prelude.{◌≡◌, ◌≢◌, ℕ, true, List, IfOk, MatchBool};
ghost use Rattle.box_trace.specs.reference_resolver.Ends.{is_value};
ghost use Rattle.box_trace.specs.reference_resolver.Trace.{Trace};
ghost use Rattle.box_trace.specs.OpenBox.{IsReached};
ghost use Rattle.cert_checker.specs.OpenBoxes.{TakesLeaf, rule_of_end};

use crate::failure::Failure;
use crate::rule::Rule;
use crate::verdict::Shown;
use box_trace::{CommonTrace, End, OpenBox, Stack};
use cert_tree::OutOfMemory;
use std::alloc::Global;

/// Why a leaf fails to which the members of this box come, if it does: they have several traces, or one that
/// ends elsewhere than the leaf says.
pub(crate) fn take_leaf<'a, 's>(
    alloc: Global,
    stack: &Stack<'a>,
    part: &mut OpenBox<'a, 's>,
    claimed: End,
) -> Result<Option<Failure>, OutOfMemory>
    requires { is_value claimed ≡ true }
    ensures { IfOk result (λ outcome. (trace : List ℕ → Trace) → IsReached stack.now trace part.old → TakesLeaf trace claimed part.old.members outcome) }
{
    match part.common_trace(alloc, stack)? {
        CommonTrace::Mixed(parting) => Ok(Some(Failure {
            rule: Rule::MixedTrace,
            shown: Shown::Two(parting.pair.yes, parting.pair.no),
        })),
        CommonTrace::One(end) if is_same(end, claimed) => Ok(None),
        CommonTrace::One(end) => Ok(Some(Failure {
            rule: rule_of(end),
            shown: Shown::One(part.members.corner(), end),
        })),
    }
}

/// The rule that fails where all members end here, and the leaf says another end.
fn rule_of(end: End) -> Rule
    ensures { result ≡ rule_of_end end }
{
    match end {
        End::Absent { .. } | End::TooLong { .. } => Rule::NoValue,
        End::Value { .. } | End::Bag { .. } => Rule::OtherValue,
    }
}

fn is_same(a: End, b: End) -> bool
    ensures { MatchBool result (a ≡ b) (a ≢ b) }
{
    a == b
}
