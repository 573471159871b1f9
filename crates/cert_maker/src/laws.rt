//! The laws of the least tree: calls that do nothing, each for its contract.
//!
//! Runs are counted along the one coordinate of a box that has several values: of a range the stretches of one
//! trace, of a choice the different traces. A tree whose tests are all needed has at most `2 * runs - 1` nodes, and
//! one that is accepted at least as many. (Where several coordinates have several values, a tree of needed tests may
//! have more nodes than another one.)

ghost use Rattle.cert_checker.specs.reference_resolver.SameTrace.{IsTrueOfEqualTraces};
ghost use Rattle.cert_maker.specs.LeastTree.{HasMember, NeededIsSmall, AcceptedIsLarge, NeededIsLeast};

/// Traces are compared part by part, and that says which are equal.
pub fn trace_equality()
    ensures { IsTrueOfEqualTraces }
{}

/// Where at most one coordinate of a box has several values, a tree whose tests are needed has the fewest nodes
/// that an accepted one has.
pub fn least_tree()
    ensures member { HasMember }
    ensures needed { NeededIsSmall }
    ensures accepted { AcceptedIsLarge }
    ensures least { NeededIsLeast }
{}
