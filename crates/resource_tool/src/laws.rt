//! Laws of what is told: calls that do nothing, each for its contract.

ghost use Rattle.resource_tool.specs.WarningsLaw.{WarningsTell};
ghost use Rattle.resource_tool.specs.WholeTree.{WholeTreesAreShown};

/// An answer can differ by what is in a layer exactly where a line of the layer is a warning.
pub fn warnings_tell()
    ensures { WarningsTell }
{}

/// A list of nodes that is a whole tree is shown as that tree: behind a test, the tree behind its answer yes one step
/// further in, and then the tree behind its answer no.
pub fn whole_trees_are_shown()
    ensures { WholeTreesAreShown }
{}
