//! Laws of contents: calls that do nothing, each for its contract.

ghost use Rattle.stack_diff.specs.DifferenceLaw.{DifferenceTells};
ghost use Rattle.stack_diff.specs.TraceLaw.{TraceTellsContent};

/// Devices at which the look-ups of an id have one trace load the same content.
pub fn trace_tells_content()
    ensures { TraceTellsContent }
{}

/// There is no difference exactly where both contents say the same.
pub fn difference_tells()
    ensures { DifferenceTells }
{}
