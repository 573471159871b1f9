//! The status of a command that prints an end.

ghost use Rattle.std.specs.Prelude.{◌≡◌};
ghost use Rattle.resource_tool.specs.EndStatus.{is_unresolved, status_of_end};

use command_base::{End, Status};

/// Whether nothing was found, or too many references.
pub(crate) fn is_unresolved(end: End) -> bool
    ensures { result ≡ is_unresolved end }
{
    !end.is_value()
}

/// Done at a value or a bag, else Negative.
pub(crate) fn status_of_end(end: End) -> Status
    ensures { result ≡ status_of_end end }
{
    if end.is_value() {
        Status::Done
    } else {
        Status::Negative
    }
}
