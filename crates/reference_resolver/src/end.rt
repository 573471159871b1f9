//! Where a chain of references ends.

use overlay_map::{ResId, Value};

/// Where a chain of references ends.
#[derive(Clone, Copy, PartialEq, Eq)]
pub enum End {
    /// A value that is no reference, and the place of its layer in the stack. If the value is a string,
    /// it is one of that layer's table.
    Value { layer: usize, value: Value },
    /// The id that selected a bag.
    Bag { id: ResId },
    /// The id that selected nothing.
    Absent { id: ResId },
    /// The id that a reference names that is one too many to be followed.
    TooLong { id: ResId },
}

impl End {
    ghost use Rattle.std.specs.Prelude.{◌≡◌};
    ghost use Rattle.reference_resolver.specs.Ends.{is_value};

    /// Whether it is a value or a bag.
    pub fn is_value(self) -> bool
        ensures { result ≡ is_value self }
    {
        match self {
            End::Value { .. } | End::Bag { .. } => true,
            End::Absent { .. } | End::TooLong { .. } => false,
        }
    }
}
