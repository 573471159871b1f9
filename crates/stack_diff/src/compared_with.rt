//! With what a stack is compared.

/// With what a stack is compared.
#[derive(Clone, Copy)]
pub(crate) enum ComparedWith {
    /// With another stack, the one before.
    Other,
    /// With itself, so that a resource may be compared with itself.
    Itself,
    /// With nothing, so that all is told that it says.
    Nothing,
}

impl ComparedWith {
    ghost use Rattle.std.specs.Prelude.{◌≡◌};
    ghost use Rattle.stack_diff.specs.ComparedWith.{with_itself, with_nothing};

    pub(crate) fn is_itself(self) -> bool
        ensures { result ≡ with_itself self }
    {
        matches!(self, ComparedWith::Itself)
    }

    pub(crate) fn is_nothing(self) -> bool
        ensures { result ≡ with_nothing self }
    {
        matches!(self, ComparedWith::Nothing)
    }
}
