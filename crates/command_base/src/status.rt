//! How a command ends.

ghost use Rattle.std.specs.Prelude.{◌≡◌};
ghost use Rattle.command_base.specs.Output.{negative_if};

/// How a command ended that was carried out.
#[derive(Clone, Copy, Debug, PartialEq, Eq)]
pub enum Status {
    Done,
    /// What each command means by it is said at `ExitStatus::Negative`.
    Negative,
}

impl Status {
    /// Negative where this holds, else Done.
    pub fn negative_if(negative: bool) -> Status
        ensures { result ≡ negative_if negative }
    {
        if negative {
            Status::Negative
        } else {
            Status::Done
        }
    }
}
