//! Which of two stacks that are compared.

ghost use Rattle.std.specs.Prelude.{◌≡◌, Some};
ghost use Rattle.command_base.specs.SideName.{side_name};

use std::fmt;

/// One of two stacks that are compared.
#[derive(Clone, Copy)]
pub enum Side {
    Old,
    New,
}

impl Side {
    /// Its name: `old` or `new`.
    #[tactic(auto, unfolding(crate::specs::SideName::side_name))]
    pub fn name(self) -> &'static str
        ensures { result.now ≡ side_name self }
    {
        match self {
            Side::Old => "old",
            Side::New => "new",
        }
    }
}

/// Shows the name.
impl fmt::Display for Side {
    ghost output = { λ side. Some (side_name side) };

    fn fmt<W: fmt::Write>(&self, f: &mut fmt::Formatter<W>) -> fmt::Result {
        f.write_str(self.name())
    }
}
