//! Where bytes are read from.

ghost use Rattle.std.specs.Prelude.{◌≡◌};

/// The path that means the standard input where a table is read.
pub const STANDARD_INPUT: &str = "-";

/// Where the bytes of an input are read from.
#[derive(Clone, Copy)]
pub enum Place<'a> {
    StandardInput,
    /// The file at a path.
    File(&'a str),
}

impl<'a> Place<'a> {
    ghost use Rattle.command_base.specs.Place.{place_of};
    ghost use Rattle.command_base.specs.Inputs.{table_place};

    /// Where the table at a path is read from: `-` is the standard input.
    pub fn of_table(path: &'a str) -> Place<'a>
        ensures { place_of result ≡ table_place path.entry.now }
    {
        if path == STANDARD_INPUT {
            Place::StandardInput
        } else {
            Place::File(path)
        }
    }
}
