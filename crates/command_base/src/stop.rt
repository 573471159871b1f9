//! Why a command stops, and what is said then.

ghost use Rattle.std.specs.Prelude.{◌≡◌, ◌++◌, ◌∷◌, [], codes, Ok, Err, MatchResult};
ghost use Rattle.contract_words.specs.Writes.{Writes};
ghost use Rattle.command_base.specs.declared.fault.ToolFault.TheVariants.{OutOfMemory};
ghost use Rattle.command_base.specs.declared.stop.Stop.TheVariants.{Tool};
ghost use Rattle.command_base.specs.OneLine.{in_one_line};

use crate::exit_status::ExitStatus;
use crate::fault::{ToolFault, fault_text};
use crate::layers_fault::LayersFault;
use crate::one_line::write_in_one_line;
use crate::side::Side;
use crate::status::Status;
use cert_tree::Coord;
use names::NameFault;
use std::alloc::{AllocError, AllocFailed};
use std::io::{self, Write};

/// Why a command stops without an answer.
#[derive(Drop)]
pub enum Stop<'a> {
    /// A file of words is not UTF-8.
    NotText,
    /// The file of words at this path has none.
    NoWords(&'a str),
    /// This word of a file asks for no resource, or for no goal where goals are asked.
    WordOfFile(String),
    /// The file at this path was not read.
    File(&'a str),
    /// The file of a layer was not read, whose path a list of layers names.
    LayerFile(String),
    /// This word, a name or for `diff` an id, stands for no resource of the base layers.
    NoResource(String),
    /// A device is written as words, and this part of them is no qualifier, or of a kind that is there already.
    DevicePart(&'a [u8]),
    /// What a device has at this coordinate no word of `am get-config` says.
    NoWord(Coord),
    /// A name that stands for resources of two packages, and a name for either, as
    /// `string/cancel: android:string/cancel, org.example:string/cancel`.
    TwoResources(String),
    /// The command failed.
    Tool(ToolFault),
}

impl Stop<'_> {
    ghost use Rattle.command_base.specs.Stop.{stop_of, stop_on_side, stop_line, status_of_stop};

    /// The same stop where two stacks are compared: a fault of layers names the side.
    pub fn on_side(self, side: Side) -> Self
        ensures { stop_of result ≡ stop_on_side side (stop_of self.entry) }
    {
        match self {
            Stop::Tool(fault) => Stop::Tool(fault.on_side(side)),
            other => other,
        }
    }

    /// Writes the line that says why.
    pub fn write_line<E: Write + Drop>(&self, errors: &mut E) -> io::Result<()>
        ensures { Writes E.contents errors.old errors.new result (stop_line (stop_of self.now)) }
    {
        match self {
            Stop::NotText => errors.write_all(b"command: a word is not UTF-8\n"),
            Stop::NoWords(path) => write_line("command: no words in ", path, errors),
            Stop::WordOfFile(word) => write_line_of_input(
                "command: bad id ",
                word.as_bytes(),
                errors,
            ),
            Stop::File(path) => write_line("file: ", path, errors),
            Stop::LayerFile(path) => write_line_of_input("file: ", path.as_bytes(), errors),
            Stop::NoResource(name) => write_line_of_input("no resource ", name.as_bytes(), errors),
            Stop::DevicePart(part) => write_line_of_input(
                "refused: device: Qualifier ",
                part,
                errors,
            ),
            Stop::NoWord(coord) => write_line("no word ", coord.name(), errors),
            Stop::TwoResources(names) => write_line_of_input(
                "two resources ",
                names.as_bytes(),
                errors,
            ),
            Stop::Tool(fault) => fault_text(fault, errors),
        }
    }

    /// How the program ends.
    pub fn status(&self) -> ExitStatus
        ensures { result ≡ status_of_stop (stop_of self.now) }
    {
        match self {
            Stop::NotText | Stop::NoWords(_) | Stop::WordOfFile(_) => ExitStatus::BadCommandLine,
            Stop::File(_) | Stop::LayerFile(_) => ExitStatus::Failed,
            Stop::NoResource(_) | Stop::NoWord(_) | Stop::TwoResources(_) => ExitStatus::Negative,
            Stop::DevicePart(_) => ExitStatus::Refused,
            Stop::Tool(fault) => ExitStatus::after_fault(fault),
        }
    }
}

fn write_line<E: Write + Drop>(before: &str, text: &str, errors: &mut E) -> io::Result<()>
    ensures { Writes E.contents errors.old errors.new result (before.now ++ text.now ++ 10 ∷ []) }
{
    errors.write_all(before.as_bytes())?;
    errors.write_all(text.as_bytes())?;
    errors.write_all(b"\n")
}

// The same of a text that an input has: as strings are shown, where it could forge a line.
fn write_line_of_input<E: Write + Drop>(before: &str, text: &[u8], errors: &mut E) -> io::Result<()>
    ensures { Writes E.contents errors.old errors.new result (before.now ++ in_one_line text.now ++ 10 ∷ []) }
{
    errors.write_all(before.as_bytes())?;
    write_in_one_line(text, errors)?;
    errors.write_all(b"\n")
}

/// How a command ends, by what it did with all that was opened for it: its status, or its fault as why it stops.
pub fn status_or_stop(done: Result<Status, ToolFault>) -> Result<Status, Stop<'static>>
    ensures { MatchResult done (λ status. result ≡ Ok status) (λ fault. result ≡ Err (Tool fault)) }
{
    Ok(done?)
}

impl From<ToolFault> for Stop<'_> {
    ghost from_gives = { λ fault e. e ≡ Tool fault };

    fn from(fault: ToolFault) -> Self {
        Stop::Tool(fault)
    }
}

impl From<NameFault> for Stop<'_> {
    ghost use Rattle.command_base.specs.Stop.{stop_of_name};

    ghost from_gives = { λ fault e. e ≡ stop_of_name fault };

    fn from(fault: NameFault) -> Self {
        match fault {
            NameFault::NoResource(name) => Stop::NoResource(name),
            NameFault::TwoResources(names) => Stop::TwoResources(names),
            NameFault::OutOfMemory => Stop::Tool(ToolFault::OutOfMemory),
        }
    }
}

impl From<LayersFault> for Stop<'_> {
    ghost use Rattle.command_base.specs.ToolFault.{fault_of_layers};

    ghost from_gives = { λ fault e. e ≡ Tool (fault_of_layers fault) };

    fn from(fault: LayersFault) -> Self {
        Stop::Tool(ToolFault::from(fault))
    }
}

impl<T: Drop> From<AllocFailed<T>> for Stop<'_> {
    ghost from_gives = { λ _ e. e ≡ Tool OutOfMemory };

    fn from(_error: AllocFailed<T>) -> Self {
        Stop::Tool(ToolFault::OutOfMemory)
    }
}

impl From<AllocError> for Stop<'_> {
    ghost from_gives = { λ _ e. e ≡ Tool OutOfMemory };

    fn from(_error: AllocError) -> Self {
        Stop::Tool(ToolFault::OutOfMemory)
    }
}
