//! Why words ask for nothing, and what is said then.

ghost use Rattle.std.specs.Prelude.{◌≡◌, ◌++◌, ◌∷◌, [], true, false, IfSome, OnOk};
ghost use Rattle.std.specs.Io.KnownBytes.{Appends};
ghost use Rattle.std.specs.Option.{option_map};
ghost use Rattle.contract_words.specs.Writes.{Writes};
ghost use Rattle.clap.specs.Values.{kind_of};
ghost use Rattle.restool.specs.declared.words_fault.WordsFault.TheVariants.{OutOfMemory};
ghost use Rattle.restool.specs.WordsFault.{fault_of_argument, fault_of_kind, is_asked_for};

use crate::argument_fault::ArgumentFault;
use crate::ending::{Reported, where_terminal, write_hint};
use clap::error::ErrorKind;
use resource_tool::{ExitStatus, ToolFault, fault_text};
use std::alloc::{AllocError, AllocFailed};
use std::io::{self, Write};

/// Why words ask for nothing that can be done.
#[derive(Drop)]
pub enum WordsFault<'a> {
    /// They are no command line, or ask for help or the version. clap has the text.
    CommandLine(clap::Error),
    /// A word is not UTF-8.
    NotText,
    /// This word names no rule of locales.
    BadRule(&'a str),
    /// This word asks for no resource, or for no goal where goals are asked.
    BadId(&'a str),
    OutOfMemory,
}

impl WordsFault<'_> {
    ghost use Rattle.restool.specs.Ending.{IsTold, hint_line};
    ghost use Rattle.restool.specs.WordsFault.{is_output, words_line, status_after_words};

    /// Says why, on the stream where that belongs, and on a terminal maybe what a person may try, and gives the exit status.
    pub fn report<O: Write + Drop, E: Write + Drop>(
        &self,
        hint: Option<&[u8]>,
        is_terminal: bool,
        out: &mut O,
        errors: &mut E,
    ) -> Reported
        ensures status { result.status ≡ status_after_words result.was_written self.now }
        ensures line { result.was_written ≡ true → IfSome (words_line self.now)
            (IsTold E.contents is_terminal errors.old errors.new) }
        ensures output { is_output self.now ≡ false → out.new ≡ out.old }
        ensures errors { is_output self.now ≡ true → errors.new ≡ errors.old }
    {
        let hint = where_terminal(is_terminal, hint);
        let was_written = self.write(hint, out, errors).is_ok();
        Reported {
            status: self.status(was_written),
            was_written,
        }
    }

    fn write<O: Write + Drop, E: Write + Drop>(
        &self,
        hint: Option<&[u8]>,
        out: &mut O,
        errors: &mut E,
    ) -> io::Result<()>
        ensures line { OnOk result (IfSome (words_line self.now) (λ line. Appends (E.contents errors.old) (E.contents errors.new)
            (line ++ hint_line (option_map (λ hint. hint.now) hint.entry)))) }
        ensures output { is_output self.now ≡ false → out.new ≡ out.old }
        ensures errors { is_output self.now ≡ true → errors.new ≡ errors.old }
    {
        match self {
            WordsFault::CommandLine(error) if is_asked_for(error) => write!(out, "{error}"),
            WordsFault::CommandLine(error) => write!(errors, "{error}"),
            fault => {
                fault.write_line(errors)?;
                write_hint(hint, errors)
            }
        }
    }

    // Writes the line that says why. Of a command line clap has the text.
    fn write_line<E: Write + Drop>(&self, errors: &mut E) -> io::Result<()>
        ensures { IfSome (words_line self.now) (Writes E.contents errors.old errors.new result) }
    {
        match self {
            WordsFault::CommandLine(_) => Ok(()),
            WordsFault::NotText => errors.write_all(b"command: a word is not UTF-8\n"),
            WordsFault::BadRule(word) => write_line("command: bad rule of locales ", word, errors),
            WordsFault::BadId(word) => write_line("command: bad id ", word, errors),
            WordsFault::OutOfMemory => fault_text(&ToolFault::OutOfMemory, errors),
        }
    }

    // How the program ends, where the text was written or was not.
    fn status(&self, was_written: bool) -> ExitStatus
        ensures { result ≡ status_after_words was_written self.now }
    {
        match self {
            WordsFault::CommandLine(error) if is_asked_for(error) => {
                if was_written {
                    ExitStatus::Done
                } else {
                    ExitStatus::Failed
                }
            }
            WordsFault::CommandLine(_)
            | WordsFault::NotText
            | WordsFault::BadRule(_)
            | WordsFault::BadId(_) => ExitStatus::BadCommandLine,
            WordsFault::OutOfMemory => ExitStatus::Memory,
        }
    }
}

// Whether the words ask for help or for the version.
fn is_asked_for(error: &clap::Error) -> bool
    ensures { result ≡ is_asked_for (kind_of error.now) }
{
    matches!(
        error.kind(),
        ErrorKind::DisplayHelp | ErrorKind::DisplayVersion
    )
}

fn write_line<E: Write + Drop>(before: &str, text: &str, errors: &mut E) -> io::Result<()>
    ensures { Writes E.contents errors.old errors.new result (before.now ++ text.now ++ 10 ∷ []) }
{
    errors.write_all(before.as_bytes())?;
    errors.write_all(text.as_bytes())?;
    errors.write_all(b"\n")
}

impl<T: Drop> From<AllocFailed<T>> for WordsFault<'_> {
    ghost from_gives = { λ _ e. e ≡ OutOfMemory };

    fn from(_error: AllocFailed<T>) -> Self {
        WordsFault::OutOfMemory
    }
}

impl From<AllocError> for WordsFault<'_> {
    ghost from_gives = { λ _ e. e ≡ OutOfMemory };

    fn from(_error: AllocError) -> Self {
        WordsFault::OutOfMemory
    }
}

impl<'a> From<ArgumentFault<'a>> for WordsFault<'a> {
    ghost from_gives = { λ fault e. e ≡ fault_of_argument fault };

    fn from(fault: ArgumentFault<'a>) -> Self {
        match fault {
            ArgumentFault::BadRule(word) => WordsFault::BadRule(word),
            ArgumentFault::BadId(word) => WordsFault::BadId(word),
            ArgumentFault::OutOfMemory => WordsFault::OutOfMemory,
        }
    }
}

impl From<clap::Error> for WordsFault<'_> {
    ghost from_gives = { λ error e. e ≡ fault_of_kind (kind_of error) error };

    fn from(error: clap::Error) -> Self {
        match error.kind() {
            ErrorKind::OutOfMemory => WordsFault::OutOfMemory,
            _ => WordsFault::CommandLine(error),
        }
    }
}
