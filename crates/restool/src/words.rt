//! The words of the command line.

ghost use Rattle.std.specs.Prelude.{◌≡◌, ◌≢◌, true, map, is_some, IfOk, IfErr, IfSome, string_bytes};
ghost use Rattle.std.specs.IoError.{error_kind};
ghost use Rattle.clap.specs.Words.{FailsBy, fault_of, has_subcommand, subcommand_of, subcommand_rows_of};
ghost use Rattle.restool.specs.Request.{AsksFor, ReadsCommandLine, command_line, command_of};
ghost use Rattle.restool.specs.WordsFault.{IsOfReading};

use crate::command_line::command_line;
use crate::request::{Command, Request, request_of};
use crate::words_fault::WordsFault;
use clap::ArgMatches;
use resource_tool::{Rows, STANDARD_INPUT};
use std::alloc::Global;
use std::env;
use std::io::{self, ErrorKind};
use std::rt::Env;

/// The words that the program was started with. The first is its name.
pub fn program_words<R: Env + AllocGlobal>(rt: &R) -> Result<Vec<String>, WordsFault<'static>>
    ensures { IfErr result IsOfReading }
{
    match env::args(rt) {
        Ok(words) => Ok(words.collect(rt.alloc())?),
        Err(error) => Err(fault_of_reading(&error)),
    }
}

// Words that are not read are not UTF-8, unless memory ran out.
fn fault_of_reading(error: &io::Error) -> WordsFault<'static>
    ensures memory { error_kind error.now ≡ ErrorKind.OutOfMemory → result ≡ WordsFault.OutOfMemory }
    ensures other { error_kind error.now ≢ ErrorKind.OutOfMemory → result ≡ WordsFault.NotText }
{
    if error.kind() == ErrorKind::OutOfMemory {
        WordsFault::OutOfMemory
    } else {
        WordsFault::NotText
    }
}

/// What the words ask for; the first word is the program's name.
pub fn read_words<'a>(alloc: Global, words: &'a [String]) -> Result<Request<'a>, WordsFault<'a>>
    ensures { AsksFor (map string_bytes words.entry.now) result }
{
    if words.len() <= 1 {
        return Ok(Request::Rows(Rows {
            table: STANDARD_INPUT,
            android: false,
        }));
    }
    read_command(alloc, words)
}

fn read_command<'a>(alloc: Global, words: &'a [String]) -> Result<Request<'a>, WordsFault<'a>>
    ensures { ReadsCommandLine (map string_bytes words.entry.now) result }
{
    let matches = matches_of(alloc, words)?;
    match matches.subcommand() {
        Some((name, given)) => Ok(request_of(alloc, Command::of_name(name), given)?),
        None => unreachable!(),
    }
}

// What the command line makes of words. It has to have a command.
fn matches_of<'a>(alloc: Global, words: &'a [String]) -> Result<ArgMatches<'a>, clap::Error>
    ensures kinds { FailsBy (fault_of command_line (map string_bytes words.entry.now)) result }
    ensures command { IfOk result (λ matches. subcommand_rows_of matches ≡ subcommand_of command_line (map string_bytes words.entry.now)) }
    ensures required { IfOk result (λ matches. has_subcommand matches ≡ true) }
    ensures named { IfOk result (λ matches. IfSome (subcommand_rows_of matches) (λ found. is_some (command_of found.0) ≡ true)) }
{
    let program = command_line(alloc)?;
    program.try_get_matches_from(words)
}
