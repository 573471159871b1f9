//! The command line that is understood: its arguments with their helps, and how clap gets it.

ghost use Rattle.std.specs.Prelude.{◌≡◌, false};
ghost use Rattle.clap.specs.Words.{app_of, rule_of};
ghost use Rattle.clap.specs.Simple.{with_subcommand};
ghost use Rattle.restool.specs.Request.{command_line, program_alone};
ghost use Rattle.restool.specs.ArgumentsSeen.{Builds, IsBuilt, IsLocal, rule_seen, command_seen, with_arguments, with_commands};

use crate::request::USAGES;
use clap::{Arg, ArgAction, Command, value_parser};
use std::alloc::{AllocError, Global};

/// What `--version` prints after the program's name.
const VERSION: &str = "0.1.0";

const ABOUT: &str = "Reads Android's compiled resource tables (resources.arsc)";

const AFTER_HELP: &str = "\
With no arguments, restool prints the rows of the table on standard input.

Exit status:
  0  done
  1  something you asked for does not exist, or has too many references or parents,
     or a certificate is rejected or cannot be made, or an id map leaves out ids or
     references of its overlay, or a survey finds what a device may read otherwise,
     or a change alters something, or rows are unused
  2  bad command line, or an argument that is neither a resource id nor a name,
     or a file of words that has none
  3  an input was refused
  4  out of memory
  5  a file could not be read, the output could not be written, or an input is
     larger than 268,435,456 bytes";

/// How a command is written: its name, and the arguments after it.
pub(crate) struct Usage {
    pub(crate) name: &'static str,
    pub(crate) about: &'static str,
    pub(crate) arguments: &'static [Argument],
}

/// An argument of a command.
#[derive(Clone, Copy)]
pub(crate) struct Argument {
    pub(crate) name: &'static str,
    takes: Takes,
    help: &'static str,
}

/// What an argument takes.
#[derive(Clone, Copy)]
enum Takes {
    /// One word; where it is not required, maybe none.
    Word { is_required: bool },
    /// One word or more; where they are not required, maybe none.
    Words { is_required: bool },
    /// Nothing: it is a flag.
    Nothing,
    /// One word, after the argument's name.
    OptionWord,
    /// A number of nodes, after the argument's name.
    Nodes,
    /// The number of a goal, after the argument's name.
    GoalNumber,
}

/// How many nodes may be asked for at most.
pub(crate) const MOST_NODES: u32 = 1_000_000;

/// How many nodes trees may have where the words name no number. The help says it too.
pub(crate) const NODES_IF_LEFT_OUT: u32 = 100_000;

pub(crate) const TABLE: Argument = Argument {
    name: "TABLE",
    takes: Takes::Word { is_required: true },
    help: "Path of the apk or of its resources.arsc, or - for standard input",
};

pub(crate) const TARGET: Argument = Argument {
    name: "TARGET",
    takes: Takes::Word { is_required: true },
    help: "Path of the apk, or resources.arsc, that is overlaid, or - for standard input",
};

pub(crate) const OVERLAY: Argument = Argument {
    name: "OVERLAY",
    takes: Takes::Word { is_required: true },
    help: "Path of the overlay's apk, or resources.arsc, or - for standard input",
};

pub(crate) const LAYERS: Argument = Argument {
    name: "LAYERS",
    takes: Takes::Word { is_required: true },
    help: "Paths of apks or tables, with `,` before each but the first and `+` before an overlay; \
           or the path of a JSON list of layers",
};

pub(crate) const OLD: Argument = Argument {
    name: "OLD",
    takes: Takes::Word { is_required: true },
    help: "The layers before the change, as for other commands",
};

pub(crate) const NEW: Argument = Argument {
    name: "NEW",
    takes: Takes::Word { is_required: true },
    help: "The layers after the change",
};

pub(crate) const DEVICE: Argument = Argument {
    name: "DEVICE",
    takes: Takes::Word { is_required: true },
    help: "What `adb shell am get-config` prints, which begins with `config:`; \
           or the path of the JSON object with the device's qualifiers",
};

pub(crate) const CONFIG: Argument = Argument {
    name: "config",
    takes: Takes::Nothing,
    help: "Print the device as `am get-config` does",
};

pub(crate) const BOX: Argument = Argument {
    name: "BOX",
    takes: Takes::Word { is_required: true },
    help: "Path of the JSON object with the devices' qualifiers, each a list or a range; \
           `restool survey LAYERS BOX` tells which it lacks",
};

pub(crate) const MAYBE_BOX: Argument = Argument {
    name: "BOX",
    takes: Takes::Word { is_required: false },
    help: "Path of the JSON object with the devices' qualifiers, to see which it lacks",
};

pub(crate) const CERTIFICATE: Argument = Argument {
    name: "CERT",
    takes: Takes::Word { is_required: true },
    help: "Path of the JSON certificate",
};

pub(crate) const ID: Argument = Argument {
    name: "ID",
    takes: Takes::Word { is_required: true },
    help: "Resource, by its id or its name, such as 0x7f010000, dimen/margin or android:dimen/margin",
};

pub(crate) const IDS: Argument = Argument {
    name: "ID",
    takes: Takes::Words { is_required: true },
    help: "Resource, by its id or its name, such as 0x7f010000, dimen/margin or android:dimen/margin; dimen/* for all \
           of a type, * for all, @FILE for those in a file, one a line",
};

pub(crate) const MAYBE_NAMES: Argument = Argument {
    name: "NAME",
    takes: Takes::Words { is_required: false },
    help: "Resource, by its id or its name, such as 0x7f010000, dimen/margin or android:dimen/margin; dimen/* for \
           all of a type, * for all, @FILE for those in a file, one a line; without one, all",
};

pub(crate) const GOALS: Argument = Argument {
    name: "GOAL",
    takes: Takes::Words { is_required: true },
    help: "Resource, by its id or its name, such as 0x7f010000, dimen/margin or android:dimen/margin; an attribute under \
           styles, such as attr/color@style/Theme,style/Dark; dimen/* for all of a type, * for all, \
           @FILE for those in a file, one a line",
};

pub(crate) const BAG_ID: Argument = Argument {
    name: "ID",
    takes: Takes::Word { is_required: true },
    help: "Bag, by its id or its name, such as 0x7f010000 or style/Theme",
};

pub(crate) const ATTRIBUTE: Argument = Argument {
    name: "ATTR",
    takes: Takes::Word { is_required: true },
    help: "Attribute, by its id or its name, such as 0x01010000 or attr/color",
};

pub(crate) const STYLES: Argument = Argument {
    name: "STYLE",
    takes: Takes::Words { is_required: true },
    help: "Style, by its id or its name, such as 0x7f010000 or style/Theme; @FILE for those in a \
           file, one a line",
};

pub(crate) const KEEP: Argument = Argument {
    name: "keep",
    takes: Takes::Nothing,
    help: "Keep what an earlier style has set, as applyStyle(style, false) does",
};

pub(crate) const LOCALES: Argument = Argument {
    name: "locales",
    takes: Takes::OptionWord,
    help: "With android compare locales as a phone does; without it by language and region alone",
};

pub(crate) const NAMES: Argument = Argument {
    name: "names",
    takes: Takes::Nothing,
    help: "Print the name beside each id",
};

pub(crate) const NOTATION: Argument = Argument {
    name: "android",
    takes: Takes::Nothing,
    help: "Print names, configurations and values as Android's sources write them, such as dimen/margin sw600dp-land 34.5sp",
};

pub(crate) const ALL: Argument = Argument {
    name: "all",
    takes: Takes::Nothing,
    help: "With --android print the rows that do not match too",
};

/// The same of goals.
pub(crate) const ALL_GOALS: Argument = Argument {
    name: "all",
    takes: Takes::Nothing,
    help: "Go on behind the first goal that is rejected: print the rejections of all, and how many of how many these are",
};

/// The same of goals. It has the same name, so that it is read as `NAMES` is.
pub(crate) const GOAL_NAMES: Argument = Argument {
    name: "names",
    takes: Takes::Nothing,
    help: "If a goal is rejected or has no value, print on standard error which, with its names",
};

pub(crate) const OMIT: Argument = Argument {
    name: "omit",
    takes: Takes::Nothing,
    help: "Leave out goals that have no value on some device, and print them on standard error",
};

pub(crate) const MAX_NODES: Argument = Argument {
    name: "max-nodes",
    takes: Takes::Nodes,
    help: "Node limit of all trees together, 1 to 1000000 [default: 100000]",
};

/// The same where no certificate is made. It has the same name, so that it is read as `MAX_NODES` is.
pub(crate) const PARTING_NODES: Argument = Argument {
    name: "max-nodes",
    takes: Takes::Nodes,
    help: "Node limit of the trees that part the devices, all together, 1 to 1000000 \
           [default: 100000]",
};

pub(crate) const RAW: Argument = Argument {
    name: "raw",
    takes: Takes::Nothing,
    help: "Print each number as a table has it, for other programs, such as dimension 16/2^0 dp",
};

pub(crate) const JSON: Argument = Argument {
    name: "json",
    takes: Takes::Nothing,
    help: "Print each line as a JSON object, for other programs",
};

pub(crate) const DOT: Argument = Argument {
    name: "dot",
    takes: Takes::GoalNumber,
    help: "Print the tree of this goal, counted from 0, in the language DOT of Graphviz",
};

/// The command line, for a parse.
pub(crate) fn command_line<'a>(alloc: Global) -> Result<Command<'a>, AllocError>
    ensures { Builds command_line result }
{
    with_commands(alloc, program_alone(alloc), USAGES)
}

// The program, without its commands.
#[tactic(auto, unfolding(crate::specs::Request::program_alone))]
fn program_alone<'a>(alloc: Global) -> Command<'a>
    ensures { IsBuilt program_alone result }
{
    Command::new(alloc, "restool")
        .about(ABOUT)
        .version(VERSION)
        .after_help(AFTER_HELP)
        .subcommand_required(true)
}

fn with_commands<'a>(
    alloc: Global,
    program: Command<'a>,
    usages: &[Usage],
) -> Result<Command<'a>, AllocError>
    requires { IsLocal program }
    ensures { Builds (with_commands (app_of program.entry) usages.now) result }
{
    let mut program = program;
    for usage in usages {
        program = with_command(alloc, program, usage)?;
    }
    Ok(program)
}

fn with_command<'a>(
    alloc: Global,
    program: Command<'a>,
    usage: &Usage,
) -> Result<Command<'a>, AllocError>
    requires { IsLocal program }
    ensures { Builds (with_subcommand (app_of program.entry) (command_seen usage.now)) result }
{
    let command = Command::new(alloc, usage.name).about(usage.about);
    program.subcommand(with_arguments(alloc, command, usage.arguments)?)
}

fn with_arguments<'a>(
    alloc: Global,
    command: Command<'a>,
    arguments: &[Argument],
) -> Result<Command<'a>, AllocError>
    requires { IsLocal command }
    ensures { Builds (with_arguments (app_of command.entry) arguments.now) result }
{
    let mut command = command;
    for argument in arguments {
        command = command.arg(built_argument(alloc, argument))?;
    }
    Ok(command)
}

fn built_argument<'a>(alloc: Global, argument: &Argument) -> Arg<'a>
    ensures { (rule_of result ≡ rule_seen argument.now) × (result.global ≡ false) }
{
    let arg = Arg::new(alloc, argument.name).help(argument.help);
    match argument.takes {
        Takes::Word { is_required } => arg.required(is_required).action(ArgAction::Set),
        Takes::Words { is_required } => {
            arg.required(is_required)
                .num_args(1..)
                .action(ArgAction::Append)
        }
        Takes::Nothing => arg.long(argument.name).action(ArgAction::SetTrue),
        Takes::OptionWord => arg.long(argument.name).value_name("RULE"),
        Takes::Nodes => {
            let number = value_parser!(u32).range(1..=i64::from(MOST_NODES));
            arg.long(argument.name).value_name("N").value_parser(number)
        }
        Takes::GoalNumber => {
            let number = value_parser!(u32).range(0..=i64::from(u32::MAX));
            arg.long(argument.name)
                .value_name("GOAL")
                .value_parser(number)
        }
    }
}
