//! The requests that the program knows, from their words to the answer: what each is called, what it takes, what its words
//! ask for, and which command answers it.

ghost use Rattle.std.specs.Prelude.{◌≡◌, IfSome};
ghost use Rattle.clap.specs.Words.{rows_of, found_of};
ghost use Rattle.resource_tool.specs.command_base.declared.fault.ToolFault.TheVariants.{Write};
ghost use Rattle.restool.specs.Left.{words_seen};
ghost use Rattle.restool.specs.Request.{Answers, IsShowOf, ReadsCommand, ErrorsGet, layer_words};
ghost use Rattle.resource_tool.specs.command_base.CarriesOut.{IsKept};

use crate::argument_fault::ArgumentFault;
use crate::arguments::{
    NamedByRule, WordsByRule, asked_by_rule, given_answer_form, given_asked, given_flag,
    given_form, given_goal_number, given_line_form, given_maybe_word, given_nodes, given_rule,
    given_word, named_by_rule,
};
use crate::asked_words::Asks;
use crate::command_line::{
    ALL, ALL_GOALS, ATTRIBUTE, BAG_ID, BOX, CERTIFICATE, CONFIG, DEVICE, DOT, GOAL_NAMES, GOALS,
    ID, IDS, JSON, KEEP, LAYERS, LOCALES, MAX_NODES, MAYBE_BOX, MAYBE_NAMES, NAMES, NEW, NOTATION,
    OLD, OMIT, OVERLAY, PARTING_NODES, RAW, STYLES, TABLE, TARGET, Usage,
};
use crate::left::LayerWords;
use clap::ArgMatches;
use resource_tool::{
    Attr, Bag, Check, DeviceForm, Diff, Dump, Explain, Ids, Inputs, Make, Map, Query, Rows, Show,
    Status, Stop, Survey, Unused, Values, Watch,
};
use std::alloc::Global;
use std::io::Write;
use std::time::Clock;

/// What words ask for: a command, with what its words ask. The words of resources and of goals are kept as they are: each
/// asks for some, or names a file of such words.
#[derive(Drop)]
pub enum Request<'a> {
    Rows(Rows<'a>),
    Dump(Dump<'a>),
    Map(Map<'a>),
    Ids(Ids<'a>),
    Survey(Survey<'a>),
    Show(Show<'a>),
    Query(Query<'a>),
    Explain(Explain<'a>),
    Bag(Bag<'a>),
    Attr(Attr<'a>),
    Make(Make<'a>),
    Check(Check<'a>),
    Diff(Diff<'a>),
    Values(Values<'a>),
    Unused(Unused<'a>),
    Device(DeviceForm<'a>),
}

const ROWS: &str = "rows";

const DUMP: &str = "dump";

const MAP: &str = "map";

const IDS_OF_LAYERS: &str = "ids";

const SURVEY: &str = "survey";

const SHOW: &str = "show";

const QUERY: &str = "query";

const EXPLAIN: &str = "explain";

const BAG: &str = "bag";

const ATTR: &str = "attr";

const MAKE: &str = "make";

const CHECK: &str = "check";

const DIFF: &str = "diff";

const VALUES: &str = "values";

const UNUSED: &str = "unused";

const DEVICE_FORM: &str = "device";

/// What each command is called, what its help says, and the arguments behind its name.
pub(crate) const USAGES: &[Usage] = &[
    Usage {
        name: ROWS,
        about: "Prints the rows of a table, in the order of the file",
        arguments: &[NOTATION, TABLE],
    },
    Usage {
        name: DUMP,
        about: "Prints the packages of a table, and its rows with their names and strings",
        arguments: &[NOTATION, TABLE],
    },
    Usage {
        name: MAP,
        about: "Prints an overlay's id map, made from names; what it leaves out goes to standard error, with status 1",
        arguments: &[JSON, TARGET, OVERLAY],
    },
    Usage {
        name: IDS_OF_LAYERS,
        about: "Prints the ids of the base layers with their names, a line each",
        arguments: &[LAYERS],
    },
    Usage {
        name: SURVEY,
        about: "Prints warnings about the tables, the qualifiers of their rows, and those that a box lacks",
        arguments: &[LOCALES, JSON, LAYERS, MAYBE_BOX],
    },
    Usage {
        name: SHOW,
        about: "Prints a certificate for people, or the tree of one goal as a picture",
        arguments: &[RAW, DOT, LAYERS, CERTIFICATE],
    },
    Usage {
        name: QUERY,
        about: "Prints the value that a device loads for each id",
        arguments: &[LOCALES, NAMES, NOTATION, JSON, LAYERS, DEVICE, IDS],
    },
    Usage {
        name: EXPLAIN,
        about: "Prints each candidate for an id, and the rule by which it won or lost",
        arguments: &[LOCALES, NAMES, NOTATION, ALL, JSON, LAYERS, DEVICE, ID],
    },
    Usage {
        name: BAG,
        about: "Prints the rows of a style, an array or plurals, with those that it inherits",
        arguments: &[LOCALES, NAMES, NOTATION, JSON, LAYERS, DEVICE, BAG_ID],
    },
    Usage {
        name: ATTR,
        about: "Prints an attribute's value in the theme that those styles build",
        arguments: &[
            LOCALES, KEEP, NAMES, NOTATION, JSON, LAYERS, DEVICE, ATTRIBUTE, STYLES,
        ],
    },
    Usage {
        name: MAKE,
        about: "Prints a certificate for every device of a box, a device without a value, or node limit",
        arguments: &[LOCALES, MAX_NODES, OMIT, GOAL_NAMES, LAYERS, BOX, GOALS],
    },
    Usage {
        name: CHECK,
        about: "Checks whether a certificate is true for every device of a box",
        arguments: &[
            LOCALES,
            GOAL_NAMES,
            NOTATION,
            JSON,
            ALL_GOALS,
            LAYERS,
            BOX,
            CERTIFICATE,
            GOALS,
        ],
    },
    Usage {
        name: DIFF,
        about: "Prints what a change of layers alters, for every device of a box",
        arguments: &[
            LOCALES,
            RAW,
            JSON,
            PARTING_NODES,
            OLD,
            NEW,
            BOX,
            MAYBE_NAMES,
        ],
    },
    Usage {
        name: VALUES,
        about: "Prints what each resource says, on which devices of a box",
        arguments: &[LOCALES, RAW, JSON, PARTING_NODES, LAYERS, BOX, MAYBE_NAMES],
    },
    Usage {
        name: UNUSED,
        about: "Prints the rows of tables that no device of a box loads",
        arguments: &[LOCALES, JSON, PARTING_NODES, LAYERS, BOX, MAYBE_NAMES],
    },
    Usage {
        name: DEVICE_FORM,
        about: "Prints a device as JSON, or as Android writes it",
        arguments: &[LOCALES, CONFIG, DEVICE],
    },
];

/// What a name on the command line stands for.
#[derive(Clone, Copy)]
pub(crate) enum Command {
    Rows,
    Dump,
    Map,
    Ids,
    Survey,
    Show,
    Query,
    Explain,
    Bag,
    Attr,
    Make,
    Check,
    Diff,
    Values,
    Unused,
    Device,
}

impl Command {
    ghost use Rattle.std.specs.Prelude.{◌≡◌, true, Some, is_some};
    ghost use Rattle.restool.specs.Request.{command_of};

    /// The command of a name that the command line has.
    pub(crate) fn of_name(name: &str) -> Command
        requires { is_some (command_of name.now) ≡ true }
        ensures { Some result ≡ command_of name.now }
    {
        match name {
            ROWS => Command::Rows,
            DUMP => Command::Dump,
            MAP => Command::Map,
            IDS_OF_LAYERS => Command::Ids,
            SURVEY => Command::Survey,
            SHOW => Command::Show,
            QUERY => Command::Query,
            EXPLAIN => Command::Explain,
            BAG => Command::Bag,
            ATTR => Command::Attr,
            MAKE => Command::Make,
            CHECK => Command::Check,
            DIFF => Command::Diff,
            VALUES => Command::Values,
            UNUSED => Command::Unused,
            DEVICE_FORM => Command::Device,
            _ => unreachable!(),
        }
    }
}

// What a command asks for that has these arguments.
pub(crate) fn request_of<'a>(
    alloc: Global,
    command: Command,
    given: &ArgMatches<'a>,
) -> Result<Request<'a>, ArgumentFault<'a>>
    ensures { ReadsCommand command (rows_of (found_of given.now)) result }
{
    match command {
        Command::Rows => Ok(Request::Rows(Rows {
            table: given_word(given, &TABLE),
            android: given_flag(given, &NOTATION),
        })),
        Command::Dump => Ok(Request::Dump(Dump {
            table: given_word(given, &TABLE),
            android: given_flag(given, &NOTATION),
        })),
        Command::Map => Ok(Request::Map(Map {
            target: given_word(given, &TARGET),
            overlay: given_word(given, &OVERLAY),
            form: given_answer_form(given),
        })),
        Command::Ids => Ok(Request::Ids(Ids {
            layers: given_word(given, &LAYERS),
        })),
        Command::Survey => survey_of(given),
        Command::Show => Ok(show_of(given)),
        Command::Query => query_of(alloc, given),
        Command::Explain => explain_of(given),
        Command::Bag => bag_of(given),
        Command::Attr => attr_of(alloc, given),
        Command::Make => make_of(alloc, given),
        Command::Check => check_of(alloc, given),
        Command::Diff => diff_of(alloc, given),
        Command::Values => values_of(alloc, given),
        Command::Unused => unused_of(alloc, given),
        Command::Device => device_of(given),
    }
}

fn survey_of<'a>(given: &ArgMatches<'a>) -> Result<Request<'a>, ArgumentFault<'a>>
    ensures { ReadsCommand Command.Survey (rows_of (found_of given.now)) result }
{
    let locales = given_rule(given)?;
    Ok(Request::Survey(Survey {
        layers: given_word(given, &LAYERS),
        box_path: given_maybe_word(given, &MAYBE_BOX),
        locales,
        form: given_answer_form(given),
    }))
}

fn show_of<'a>(given: &ArgMatches<'a>) -> Request<'a>
    ensures { IsShowOf (rows_of (found_of given.now)) result }
{
    Request::Show(Show {
        layers: given_word(given, &LAYERS),
        certificate: given_word(given, &CERTIFICATE),
        form: given_form(given),
        pictured: given_goal_number(given),
    })
}

fn query_of<'a>(alloc: Global, given: &ArgMatches<'a>) -> Result<Request<'a>, ArgumentFault<'a>>
    ensures { ReadsCommand Command.Query (rows_of (found_of given.now)) result }
{
    let WordsByRule { locales, words } = asked_by_rule(alloc, given, &IDS, Asks::Resources)?;
    Ok(Request::Query(Query {
        layers: given_word(given, &LAYERS),
        device: given_word(given, &DEVICE),
        locales,
        names: given_flag(given, &NAMES),
        form: given_answer_form(given),
        words,
    }))
}

fn explain_of<'a>(given: &ArgMatches<'a>) -> Result<Request<'a>, ArgumentFault<'a>>
    ensures { ReadsCommand Command.Explain (rows_of (found_of given.now)) result }
{
    let NamedByRule { locales, resource } = named_by_rule(given, &ID)?;
    Ok(Request::Explain(Explain {
        layers: given_word(given, &LAYERS),
        device: given_word(given, &DEVICE),
        locales,
        names: given_flag(given, &NAMES),
        form: given_answer_form(given),
        all: given_flag(given, &ALL),
        resource,
    }))
}

fn bag_of<'a>(given: &ArgMatches<'a>) -> Result<Request<'a>, ArgumentFault<'a>>
    ensures { ReadsCommand Command.Bag (rows_of (found_of given.now)) result }
{
    let NamedByRule { locales, resource } = named_by_rule(given, &BAG_ID)?;
    Ok(Request::Bag(Bag {
        layers: given_word(given, &LAYERS),
        device: given_word(given, &DEVICE),
        locales,
        names: given_flag(given, &NAMES),
        form: given_answer_form(given),
        resource,
    }))
}

fn attr_of<'a>(alloc: Global, given: &ArgMatches<'a>) -> Result<Request<'a>, ArgumentFault<'a>>
    ensures { ReadsCommand Command.Attr (rows_of (found_of given.now)) result }
{
    let NamedByRule { locales, resource } = named_by_rule(given, &ATTRIBUTE)?;
    let styles = given_asked(alloc, given, &STYLES, Asks::Resources)?;
    Ok(Request::Attr(Attr {
        layers: given_word(given, &LAYERS),
        device: given_word(given, &DEVICE),
        locales,
        names: given_flag(given, &NAMES),
        form: given_answer_form(given),
        attr: resource,
        styles,
        force: !given_flag(given, &KEEP),
    }))
}

fn make_of<'a>(alloc: Global, given: &ArgMatches<'a>) -> Result<Request<'a>, ArgumentFault<'a>>
    ensures { ReadsCommand Command.Make (rows_of (found_of given.now)) result }
{
    let WordsByRule { locales, words } = asked_by_rule(alloc, given, &GOALS, Asks::Goals)?;
    Ok(Request::Make(Make {
        layers: given_word(given, &LAYERS),
        box_path: given_word(given, &BOX),
        locales,
        names: given_flag(given, &NAMES),
        max_nodes: given_nodes(given),
        omit: given_flag(given, &OMIT),
        goals: words,
    }))
}

fn check_of<'a>(alloc: Global, given: &ArgMatches<'a>) -> Result<Request<'a>, ArgumentFault<'a>>
    ensures { ReadsCommand Command.Check (rows_of (found_of given.now)) result }
{
    let WordsByRule { locales, words } = asked_by_rule(alloc, given, &GOALS, Asks::Goals)?;
    Ok(Request::Check(Check {
        layers: given_word(given, &LAYERS),
        box_path: given_word(given, &BOX),
        certificate: given_word(given, &CERTIFICATE),
        locales,
        names: given_flag(given, &NAMES),
        form: given_answer_form(given),
        all: given_flag(given, &ALL_GOALS),
        goals: words,
    }))
}

fn diff_of<'a>(alloc: Global, given: &ArgMatches<'a>) -> Result<Request<'a>, ArgumentFault<'a>>
    ensures { ReadsCommand Command.Diff (rows_of (found_of given.now)) result }
{
    let WordsByRule { locales, words } = asked_by_rule(
        alloc,
        given,
        &MAYBE_NAMES,
        Asks::Resources,
    )?;
    Ok(Request::Diff(Diff {
        old: given_word(given, &OLD),
        new: given_word(given, &NEW),
        box_path: given_word(given, &BOX),
        locales,
        form: given_line_form(given),
        max_nodes: given_nodes(given),
        words,
    }))
}

fn values_of<'a>(alloc: Global, given: &ArgMatches<'a>) -> Result<Request<'a>, ArgumentFault<'a>>
    ensures { ReadsCommand Command.Values (rows_of (found_of given.now)) result }
{
    let WordsByRule { locales, words } = asked_by_rule(
        alloc,
        given,
        &MAYBE_NAMES,
        Asks::Resources,
    )?;
    Ok(Request::Values(Values {
        layers: given_word(given, &LAYERS),
        box_path: given_word(given, &BOX),
        locales,
        form: given_line_form(given),
        max_nodes: given_nodes(given),
        words,
    }))
}

fn unused_of<'a>(alloc: Global, given: &ArgMatches<'a>) -> Result<Request<'a>, ArgumentFault<'a>>
    ensures { ReadsCommand Command.Unused (rows_of (found_of given.now)) result }
{
    let WordsByRule { locales, words } = asked_by_rule(
        alloc,
        given,
        &MAYBE_NAMES,
        Asks::Resources,
    )?;
    Ok(Request::Unused(Unused {
        layers: given_word(given, &LAYERS),
        box_path: given_word(given, &BOX),
        locales,
        form: given_line_form(given),
        max_nodes: given_nodes(given),
        words,
    }))
}

fn device_of<'a>(given: &ArgMatches<'a>) -> Result<Request<'a>, ArgumentFault<'a>>
    ensures { ReadsCommand Command.Device (rows_of (found_of given.now)) result }
{
    let locales = given_rule(given)?;
    Ok(Request::Device(DeviceForm {
        device: given_word(given, &DEVICE),
        locales,
        config: given_flag(given, &CONFIG),
    }))
}

/// The words of a request that give layers.
pub(crate) fn layer_words<'a>(request: &Request<'a>) -> LayerWords<'a>
    ensures { words_seen result ≡ layer_words request.now }
{
    match request {
        Request::Ids(ids) => LayerWords::One(ids.layers),
        Request::Survey(survey) => LayerWords::One(survey.layers),
        Request::Show(show) => LayerWords::One(show.layers),
        Request::Query(query) => LayerWords::One(query.layers),
        Request::Explain(explain) => LayerWords::One(explain.layers),
        Request::Bag(bag) => LayerWords::One(bag.layers),
        Request::Attr(attr) => LayerWords::One(attr.layers),
        Request::Make(make) => LayerWords::One(make.layers),
        Request::Check(check) => LayerWords::One(check.layers),
        Request::Diff(diff) => LayerWords::Both(diff.old, diff.new),
        Request::Values(values) => LayerWords::One(values.layers),
        Request::Unused(unused) => LayerWords::One(unused.layers),
        Request::Rows(_) | Request::Dump(_) | Request::Map(_) | Request::Device(_) => {
            LayerWords::None
        }
    }
}

/// Answers a request. Where it is not answered, nothing is written, unless a write fails.
pub(crate) fn answer<'a, I: Inputs, C: Clock, O: Write + Drop, E: Write + Drop>(
    alloc: Global,
    inputs: &I,
    mut watch: Watch<'_, C>,
    request: &Request<'a>,
    out: &mut O,
    errors: &mut E,
) -> Result<Status, Stop<'a>>
    ensures answers { IfSome (I.places inputs.now) (λ places. Answers watch.entry.is_terminal O.contents E.contents out.old out.new
        errors.old errors.new places request.now result) }
    ensures unwritten { IsKept out.old out.new result }
    ensures shows { ErrorsGet watch.entry.is_terminal errors.old errors.new request.now result }
{
    match request {
        Request::Rows(rows) => rows.answer(alloc, inputs, out),
        Request::Dump(dump) => dump.answer(alloc, inputs, out),
        Request::Map(map) => map.answer(alloc, inputs, out, errors),
        Request::Ids(ids) => ids.answer(alloc, inputs, out),
        Request::Survey(survey) => survey.answer(alloc, inputs, out),
        Request::Show(show) => show.answer(alloc, inputs, out),
        Request::Query(query) => query.answer(alloc, inputs, out),
        Request::Explain(explain) => explain.answer(alloc, inputs, out),
        Request::Bag(bag) => bag.answer(alloc, inputs, out),
        Request::Attr(attr) => attr.answer(alloc, inputs, out),
        Request::Make(make) => make.answer(alloc, inputs, watch, out, errors),
        Request::Check(check) => check.answer(alloc, inputs, out, errors),
        Request::Diff(diff) => diff.answer(alloc, inputs, &mut watch, out),
        Request::Values(values) => values.answer(alloc, inputs, &mut watch, out),
        Request::Unused(unused) => unused.answer(alloc, inputs, out),
        Request::Device(form) => form.answer(alloc, inputs, out),
    }
}
