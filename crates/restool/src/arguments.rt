//! What the arguments of a command have.

ghost use Rattle.std.specs.Prelude.{◌≡◌, map, codes, option_map};
ghost use Rattle.resource_tool.specs.command_base.FileWords.{texts_of};
ghost use Rattle.resource_tool.specs.command_base.names.Named.{named_of};
ghost use Rattle.clap.specs.Words.{all_of, first_of, found_of, one_of, rows_of};
ghost use Rattle.json_input.specs.Each.{each};
ghost use Rattle.restool.specs.AskedWords.{ReadsNamed, ReadsWords, asked_word, named_word};
ghost use Rattle.restool.specs.Given.{IsAnswerFormGiven, IsFormGiven, IsGiven, IsGoalNumber, IsLineFormGiven, IsNodeLimit, ReadsAlong, ReadsByRule, ReadsRule, word_at, words_at};
ghost use Rattle.restool.specs.Request.{locales_at};

use crate::argument_fault::ArgumentFault;
use crate::asked_words::{Asks, asked_words, named_word};
use crate::command_line::{
    Argument, DOT, JSON, LOCALES, MAX_NODES, MOST_NODES, NODES_IF_LEFT_OUT, NOTATION, RAW,
};
use clap::ArgMatches;
use resource_tool::{Form, LineForm, LocaleRule, Named};
use std::alloc::Global;

/// The word of an argument that takes one, which is required.
#[tactic(auto, using(crate::proofs::Rows::rows))]
pub(crate) fn given_word<'a>(given: &ArgMatches<'a>, argument: &Argument) -> &'a str
    ensures { result.now ≡ word_at argument.now.name.now (rows_of (found_of given.now)) }
{
    given.get_str(argument.name).unwrap_or("")
}

/// The word of an argument that may be left out.
#[tactic(auto, using(crate::proofs::Rows::rows))]
pub(crate) fn given_maybe_word<'a>(given: &ArgMatches<'a>, argument: &Argument) -> Option<&'a str>
    ensures { option_map (λ word. word.now) result ≡ first_of argument.now.name.now (rows_of (found_of given.now)) }
{
    given.get_str(argument.name)
}

/// The word by which locales are compared as a phone does it.
const ANDROID: &str = "android";

/// By which rule locales are compared.
pub(crate) fn given_rule<'a>(given: &ArgMatches<'a>) -> Result<LocaleRule, ArgumentFault<'a>>
    ensures { ReadsRule result (locales_at (rows_of (found_of given.now))) }
{
    match given_maybe_word(given, &LOCALES) {
        None => Ok(LocaleRule::LanguageAndRegion),
        Some(word) if word == ANDROID => Ok(LocaleRule::Android),
        Some(word) => Err(ArgumentFault::BadRule(word)),
    }
}

/// The resource that the word of an argument asks for.
pub(crate) fn given_named<'a>(
    given: &ArgMatches<'a>,
    argument: &Argument,
) -> Result<Named<'a>, ArgumentFault<'a>>
    ensures { ReadsNamed result (named_word (word_at argument.now.name.now (rows_of (found_of given.now)))) }
{
    named_word(given_word(given, argument))
}

/// The words of an argument, each of which asks for some resources or goals, in their order.
#[tactic(auto, using(crate::proofs::Rows::rows))]
pub(crate) fn given_asked<'a>(
    alloc: Global,
    given: &ArgMatches<'a>,
    argument: &Argument,
    asks: Asks,
) -> Result<Vec<&'a str>, ArgumentFault<'a>>
    ensures { ReadsWords result (each (asked_word asks) (words_at argument.now.name.now (rows_of (found_of given.now)))) }
{
    match given.get_strs(argument.name) {
        Some(words) => asked_words(alloc, words, asks),
        None => asked_words(alloc, &[], asks),
    }
}

/// The rule of locales, and a resource.
#[derive(Clone, Copy)]
pub(crate) struct NamedByRule<'a> {
    pub locales: LocaleRule,
    pub resource: Named<'a>,
}

/// By which rule locales are compared, and the resource that the word of an argument asks for.
pub(crate) fn named_by_rule<'a>(
    given: &ArgMatches<'a>,
    argument: &Argument,
) -> Result<NamedByRule<'a>, ArgumentFault<'a>>
    ensures { ReadsByRule (locales_at (rows_of (found_of given.now)))
        (λ rule. ReadsAlong (named_word (word_at argument.now.name.now (rows_of (found_of given.now))))
        (λ asked it. (it.locales ≡ rule) × (asked ≡ named_of it.resource))) result }
{
    let locales = given_rule(given)?;
    let resource = given_named(given, argument)?;
    Ok(NamedByRule { locales, resource })
}

/// The rule of locales, and words that ask for resources or goals.
#[derive(Drop)]
pub(crate) struct WordsByRule<'a> {
    pub locales: LocaleRule,
    pub words: Vec<&'a str>,
}

/// By which rule locales are compared, and the words of an argument, as `given_asked` has them.
pub(crate) fn asked_by_rule<'a>(
    alloc: Global,
    given: &ArgMatches<'a>,
    argument: &Argument,
    asks: Asks,
) -> Result<WordsByRule<'a>, ArgumentFault<'a>>
    ensures { ReadsByRule (locales_at (rows_of (found_of given.now)))
        (λ rule. ReadsAlong (each (asked_word asks) (words_at argument.now.name.now (rows_of (found_of given.now))))
        (λ asked it. (it.locales ≡ rule) × (asked ≡ texts_of it.words))) result }
{
    let locales = given_rule(given)?;
    let words = given_asked(alloc, given, argument, asks)?;
    Ok(WordsByRule { locales, words })
}

/// Whether a flag is given.
#[tactic(auto, using(crate::proofs::Rows::rows))]
pub(crate) fn given_flag(given: &ArgMatches<'_>, argument: &Argument) -> bool
    ensures { IsGiven argument.now.name.now (rows_of (found_of given.now)) result }
{
    given.get_one(argument.name).unwrap_or(false)
}

/// In which form an answer is written.
pub(crate) fn given_form(given: &ArgMatches<'_>) -> Form
    ensures { IsFormGiven (rows_of (found_of given.now)) result }
{
    if given_flag(given, &RAW) {
        Form::Raw
    } else {
        Form::Android
    }
}

/// How the lines of an answer are written.
pub(crate) fn given_line_form(given: &ArgMatches<'_>) -> LineForm
    ensures { IsLineFormGiven (rows_of (found_of given.now)) result }
{
    if given_flag(given, &JSON) {
        LineForm::Json
    } else {
        LineForm::Text(given_form(given))
    }
}

/// How the lines of an answer are written that is raw where no word asks for another form.
pub(crate) fn given_answer_form(given: &ArgMatches<'_>) -> LineForm
    ensures { IsAnswerFormGiven (rows_of (found_of given.now)) result }
{
    if given_flag(given, &JSON) {
        LineForm::Json
    } else if given_flag(given, &NOTATION) {
        LineForm::Text(Form::Android)
    } else {
        LineForm::Text(Form::Raw)
    }
}

/// How many nodes all trees may have.
#[tactic(auto, using(crate::proofs::Rows::rows))]
pub(crate) fn given_nodes(given: &ArgMatches<'_>) -> u32
    ensures { IsNodeLimit (one_of (codes "max-nodes") (rows_of (found_of given.now))) result }
{
    match given.get_one::<u32>(MAX_NODES.name) {
        Some(nodes) if 1 <= nodes && nodes <= MOST_NODES => nodes,
        _ => NODES_IF_LEFT_OUT,
    }
}

/// The number of a goal, from 0.
#[tactic(auto, using(crate::proofs::Rows::rows))]
pub(crate) fn given_goal_number(given: &ArgMatches<'_>) -> Option<u32>
    ensures { IsGoalNumber (one_of (codes "dot") (rows_of (found_of given.now))) result }
{
    given.get_one::<u32>(DOT.name)
}
