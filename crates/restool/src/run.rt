//! From words to the exit status.

ghost use Rattle.std.specs.Prelude.{◌≡◌, [], map, Err, string_bytes};
ghost use Rattle.std.specs.Io.Buffered.{writer_buffer, writer_inner};
ghost use Rattle.restool.specs.Run.{CarriesOutRequest, Runs, TellsFault, Works};

use crate::ending::{end, said_beside, written_out};
use crate::hints::{CommandEnd, hint_of, hint_of_words};
use crate::left::left_lines;
use crate::request::{Request, answer, layer_words};
use crate::words::read_words;
use crate::words_fault::WordsFault;
use resource_tool::{ExitStatus, Inputs, Reached, Status, Stop, Watch};
use std::alloc::Global;
use std::io::{BufWriter, Write};
use std::time::Clock;

/// How a run of the program ended.
#[derive(Drop)]
pub struct Ended<O> {
    pub status: ExitStatus,
    /// Whether what was said at the end was written, where something was.
    pub was_written: bool,
    /// The output, as it was left.
    pub out: O,
}

/// Does what the words ask for; the first word is the program's name.
pub fn run_words<I: Inputs, C: Clock, O: Write + Drop, E: Write + Drop>(
    alloc: Global,
    inputs: &I,
    watch: Watch<'_, C>,
    words: &[String],
    out: BufWriter<O>,
    errors: &mut E,
) -> Ended<O>
    requires { writer_buffer out ≡ [] }
    ensures { Runs O.contents E.contents (I.places inputs.now) (map string_bytes words.now) watch.entry.is_terminal
        (record { out = writer_inner out; errors = errors.old }) (record { out = result.out; errors = errors.new }) result.was_written result.status }
{
    match read_words(alloc, words) {
        Ok(request) => {
            let ended = run_request(alloc, inputs, watch, &request, out, errors);
            drop(request);
            ended
        }
        Err(fault) => {
            let is_terminal = watch.is_terminal;
            let ended = tell_fault(alloc, inputs, is_terminal, words, &fault, out, errors);
            drop(fault);
            ended
        }
    }
}

fn run_request<I: Inputs, C: Clock, O: Write + Drop, E: Write + Drop>(
    alloc: Global,
    inputs: &I,
    watch: Watch<'_, C>,
    request: &Request<'_>,
    out: BufWriter<O>,
    errors: &mut E,
) -> Ended<O>
    requires { writer_buffer out ≡ [] }
    ensures { Works O.contents E.contents (I.places inputs.now) watch.entry.is_terminal
        (record { out = writer_inner out; errors = errors.old }) (record { out = result.out; errors = errors.new }) request.now result.was_written result.status }
{
    let is_terminal = watch.is_terminal;
    let Carried { outcome, hint, out } = carry_out(alloc, inputs, watch, request, out, errors);
    let reported = end(outcome, hint.as_deref(), is_terminal, errors);
    Ended {
        status: reported.status,
        was_written: reported.was_written,
        out,
    }
}

// Says why words ask for nothing.
fn tell_fault<I: Inputs, O: Write + Drop, E: Write + Drop>(
    alloc: Global,
    inputs: &I,
    is_terminal: bool,
    words: &[String],
    fault: &WordsFault<'_>,
    out: BufWriter<O>,
    errors: &mut E,
) -> Ended<O>
    ensures { TellsFault E.contents is_terminal
        (record { out = writer_inner out; errors = errors.old }) (record { out = result.out; errors = errors.new }) fault.now result.was_written result.status }
{
    let (mut out, _nothing) = out.into_parts();
    let hint = if is_terminal {
        hint_of_words(alloc, inputs, words, fault)
    } else {
        None
    };
    let reported = fault.report(hint.as_deref(), is_terminal, &mut out, errors);
    Ended {
        status: reported.status,
        was_written: reported.was_written,
        out,
    }
}

/// What came of a request.
#[derive(Drop)]
struct Carried<'a, O> {
    outcome: Result<Status, Stop<'a>>,
    /// What a person may try.
    hint: Option<Vec<u8>>,
    /// The output, as it was left.
    out: O,
}

// Answers a request, says beside it what is left out of its layers, and writes what was kept back of the output.
fn carry_out<'a, I: Inputs, C: Clock, O: Write + Drop, E: Write + Drop>(
    alloc: Global,
    inputs: &I,
    watch: Watch<'_, C>,
    request: &Request<'a>,
    mut out: BufWriter<O>,
    errors: &mut E,
) -> Carried<'a, O>
    requires { writer_buffer out ≡ [] }
    ensures { CarriesOutRequest O.contents E.contents (I.places inputs.now) watch.entry.is_terminal
        (record { out = writer_inner out; errors = errors.old }) (record { out = result.out; errors = errors.new }) request.now result.outcome }
{
    let is_terminal = watch.is_terminal;
    let reached = watch.reached;
    let lines = match left_lines(alloc, inputs, layer_words(request)) {
        Ok(lines) => lines,
        Err(stop) => return unanswered(alloc, inputs, is_terminal, request, stop, out),
    };
    let answered = answer(alloc, inputs, watch, request, &mut out, errors);
    let told = said_beside(answered, &lines, errors);
    let said = if is_terminal {
        copy_of(alloc, out.buffer())
    } else {
        Vec::new(alloc)
    };
    let (outcome, out) = written_out(told, out);
    let hint = if is_terminal {
        let ended = CommandEnd {
            outcome: &outcome,
            said: &said,
            left: &lines,
            reached: reached.get(),
        };
        hint_of(alloc, inputs, request, &ended)
    } else {
        None
    };
    Carried { outcome, hint, out }
}

// A request whose layers are not read.
fn unanswered<'a, I: Inputs, O: Write + Drop>(
    alloc: Global,
    inputs: &I,
    is_terminal: bool,
    request: &Request<'a>,
    stop: Stop<'a>,
    out: BufWriter<O>,
) -> Carried<'a, O>
    ensures out { result.out ≡ writer_inner out }
    ensures outcome { result.outcome ≡ Err stop.entry }
{
    let (out, _nothing) = out.into_parts();
    let outcome = Err(stop);
    let hint = if is_terminal {
        let ended = CommandEnd {
            outcome: &outcome,
            said: b"",
            left: b"",
            reached: Reached { done: 0, all: 0 },
        };
        hint_of(alloc, inputs, request, &ended)
    } else {
        None
    };
    Carried { outcome, hint, out }
}

// What is kept back yet of the output; none of it where memory runs out.
fn copy_of(alloc: Global, said: &[u8]) -> Vec<u8> {
    match Vec::from_slice(alloc, said) {
        Ok(copy) => copy,
        Err(_) => Vec::new(alloc),
    }
}
