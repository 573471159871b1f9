//! Hints behind answers that say no.

use crate::command_line::MOST_NODES;
use crate::hints::Asked;
use crate::hints::text::Hint;
use crate::request::Request;
use command_base::Inputs;
use resource_tool::Reached;

/// What is printed where trees have too many nodes.
const NODE_LIMIT: &[u8] = b"node limit\n";

/// How it begins where a goal has no value on a device.
const COUNTEREXAMPLE: &[u8] = b"counter goal ";

/// An id map without a pair.
const NOTHING_MAPS: &[u8] = b"[]\n";

/// How many times more nodes are proposed than were allowed.
const MORE: u32 = 10;

impl<I: Inputs> Asked<'_, '_, I> {
    /// Says what a person may try behind what a command wrote to its output, and how far it came.
    pub(crate) fn say_answer(
        &self,
        request: &Request<'_>,
        said: &[u8],
        reached: Reached,
        hint: &mut Hint,
    ) {
        let is_limited = said == NODE_LIMIT;
        match request {
            Request::Make(make) if is_limited => {
                say_limit(make.max_nodes, b" goals", reached, hint);
            }
            Request::Diff(diff) if is_limited => {
                say_limit(diff.max_nodes, b" names", reached, hint);
            }
            Request::Values(values) if is_limited => {
                say_limit(values.max_nodes, b" names", reached, hint);
            }
            Request::Unused(unused) if is_limited => {
                say_more_nodes(unused.max_nodes, b" names", hint);
            }
            Request::Make(_) if said.starts_with(COUNTEREXAMPLE) => {
                hint.say(b"--omit leaves out goals without a value on some device, and tells them");
            }
            Request::Map(_) if said == NOTHING_MAPS => {
                hint.say(b"nothing of the overlay maps: is it made for this target?");
            }
            Request::Check(check) => self.say_verdict(check, said, hint),
            _ => {}
        }
    }
}

// How far it came over goals or names, and what allows more.
fn say_limit(most: u32, what: &[u8], reached: Reached, hint: &mut Hint) {
    if reached.done == 0 && reached.all > most as usize {
        hint.say(b"there are more");
        hint.say(what);
        hint.say(b" than ");
        hint.say_number(u64::from(most));
        hint.say(b", the limit of nodes; ");
    } else {
        hint.say_number(reached.done as u64);
        hint.say(b" of ");
        hint.say_number(reached.all as u64);
        hint.say(what);
        hint.say(b" were done with at most ");
        hint.say_number(u64::from(most));
        hint.say(b" nodes; ");
    }
    say_more_nodes(most, what, hint);
}

// What allows more nodes than these, or needs fewer.
fn say_more_nodes(most: u32, what: &[u8], hint: &mut Hint) {
    if most >= MOST_NODES {
        hint.say(b"ask for fewer");
        hint.say(what);
        return hint.say(b" at a time, or make the box smaller");
    }
    let more = most.saturating_mul(MORE).min(MOST_NODES);
    hint.say(b"--max-nodes ");
    hint.say_number(u64::from(more));
    hint.say(b" allows more, fewer");
    hint.say(what);
    hint.say(b" or a smaller box need less");
}
