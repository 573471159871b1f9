//! A program of tests, for `tests/stops/calls.py`: it makes one call of the library that restool does not make, or not so, so
//! that memory can be refused to that call alone. Its first word says of what, its second names the call; those behind it are
//! what the call is given. Bytes are the word's own, or hexadecimal digits behind a `#`.
//!
//! ```text
//! test_calls stacks goal_end '#0200..' 0x7f010000 density=198 // Value { layer: 0, value: Value { kind: 16, word: 5 } }
//! test_calls inputs Cert::write '{"version":2,"goals":[]}'    // {"goals":[],"version":1}
//! ```
#![tactic(auto)]

mod commands;
mod handed_on;
mod inputs;
mod layers;
mod lent;
mod marked;
mod stacks;
mod texts;

use crate::marked::{word, words};
use std::test::Fail;

fn main(rt: HostRuntime) -> Result<(), Fail> {
    let words = words(&rt)?;
    let asked = words.get(1..).unwrap_or(&[]);
    match word(&words, 0) {
        "commands" => commands::call(&rt, asked),
        "lent" => lent::call(&rt, asked),
        "stacks" => stacks::call(&rt, asked),
        "texts" => texts::call(&rt, asked),
        _ => inputs::call(&rt, asked),
    }
}
