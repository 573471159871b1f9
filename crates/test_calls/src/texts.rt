//! The texts that faults have as values that are shown (`Display`), for users of the library: of each kind of fault a
//! variant of each shape.

mod commands;
mod json;
mod tables;

use crate::marked::word;
use std::fmt::Display;
use std::test::Fail;

/// Prints the texts of the faults that the first word names, a line each.
pub fn call(rt: &HostRuntime, words: &[String]) -> Result<(), Fail> {
    match word(words, 0) {
        "faults of tables" => tables::print(rt),
        "faults of JSON" => json::print(rt),
        _ => commands::print(rt),
    }
    Ok(())
}

pub(crate) fn show<F: Display + Drop>(rt: &HostRuntime, fault: F) {
    let _ = println!(rt; "{fault}");
}
