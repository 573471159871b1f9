//! Calls over the bytes of tables and of certificates, over as many layers as there can be, and of parts.

mod certificates;
mod full;
mod parts;
mod tables;

use crate::marked::word;
use std::test::Fail;

/// Makes the call that the first word names, of the other words.
pub fn call(rt: &HostRuntime, words: &[String]) -> Result<(), Fail> {
    let given = word(words, 1);
    match word(words, 0) {
        "Chunks::new" => tables::chunks(rt, given),
        "Pool::spans" => tables::spans(rt, given, word(words, 2)),
        "Table::find" => tables::names(rt, given),
        "Cert::write" => certificates::written(rt, given),
        "Device::check" => parts::device(rt),
        "Goal::attr" => parts::goal(rt),
        "Stack::push_base" => full::base(rt, given),
        _ => full::overlay(rt, given),
    }
}
