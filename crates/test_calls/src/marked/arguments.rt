//! The words that say which call is made, and of what.

use std::{env, io};

/// The words behind the program's name.
pub(crate) fn words(rt: &HostRuntime) -> io::Result<Vec<String>> {
    let words = env::args(rt)?.skip(1).collect(rt.alloc())?;
    Ok(words)
}

/// The word at a place, the first is 0; the empty one where there are fewer.
pub(crate) fn word(words: &[String], place: usize) -> &str {
    match words.get(place) {
        Some(word) => word.as_str(),
        None => "",
    }
}
