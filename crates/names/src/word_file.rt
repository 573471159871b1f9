//! Files of words.

ghost use Rattle.std.specs.Prelude.{◌≡◌, map, IfOk};
ghost use Rattle.std.specs.List.{slice_split};
ghost use Rattle.std.specs.Option.{option_map};
ghost use Rattle.names.specs.WordFile.{file_path_in, is_line_feed, is_word, without_mark, words_in_text};

use crate::name_parts::behind_sign;
use crate::named::xml_name;
use res_value::is_id_list;
use std::alloc::{AllocError, Global};

/// The byte order mark, which some editors write at the beginning of a file.
const BYTE_ORDER_MARK: char = '\u{feff}';

/// Ends a line.
const LINE_FEED: char = '\n';

/// Begins a line that is passed over.
const COMMENT: u8 = b'#';

/// The path of the file that a word names: `@ids.txt` names `ids.txt`. None where it names none, as `@` alone, `@` with ids
/// behind it, with commas between them, and `@` with a name behind it whose type is one of Android's.
#[tactic(auto, unfolding(crate::specs::WordFile::file_path_in))]
pub fn file_path(word: &str) -> Option<&str>
    ensures { option_map (λ path. path.now) result ≡ file_path_in word.now }
{
    let text = behind_sign(word)?;
    if text.is_empty() || is_id_list(text) || xml_name(text).is_some() {
        return None;
    }
    Some(text)
}

/// The words that the text of such a file has, one a line. A byte order mark at its beginning is left out. Blank lines are
/// passed over, and so are those that begin with `#`.
pub fn words_in_text(alloc: Global, text: &str) -> Result<Vec<&str>, AllocError>
    ensures { IfOk result (λ words. map (λ word. word.now) words.items ≡ words_in_text text.now) }
{
    let lines = lines_of(alloc, without_mark(text))?;
    let mut words = Vec::new(alloc);
    for line in &lines {
        let word = line.trim();
        if is_word(word) {
            words.push(word)?;
        }
    }
    Ok(words)
}

fn without_mark(text: &str) -> &str
    ensures { result.now ≡ without_mark text.now }
{
    text.strip_prefix(BYTE_ORDER_MARK).unwrap_or(text)
}

fn lines_of(alloc: Global, text: &str) -> Result<Vec<&str>, AllocError>
    ensures { IfOk result (λ lines. map (λ line. line.now) lines.items ≡ slice_split is_line_feed text.now) }
{
    text.split(LINE_FEED).collect(alloc)
}

fn is_word(line: &str) -> bool
    ensures { result ≡ is_word line.now }
{
    match line.as_bytes().first() {
        Some(byte) => *byte != COMMENT,
        None => false,
    }
}
