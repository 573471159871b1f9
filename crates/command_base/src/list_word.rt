//! Words that are lists of layers themselves, as `framework.apk+carrier.apk,app.apk`.

ghost use Rattle.std.specs.Prelude.{◌≡◌, ◌==◌, ◌<◌, ◌++◌, ◌∷◌, [], length, map, OnOk, IfOk};
ghost use Rattle.std.specs.List.{slice_split};
ghost use Rattle.command_base.specs.ListWord.{base_at, ends_as_table, is_list_word, is_plus, layers_in_word, overlay_of, with_overlays};
ghost use Rattle.command_base.specs.ListWordSeen.{listed_of};

use apk_member::names_apk;
use std::alloc::{AllocError, Global};

/// How the path of a table ends, in any letter case.
const TABLE: &[u8] = b".arsc";

/// What stands before a base, but the first.
const BASE: char = ',';

/// What stands before an overlay of the last base.
const OVERLAY: char = '+';

/// A layer of such a list.
#[derive(Clone, Copy)]
pub struct ListedLayer<'a> {
    pub path: &'a str,
    /// Of an overlay, the place of its base among the layers.
    pub base: Option<usize>,
}

/// Whether a word is a list of layers itself.
pub fn is_list_word(word: &str) -> bool
    ensures { result ≡ is_list_word word.now }
{
    names_apk(word) || ends_as_table(word.as_bytes())
}

/// The layers of such a word.
pub fn layers_in_word(alloc: Global, word: &str) -> Result<Vec<ListedLayer<'_>>, AllocError>
    ensures { IfOk result (λ layers. map listed_of layers.items ≡ layers_in_word word.now) }
{
    let mut layers = Vec::new(alloc);
    let groups = pieces(alloc, word, BASE)?;
    for group in &groups {
        push_group(alloc, group, &mut layers)?;
    }
    Ok(layers)
}

// Pushes a base and its overlays.
fn push_group<'w>(
    alloc: Global,
    group: &'w str,
    layers: &mut Vec<ListedLayer<'w>>,
) -> Result<(), AllocError>
    ensures { OnOk result (map listed_of layers.new.items
        ≡ map listed_of layers.old.items ++ with_overlays (length layers.old.items) (slice_split is_plus group.now)) }
{
    let place = layers.len();
    let paths = pieces(alloc, group, OVERLAY)?;
    let Some((path, overlays)) = paths.split_first() else {
        return Ok(());
    };
    layers.push(ListedLayer { path, base: None })?;
    push_overlays(place, overlays, layers)
}

fn push_overlays<'w>(
    place: usize,
    paths: &[&'w str],
    layers: &mut Vec<ListedLayer<'w>>,
) -> Result<(), AllocError>
    ensures { OnOk result (map listed_of layers.new.items
        ≡ map listed_of layers.old.items ++ map (overlay_of place) (map (λ path. path.now) paths.now)) }
{
    for path in paths {
        layers.push(ListedLayer {
            path,
            base: Some(place),
        })?;
    }
    Ok(())
}

fn pieces(alloc: Global, text: &str, separator: char) -> Result<Vec<&str>, AllocError>
    requires { separator < 128 }
    ensures { IfOk result (λ pieces. map (λ piece. piece.now) pieces.items ≡ slice_split (λ byte. byte == separator) text.now) }
{
    text.split(separator).collect(alloc)
}

// Whether a word ends as the path of a table.
fn ends_as_table(word: &[u8]) -> bool
    ensures { result ≡ ends_as_table word.now }
{
    word.len() >= TABLE.len() && word[word.len() - TABLE.len()..].eq_ignore_ascii_case(TABLE)
}
