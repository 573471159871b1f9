//! What the ids of a stack are called.

ghost use Rattle.std.specs.Prelude.{◌≡◌, ◌==◌, ℕ, IfOk, OnOk, None, if◌then◌else◌};
ghost use Rattle.std.specs.BTreeMap.{get};
ghost use Rattle.std.specs.List.{list_any};
ghost use Rattle.std.specs.Option.{option_map, option_or};
ghost use Rattle.std.specs.Ordering.{nat_cmp};
ghost use Rattle.names.specs.IdWord.{word_among, word_of_id};
ghost use Rattle.names.specs.Label.{label_of};
ghost use Rattle.names.specs.LabelText.{label_text};

use crate::ids::ids_of_type;
use crate::label::Label;
use crate::named_stack::first_name;
use crate::packages::PackageNames;
use overlay_map::{ResId, Stack};
use std::alloc::{AllocError, Global};
use std::collections::BTreeMap;
use std::marker::Model;

/// A stack, and the word for each of its ids that has a name. Contracts see it as the stack.
#[derive(Drop)]
pub struct StackNames<'s, 'a> {
    stack: &'s Stack<'a>,
    words: BTreeMap<u32, Vec<u8>>,
}

impl<'s, 'a> Model for StackNames<'s, 'a> {
    ghost use Rattle.std.specs.Prelude.{List};
    ghost use Rattle.overlay_map.specs.Layer.{LayerOf};

    ghost Value = { List LayerOf };

    ghost use Rattle.names.specs.IdWord.{AreWords};

    ghost view = { λ names. names.stack.now };

    ghost invariant = { λ names. AreWords names.stack.now names.words };
}

impl<'s, 'a> StackNames<'s, 'a> {
    /// Writes the word for each id of the base layers, so that later none takes memory.
    pub fn of(alloc: Global, stack: &'s Stack<'a>) -> Result<StackNames<'s, 'a>, AllocError>
        ensures { IfOk result (λ names. names ≡ stack.now) }
    {
        let tables = stack.base_tables(alloc)?;
        let ids = ids_of_type(alloc, &tables, None)?;
        let packages = PackageNames::of(alloc, &tables)?;
        let words = words_of(alloc, stack, &packages, &ids)?;
        Ok(StackNames { stack, words })
    }

    pub fn stack(&self) -> &'s Stack<'a>
        ensures { result.now ≡ self.now }
    {
        self.stack
    }

    /// The word for the name of the first row that an id has in a base layer, where that is text.
    ///
    /// ```text
    /// let word = names.word(ResId(0x01060000)); // android:color/white
    /// ```
    pub fn word(&self, id: ResId) -> Option<&[u8]>
        ensures { option_map (λ word. word.now) result ≡ word_of_id self.now id.0 }
    {
        match self.words.get(&id.0) {
            Some(word) => Some(word),
            None => None,
        }
    }
}

fn words_of(
    alloc: Global,
    stack: &Stack<'_>,
    packages: &PackageNames<'_>,
    ids: &[ResId],
) -> Result<BTreeMap<u32, Vec<u8>>, AllocError>
    ensures { IfOk result (λ words. (id : ℕ) → option_map (λ word. word.items) (get nat_cmp words id)
        ≡ (if list_any (λ other. other.0 == id) ids.now then word_among packages.now stack.now id else None)) }
{
    let mut words = BTreeMap::new(alloc);
    'ids: for id in ids {
        put_word(alloc, stack, packages, *id, &mut words)?;
    }
    Ok(words)
}

// Puts the word for an id among others, where it has one.
fn put_word(
    alloc: Global,
    stack: &Stack<'_>,
    packages: &PackageNames<'_>,
    id: ResId,
    words: &mut BTreeMap<u32, Vec<u8>>,
) -> Result<(), AllocError>
    ensures { OnOk result ((other : ℕ) → option_map (λ word. word.items) (get nat_cmp words.new other)
        ≡ option_or (if id.0 == other then word_among packages.now stack.now id.0 else None) (option_map (λ word. word.items) (get nat_cmp words.old other))) }
{
    if let Some(word) = word_among(alloc, stack, packages, id)? {
        words.insert(id.0, word)?;
    }
    Ok(())
}

#[tactic(auto, unfolding(crate::specs::IdWord::word_among))]
fn word_among(
    alloc: Global,
    stack: &Stack<'_>,
    packages: &PackageNames<'_>,
    id: ResId,
) -> Result<Option<Vec<u8>>, AllocError>
    ensures { IfOk result (λ word. option_map (λ word. word.items) word ≡ word_among packages.now stack.now id.0) }
{
    let Some(label) = first_name(alloc, stack, id)? else {
        return Ok(None);
    };
    let word = label_word(alloc, packages, &label);
    drop(label);
    Ok(Some(word?))
}

fn label_word(
    alloc: Global,
    packages: &PackageNames<'_>,
    label: &Label<'_>,
) -> Result<Vec<u8>, AllocError>
    ensures { IfOk result (λ word. word.items ≡ label_text packages.now (label_of label.now)) }
{
    let mut word = Vec::new(alloc);
    match packages.write_label(label, &mut word) {
        Ok(()) => Ok(word),
        // To a `Vec` only a want of memory is a fault.
        Err(_) => Err(AllocError),
    }
}
