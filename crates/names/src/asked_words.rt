//! The words that ask for pairs of two stacks.

use crate::found::Found;
use crate::named_set::NamedSet;
use overlay_map::ResId;
use std::alloc::{AllocError, Global};
use std::collections::BTreeMap;

/// Some words, each with the ids of the pairs for which it asks.
#[derive(Drop)]
pub(crate) struct AskedWords<'n> {
    words: BTreeMap<NamedSet<'n>, Found>,
}

impl<'n> AskedWords<'n> {
    ghost use Rattle.std.specs.Prelude.{◌≡◌, [], ◌∷◌, List, map, IfOk};
    ghost use Rattle.names.specs.NamedSet.{NamedSetOf, named_set_of};
    ghost use Rattle.names.specs.Packages.{PackageNameOf};
    ghost use Rattle.names.specs.AskedWords.{found_for, or_nothing, AreAsked, PutsFor};

    /// These words, before a pair was looked at.
    pub fn of_sets(alloc: Global, sets: &[NamedSet<'n>]) -> Result<AskedWords<'n>, AllocError>
        ensures { IfOk result (λ words. (packages : List PackageNameOf) → AreAsked packages (map named_set_of sets.now) [] words) }
    {
        let mut words = BTreeMap::new(alloc);
        for set in sets {
            words.insert(*set, Found::Nothing)?;
        }
        Ok(AskedWords { words })
    }

    /// The ids of the pairs for which a word asks.
    pub fn found(&self, set: &NamedSet<'n>) -> Found
        ensures { result ≡ or_nothing (found_for self.now (named_set_of set.now)) }
    {
        match self.words.get(set) {
            Some(found) => *found,
            None => Found::Nothing,
        }
    }

    /// Notes an id for those of its words that ask for it. Whether one does.
    pub fn put_each(&mut self, words: &[NamedSet<'n>], id: ResId) -> Result<bool, AllocError>
        ensures { IfOk result (PutsFor (map named_set_of words.now) id self.old self.new) }
    {
        let mut asked = false;
        for word in words {
            let own = self.put(*word, id)?;
            asked |= own;
        }
        Ok(asked)
    }

    // Notes an id for a word, if it is one of these. Whether it is.
    fn put(&mut self, word: NamedSet<'n>, id: ResId) -> Result<bool, AllocError>
        ensures { IfOk result (PutsFor (named_set_of word.entry ∷ []) id self.old self.new) }
    {
        let Some(found) = self.words.get(&word).copied() else {
            return Ok(false);
        };
        self.words.insert(word, found.also(id))?;
        Ok(true)
    }
}
