//! What a split answers, and the sets of its halves.

ghost use Rattle.std.specs.Prelude.{◌≡◌, length, slice_set, IfOk};
ghost use Rattle.box_answers.specs.config_record.Coord.{place_of};
ghost use Rattle.box_answers.specs.NumberSet.{set_of};
ghost use Rattle.box_answers.specs.Members.{sets_of};
ghost use Rattle.config_box.specs.Tests.{test_of, is_range, has_wrong_kind};

use crate::config_box::ConfigBox;
use crate::test::Test;
use box_answers::{Coord, NumberSet, set_at};
use std::alloc::{AllocError, Global};

/// What a split answers where memory runs out.
pub type OutOfMemory = AllocError;

/// The halves of a box by a test.
#[derive(Drop)]
pub enum Split {
    /// The members that answer yes, and those that answer no.
    Halves(ConfigBox, ConfigBox),
    /// An `at most` test of the locale, or a test of listed values where the box has a range.
    WrongKind,
    /// All members answer alike, so one half would have none.
    EmptyHalf,
}

/// Whether a test can't be asked of the box's set.
#[tactic(auto, unfolding(crate::specs::Tests::has_wrong_kind))]
pub(crate) fn has_wrong_kind(sets: &[NumberSet], test: &Test) -> bool
    requires { length sets.now ≡ 25 }
    ensures { result ≡ has_wrong_kind (sets_of sets.now) (test_of test.now) }
{
    match test {
        Test::AtMost(Coord::Locale, _) => true,
        Test::AtMost(_, _) => false,
        Test::Among(at, _) => is_range(set_at(sets, *at)),
    }
}

fn is_range(set: &NumberSet) -> bool
    ensures { result ≡ is_range (set_of set.now) }
{
    matches!(set, NumberSet::Range(_, _))
}

/// The same sets but for one. The lists of the others are shared.
pub(crate) fn with_set(
    alloc: Global,
    sets: &[NumberSet],
    at: Coord,
    set: NumberSet,
) -> Result<Vec<NumberSet>, AllocError>
    requires { length sets.now ≡ 25 }
    ensures { IfOk result (λ copy. sets_of copy.items ≡ slice_set (sets_of sets.now) (place_of at) (set_of set)) }
{
    let mut copy = shared_sets(alloc, sets)?;
    copy[at.place()] = set;
    Ok(copy)
}

/// The same sets. Their lists are shared.
pub(crate) fn shared_sets(alloc: Global, sets: &[NumberSet]) -> Result<Vec<NumberSet>, AllocError>
    ensures { IfOk result (λ copy. sets_of copy.items ≡ sets_of sets.now) }
{
    let mut copy = Vec::with_capacity(alloc, sets.len())?;
    for set in sets {
        copy.push(shared(set)?)?;
    }
    Ok(copy)
}

fn shared(set: &NumberSet) -> Result<NumberSet, AllocError>
    ensures { IfOk result (λ copy. set_of copy ≡ set_of set.now) }
{
    match set {
        NumberSet::Range(low, high) => Ok(NumberSet::Range(*low, *high)),
        NumberSet::Numbers(numbers) => Ok(NumberSet::Numbers(numbers.clone()?)),
        NumberSet::Locales(locales) => Ok(NumberSet::Locales(locales.clone()?)),
    }
}
