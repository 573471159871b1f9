//! The sets of the box that two boxes make together.

ghost use Rattle.std.specs.Prelude.{◌≡◌, ◌≢◌, ℕ, ◌<◌, ◌≤◌, length, slice_index_or, option_map, IfOk, IfSome, MatchBool, MatchOption};
ghost use Rattle.box_answers.specs.NumberSet.{RangeOf, NumbersOf, LocalesOf, set_of, locale_numbers, IsProper};
ghost use Rattle.box_answers.specs.Members.{sets_of, IsBox};
ghost use Rattle.config_box.specs.Joined.{AreApart, IsOneSet, CannotJoin, HasJoinedSets};

use crate::choice::{locales_of, merged, narrowed, numbers_of, widened};
use crate::read::MOST_VALUES;
use crate::split::shared_sets;
use box_answers::{Locale, NumberSet};
use std::alloc::{AllocError, Global};
use std::rc::Rc;

/// The sets of the box that two boxes make together; none where they make none.
pub(crate) fn joined_sets(
    alloc: Global,
    sets: &[NumberSet],
    others: &[NumberSet],
) -> Result<Option<Vec<NumberSet>>, AllocError>
    requires sets { IsBox (sets_of sets.now) }
    requires others { IsBox (sets_of others.now) }
    ensures sets { IfOk result (λ joined. MatchOption joined (CannotJoin (sets_of sets.now) (sets_of others.now)) (λ j. HasJoinedSets (sets_of sets.now) (sets_of others.now) (sets_of j.items))) }
    ensures count { IfOk result (λ joined. IfSome joined (λ j. length (sets_of j.items) ≡ 25)) }
{
    let place = difference_from(sets, others, 0);
    if place == sets.len() || difference_from(sets, others, place + 1) < sets.len() {
        return Ok(None);
    }
    let Some(set) = joined_set(alloc, &sets[place], &others[place])? else {
        return Ok(None);
    };
    let mut joined = shared_sets(alloc, sets)?;
    joined[place] = set;
    Ok(Some(joined))
}

// The first place from this one on at which they differ; where there is none, how many there are.
fn difference_from(sets: &[NumberSet], others: &[NumberSet], from: usize) -> usize
    requires count { length others.now ≡ length sets.now }
    requires from { from ≤ length sets.now }
    ensures from { from ≤ result }
    ensures within { result ≤ length sets.now }
    ensures same { (k : ℕ) → from ≤ k → k < result → slice_index_or (sets_of sets.now) k (RangeOf 0 0) ≡ slice_index_or (sets_of others.now) k (RangeOf 0 0) }
    ensures differ { result < length sets.now → slice_index_or (sets_of sets.now) result (RangeOf 0 0) ≢ slice_index_or (sets_of others.now) result (RangeOf 0 0) }
{
    for place in from..sets.len() {
        if !is_same(&sets[place], &others[place]) {
            return place;
        }
    }
    sets.len()
}

/// Whether two sets are the same, and kept alike.
pub(crate) fn is_same(set: &NumberSet, other: &NumberSet) -> bool
    ensures { MatchBool result (set_of set.now ≡ set_of other.now) (set_of set.now ≢ set_of other.now) }
{
    match (set, other) {
        (NumberSet::Range(low, high), NumberSet::Range(from, to)) => low == from && high == to,
        (NumberSet::Numbers(numbers), NumberSet::Numbers(others)) => {
            numbers.as_ref().as_slice() == others.as_ref().as_slice()
        }
        (NumberSet::Locales(locales), NumberSet::Locales(others)) => {
            are_same_locales(locales.as_ref().as_slice(), others.as_ref().as_slice())
        }
        _ => false,
    }
}

fn are_same_locales(locales: &[Locale], others: &[Locale]) -> bool
    ensures { MatchBool result (locale_numbers locales.now ≡ locale_numbers others.now) (locale_numbers locales.now ≢ locale_numbers others.now) }
{
    if locales.len() != others.len() {
        return false;
    }
    for place in 0..locales.len() {
        if locales[place].number() != others[place].number() {
            return false;
        }
    }
    true
}

// The one set that two sets make.
fn joined_set(
    alloc: Global,
    set: &NumberSet,
    other: &NumberSet,
) -> Result<Option<NumberSet>, AllocError>
    requires set { IsProper (set_of set.now) }
    requires other { IsProper (set_of other.now) }
    ensures { IfOk result (λ joined. IsOneSet (set_of set.now) (set_of other.now) (option_map set_of joined)) }
{
    match (set, other) {
        (NumberSet::Range(low, high), NumberSet::Range(from, to)) => {
            Ok(joined_range(*low, *high, *from, *to))
        }
        (NumberSet::Numbers(numbers), NumberSet::Numbers(others)) => {
            joined_choice(
                alloc,
                numbers.as_ref().as_slice(),
                others.as_ref().as_slice(),
            )
        }
        (NumberSet::Locales(locales), NumberSet::Locales(others)) => {
            joined_locales(
                alloc,
                locales.as_ref().as_slice(),
                others.as_ref().as_slice(),
            )
        }
        _ => Ok(None),
    }
}

// Where one follows the other.
fn joined_range(low: u32, high: u32, from: u32, to: u32) -> Option<NumberSet>
    requires first { low ≤ high }
    requires second { from ≤ to }
    ensures { IsOneSet (RangeOf low high) (RangeOf from to) (option_map set_of result) }
{
    if high < from && from - high == 1 {
        Some(NumberSet::Range(low, to))
    } else if to < low && low - to == 1 {
        Some(NumberSet::Range(from, high))
    } else {
        None
    }
}

fn joined_choice(
    alloc: Global,
    numbers: &[u32],
    others: &[u32],
) -> Result<Option<NumberSet>, AllocError>
    requires numbers { IsProper (NumbersOf numbers.now) }
    requires others { IsProper (NumbersOf others.now) }
    ensures { IfOk result (λ joined. IsOneSet (NumbersOf numbers.now) (NumbersOf others.now) (option_map set_of joined)) }
{
    let numbers = widened(alloc, numbers)?;
    let others = widened(alloc, others)?;
    let Some(joined) = joined_numbers(alloc, numbers.as_slice(), others.as_slice())? else {
        return Ok(None);
    };
    let joined = narrowed(alloc, joined.as_slice())?;
    Ok(Some(NumberSet::Numbers(Rc::new(alloc, joined)?)))
}

fn joined_locales(
    alloc: Global,
    locales: &[Locale],
    others: &[Locale],
) -> Result<Option<NumberSet>, AllocError>
    requires locales { IsProper (LocalesOf (locale_numbers locales.now)) }
    requires others { IsProper (LocalesOf (locale_numbers others.now)) }
    ensures { IfOk result (λ joined. IsOneSet (LocalesOf (locale_numbers locales.now)) (LocalesOf (locale_numbers others.now)) (option_map set_of joined)) }
{
    let numbers = numbers_of(alloc, locales)?;
    let other_numbers = numbers_of(alloc, others)?;
    let Some(joined) = joined_numbers(alloc, numbers.as_slice(), other_numbers.as_slice())? else {
        return Ok(None);
    };
    let joined = locales_of(alloc, joined.as_slice())?;
    Ok(Some(NumberSet::Locales(Rc::new(alloc, joined)?)))
}

// The numbers of two choices, unless they share one or are too many.
fn joined_numbers(
    alloc: Global,
    numbers: &[u64],
    others: &[u64],
) -> Result<Option<Vec<u64>>, AllocError>
    requires numbers { IsProper (NumbersOf numbers.now) }
    requires others { IsProper (NumbersOf others.now) }
    ensures { IfOk result (λ joined. IsOneSet (NumbersOf numbers.now) (NumbersOf others.now) (option_map (λ v. NumbersOf v.items) joined)) }
{
    if numbers.len() > MOST_VALUES || others.len() > MOST_VALUES - numbers.len() {
        return Ok(None);
    }
    if shares_number(numbers, others) {
        return Ok(None);
    }
    Ok(Some(merged(alloc, numbers, others)?))
}

fn shares_number(numbers: &[u64], others: &[u64]) -> bool
    ensures { MatchBool result (AreApart (NumbersOf numbers.now) (NumbersOf others.now) → ⊥) (AreApart (NumbersOf numbers.now) (NumbersOf others.now)) }
{
    for other in others {
        if numbers.contains(other) {
            return true;
        }
    }
    false
}
