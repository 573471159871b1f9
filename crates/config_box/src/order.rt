//! The order in which boxes that are alike but at one coordinate stand side by side.

ghost use Rattle.std.specs.Prelude.{◌≡◌, length};
ghost use Rattle.std.specs.Ordering.{nat_cmp};
ghost use Rattle.std.specs.Cmp.Lexicographic.{slice_cmp};
ghost use Rattle.box_answers.specs.NumberSet.{set_of, locale_numbers};
ghost use Rattle.box_answers.specs.Members.{sets_of};
ghost use Rattle.config_box.specs.Order.{set_order, order_but};

use box_answers::{Coord, Locale, NumberSet, set_at};
use std::cmp::Ordering;

/// The order of two boxes by all their sets, that of a coordinate last.
pub(crate) fn order_but(sets: &[NumberSet], others: &[NumberSet], at: Coord) -> Ordering
    requires sets { length sets.now ≡ 25 }
    requires others { length others.now ≡ 25 }
    ensures { result ≡ order_but at (sets_of sets.now) (sets_of others.now) }
{
    let place = at.place();
    match order(&sets[..place], &others[..place]) {
        Ordering::Equal => {}
        different => return different,
    }
    match order(&sets[place + 1..], &others[place + 1..]) {
        Ordering::Equal => set_order(set_at(sets, at), set_at(others, at)),
        different => different,
    }
}

// By the first set that differs.
fn order(sets: &[NumberSet], others: &[NumberSet]) -> Ordering
    requires { length others.now ≡ length sets.now }
    ensures { result ≡ slice_cmp set_order (sets_of sets.now) (sets_of others.now) }
{
    for place in 0..sets.len() {
        match set_order(&sets[place], &others[place]) {
            Ordering::Equal => {}
            different => return different,
        }
    }
    Ordering::Equal
}

fn set_order(set: &NumberSet, other: &NumberSet) -> Ordering
    ensures { result ≡ set_order (set_of set.now) (set_of other.now) }
{
    match (set, other) {
        (NumberSet::Range(low, high), NumberSet::Range(from, to)) => {
            [*low, *high].cmp(&[*from, *to])
        }
        (NumberSet::Numbers(numbers), NumberSet::Numbers(others)) => {
            numbers.as_ref().as_slice().cmp(others.as_ref().as_slice())
        }
        (NumberSet::Locales(locales), NumberSet::Locales(others)) => {
            locale_order(locales.as_ref().as_slice(), others.as_ref().as_slice())
        }
        (NumberSet::Range(_, _), _) | (NumberSet::Numbers(_), NumberSet::Locales(_)) => {
            Ordering::Less
        }
        _ => Ordering::Greater,
    }
}

fn locale_order(locales: &[Locale], others: &[Locale]) -> Ordering
    ensures { result ≡ slice_cmp nat_cmp (locale_numbers locales.now) (locale_numbers others.now) }
{
    for (place, locale) in locales.iter().enumerate() {
        if place >= others.len() {
            return Ordering::Greater;
        }
        match locale.number().cmp(&others[place].number()) {
            Ordering::Equal => {}
            different => return different,
        }
    }
    if locales.len() < others.len() {
        Ordering::Less
    } else {
        Ordering::Equal
    }
}
