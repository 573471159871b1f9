//! The sets of a box from what is written of each coordinate.

ghost use Rattle.std.specs.Prelude.{◌^◌, ◌≡◌, ◌≢◌, ℕ, ◌<◌, map, length, slice_index, IfOk};
ghost use Rattle.std.specs.List.{list_any};
ghost use Rattle.contract_words.specs.Exact.{GivesOr};
ghost use Rattle.json_input.specs.Each.{each};
ghost use Rattle.box_answers.specs.NumberSet.{NumbersOf, LocalesOf, set_of};
ghost use Rattle.box_answers.specs.config_record.declared.coord.Coord.TheVariants as coords;
ghost use Rattle.box_answers.specs.config_record.Coord.{all_coords, is_outside};
ghost use Rattle.box_answers.specs.Members.{sets_of, IsSetAt, IsBox};
ghost use Rattle.config_box.specs.declared.box_fault.BoxFault.TheVariants.{OutOfMemory};
ghost use Rattle.config_box.specs.BoxJson.{outside_fault, set_of_range, set_of_numbers, is_malformed, is_region_alone, number_of_none, number_of_text, set_of_texts, set_of_nothing, set_in, box_in_by};
ghost use Rattle.config_box.specs.ByRule.{IsOfRule, IsSetBy, IsByRule};
ghost use Rattle.config_box.specs.Choices.{rising};
ghost use Rattle.config_box.specs.BoxSeen.{written_seen, pair_seen, slot_seen, sets_in_slots, set_seen};

use crate::box_fault::BoxFault;
use crate::choice::{locales_of, narrowed, rising};
use crate::written::{Slot, Written, slots_in};
use box_answers::{Coord, LocaleFault, LocaleRule, NumberSet};
use json_tokens::{MOST_DEPTH, Scratch, Tokens};
use locales::read_locale;
use std::alloc::{AllocError, Global};
use std::rc::Rc;

/// The most items of a list.
pub(crate) const MOST_VALUES: usize = 512;

/// The sets of all coordinates.
#[tactic(auto, using(json_tokens::proofs::Whole::text_steps))]
pub(crate) fn sets_in_text(
    alloc: Global,
    json: &[u8],
    rule: LocaleRule,
) -> Result<Vec<NumberSet>, BoxFault>
    ensures value { GivesOr OutOfMemory (λ sets. sets_of sets.items) result (box_in_by rule json.now) }
    ensures sets { IfOk result (λ sets. IsBox (sets_of sets.items)) }
    ensures by_rule { IfOk result (λ sets. IsByRule rule (sets_of sets.items)) }
{
    let mut scratch = Scratch::new(alloc);
    let mut tokens = Tokens::of(json, &mut scratch)?;
    let slots = slots_in(alloc, &mut tokens, MOST_DEPTH)?;
    tokens.end()?;
    let Some(slots) = slots else {
        return Err(BoxFault::Shape);
    };
    sets_of_slots(alloc, slots.as_slice(), rule)
}

// A wrong shape at any coordinate comes before every other fault.
fn sets_of_slots(
    alloc: Global,
    slots: &[Slot<'_>],
    rule: LocaleRule,
) -> Result<Vec<NumberSet>, BoxFault>
    requires { map (λ slot. slot.coord) slots.now ≡ all_coords }
    ensures value { GivesOr OutOfMemory (λ sets. sets_of sets.items) result (sets_in_slots rule slots.now) }
    ensures sets { IfOk result (λ sets. IsBox (sets_of sets.items)) }
    ensures by_rule { IfOk result (λ sets. IsByRule rule (sets_of sets.items)) }
{
    let written = written_of_each(alloc, slots)?;
    sets_of_each(alloc, written.as_slice(), rule)
}

// Where no shape is wrong.
#[tactic(auto, using(json_input::proofs::EachSteps::each_steps))]
fn written_of_each<'s, 'a>(
    alloc: Global,
    slots: &'s [Slot<'a>],
) -> Result<Vec<(Coord, &'s Written<'a>)>, BoxFault>
    ensures value { GivesOr OutOfMemory (λ pairs. map pair_seen pairs.items) result (each slot_seen slots.now) }
    ensures coords { IfOk result (λ pairs. map (λ pair. pair.0) pairs.items ≡ map (λ slot. slot.coord) slots.now) }
{
    let mut pairs = Vec::with_capacity(alloc, slots.len())?;
    for slot in slots {
        let Some(written) = &slot.written else {
            return Err(BoxFault::Shape);
        };
        pairs.push((slot.coord, written))?;
    }
    Ok(pairs)
}

#[tactic(auto, using(json_input::proofs::EachSteps::each_item_steps))]
fn sets_of_each(
    alloc: Global,
    written: &[(Coord, &Written<'_>)],
    rule: LocaleRule,
) -> Result<Vec<NumberSet>, BoxFault>
    requires { map (λ pair. pair.0) written.now ≡ all_coords }
    ensures value { GivesOr OutOfMemory (λ sets. sets_of sets.items) result (each (set_in rule) (map pair_seen written.now)) }
    ensures sets { IfOk result (λ sets. IsBox (sets_of sets.items)) }
    ensures by_rule { IfOk result (λ sets. IsByRule rule (sets_of sets.items)) }
{
    let mut sets = Vec::with_capacity(alloc, written.len())?;
    for (coord, what) in written {
        let set = set_in(alloc, *coord, what, rule)?;
        sets.push(set)?;
    }
    Ok(sets)
}

#[tactic(auto, unfolding(crate::specs::BoxJson::set_in))]
fn set_in(
    alloc: Global,
    at: Coord,
    written: &Written,
    rule: LocaleRule,
) -> Result<NumberSet, BoxFault>
    ensures value { GivesOr OutOfMemory set_of result (set_in rule (at, written_seen written.now)) }
    ensures fits { IfOk result (λ set. IsSetBy rule at (set_of set)) }
{
    match (at, written) {
        (_, Written::Nothing) => set_of_nothing(alloc, at, rule),
        (Coord::Locale, Written::Texts(texts)) => set_of_texts(alloc, texts.as_slice(), rule),
        (Coord::Locale, _) => Err(BoxFault::Shape),
        (_, Written::Range(from, to)) => set_of_range(at, *from, *to),
        (_, Written::Numbers(numbers)) => set_of_numbers(alloc, at, numbers.as_slice()),
        (_, Written::Texts(_)) => Err(BoxFault::Shape),
    }
}

// ---- numbers

fn any_outside(at: Coord, numbers: &[u64]) -> bool
    ensures { result ≡ list_any (is_outside at) numbers.now }
{
    for number in numbers {
        if at.is_outside(*number) {
            return true;
        }
    }
    false
}

#[tactic(auto, unfolding(crate::specs::BoxJson::outside_fault))]
fn outside_fault(at: Coord) -> BoxFault
    ensures { result ≡ outside_fault at }
{
    match at {
        Coord::Density => BoxFault::Density,
        _ => BoxFault::FieldRange(at),
    }
}

#[tactic(auto, unfolding(crate::specs::BoxJson::set_of_range))]
fn set_of_range(at: Coord, from: u64, to: u64) -> Result<NumberSet, BoxFault>
    requires { at ≢ coords.Locale }
    ensures value { set_seen result ≡ set_of_range at from to }
    ensures fits { IfOk result (λ set. IsSetAt at (set_of set)) }
{
    if from > to {
        return Err(BoxFault::Empty(at));
    }
    if at.is_outside(from) {
        return Err(outside_fault(at));
    }
    if at.is_outside(to) {
        return Err(outside_fault(at));
    }
    Ok(NumberSet::Range(from as u32, to as u32))
}

#[tactic(auto, unfolding(crate::specs::BoxJson::set_of_numbers))]
fn set_of_numbers(alloc: Global, at: Coord, numbers: &[u64]) -> Result<NumberSet, BoxFault>
    requires { at ≢ coords.Locale }
    ensures value { GivesOr OutOfMemory set_of result (set_of_numbers at numbers.now) }
    ensures fits { IfOk result (λ set. IsSetAt at (set_of set)) }
{
    if numbers.is_empty() {
        return Err(BoxFault::Empty(at));
    }
    if numbers.len() > MOST_VALUES {
        return Err(BoxFault::TooMany(at));
    }
    if any_outside(at, numbers) {
        return Err(outside_fault(at));
    }
    Ok(numbers_set(alloc, numbers)?)
}

fn numbers_set(alloc: Global, numbers: &[u64]) -> Result<NumberSet, AllocError>
    requires { (k : ℕ) → k < length numbers.now → slice_index numbers.now k < 2 ^ 32 }
    ensures { IfOk result (λ set. set_of set ≡ NumbersOf (rising numbers.now)) }
{
    let chosen = rising(alloc, numbers)?;
    let chosen = narrowed(alloc, chosen.as_slice())?;
    Ok(NumberSet::Numbers(Rc::new(alloc, chosen)?))
}

// ---- locales

fn is_malformed(text: &str, rule: LocaleRule) -> bool
    ensures { result ≡ is_malformed rule text.now }
{
    match read_locale(text, rule) {
        Err(LocaleFault::Malformed) => true,
        Ok(_) | Err(LocaleFault::RegionAlone) => false,
    }
}

fn is_region_alone(text: &str, rule: LocaleRule) -> bool
    ensures { result ≡ is_region_alone rule text.now }
{
    match read_locale(text, rule) {
        Err(LocaleFault::RegionAlone) => true,
        Ok(_) | Err(LocaleFault::Malformed) => false,
    }
}

fn any_malformed(texts: &[&str], rule: LocaleRule) -> bool
    ensures { result ≡ list_any (is_malformed rule) (map (λ text. text.now) texts.now) }
{
    for text in texts {
        if is_malformed(text, rule) {
            return true;
        }
    }
    false
}

fn any_region_alone(texts: &[&str], rule: LocaleRule) -> bool
    ensures { result ≡ list_any (is_region_alone rule) (map (λ text. text.now) texts.now) }
{
    for text in texts {
        if is_region_alone(text, rule) {
            return true;
        }
    }
    false
}

/// That no script is known, where locales are compared as a phone does it, is all that the number of no locale says.
const NO_LOCALE_OF_A_PHONE: u64 = 1;

// The number of no locale.
fn number_of_none(rule: LocaleRule) -> u64
    ensures value { result ≡ number_of_none rule }
    ensures of_rule { IsOfRule rule result }
{
    match rule {
        LocaleRule::LanguageAndRegion => 0,
        LocaleRule::Android => NO_LOCALE_OF_A_PHONE,
    }
}

// The number of a text's locale, that of no locale where it has none.
fn number_of_text(text: &str, rule: LocaleRule) -> u64
    ensures value { result ≡ number_of_text rule text.now }
    ensures of_rule { IsOfRule rule result }
{
    match read_locale(text, rule) {
        Ok(locale) => locale.number(),
        Err(_) => number_of_none(rule),
    }
}

#[tactic(auto, unfolding(crate::specs::BoxJson::set_of_texts))]
fn set_of_texts(alloc: Global, texts: &[&str], rule: LocaleRule) -> Result<NumberSet, BoxFault>
    ensures value { GivesOr OutOfMemory set_of result (set_of_texts rule (map (λ text. text.now) texts.now)) }
    ensures fits { IfOk result (λ set. IsSetBy rule coords.Locale (set_of set)) }
{
    let at = Coord::Locale;
    if texts.is_empty() {
        return Err(BoxFault::Empty(at));
    }
    if texts.len() > MOST_VALUES {
        return Err(BoxFault::TooMany(at));
    }
    if any_malformed(texts, rule) {
        return Err(BoxFault::FieldRange(at));
    }
    if any_region_alone(texts, rule) {
        return Err(BoxFault::RegionAlone);
    }
    let numbers = numbers_of_texts(alloc, texts, rule)?;
    Ok(locales_set(alloc, numbers.as_slice())?)
}

fn numbers_of_texts(alloc: Global, texts: &[&str], rule: LocaleRule) -> Result<Vec<u64>, AllocError>
    ensures value { IfOk result (λ numbers. numbers.items ≡ map (number_of_text rule) (map (λ text. text.now) texts.now)) }
    ensures of_rule { IfOk result (λ numbers. (k : ℕ) → k < length numbers.items → IsOfRule rule (slice_index numbers.items k)) }
{
    let mut numbers = Vec::with_capacity(alloc, texts.len())?;
    for text in texts {
        numbers.push(number_of_text(text, rule))?;
    }
    Ok(numbers)
}

fn locales_set(alloc: Global, numbers: &[u64]) -> Result<NumberSet, AllocError>
    ensures { IfOk result (λ set. set_of set ≡ LocalesOf (rising numbers.now)) }
{
    let chosen = rising(alloc, numbers)?;
    let locales = locales_of(alloc, chosen.as_slice())?;
    Ok(NumberSet::Locales(Rc::new(alloc, locales)?))
}

// ---- a coordinate of which nothing is said

#[tactic(auto, unfolding(crate::specs::BoxJson::set_of_nothing))]
fn set_of_nothing(alloc: Global, at: Coord, rule: LocaleRule) -> Result<NumberSet, BoxFault>
    ensures value { GivesOr OutOfMemory set_of result (set_of_nothing rule at) }
    ensures fits { IfOk result (λ set. IsSetBy rule at (set_of set)) }
{
    match at {
        Coord::Density => Err(BoxFault::Density),
        Coord::Locale => Ok(locales_set(alloc, &[number_of_none(rule)])?),
        _ => Ok(numbers_set(alloc, &[0])?),
    }
}
