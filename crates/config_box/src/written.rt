//! What a JSON text says of the coordinates of a box.

ghost use Rattle.std.specs.Prelude.{◌≡◌, ◌<◌, length, map, false, IfOk, OnOk, IfSome, MatchOption, option_map, option_and_then, slice_set};
ghost use Rattle.serde_json.specs.Data.{object, no_members};
ghost use Rattle.json_input.specs.Shape.{is_among};
ghost use Rattle.json_tokens.specs.Standing.{value_at, items_at, members_at};
ghost use Rattle.json_tokens.specs.Kind.{kind_seen, number_in};
ghost use Rattle.json_tokens.specs.Reads.{Reads, ReadsOr};
ghost use Rattle.box_answers.specs.config_record.Coord.{all_coords, name_of, place_of};
ghost use Rattle.config_box.specs.declared.box_fault.BoxFault.TheVariants.{Syntax, OutOfMemory};
ghost use Rattle.config_box.specs.Written.{numbers_in, texts_in};
ghost use Rattle.config_box.specs.Kept.{numbers_kept, texts_kept, range_kept, kept_at, slot_at, kept_in, keep};

use crate::box_fault::BoxFault;
use crate::read::MOST_VALUES;
use box_answers::Coord;
use json_tokens::{Kind, Malformed, Tokens};
use std::alloc::{AllocError, Global};

/// The names of the members of a range.
const FROM: &str = "from";

const TO: &str = "to";

/// What is written of a coordinate. Of a list at most one item more than a box may have is kept, which tells that
/// there are too many.
#[derive(Drop)]
pub(crate) enum Written<'a> {
    Nothing,
    /// All numbers from the first to the second.
    Range(u64, u64),
    Numbers(Vec<u64>),
    Texts(Vec<&'a str>),
}

/// A coordinate, with what the last member of its name says, where that has the right shape.
#[derive(Drop)]
pub(crate) struct Slot<'a> {
    pub(crate) coord: Coord,
    pub(crate) written: Option<Written<'a>>,
}

ghost use Rattle.config_box.specs.BoxSeen.{read_seen, slot_seen, slots_seen};

/// Reads what is written of each coordinate, or none where the value is no object of coordinates alone.
pub(crate) fn slots_in<'a>(
    alloc: Global,
    tokens: &mut Tokens<'a>,
    depth: usize,
) -> Result<Option<Vec<Slot<'a>>>, BoxFault>
    ensures value { ReadsOr Syntax OutOfMemory slots_seen kept_in (value_at depth tokens.old) result tokens.new }
    ensures coords { IfOk result (λ slots. IfSome slots (λ slots. map (λ slot. slot.coord) slots.items ≡ all_coords)) }
{
    let mut slots = empty_slots(alloc, &Coord::ALL)?;
    if !tokens.enter_object(depth)? {
        return Ok(None);
    }
    let mut only = true;
    'members: while let Some(name) = tokens.next_member()? {
        match coord_named(name) {
            Some(coord) => {
                let written = value_at(alloc, tokens, depth - 1, coord)?;
                put(&mut slots, Slot { coord, written });
            }
            None => {
                tokens.pass(depth - 1)?;
                only = false;
            }
        }
    }
    if !only {
        return Ok(None);
    }
    Ok(Some(slots))
}

fn empty_slots<'a>(alloc: Global, coords: &[Coord]) -> Result<Vec<Slot<'a>>, AllocError>
    ensures seen { IfOk result (λ slots. map slot_seen slots.items ≡ map (slot_at (object no_members)) coords.now) }
    ensures coords { IfOk result (λ slots. map (λ slot. slot.coord) slots.items ≡ coords.now) }
{
    let mut slots = Vec::with_capacity(alloc, coords.len())?;
    for coord in coords {
        slots.push(Slot {
            coord: *coord,
            written: Some(Written::Nothing),
        })?;
    }
    Ok(slots)
}

// The slots of other coordinates stay.
fn put<'a>(slots: &mut Vec<Slot<'a>>, slot: Slot<'a>)
    requires { length slots.old.items ≡ 25 }
    ensures { slots.new.items ≡ slice_set slots.old.items (place_of slot.entry.coord) slot.entry }
{
    let place = slot.coord.place();
    slots[place] = slot;
}

#[tactic(auto, unfolding(crate::specs::Unfolded::all_coords))]
fn coord_named(name: &str) -> Option<Coord>
    ensures { MatchOption result (is_among (map name_of all_coords) name.now ≡ false) (λ c. name_of c ≡ name.now) }
{
    named_in(&Coord::ALL, name)
}

fn named_in(coords: &[Coord], name: &str) -> Option<Coord>
    ensures { MatchOption result (is_among (map name_of coords.now) name.now ≡ false) (λ c. name_of c ≡ name.now) }
{
    for coord in coords {
        if coord.name() == name {
            return Some(*coord);
        }
    }
    None
}

fn value_at<'a>(
    alloc: Global,
    tokens: &mut Tokens<'a>,
    depth: usize,
    at: Coord,
) -> Result<Option<Written<'a>>, BoxFault>
    ensures value { ReadsOr Syntax OutOfMemory read_seen (kept_at at) (value_at depth tokens.old) result tokens.new }
    ensures shorter { OnOk result (length tokens.new < length tokens.old) }
{
    match at {
        Coord::Locale => texts_in(alloc, tokens, depth),
        _ => numbers_in(alloc, tokens, depth),
    }
}

// A list of numbers, or a range.
fn numbers_in<'a>(
    alloc: Global,
    tokens: &mut Tokens<'a>,
    depth: usize,
) -> Result<Option<Written<'a>>, BoxFault>
    ensures value { ReadsOr Syntax OutOfMemory read_seen (λ value. keep (numbers_in value)) (value_at depth tokens.old) result tokens.new }
    ensures shorter { OnOk result (length tokens.new < length tokens.old) }
{
    match tokens.begin(depth)? {
        Kind::List => number_items(alloc, tokens, depth - 1),
        Kind::Object => Ok(range_members(tokens, depth - 1)?),
        Kind::Number(_) | Kind::Text(_) | Kind::Other => Ok(None),
    }
}

// The items of a list that was entered, where all are numbers.
fn number_items<'a>(
    alloc: Global,
    tokens: &mut Tokens<'a>,
    depth: usize,
) -> Result<Option<Written<'a>>, BoxFault>
    ensures value { ReadsOr Syntax OutOfMemory read_seen numbers_kept (items_at depth tokens.old) result tokens.new }
    ensures shorter { OnOk result (length tokens.new < length tokens.old) }
{
    let mut numbers = Vec::new(alloc);
    'items: while tokens.next_item() {
        let kind = tokens.kind(depth)?;
        let Kind::Number(number) = kind else {
            tokens.pass_items(depth)?;
            return Ok(None);
        };
        if numbers.len() <= MOST_VALUES {
            numbers.push(number)?;
        }
    }
    Ok(Some(Written::Numbers(numbers)))
}

fn texts_in<'a>(
    alloc: Global,
    tokens: &mut Tokens<'a>,
    depth: usize,
) -> Result<Option<Written<'a>>, BoxFault>
    ensures value { ReadsOr Syntax OutOfMemory read_seen (λ value. keep (texts_in value)) (value_at depth tokens.old) result tokens.new }
    ensures shorter { OnOk result (length tokens.new < length tokens.old) }
{
    if !tokens.enter_list(depth)? {
        return Ok(None);
    }
    text_items(alloc, tokens, depth - 1)
}

// The items of a list that was entered, where all are texts.
fn text_items<'a>(
    alloc: Global,
    tokens: &mut Tokens<'a>,
    depth: usize,
) -> Result<Option<Written<'a>>, BoxFault>
    ensures value { ReadsOr Syntax OutOfMemory read_seen texts_kept (items_at depth tokens.old) result tokens.new }
    ensures shorter { OnOk result (length tokens.new < length tokens.old) }
{
    let mut texts = Vec::new(alloc);
    'items: while tokens.next_item() {
        let kind = tokens.kind(depth)?;
        let Kind::Text(text) = kind else {
            tokens.pass_items(depth)?;
            return Ok(None);
        };
        if texts.len() <= MOST_VALUES {
            texts.push(text)?;
        }
    }
    Ok(Some(Written::Texts(texts)))
}

// The members of an object that was entered, where they are the first number and the last.
fn range_members<'a>(
    tokens: &mut Tokens<'a>,
    depth: usize,
) -> Result<Option<Written<'a>>, Malformed>
    ensures value { Reads read_seen range_kept (members_at depth no_members tokens.old) result tokens.new }
    ensures shorter { OnOk result (length tokens.new < length tokens.old) }
{
    let mut ends = [None; 2];
    if !tokens.fields_left(depth, &[FROM, TO], &mut ends)? {
        return Ok(None);
    }
    let Some(from) = number_of(ends[0]) else {
        return Ok(None);
    };
    let Some(to) = number_of(ends[1]) else {
        return Ok(None);
    };
    Ok(Some(Written::Range(from, to)))
}

fn number_of(kind: Option<Kind<'_>>) -> Option<u64>
    ensures { result ≡ option_and_then number_in (option_map kind_seen kind.entry) }
{
    match kind {
        Some(Kind::Number(number)) => Some(number),
        _ => None,
    }
}
