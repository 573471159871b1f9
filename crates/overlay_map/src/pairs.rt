//! The pairs of ids that a JSON text is.

ghost use Rattle.std.specs.Prelude.{◌≡◌, ◌<◌, length, OnOk};
ghost use Rattle.contract_words.specs.Exact.{GivesOr};
ghost use Rattle.json_input.specs.Each.{each};
ghost use Rattle.json_tokens.specs.Standing.{value_at, items_at};
ghost use Rattle.json_tokens.specs.Reads.{Reads, ReadsOr};
ghost use Rattle.json_tokens.specs.Kind.{kind_seen};
ghost use Rattle.json_tokens.specs.ShortList.{HasRoom, short_list_seen};
ghost use Rattle.overlay_map.specs.IdMap.{pair_item, pairs_in, pairs_of_text};
ghost use Rattle.overlay_map.specs.PairsRead.{id_of_kind, pair_of_list, pairs_kept};
ghost use Rattle.overlay_map.specs.declared.map_fault.MapFault.TheVariants.{Syntax, OutOfMemory};

use crate::map_fault::MapFault;
use json_tokens::{Kind, MOST_DEPTH, Malformed, Scratch, ShortList, Tokens};
use std::alloc::Global;
use type_chunks::ResId;

/// The pairs of a text that is a list of them, each a target and the overlay's id.
#[tactic(auto, using(json_tokens::proofs::Whole::text_steps))]
pub(crate) fn pairs_of_text(alloc: Global, json: &[u8]) -> Result<Vec<(ResId, ResId)>, MapFault>
    ensures { GivesOr OutOfMemory (λ pairs. pairs.items) result (pairs_of_text json.now) }
{
    let mut scratch = Scratch::new(alloc);
    let mut tokens = Tokens::of(json, &mut scratch)?;
    let pairs = read_pairs(alloc, &mut tokens)?;
    tokens.end()?;
    pairs
}

// Reads the list.
#[tactic(auto, unfolding(crate::specs::IdMap::pairs_in))]
fn read_pairs(
    alloc: Global,
    tokens: &mut Tokens<'_>,
) -> Result<Result<Vec<(ResId, ResId)>, MapFault>, MapFault>
    ensures { ReadsOr Syntax OutOfMemory pairs_kept pairs_in (value_at 127 tokens.old) result tokens.new }
{
    if !tokens.enter_list(MOST_DEPTH)? {
        return Ok(Err(MapFault::Shape));
    }
    read_items(alloc, tokens)
}

// Reads the items that are left. What stands behind the first that is no pair is passed.
#[tactic(auto, using(json_tokens::proofs::EachWalked::each_walked_steps))]
fn read_items(
    alloc: Global,
    tokens: &mut Tokens<'_>,
) -> Result<Result<Vec<(ResId, ResId)>, MapFault>, MapFault>
    ensures { ReadsOr Syntax OutOfMemory pairs_kept (each pair_item) (items_at 126 tokens.old) result tokens.new }
{
    let mut pairs = Vec::new(alloc);
    'items: while tokens.next_item() {
        match read_pair(tokens)? {
            Ok(pair) => pairs.push(pair)?,
            Err(fault) => {
                tokens.pass_items(MOST_DEPTH - 1)?;
                return Ok(Err(fault));
            }
        }
    }
    Ok(Ok(pairs))
}

// Reads an item.
fn read_pair(tokens: &mut Tokens<'_>) -> Result<Result<(ResId, ResId), MapFault>, Malformed>
    ensures value { Reads (λ pair. pair) pair_item (value_at 126 tokens.old) result tokens.new }
    ensures shorter { OnOk result (length tokens.new < length tokens.old) }
{
    let mut kinds = [Kind::Other; 2];
    let list = tokens.short_list(MOST_DEPTH - 1, &mut kinds)?;
    Ok(pair_of(&kinds, list).ok_or(MapFault::Shape))
}

// The pair that a list of two ids is.
fn pair_of(kinds: &[Kind<'_>; 2], list: ShortList) -> Option<(ResId, ResId)>
    requires { HasRoom 2 list }
    ensures { result ≡ pair_of_list (short_list_seen kinds.now list) }
{
    let ShortList::Fits(2) = list else {
        return None;
    };
    Some((id_of(kinds[0])?, id_of(kinds[1])?))
}

fn id_of(kind: Kind<'_>) -> Option<ResId>
    ensures { result ≡ id_of_kind (kind_seen kind.entry) }
{
    match kind {
        Kind::Text(text) => ResId::read(text),
        Kind::Number(_) | Kind::List | Kind::Object | Kind::Other => None,
    }
}
