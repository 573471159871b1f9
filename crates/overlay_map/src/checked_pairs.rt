//! The pairs of an id map, checked one after the other.

ghost use Rattle.std.specs.Prelude.{◌≡◌, ◌+◌, ◌<◌, ◌≤◌, [], ◌∷◌, ◌++◌, length, OnOk};
ghost use Rattle.contract_words.specs.FillsIn.{FillsIn};
ghost use Rattle.contract_words.specs.Sequences.{joined_each, with_before};
ghost use Rattle.indexmap.specs.IndexMap.{IsEmpty, spare, hasher_of};
ghost use Rattle.overlay_map.specs.ContentKeys.{keys_of};
ghost use Rattle.overlay_map.specs.IdMap.{targets_of, check_target, checked_pair, checked_pairs};

use crate::content_keys::ContentKeys;
use crate::contents::Contents;
use crate::map_fault::MapFault;
use indexmap::IndexMap;
use type_chunks::ResId;

/// The keys that the targets of these pairs make.
pub(crate) fn keys_of_targets(list: &[(ResId, ResId)]) -> ContentKeys
    ensures { result ≡ keys_of (targets_of list.now) }
{
    let mut contents = Contents::new();
    for (target, _) in list {
        contents.add(target.0);
    }
    contents.keys()
}

/// Puts the pairs of a list into an empty map, in which there is room for them. Refused for the first pair that has a
/// fault.
#[tactic(auto, unfolding(crate::specs::IdMap::checked_pairs))]
pub(crate) fn put_pairs(
    list: &[(ResId, ResId)],
    map: &mut IndexMap<ResId, ResId, ContentKeys>,
) -> Result<(), MapFault>
    requires empty { IsEmpty map.old }
    requires room { length list.now ≤ spare map.old }
    ensures checked { FillsIn list.now result (checked_pairs list.now) }
    ensures put { OnOk result (map.new.entries ≡ list.now) }
    ensures hasher { hasher_of map.new ≡ hasher_of map.old }
{
    let Some((first, _)) = list.first() else {
        return Ok(());
    };
    put_each(first.package(), list, map)
}

// The same, where the first target is of this package.
fn put_each(
    first_package: u8,
    list: &[(ResId, ResId)],
    map: &mut IndexMap<ResId, ResId, ContentKeys>,
) -> Result<(), MapFault>
    requires empty { IsEmpty map.old }
    requires room { length list.now ≤ spare map.old }
    ensures checked { FillsIn list.now result (joined_each (checked_pair first_package) (with_before [] list.now)) }
    ensures put { OnOk result (map.new.entries ≡ list.now) }
    ensures hasher { hasher_of map.new ≡ hasher_of map.old }
{
    for pair in list {
        put(first_package, *pair, map)?;
    }
    Ok(())
}

// Puts a pair behind those that the map has; there is room for it. After a fault nothing is said of the map.
#[tactic(auto, unfolding(crate::specs::IdMap::check_target))]
fn put(
    first_package: u8,
    pair: (ResId, ResId),
    map: &mut IndexMap<ResId, ResId, ContentKeys>,
) -> Result<(), MapFault>
    requires { 0 < spare map.old }
    ensures checked { result ≡ check_target first_package map.old.entries pair.0 }
    ensures put { OnOk result (map.new.entries ≡ map.old.entries ++ pair ∷ []) }
    ensures room { spare map.old ≤ spare map.new + 1 }
    ensures hasher { hasher_of map.new ≡ hasher_of map.old }
{
    let (target, own) = pair;
    let Ok(stood) = map.insert(target, own) else {
        unreachable!()
    };
    if stood.is_some() {
        return Err(MapFault::Repeated(target));
    }
    if target.package() != first_package {
        return Err(MapFault::OtherPackage(target));
    }
    Ok(())
}
