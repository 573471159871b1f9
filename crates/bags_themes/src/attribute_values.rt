//! What styles have set for attributes.

ghost use Rattle.std.specs.Prelude.{◌≡◌, [], ◌∷◌, IfOk, OnOk};
ghost use Rattle.indexmap.specs.IndexMap.{hasher_of};
ghost use Rattle.reference_resolver.specs.overlay_map.ContentKeys.{keys_of};
ghost use Rattle.bags_themes.specs.Theme.{value_of, is_undefined, AppliesRows, attributes_of};

use bag_rows::{BagRow, ThemeValue};
use indexmap::IndexMap;
use reference_resolver::{ContentKeys, Contents, ResId};
use std::alloc::{AllocError, Global};

/// The values of attributes.
pub(crate) type AttributeValues = IndexMap<ResId, ThemeValue, ContentKeys>;

/// The values after rows were applied. They are a new map, the keys of whose hashes are made of all attributes that
/// have a value or a row. So no style can choose attributes that make it slow.
pub(crate) fn with_rows(
    alloc: Global,
    values: &AttributeValues,
    rows: &[BagRow],
    force: bool,
) -> Result<AttributeValues, AllocError>
    ensures applied { IfOk result (λ after. AppliesRows force rows.now values.now.entries after.entries) }
    ensures keyed { IfOk result (λ after. hasher_of after ≡ keys_of (attributes_of values.now.entries rows.now)) }
{
    let mut after = with_keys(alloc, values, keys_of_attributes(values, rows))?;
    set_rows(&mut after, rows, force)?;
    Ok(after)
}

// The keys that the attributes of values and rows make.
fn keys_of_attributes(values: &AttributeValues, rows: &[BagRow]) -> ContentKeys
    ensures { result ≡ keys_of (attributes_of values.now.entries rows.now) }
{
    let mut contents = Contents::new();
    'values: for place in 0..values.len() {
        let Some((attr, _)) = values.get_index(place) else {
            unreachable!()
        };
        contents.add(attr.0);
    }
    'rows: for row in rows {
        contents.add(row.name.0);
    }
    contents.keys()
}

// The same values with other keys.
fn with_keys(
    alloc: Global,
    values: &AttributeValues,
    keys: ContentKeys,
) -> Result<AttributeValues, AllocError>
    ensures same { IfOk result (λ same. same.entries ≡ values.now.entries) }
    ensures keyed { IfOk result (λ same. hasher_of same ≡ keys) }
{
    let mut same = IndexMap::with_capacity_and_hasher(alloc, values.len(), keys)?;
    'values: for place in 0..values.len() {
        let Some((attr, set)) = values.get_index(place) else {
            unreachable!()
        };
        same.insert(*attr, *set)?;
    }
    Ok(same)
}

fn set_rows(values: &mut AttributeValues, rows: &[BagRow], force: bool) -> Result<(), AllocError>
    ensures applied { OnOk result (AppliesRows force rows.now values.old.entries values.new.entries) }
    ensures hasher { hasher_of values.new ≡ hasher_of values.old }
{
    for row in rows {
        set_row(values, row, force)?;
    }
    Ok(())
}

fn set_row(values: &mut AttributeValues, row: &BagRow, force: bool) -> Result<(), AllocError>
    ensures applied { OnOk result (AppliesRows force (row.now ∷ []) values.old.entries values.new.entries) }
    ensures hasher { hasher_of values.new ≡ hasher_of values.old }
{
    if force || is_undefined(values, row.name) {
        let set = ThemeValue {
            layer: row.layer,
            value: row.value,
        };
        values.insert(row.name, set)?;
    }
    Ok(())
}

// Whether an attribute is unset, or set to a value that is undefined.
fn is_undefined(values: &AttributeValues, attr: ResId) -> bool
    ensures { result ≡ is_undefined (value_of values.now.entries attr.0) }
{
    match values.get(&attr) {
        Some(set) => set.is_undefined(),
        None => true,
    }
}
