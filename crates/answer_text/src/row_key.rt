//! What tells the rows of a bag apart.

ghost use Rattle.std.specs.Prelude.{◌≡◌};
ghost use Rattle.bags_themes.specs.string_pool.Text.{seen_text};
ghost use Rattle.answer_text.specs.RowKeys.{is_name, has_type, quantity_of};

use crate::content::{Quantity, RowKey};
use bags_themes::{ResId, Stack};
use names::NamedStack;
use std::alloc::{AllocError, Global};

/// By what the rows of a bag are told apart.
#[derive(Clone, Copy)]
pub enum Keys {
    /// By their places, in an array.
    Places,
    /// In plurals.
    Quantities,
    /// By what their ids are called.
    Names,
}

impl Keys {
    ghost use Rattle.std.specs.Prelude.{◌≡◌, IfOk};
    ghost use Rattle.answer_text.specs.ContentSeen.{row_key_of};
    ghost use Rattle.answer_text.specs.RowKeys.{keys_of, row_key};

    /// What tells the rows apart of the bag that an id selects.
    #[tactic(auto, unfolding(crate::specs::RowKeys::keys_of))]
    pub fn of(stack: &Stack<'_>, id: ResId) -> Keys
        ensures { result ≡ keys_of stack.now id.0 }
    {
        if has_type(stack, id, "array") {
            Keys::Places
        } else if has_type(stack, id, "plurals") {
            Keys::Quantities
        } else {
            Keys::Names
        }
    }

    /// The key of the row that has a name and a place.
    #[tactic(auto, unfolding(crate::specs::RowKeys::row_key))]
    pub fn of_row<'a>(
        self,
        alloc: Global,
        stack: &NamedStack<'_, 'a>,
        place: usize,
        name: ResId,
    ) -> Result<RowKey<'a>, AllocError>
        ensures { IfOk result (λ key. row_key_of key ≡ row_key stack.now self place name.0) }
    {
        match (self, quantity_of(name)) {
            (Keys::Places, _) => Ok(RowKey::Place(place)),
            (Keys::Quantities, Some(quantity)) => Ok(RowKey::Quantity(quantity)),
            (Keys::Quantities, None) | (Keys::Names, _) => {
                Ok(RowKey::Called(stack.label_of_id(alloc, name)?))
            }
        }
    }
}

// Whether the type of an id is called so, in the first row that the id has in a base layer.
#[tactic(auto, unfolding(crate::specs::RowKeys::has_type))]
fn has_type(stack: &Stack<'_>, id: ResId, name: &str) -> bool
    ensures { result ≡ has_type name.now stack.now id.0 }
{
    match stack.base_row(id) {
        Some(found) => match found.table.type_name(&found.row) {
            Ok(text) => text.is_text(name),
            Err(_) => false,
        },
        None => false,
    }
}

#[tactic(auto, unfolding(crate::specs::RowKeys::quantity_of))]
fn quantity_of(id: ResId) -> Option<Quantity>
    ensures { result ≡ quantity_of id.0 }
{
    match id.0 {
        0x0100_0004 => Some(Quantity::Other),
        0x0100_0005 => Some(Quantity::Zero),
        0x0100_0006 => Some(Quantity::One),
        0x0100_0007 => Some(Quantity::Two),
        0x0100_0008 => Some(Quantity::Few),
        0x0100_0009 => Some(Quantity::Many),
        _ => None,
    }
}
