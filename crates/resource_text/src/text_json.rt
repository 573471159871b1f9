//! Texts and ids as JSON values.

ghost use Rattle.std.specs.Prelude.{◌≡◌, IfOk};
ghost use Rattle.serde_json.specs.View.{view};
ghost use Rattle.res_value.specs.ResId.{id_text};
ghost use Rattle.resource_text.specs.TextJson.{text_data};

use bstr::ByteSlice;
use res_value::{ResId, write_id};
use serde_json::Value;
use std::alloc::{AllocError, Global};

/// A text; in bytes that are no UTF-8, U+FFFD stands for what is no character.
#[tactic(auto, unfolding(crate::specs::TextJson::text_data))]
pub fn text_json(alloc: Global, text: &[u8]) -> Result<Value, AllocError>
    ensures { IfOk result (λ value. view value ≡ text_data text.now) }
{
    let text = text.to_str_lossy(alloc)?;
    Value::try_from_str(alloc, text.as_str())
}

/// An id in hexadecimal digits.
pub fn id_json(alloc: Global, id: ResId) -> Result<Value, AllocError>
    ensures { IfOk result (λ json. view json ≡ text_data (id_text id.0)) }
{
    let mut text = Vec::new(alloc);
    match write_id(id, &mut text) {
        Ok(()) => text_json(alloc, &text),
        // To a `Vec` only a want of memory is a fault.
        Err(_) => Err(AllocError),
    }
}
