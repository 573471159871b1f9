//! Ids and locales as JSON texts.

ghost use Rattle.std.specs.Prelude.{◌≡◌, Some, IfOk};
ghost use Rattle.std.specs.Str.{IsUtf8};
ghost use Rattle.serde_json.specs.Data.{string};
ghost use Rattle.serde_json.specs.View.{view};
ghost use Rattle.res_value.specs.ResId.{id_of, id_text};
ghost use Rattle.cert_tree.specs.WrittenJson.{id_data, locale_data};

use config_box::Locale;
use locales::write_locale;
use res_value::{ResId, write_id};
use serde_json::Value;
use std::alloc::{AllocError, Global};

/// The text of an id.
pub(crate) fn id_value(alloc: Global, id: ResId) -> Result<Value, AllocError>
    ensures data { IfOk result (λ value. view value ≡ id_data id) }
    ensures reads_back { IfOk result (λ _. id_of (id_text id.0) ≡ Some id) }
{
    let mut text = Vec::new(alloc);
    match write_id(id, &mut text) {
        Ok(()) => Ok(text_value(text)),
        // To a `Vec` only a want of memory is a fault.
        Err(_) => Err(AllocError),
    }
}

/// The text of a locale.
pub(crate) fn locale_value(alloc: Global, locale: Locale) -> Result<Value, AllocError>
    ensures { IfOk result (λ value. view value ≡ locale_data locale) }
{
    let mut text = Vec::new(alloc);
    match write_locale(locale, &mut text) {
        Ok(()) => Ok(text_value(text)),
        Err(_) => Err(AllocError),
    }
}

fn text_value(text: Vec<u8>) -> Value
    requires { IsUtf8 text.items }
    ensures { view result ≡ string text.items }
{
    match String::from_utf8(text) {
        Ok(text) => Value::String(text),
        Err(_) => unreachable!(),
    }
}
