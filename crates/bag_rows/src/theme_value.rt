//! What a theme has for an attribute.

ghost use Rattle.std.specs.Prelude.{◌≡◌};
ghost use Rattle.bag_rows.specs.Undefined.{is_undefined_value};

use res_value::{Value, kind};

/// A value that is set for an attribute (AOSP: `ResTable::Theme::theme_entry`).
#[derive(Clone, Copy)]
pub struct ThemeValue {
    /// The index of the layer that it came from.
    pub layer: usize,
    pub value: Value,
}

impl ThemeValue {
    /// Whether it is undefined, so that the attribute is as one that is unset.
    pub fn is_undefined(&self) -> bool
        ensures { result ≡ is_undefined_value self.now }
    {
        self.value.kind == kind::NULL && self.value.word != kind::NULL_EMPTY
    }
}
