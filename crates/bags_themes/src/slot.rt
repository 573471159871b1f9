//! Where an attribute leads in a theme.

ghost use Rattle.std.specs.Prelude.{◌≡◌};
ghost use Rattle.std.specs.Option.{option_copied};
ghost use Rattle.bags_themes.specs.Attribute.{step_of};

use bag_rows::ThemeValue;
use reference_resolver::{End, ResId, is_reference, kind};

/// What an attribute reaches in a theme.
#[derive(Clone, Copy)]
pub enum Slot {
    /// A reference to this id.
    Refers(ResId),
    /// An end.
    Ends(End),
}

/// Where one attribute leads.
#[derive(Clone, Copy)]
pub(crate) enum AttributeStep {
    /// To this attribute.
    Follows(ResId),
    /// To no other attribute.
    Reaches(Slot),
}

impl AttributeStep {
    ghost use Rattle.std.specs.Option.{option_copied};
    ghost use Rattle.bags_themes.specs.Attribute.{step_of};

    /// Where `attr` leads; `set` is what the theme has for it, if anything.
    pub fn of(attr: ResId, set: Option<&ThemeValue>) -> AttributeStep
        ensures { result ≡ step_of attr.0 (option_copied set.entry) }
    {
        let Some(set) = set else {
            return AttributeStep::Reaches(Slot::Ends(End::Absent { id: attr }));
        };
        let value = set.value;
        if set.is_undefined() {
            AttributeStep::Reaches(Slot::Ends(End::Absent { id: attr }))
        } else if value.kind == kind::ATTRIBUTE {
            AttributeStep::Follows(ResId(value.word))
        } else if is_reference(value) {
            AttributeStep::Reaches(Slot::Refers(ResId(value.word)))
        } else {
            AttributeStep::Reaches(Slot::Ends(End::Value {
                layer: set.layer,
                value,
            }))
        }
    }
}
