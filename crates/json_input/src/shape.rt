//! Shapes of values.

ghost use Rattle.std.specs.Prelude.{◌≡◌, map};
ghost use Rattle.std.specs.Option.{option_map};
ghost use Rattle.serde_json.specs.View.{view, members_view};
ghost use Rattle.json_input.specs.Each.{list_of};
ghost use Rattle.json_input.specs.Shape.{is_among, are_among, has_only};

use serde_json::{Map, Value};

/// Whether a value is an object without members of other names than these.
#[tactic(auto, unfolding(crate::specs::Shape::has_only))]
pub fn has_only(value: &Value, names: &[&str]) -> bool
    ensures { result ≡ has_only (map (λ name. name.now) names.now) (view value.now) }
{
    match value.as_object() {
        Some(members) => are_among(members, names),
        None => false,
    }
}

/// The items of a value that is a list.
pub fn list_of(value: &Value) -> Option<&[Value]>
    ensures { option_map (λ items. map view items.now) result ≡ list_of (view value.now) }
{
    match value.as_array() {
        Some(items) => Some(items.as_slice()),
        None => None,
    }
}

#[tactic(auto, unfolding(crate::specs::Shape::are_among))]
fn are_among(members: &Map<String, Value>, names: &[&str]) -> bool
    ensures { result ≡ are_among (map (λ name. name.now) names.now) (members_view members.now.entries) }
{
    for (name, _) in members.iter() {
        if !is_among(name.as_str(), names) {
            return false;
        }
    }
    true
}

#[tactic(auto, unfolding(crate::specs::Shape::is_among))]
fn is_among(name: &str, names: &[&str]) -> bool
    ensures { result ≡ is_among (map (λ name. name.now) names.now) name.now }
{
    for known in names {
        if *known == name {
            return true;
        }
    }
    false
}
