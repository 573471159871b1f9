//! The members of an object that are looked for.

ghost use Rattle.std.specs.Prelude.{◌≡◌, ◌<◌, length, map, replicate, None, OnOk};
ghost use Rattle.json_tokens.specs.json_input.Shape.{is_among};
ghost use Rattle.serde_json.specs.Data.{object, no_members};
ghost use Rattle.json_tokens.specs.Standing.{value_at, members_at};
ghost use Rattle.json_tokens.specs.Kind.{kind_of};
ghost use Rattle.json_tokens.specs.Reads.{Reads};
ghost use Rattle.json_tokens.specs.Fields.{fields, fields_seen, slots_seen, with_field};

use crate::kind::Kind;
use crate::malformed::Malformed;
use crate::tokens::Tokens;

impl<'a> Tokens<'a> {
    /// Reads the members of an object that has none but of these names. Each has a slot; of a member that stands twice
    /// the last counts.
    pub fn fields(
        &mut self,
        depth: usize,
        names: &[&str],
        slots: &mut [Option<Kind<'a>>],
    ) -> Result<bool, Malformed>
        requires { length slots.old ≡ length names.now }
        ensures value { Reads (fields_seen slots.new) (fields (map (λ name. name.now) names.now)) (value_at depth self.old) result self.new }
        ensures shorter { OnOk result (length self.new < length self.old) }
    {
        if !self.enter_object(depth)? {
            return Ok(false);
        }
        self.fields_left(depth - 1, names, slots)
    }

    /// The same of an object that was entered.
    pub fn fields_left(
        &mut self,
        depth: usize,
        names: &[&str],
        slots: &mut [Option<Kind<'a>>],
    ) -> Result<bool, Malformed>
        requires { length slots.old ≡ length names.now }
        ensures value { Reads (fields_seen slots.new) (λ found. fields (map (λ name. name.now) names.now) (object found)) (members_at depth no_members self.old) result self.new }
        ensures shorter { OnOk result (length self.new < length self.old) }
    {
        clear(slots);
        let mut only = true;
        'members: while let Some(name) = self.next_member()? {
            only &= self.field(depth, name, names, slots)?;
        }
        Ok(only)
    }

    /// Reads the value of a member into the slot of its name; whether it has one.
    pub fn field(
        &mut self,
        depth: usize,
        name: &str,
        names: &[&str],
        slots: &mut [Option<Kind<'a>>],
    ) -> Result<bool, Malformed>
        requires { length slots.old ≡ length names.now }
        ensures known { OnOk result (result ≡ Ok (is_among (map (λ name. name.now) names.now) name.now)) }
        ensures filled { Reads (λ _. slots_seen slots.new)
            (λ value. with_field (map (λ name. name.now) names.now) name.now (kind_of value) (slots_seen slots.old))
            (value_at depth self.old) result self.new }
        ensures shorter { OnOk result (length self.new < length self.old) }
    {
        let kind = self.kind(depth)?;
        Ok(fill(name, names, kind, slots))
    }
}

// Fills the slot of this name, if there is one.
fn fill<'a>(name: &str, names: &[&str], kind: Kind<'a>, slots: &mut [Option<Kind<'a>>]) -> bool
    requires { length slots.old ≡ length names.now }
    ensures known { result ≡ is_among (map (λ name. name.now) names.now) name.now }
    ensures filled { slots.new ≡ with_field (map (λ name. name.now) names.now) name.now kind.entry slots.old }
{
    let mut known = false;
    'names: for (place, other) in names.iter().enumerate() {
        if *other == name {
            slots[place] = Some(kind);
            known = true;
        }
    }
    known
}

pub(crate) fn clear(slots: &mut [Option<Kind<'_>>])
    ensures { slots.new ≡ replicate (length slots.old) None }
{
    'slots: for place in 0..slots.len() {
        slots[place] = None;
    }
}
