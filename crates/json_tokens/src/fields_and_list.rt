//! The members of an object that are looked for, where one is a list.

ghost use Rattle.std.specs.Prelude.{◌≡◌, ◌<◌, length, map, false, IfOk, OnOk};
ghost use Rattle.json_tokens.specs.json_input.Shape.{is_among};
ghost use Rattle.json_tokens.specs.Standing.{value_at};
ghost use Rattle.json_tokens.specs.Reads.{Reads};
ghost use Rattle.json_tokens.specs.Fields.{HaveRoom, fields_and_list, fields_and_list_seen};

use crate::fields::clear;
use crate::kind::Kind;
use crate::malformed::Malformed;
use crate::short_list::ShortList;
use crate::tokens::Tokens;

/// Whether a value is an object that has no member but of some names.
#[derive(Clone, Copy, Drop)]
pub enum Fields {
    /// It is; and what stands at the name of the list.
    Only(Option<ShortList>),
    Other,
}

impl<'a> Tokens<'a> {
    /// Reads the members of an object that has none but of these names and one that is the name of a short list. Each
    /// has a slot, and the kinds of the items of the list are written from the front on; of a member that stands twice
    /// the last counts.
    pub fn fields_and_list(
        &mut self,
        depth: usize,
        names: &[&str],
        slots: &mut [Option<Kind<'a>>],
        list_name: &str,
        kinds: &mut [Kind<'a>],
    ) -> Result<Fields, Malformed>
        requires slots { length slots.old ≡ length names.now }
        requires other_name { is_among (map (λ name. name.now) names.now) list_name.now ≡ false }
        ensures value { Reads (fields_and_list_seen slots.new kinds.new) (fields_and_list (map (λ name. name.now) names.now) list_name.now (length kinds.old)) (value_at depth self.old) result self.new }
        ensures room { IfOk result (HaveRoom (length kinds.old)) }
        ensures shorter { OnOk result (length self.new < length self.old) }
    {
        clear(slots);
        if !self.enter_object(depth)? {
            return Ok(Fields::Other);
        }
        let mut only = true;
        let mut list = None;
        'members: while let Some(name) = self.next_member()? {
            if name == list_name {
                list = Some(self.short_list(depth - 1, kinds)?);
                continue;
            }
            only &= self.field(depth - 1, name, names, slots)?;
        }
        if !only {
            return Ok(Fields::Other);
        }
        Ok(Fields::Only(list))
    }
}
