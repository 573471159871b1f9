//! Lists of few items.

ghost use Rattle.std.specs.Prelude.{◌<◌, length, IfOk, OnOk};
ghost use Rattle.json_tokens.specs.Standing.{value_at};
ghost use Rattle.json_tokens.specs.Reads.{Reads};
ghost use Rattle.json_tokens.specs.ShortList.{HasRoom, short_list, short_list_seen};

use crate::kind::Kind;
use crate::malformed::Malformed;
use crate::tokens::Tokens;

/// How many items a list has.
#[derive(Clone, Copy, Drop)]
pub enum ShortList {
    /// The value is no list.
    NoList,
    Fits(usize),
    /// More than there is room for.
    Longer,
}

impl<'a> Tokens<'a> {
    /// Reads the items of a list, where there is room for their kinds, which are written from the front on.
    pub fn short_list(
        &mut self,
        depth: usize,
        kinds: &mut [Kind<'a>],
    ) -> Result<ShortList, Malformed>
        ensures value { Reads (short_list_seen kinds.new) (short_list (length kinds.old)) (value_at depth self.old) result self.new }
        ensures room { IfOk result (HasRoom (length kinds.old)) }
        ensures shorter { OnOk result (length self.new < length self.old) }
    {
        if !self.enter_list(depth)? {
            return Ok(ShortList::NoList);
        }
        let mut count = 0;
        'items: while self.next_item() {
            let kind = self.kind(depth - 1)?;
            if count == kinds.len() {
                self.pass_items(depth - 1)?;
                return Ok(ShortList::Longer);
            }
            kinds[count] = kind;
            count += 1;
        }
        Ok(ShortList::Fits(count))
    }
}
