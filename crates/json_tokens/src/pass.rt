//! Values that are passed.

ghost use Rattle.std.specs.Prelude.{length, ◌<◌, OnOk};
ghost use Rattle.serde_json.specs.Data.{no_members};
ghost use Rattle.json_tokens.specs.Standing.{value_at, items_at, members_at};
ghost use Rattle.json_tokens.specs.Kind.{kind_of, kind_seen, EntersList, EntersObject};
ghost use Rattle.json_tokens.specs.Reads.{Passes, Reads};

use crate::kind::Kind;
use crate::malformed::Malformed;
use crate::tokens::Tokens;

impl<'a> Tokens<'a> {
    /// Passes a value, in which lists and objects may nest this deep.
    #[cycle(pass)]
    pub fn pass(&mut self, depth: usize) -> Result<(), Malformed>
        ensures value { Passes (value_at depth self.old) result self.new }
        ensures shorter { OnOk result (length self.new < length self.old) }
    {
        match self.begin(depth)? {
            Kind::List => self.pass_items(depth - 1),
            Kind::Object => self.pass_members(depth - 1),
            Kind::Number(_) | Kind::Text(_) | Kind::Other => Ok(()),
        }
    }

    /// Passes the items of a list that are left.
    #[cycle(pass)]
    pub fn pass_items(&mut self, depth: usize) -> Result<(), Malformed>
        ensures value { Passes (items_at depth self.old) result self.new }
        ensures shorter { OnOk result (length self.new < length self.old) }
    {
        'items: while self.next_item() {
            self.pass(depth)?;
        }
        Ok(())
    }

    // Passes the members of an object that are left.
    #[cycle(pass)]
    fn pass_members(&mut self, depth: usize) -> Result<(), Malformed>
        ensures value { Passes (members_at depth no_members self.old) result self.new }
        ensures shorter { OnOk result (length self.new < length self.old) }
    {
        'members: while let Some(_) = self.next_member()? {
            self.pass(depth)?;
        }
        Ok(())
    }

    /// The kind of a value, which is passed.
    pub fn kind(&mut self, depth: usize) -> Result<Kind<'a>, Malformed>
        ensures value { Reads kind_seen kind_of (value_at depth self.old) result self.new }
        ensures shorter { OnOk result (length self.new < length self.old) }
    {
        let kind = self.begin(depth)?;
        match kind {
            Kind::List => self.pass_items(depth - 1)?,
            Kind::Object => self.pass_members(depth - 1)?,
            Kind::Number(_) | Kind::Text(_) | Kind::Other => {}
        }
        Ok(kind)
    }

    /// Whether a list stands here, which is entered. Another value is passed.
    pub fn enter_list(&mut self, depth: usize) -> Result<bool, Malformed>
        ensures value { EntersList depth self.old result self.new }
        ensures shorter { OnOk result (length self.new < length self.old) }
    {
        match self.begin(depth)? {
            Kind::List => Ok(true),
            Kind::Object => {
                self.pass_members(depth - 1)?;
                Ok(false)
            }
            Kind::Number(_) | Kind::Text(_) | Kind::Other => Ok(false),
        }
    }

    /// Whether an object stands here, which is entered. Another value is passed.
    pub fn enter_object(&mut self, depth: usize) -> Result<bool, Malformed>
        ensures value { EntersObject depth self.old result self.new }
        ensures shorter { OnOk result (length self.new < length self.old) }
    {
        match self.begin(depth)? {
            Kind::Object => Ok(true),
            Kind::List => {
                self.pass_items(depth - 1)?;
                Ok(false)
            }
            Kind::Number(_) | Kind::Text(_) | Kind::Other => Ok(false),
        }
    }
}
