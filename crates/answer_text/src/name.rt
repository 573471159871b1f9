//! The names of ids, written.

ghost use Rattle.contract_words.specs.Writes.{Writes};
ghost use Rattle.answer_text.specs.NameText.{its_name};

use bags_themes::{ResId, Stack};
use names::StackNames;
use std::alloc::{AllocError, Global};
use std::io::{self, Write};
use std::marker::Model;

/// A stack, and what its ids are called where names stand beside them. Contracts see it as the stack, and whether they do.
#[derive(Drop)]
pub struct NamesBeside<'s, 'a> {
    stack: &'s Stack<'a>,
    names: Option<StackNames<'s, 'a>>,
}

impl<'s, 'a> Model for NamesBeside<'s, 'a> {
    ghost use Rattle.std.specs.Prelude.{◌≡◌, is_some, IfSome};
    ghost use Rattle.answer_text.specs.NameText.{NamesBesideOf};

    ghost Value = { NamesBesideOf };

    ghost view = { λ beside. record { stack = beside.stack.now; asked = is_some beside.names } };

    ghost invariant = { λ beside. IfSome beside.names (λ names. names ≡ beside.stack.now) };
}

impl<'s, 'a> NamesBeside<'s, 'a> {
    ghost use Rattle.std.specs.Prelude.{◌≡◌, true, false, IfOk, MatchOption};
    ghost use Rattle.contract_words.specs.Writes.{Writes};
    ghost use Rattle.answer_text.specs.NameText.{name_beside};

    /// Where names are asked for, this takes the memory for them.
    pub fn of(
        alloc: Global,
        stack: &'s Stack<'a>,
        asked: bool,
    ) -> Result<NamesBeside<'s, 'a>, AllocError>
        ensures { IfOk result (λ beside. beside ≡ record { stack = stack.now; asked = asked }) }
    {
        if !asked {
            return Ok(NamesBeside { stack, names: None });
        }
        let names = StackNames::of(alloc, stack)?;
        Ok(NamesBeside {
            stack,
            names: Some(names),
        })
    }

    pub fn stack(&self) -> &'s Stack<'a>
        ensures { result.now ≡ self.now.stack }
    {
        self.stack
    }

    /// The names, where they are asked for.
    pub fn names(&self) -> Option<&StackNames<'s, 'a>>
        ensures { MatchOption result (self.now.asked ≡ false) (λ names. (names.now ≡ self.now.stack) × (self.now.asked ≡ true)) }
    {
        self.names.as_ref()
    }

    /// Writes the name of an id behind it, where names are asked for.
    #[tactic(auto, unfolding(crate::specs::NameText::name_beside))]
    pub fn write<W: Write + Drop>(&self, id: ResId, out: &mut W) -> io::Result<()>
        ensures { Writes W.contents out.old out.new result (name_beside self.now.stack id.0 self.now.asked) }
    {
        match &self.names {
            Some(names) => write_its_name(names, id, out),
            None => Ok(()),
        }
    }
}

/// Writes the word for the name of an id behind it, if it has one.
#[tactic(auto, unfolding(crate::specs::NameText::word_text))]
pub fn write_its_name<W: Write + Drop>(
    stack: &StackNames<'_, '_>,
    id: ResId,
    out: &mut W,
) -> io::Result<()>
    ensures { Writes W.contents out.old out.new result (its_name stack.now id.0) }
{
    let Some(word) = stack.word(id) else {
        return Ok(());
    };
    out.write_all(b" ")?;
    out.write_all(word)
}
