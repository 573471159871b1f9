//! The tokens of a text.

ghost use Rattle.std.specs.Prelude.{◌≡◌, ◌≢◌, [], length, ◌<◌, OnOk, Some, None, MatchResult};
ghost use Rattle.std.specs.Bool.{MatchBool};
ghost use Rattle.std.specs.Option.{option_map};
ghost use Rattle.json.specs.Json.{after_end_array, read_key};
ghost use Rattle.json_tokens.specs.Kind.{Begins};
ghost use Rattle.json_tokens.specs.Text.{Opens};

use crate::kind::Kind;
use crate::malformed::Malformed;
use crate::number::whole_number;
use json::{Reader, Scratch, Token};
use json_input::JsonFault;
use std::marker::Model;

/// How deep lists and objects may nest in a text.
pub const MOST_DEPTH: usize = 127;

/// Contracts see the tokens that are still to come.
#[derive(Drop)]
pub struct Tokens<'a> {
    reader: Reader<'a>,
}

impl<'a> Model for Tokens<'a> {
    ghost use Rattle.std.specs.Prelude.{List};
    ghost use Rattle.json.specs.Token.{Token, tokens_code};

    ghost Value = { List Token };

    ghost coded = { tokens_code };

    ghost view = { λ tokens. tokens.reader };
}

impl<'a> Tokens<'a> {
    /// Of the bytes of a text. Texts with escapes in it are written to `scratch`.
    pub fn of(bytes: &'a [u8], scratch: &'a mut Scratch) -> Result<Tokens<'a>, JsonFault>
        ensures { Opens bytes.now result }
    {
        let Ok(text) = simdutf8::compat::from_utf8(bytes) else {
            return Err(JsonFault::Syntax);
        };
        match Reader::new(text, scratch) {
            Ok(reader) => Ok(Tokens { reader }),
            Err(_) => Err(JsonFault::OutOfMemory),
        }
    }

    /// That nothing follows.
    pub fn end(&mut self) -> Result<(), Malformed>
        ensures { MatchResult result (λ _. self.old ≡ []) (λ _. self.old ≢ []) }
    {
        match self.reader.next() {
            Some(_) => Err(Malformed),
            None => Ok(()),
        }
    }

    /// Whether an item stands here. If not, the bracket that closes the list is passed.
    pub fn next_item(&mut self) -> bool
        ensures { MatchBool result ((after_end_array self.old ≡ None) × (self.new ≡ self.old))
            (after_end_array self.old ≡ Some self.new) }
    {
        !self.reader.take_end_array()
    }

    /// The name of the member that stands here, or none where the object ends.
    pub fn next_member(&mut self) -> Result<Option<&'a str>, Malformed>
        ensures { MatchResult result
            (λ name. read_key self.old ≡ Some (option_map (λ name. name.now) name, self.new))
            (λ _. read_key self.old ≡ None) }
    {
        match self.reader.next_key() {
            Ok(name) => Ok(name),
            Err(_) => Err(Malformed),
        }
    }

    /// What stands here, where lists and objects may nest this deep. A list and an object are entered.
    pub fn begin(&mut self, depth: usize) -> Result<Kind<'a>, Malformed>
        ensures value { Begins depth self.old result self.new }
        ensures shorter { OnOk result (length self.new < length self.old) }
    {
        let Some(token) = self.reader.next() else {
            return Err(Malformed);
        };
        match token {
            Token::BeginArray => {
                if depth == 0 {
                    return Err(Malformed);
                }
                Ok(Kind::List)
            }
            Token::BeginObject => {
                if depth == 0 {
                    return Err(Malformed);
                }
                Ok(Kind::Object)
            }
            Token::Number(text) => match whole_number(text) {
                Ok(Some(n)) => Ok(Kind::Number(n)),
                Ok(None) => Ok(Kind::Other),
                Err(_) => Err(Malformed),
            },
            Token::String(text) => Ok(Kind::Text(text)),
            Token::Bool(_) | Token::Null => Ok(Kind::Other),
            Token::EndArray | Token::EndObject | Token::Key(_) | Token::Bad => Err(Malformed),
        }
    }
}
