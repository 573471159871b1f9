//! A JSON text, token by token: what it means, without a tree of it.
//!
//! For the crates above: a function of `Tokens` that is given a depth reads the value that stands next, tells what its
//! definition says of that value (`Data` of `serde_json`), and leaves the tokens behind it; where no value stands there
//! that `serde_json` would read, it is `Malformed`. So what is read of the tokens of a text, up to its end, is what
//! `value_of` of `json_input` means. No memory is taken but what `Scratch` takes, which is as much as the text.
//!
//! | word | says | file |
//! |---|---|---|
//! | `value_at` | the value at the front of tokens, and the tokens behind it | `specs/Standing.antt` |
//! | `items_at`, `members_at` | the items, or the members, that are still to come, and the tokens behind them | `specs/Standing.antt` |
//! | `Reads`, `ReadsOr` | what was read is what the value means; or no value stands there; or memory ran out | `specs/Reads.antt` |
//! | `kind_of` | what a value is: a number, a text, or of which other kind | `specs/Kind.antt` |
//! | `short_list` | the kinds of the items of a list of few | `specs/ShortList.antt` |
//! | `fields` | the kinds of the members of some names, where there are no others | `specs/Fields.antt` |
//!
//! A loop over items or members has `Walked` or `WalkedMembers` as its invariant (`proofs/Walked.antt`); `proofs/Whole.antt`
//! ties a text to `value_of`. The depth is `MOST_DEPTH` at the front of a text, and one less within each list and each object.
//!
//! ```text
//! let mut scratch = Scratch::new(alloc);
//! let mut tokens = Tokens::of(bytes, &mut scratch)?;
//! let mut size = [None; 2];
//! let is_size = tokens.fields(MOST_DEPTH, &["width", "height"], &mut size)?;
//! tokens.end()?;
//! match size {
//!     [Some(Kind::Number(width)), Some(Kind::Number(height))] if is_size => Ok(width * height),
//!     _ => Err(Fault::Shape), // once it is known that the text is JSON
//! }
//! ```
#![tactic(auto)]

mod fields;
mod fields_and_list;
mod kind;
mod malformed;
mod number;
mod pass;
mod short_list;
mod tokens;

pub use fields_and_list::Fields;
pub use json::Scratch;
pub use kind::Kind;
pub use malformed::Malformed;
pub use short_list::ShortList;
pub use tokens::{MOST_DEPTH, Tokens};
