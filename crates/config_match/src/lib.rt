//! Does a record match a device? It does where none of its 25 conditions fails, one for each coordinate. A device says
//! whether its locale is compared by language and region, where a record with a script or a variant is set aside, or as a
//! phone does it.
//!
//! The conditions are a table of rules, and so is what says which of two records is better, in the crate above: a rule is one
//! kind of question at one coordinate, and of a table the first rule that decides is the answer. The engine of both stands here.
//!
//! For the crates above: `matches` is `is_match` of the record and the device, and `mismatch` names
//! what fails first, none exactly where the record matches. What a table answers is the answer of its first rule that does not
//! pass (`answer_of_table`).
//!
//! ```text
//! if !matches(&record, &device) {
//!     mismatch(&record, &device); // Some(Mismatch::At(Coord::Sdk))
//! }
//! let rule = Rule { kind: Kind::Density, coord: Coord::Density };
//! rule.answer(&low, &high, &device) // Answer::Yes
//! ```
#![tactic(auto)]

mod answer;
mod condition;
mod density;
mod dimensions;
mod given;
mod hidden;
mod kind;
mod locale;
mod match_table;
mod matching;
mod reason;
mod rule;
mod screen_size;
mod table;

pub use answer::Answer;
pub use condition::{SOFT_KEYS, is_compared_plainly};
pub use config_record::{COORD_COUNT, Coord, Device, Locale, LocaleFault, LocaleRule, Record};
pub use kind::{Kind, Numbers};
pub use match_table::conditions;
pub use matching::{matches, mismatch};
pub use reason::Mismatch;
pub use rule::Rule;
pub use table::{deciding_place, place_keeping_out, table_answer};
