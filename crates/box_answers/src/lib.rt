//! Boxes of devices, and what all their members answer. A box gives each of the 25 coordinates a set
//! of numbers: a range, or a choice. Two questions are asked of all members at once, "does this record
//! match" and "is this record better than that one", and are answered exactly, without a walk over the
//! members.
//!
//! For the crates above: a slice of 25 sets is seen as the list of them (`sets_of`), a device is a
//! member where each of its numbers lies in the set at its coordinate (`IsMember`), and an answer is
//! `IsExact`: yes of all members, no of all, or else two members that differ in one coordinate alone
//! and answer yes and no.
//!
//! ```text
//! match match_all(&sets, &record) {
//!     Sameness::Always => .., // of all members
//!     Sameness::Never => .., // of none
//!     Sameness::Mixed(yes, no, coord) => .., // two members
//! }
//! ```
#![tactic(auto)]

mod condition;
mod matching;
mod member_pair;
mod members;
mod neighbours;
mod number_set;
mod passing;
mod question;
mod rule_search;
mod sameness;
mod search;
mod tried_numbers;

pub use config_precedence::{Coord, Device, Locale, LocaleFault, LocaleRule, Record};
pub use member_pair::MemberPair;
pub use members::{corner, is_member, set_at};
pub use number_set::{NumberSet, has_locale, has_number};
pub use sameness::{Sameness, better_all, match_all};
