//! Which of two records is better for a device, and by which of the 23 rules? And are two records
//! equal?
//!
//! For the crates above: `better` is `is_better`, and among records that match a device that is compared by language and
//! region it is an order, but for a density of 0 against one of 160; `deciding` is the number of the rule that decides.
//!
//! ```text
//! if better(&candidate, &best, &device) {
//!     deciding(&candidate, &best, &device); // Some(15): the density
//! }
//! ```
#![tactic(auto)]

mod equal_record;
mod precedence;
mod table;

pub use config_match::{
    Answer, COORD_COUNT, Coord, Device, Kind, Locale, LocaleFault, LocaleRule, Mismatch, Numbers,
    Record, Rule, SOFT_KEYS, conditions, matches, mismatch, table_answer,
};
pub use equal_record::same;
pub use precedence::{better, deciding, keeping_out};
pub use table::rules;
