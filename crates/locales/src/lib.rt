//! Locales: a language, a region and perhaps a script, as a record has them and as texts spell them; and how they are compared,
//! by either of two rules: by language and region alone, or as a phone does it. What CLDR says of locales, as Android ships it,
//! stands here as constants: the script in which one is likely written, the tree of regions, and which locales stand for their
//! language. The phone's rule is made of that, with exceptions for English, for Spanish and for Tagalog: which records suit a
//! device, and which of two is better. Texts are read by a rule, and the script of a locale says by which.
//!
//! For the crates above: a locale that was read is given by the text that is written of it, by its rule, and its number gives
//! its bytes back. By the phone's rule a record is not better than itself, and of two records that suit a device at most one is
//! better than the other. What is said of a locale is what CLDR's own lists say, which stand in `specs/` line by line; a line of
//! ancestors has four locales at most, and none is left out of it.
//!
//! To CLDR's lists a locale and a script are numbers: the four bytes that a record has of them, the first one the highest.
//! So a locale is its language above its region. 0 is none.
//!
//! ```text
//! let device = DeviceLocale::of_number(read_locale("es-AR", LocaleRule::Android)?.number());
//! let record = RecordLocale::of_number(record.compared_number(Coord::Locale));
//! record.suits(device) // true
//! record.is_better(spanish, device) // true: es-US counts as es-419 there, which stands between es-AR and es
//! ```
#![tactic(auto)]

mod better;
mod compared;
mod facts;
mod lines;
mod locale;
mod locale_rule;
mod nearer;
mod parts;
mod record_script;
mod suits;
mod tables;
mod text;
mod text_number;
mod tree;
mod words;
mod zero;

pub use chunk_walk::{u32_at, write_hex};
pub use compared::{DeviceLocale, RecordLocale};
pub use locale::{Locale, LocaleFault};
pub use locale_rule::LocaleRule;
pub use record_script::kept_script;
pub use text::{read_locale, write_locale};
pub use zero::is_zero;
