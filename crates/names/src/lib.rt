//! The names of resources: what they are called in a stack, those of two stacks side by side, and the words that ask for
//! resources by id or by name.
//!
//! For the crates above: `find_names` gives for each of many names the id of the first row that has it, in the first of some
//! tables that has one, in one walk over the rows. A `NamedStack` calls each id by a `Label`, its name or the id itself;
//! `name_pairs` lays the labels of two stacks side by side, each once and in their order. A word asks for one resource
//! (`Named`), for several (`NamedSet`) or for goals (`NamedGoal`), or names a file of words; `ids_named`, `first_goals` and
//! `pairs_named` give those that words stand for, or the first that is not there or is a name of two packages. Among
//! `PackageNames` a label is written as the word that asks for it.
//!
//! ```text
//! let margin = Name { type_name: "dimen", entry_name: "margin" };
//! let found = find_names(alloc, &[&table], &[margin])?; // [Some(ResId(0x7f030000))]
//!
//! let old = NamedStack::of(alloc, &old_layers)?;
//! let pairs = name_pairs(alloc, &old, &new)?; // dimen/margin: 0x7f030000 in the old, 0x7f040002 in the new
//!
//! PackageNames::of_both(alloc, &old_layers, &new_layers)?.write_label(&pairs[0].label, &mut out)?; // dimen/margin
//!
//! let set = NamedSet::read("dimen/*"); // all entries of a type
//! let ids = ids_named(alloc, &stack, &[set?])?; // 0x7f030000, 0x7f030001, ..
//! ```
#![tactic(auto)]

mod android_types;
mod asked_names;
mod asked_words;
mod fault;
mod finder;
mod found;
mod goals;
mod ids;
mod label;
mod label_text;
mod laws;
mod name;
mod name_parts;
mod named;
mod named_goal;
mod named_ids;
mod named_set;
mod named_stack;
mod noted;
mod package_word;
mod packages;
mod pair;
mod pairs;
mod passed;
mod places;
mod plain;
mod quoted;
mod search;
mod shared;
mod sought;
mod stack_labels;
mod stack_names;
mod surrogates;
mod text;
mod type_word;
mod wanted;
mod word_file;
mod word_text;
mod words_for;

pub use fault::NameFault;
pub use goals::first_goals;
pub use ids::ids_of_type;
pub use label::Label;
pub use laws::{label_tells_id, name_reads_back};
pub use name::Name;
pub use named::Named;
pub use named_goal::NamedGoal;
pub use named_ids::{id_named, ids_named};
pub use named_set::NamedSet;
pub use named_stack::NamedStack;
pub use overlay_map::{ResId, Row, Stack, Table};
pub use package_word::PackageWord;
pub use packages::PackageNames;
pub use pair::{NamePair, Sides, name_pairs};
pub use pairs::pairs_named;
pub use plain::breaks_line;
pub use quoted::write_quoted;
pub use res_value::{Goal, GoalFault};
pub use search::find_names;
pub use shared::SharedNames;
pub use stack_names::StackNames;
pub use string_pool::Text;
pub use surrogates::with_pairs;
pub use text::name_text;
pub use word_file::{file_path, words_in_text};
