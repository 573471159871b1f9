//! The lines that commands print of rows, ends and explanations, written straight to a writer, and the pieces that
//! they share with lines of faults: which layer it is, and a name with an id, a coordinate or a number behind it.
//!
//! What a resource says at a device, apart from ids and indexes, is its content: a value, where a string stands for itself
//! and an id for what it is called, or the rows of a bag, or what stands in place of these. `content_of_end` gives it;
//! `write_value_content` and `write_row_key` write its parts, `write_value_notation` and `write_key_notation` as XML does,
//! and `write_value_in` and `write_key_in` in either `Form`.
//!
//! For the crates above: what each call appends is the one text of its value, as `specs/` define it,
//! and nothing else; the only error is the writer's.
//!
//! ```text
//! rows_text(&table, &mut out)?; // row 0x7f010000 [] decimal 5
//!                               // rows 1 set-aside 0
//! dump_text(&table, &mut out)?; // package 0x7f "app"
//!                               //   0x7f010000 "integer"/"five" flags 0x00000000 [] decimal 5
//! end_text(end, &mut out)?; // value layer 0 decimal 5
//! let names = NamesBeside::of(alloc, &stack, false)?;
//! explain(&names, id, &device, &mut out)?; // lookup 0x7f010000
//!                                          // candidate 0 layer 0 [] first
//!                                          // candidate 1 layer 0 [sdk=21] took over P22
//!                                          // end value layer 0 decimal 5
//! let names = StackNames::of(alloc, &stack)?; // of names
//! write_goal_words(&names, attr, &styles, &mut out)?; // 0x7f010000@0x7f020000 attr/size style/App
//! ```
#![tactic(auto)]

mod cell;
mod content;
mod decision;
mod device_content;
mod dump;
mod end;
mod explanation;
mod goal;
mod in_form;
mod last_record;
mod last_type_name;
mod layer;
mod line;
mod name;
mod named;
mod on_line;
mod query;
mod read_alike;
mod row_key;
mod rows;
mod value_notation;
mod value_text;
mod values;

pub use bags_themes::{
    BagFault, BagRow, Cell, Device, DeviceFault, End, IdMap, MOST_LAYERS, MapFault, MapRows, Pool,
    PoolFault, ResId, Row, Stack, StackFault, Table, TableFault, Theme, Value, bag, kind,
};
pub use content::{BrokenString, Content, Quantity, RowContent, RowKey, ValueContent};
pub use device_content::{content_of_end, end_of};
pub use dump::{dump_text, write_flags, write_package_line};
pub use end::{end_text, write_end_line, write_end_with_name, write_end_with_string};
pub use explanation::explain;
pub use goal::write_goal_words;
pub use in_form::{write_key_in, write_row_value_in, write_value_in};
pub use layer::write_layer;
pub use name::{NamesBeside, write_its_name};
pub use named::{write_named_coord, write_named_id, write_named_number};
pub use names::StackNames;
pub use notation::Form;
pub use on_line::write_on_line;
pub use query::{query_line, set_aside_line, strings_of_layer};
pub use read_alike::is_same_label;
pub use reference_resolver::resolve;
pub use res_value::{write_id, write_value};
pub use row_key::Keys;
pub use rows::{rows_text, write_totals};
pub use string_pool::write_string;
pub use value_notation::{write_key_notation, write_row_notation, write_value_notation};
pub use value_text::{write_row_key, write_value_content};
pub use values::value_content;
