//! The answers of commands in Android's notation, the lines that commands print of verdicts, and how a resource differs between
//! two stacks of layers, or what it says in one, on some devices of a box.
//!
//! For the crates above: each text is the one that `specs/` defines of its value. What is written straight to a writer, such as a
//! verdict, appends this text and nothing else, and the only error is the writer's. An answer in Android's notation is made in
//! memory, so that where that runs out nothing of it is written; `change_block` gives the lines that stand behind the name of a
//! resource, for people in either form, or the text of a JSON object. Ends, explanations, the rows of bags, verdicts and the rows
//! that no device loads are also given as lines of JSON.
//!
//! ```text
//! let naming = Naming::of(alloc, &stack, &paths)?;
//! ends_text(&naming, &device, &ids)?; // dimen/handle 13dp from teapot.apk xhdpi-v4
//! ends_json(&naming, &device, &ids)?; // {"end":{"from":{..},"value":{..}},"id":"0x7f030000","line":"end","name":"dimen/handle"}
//! verdict_text(&verdict, &certificate, &mut out)?; // accepted goals 1 nodes 3
//! change_block(alloc, LineForm::Text(Form::Android), &packages, &difference, &phones, &german)?;
//!                                           //  "Cancel" -> "Cancel!" on de-rAT,de-rCH
//! ```
#![tactic(auto)]

mod attr_json;
mod attribute;
mod bag_json;
mod block;
mod change_json;
mod columns;
mod config_json;
mod content_json;
mod content_text;
mod decision_words;
mod device_json;
mod devices;
mod devices_json;
mod devices_text;
mod difference_text;
mod dump;
mod end_json;
mod ends;
mod explanation;
mod explanation_json;
mod goal;
mod goal_end_json;
mod last;
mod line_form;
mod line_json;
mod lone_table;
mod look_ups;
mod naming;
mod rejection;
mod rejection_notation;
mod row_json;
mod rows;
mod rows_behind;
mod table_row;
mod text_json;
mod verdict;
mod verdict_json;
mod whole_bag;

pub use answer_text::{Form, dump_text, end_text, explain, rows_text};
pub use attr_json::attr_lines_json;
pub use attribute::attr_text;
pub use bag_json::bag_rows_json;
pub use block::change_block;
pub use cert_maker::{
    Cert, ConfigBox, Goal, Made, Omitted, Omitting, Progress, Rule, Shown, Unwatched, Verdict,
};
pub use command_base::{LayersFault, Side, ToolFault, fault_text};
pub use content_json::name_json;
pub use devices_json::locale_json;
pub use dump::dump_in_notation;
pub use end_json::ends_json;
pub use ends::ends_text;
pub use explanation::explain_text;
pub use explanation_json::explain_json;
pub use line_form::LineForm;
pub use line_json::{line_members, write_line, write_set_aside_json};
pub use naming::{Naming, put_layer};
pub use rejection::{Rejection, write_rejections_in, write_set_aside_in, write_verdict_in};
pub use row_json::write_row_json;
pub use rows::rows_in_notation;
pub use table_row::write_row_end;
pub use text_json::{id_json, text_json as text_value};
pub use verdict::{device_with_end, verdict_text};
pub use whole_bag::bag_text;
