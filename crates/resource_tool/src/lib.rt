//! The commands, over the bytes of what their words name and a writer: `rows` and `dump` of one table, `map` of a target and an
//! overlay, `ids` of layers; for one device and the layers of a stack `query`, `explain`, `bag` and `attr`; `device`, of a
//! device alone; `show` of a certificate, `survey` of layers and a box; for all devices of a box `make` and `check`, `diff`,
//! `values` and `unused`.
//!
//! For the program above: `answer` of a command reads what its words name, in the order of the definitions, and prints what
//! that means and nothing else; or it gives why it stops, and has printed nothing, unless a write failed. A call over bytes
//! does the same of them, and stops at their first fault.
//!
//! ```text
//! let query = Query { layers: "layers.json", device: "device.json", locales: LocaleRule::Android, names: false, form: LineForm::Json, words };
//! query.answer(alloc, &inputs, &mut out)?; // reads these files, and prints what `query_bytes` does as JSON
//! Map { target: "app.arsc", overlay: "-", form: LineForm::Text(Form::Raw) }.answer(alloc, &inputs, &mut out, &mut errors)?; // as `map_bytes`
//! let make = Make { layers: "layers.json", box_path: "box.json", locales: LocaleRule::Android, names: false, omit: false, max_nodes: 100_000, goals };
//! make.answer(alloc, &inputs, Watch { clock: &rt, is_terminal: true, reached: &reached }, &mut out, &mut errors)?; // with a line of the work
//!
//! let survey = Survey { layers: "layers.json", box_path: Some("box.json"), locales: LocaleRule::Android, form: LineForm::Text(Form::Raw) };
//! survey.answer(alloc, &inputs, &mut out)?; // warning layer 0 compact-entry 12 first 348
//!                                           // qualifier density rows 2 from 240 to 320
//!                                           // warning box lacks orientation
//! let diff = Diff { old: "old.json", new: "new.json", box_path: "box.json", locales: LocaleRule::Android, form: LineForm::Text(Form::Android), max_nodes: 100_000, words };
//! diff.answer(alloc, &inputs, &mut Unwatched, &mut out)?; // changed dimen/margin 4dp -> absent dimen/margin on sw<600dp land
//!                                                         // changed style/Card on v>=26
//!                                                         //   attr/padding 4dp -> 3dp
//!                                                         // same 40
//! let values = Values { layers: "layers.json", box_path: "box.json", locales: LocaleRule::Android, form: LineForm::Text(Form::Android), max_nodes: 100_000, words };
//! values.answer(alloc, &inputs, &mut Unwatched, &mut out)?; // string/cancel "Abbrechen" on de-rAT,de-rCH
//!                                                           // string/cancel "Cancel" on all but de-rAT,de-rCH
//!                                                           // resources 1
//! let unused = Unused { layers: "layers.json", box_path: "box.json", locales: LocaleRule::Android, max_nodes: 100_000, words };
//! unused.answer(alloc, &inputs, &mut out)?; // overlaid layer 0 string/cancel de "Abbrechen"
//!                                           // unused layer 0 dimen/gap v19 4dp
//!                                           // rows 7 unused 1 overlaid 1 unmapped 0 bytes 16
//!
//! rows_bytes(alloc, &table, &mut out)?; // row 0x7f010000 [] decimal 5
//!                                       // rows 1 set-aside 0
//! dump_bytes(alloc, &table, &mut out)?; // package 0x7f "app"
//!                                       //   0x7f010000 "integer"/"five" flags 0x00000000 [] decimal 5
//! map_bytes(alloc, &target, &overlay, &mut out, &mut errors)?; // [["0x7f010000","0x7f020000"]]
//!
//! let layers = [(base.as_slice(), None), (overlay.as_slice(), Some(map.as_slice()))];
//! query_bytes(alloc, &layers, &device, &ids, &mut out)?; // 0x7f010000 value layer 1 decimal 5
//!                                                        // set-aside 0
//! explain_bytes(alloc, &layers, &device, id, &mut out)?; // lookup 0x7f010000
//!                                                        // candidate 0 layer 0 [] first
//!                                                        // candidate 1 layer 1 [] took over equal
//!                                                        // end value layer 1 decimal 5
//! bag_bytes(alloc, &layers, &device, id, &mut out)?; // 0x01010000 layer 0 decimal 5
//! attr_bytes(alloc, &layers, &device, attr, &styles, true, &mut out)?; // 0x01010000 value layer 0 decimal 5
//! make_bytes(alloc, &layers, &box_json, &goals, 100_000, &mut out)?; // {"goals":[{"id":"0x7f010000","nodes":[{"kind":16, ..
//! check_bytes(alloc, &layers, &box_json, &certificate, &goals, &mut out)?; // accepted goals 1 nodes 3
//!                                                                        // set-aside 0
//! ```
#![tactic(auto)]

mod answered;
mod asked_pairs;
mod attr;
mod bag;
mod box_files;
mod check;
mod device;
mod diff;
mod dump;
mod each_goal;
mod end_status;
mod explain;
mod goal_told;
mod ids;
mod json_lines;
mod judged;
mod laws;
mod lines;
mod locale_differences;
mod make;
mod map;
mod no_bag;
mod omit;
mod opened;
mod opened_box;
mod opened_diff;
mod progress;
mod query;
mod rows;
mod show;
mod stack_counts;
mod survey;
mod text;
mod told;
mod unused;
mod unused_rows;
mod value_lines;
mod values;
mod verdict_told;

pub use attr::{Attr, attr_bytes};
pub use bag::{Bag, bag_bytes};
pub use check::{Check, CheckFiles, OpenCheck, OpenedCert, check_bytes};
pub use command_base::{
    ExitStatus, GoalFault, InputFault, Inputs, LayerList, LayerParts, LayersFault, LocaleRule,
    Named, NamedGoal, NamedSet, ProcessInputs, STANDARD_INPUT, Status, Stop, ToolFault, fault_text,
    read_input,
};
pub use device::DeviceForm;
pub use diff::Diff;
pub use dump::{Dump, dump_bytes};
pub use explain::{Explain, explain_bytes};
pub use goal_told::write_named_words;
pub use ids::Ids;
pub use laws::{warnings_tell, whole_trees_are_shown};
pub use make::{Make, make_bytes};
pub use map::{Map, map_bytes};
pub use progress::{Reached, Watch};
pub use query::{Query, query_bytes};
pub use resource_text::{Form, Goal, LineForm};
pub use rows::{Rows, rows_bytes};
pub use show::Show;
pub use survey::Survey;
pub use unused::Unused;
pub use values::Values;
