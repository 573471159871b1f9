//! What the commands share: places and the bytes of what lies there, the files of layers, of devices and of words, layers
//! opened from bytes; how a command ends, why it stops, the line and the exit status that say so; and the words of
//! contracts about what it prints.
//!
//! For the crates above: files are read in the order in which words name them, and the first that is not read is the
//! `Stop`. An input, a list of layers and a stack are what their bytes mean, or the first fault in
//! the order of the definitions; `Prints` says that a command wrote the text that its input means and nothing
//! else, or named the first fault of that input and wrote nothing. The fault of a part is a `ToolFault` that names
//! the part, but want of memory, which is the command's own; what `fault_text` appends is the one line of it.
//!
//! ```text
//! let files = AskedFiles::read(alloc, &inputs, "layers.json", "device.json", &["@ids.txt", "dimen/*"])?; // or Stop::File(path)
//! let sets = asked_sets(alloc, &files.words)?; // what the words ask for, with those of ids.txt
//! stop.write_line(&mut errors)?; // file: layers.json
//! stop.status(); // ExitStatus::Failed
//!
//! let json = read_input(alloc, &mut file, 268_435_456)?; // all bytes, if there are not more
//! let list = LayerList::read(alloc, &json)?; // which files the layers are
//! let layers = [(base.as_slice(), None), (overlay.as_slice(), Some(map.as_slice()))];
//! let stack = open_stack(alloc, &layers)?; // the base and the overlay, opened
//! let old = open_side(alloc, Side::Old, &layers)?; // the same of one of two; its faults name the side
//! let status = Status::negative_if(!missing.is_empty()); // Negative where something is missing
//!
//! fault_text(&ToolFault::from(TableFault::NotTable), &mut out)?; // refused: table: NotTable
//! fault_text(&ToolFault::of_layer_table(2, TableFault::Entry(64)), &mut out)?; // refused: layer 2 table: Entry 64
//! let fault = ToolFault::from(LayersFault::Shape).on_side(Side::New); // one of two stacks that are compared
//! fault_text(&fault, &mut out)?; // refused: new layers: Shape
//! ```
#![tactic(auto)]

mod apk_fault;
mod astray;
mod box_fault;
mod cert_fault;
mod device_fault;
mod device_files;
mod device_text;
mod exit_status;
mod fault;
mod file_words;
mod first_rows;
mod hint;
mod input;
mod inputs;
mod layer_files;
mod layer_list;
mod layer_mark;
mod layer_parts;
mod layers_fault;
mod left_out;
mod list_word;
mod made_map;
mod map_fault;
mod map_text;
mod mapped_ids;
mod one_line;
mod pairs;
mod place;
mod set_aside;
mod side;
mod stack;
mod status;
mod stop;
mod table_fault;
mod unmapped;

pub use answer_text::{
    BagFault, BagRow, Cell, Device, DeviceFault, End, MapFault, MapRows, Pool, ResId, Row, Stack,
    Table, TableFault, Theme, Value, kind,
};
pub use apk_member::{ApkFault, TableFile};
pub use astray::Astray;
pub use cert_tree::{
    BoxFault, Cert, CertFault, CertGoal, Choice, ConfigBox, Coord, Goal, Locale, LocaleRule, Node,
    Progress, Test, Values,
};
pub use device_files::{AskedFiles, DeviceFiles};
pub use device_text::DeviceText;
pub use exit_status::ExitStatus;
pub use fault::{ToolFault, fault_text};
pub use file_words::{asked_goals, asked_sets, asked_words};
pub use first_rows::FirstRows;
pub use input::{InputFault, read_input};
pub use inputs::{Inputs, ProcessInputs, file_bytes, layer_table_file, table_file};
pub use layer_files::LayerFiles;
pub use layer_list::LayerList;
pub use layer_parts::LayerParts;
pub use layers_fault::LayersFault;
pub use left_out::{has_overlays, left_of, say_left};
pub use list_word::{ListedLayer, is_list_word, layers_in_word};
pub use made_map::{LeftRows, MadeMap};
pub use names::{GoalFault, Name, Named, NamedGoal, NamedSet, NamedStack, SharedNames};
pub use one_line::write_in_one_line;
pub use pairs::made_pairs;
pub use place::{Place, STANDARD_INPUT};
pub use set_aside::rows_set_aside;
pub use side::Side;
pub use stack::{open_side, open_stack, open_table};
pub use status::Status;
pub use stop::{Stop, status_or_stop};
pub use table_fault::write_table_fault;
