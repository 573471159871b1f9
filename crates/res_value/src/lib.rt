//! Resource ids and the values of resources: read from a table or a text, and shown. Also bags, each a
//! parent and rows of names and values: the rows are lent from their bytes. And goals: what is asked of a
//! device, where an id ends, or where an attribute ends under styles.
//!
//! For the crates above: the id that a text spells, the value that eight bytes hold, and the one
//! text of each; the rows of a bag as a list, or the first fault in them; and the goal that a word spells,
//! as `specs/` define them.
//!
//! ```text
//! let id = ResId::of(0x7f, 0x03, 1);
//! write_id(id, &mut out)?; // 0x7f030001
//! if let Some(value) = Value::read(&entry[8..]) {
//!     write_value(value, &mut out)?; // dimension 16/2^0 dp
//! }
//! ```
#![tactic(auto)]

mod cell;
mod complex;
mod goal;
mod goal_fault;
mod goal_word;
pub mod kind;
mod map_rows;
mod res_id;
mod value;
mod value_text;
mod word;

pub use cell::Cell;
pub use chunk_walk::{ChunkFault, write_hex};
pub use goal::{Goal, MOST_STYLES};
pub use goal_fault::GoalFault;
pub use goal_word::{GoalWord, is_id_list};
pub use map_rows::{MapRows, MapRowsFault, ROW_SIZE};
pub use res_id::{ResId, write_id};
pub use value::Value;
pub use value_text::write_value;
pub use word::write_word;
