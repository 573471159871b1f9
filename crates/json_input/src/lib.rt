//! JSON inputs: the value of some bytes, and the words that say which shape a value has.
//!
//! For the crates above: `value_of` is what `serde_json` reads of the bytes, none where it refuses
//! them, and `read_value` gives it. A lack of memory is another fault than a text that is rejected.
//!
//! | word | says | file |
//! |---|---|---|
//! | `value_of` | the JSON value of some bytes | `specs/Json.antt` |
//! | `fault_of_text` | why a text was not read, by the faults of the crate that reads it | `specs/Fault.antt` |
//! | `has_only` | an object without members of other names than these | `specs/Shape.antt` |
//! | `number_of` | the number of a value, as `Value::as_u64` gives it | `specs/Shape.antt` |
//! | `text_of` | the text of a value, as `Value::as_str` gives it | `specs/Shape.antt` |
//! | `list_of` | the items of a value that is a list | `specs/Each.antt` |
//! | `each` | what is read of each item, or of each coordinate in turn, or the first fault | `specs/Each.antt` |
//!
//! ```text
//! let value = read_value(alloc, bytes)?;
//! if !has_only(&value, &["table", "map"]) {
//!     return Err(Fault::Shape);
//! }
//! let table = value.get("table").and_then(Value::as_str);
//! let items = list_of(&value).ok_or(Fault::Shape)?; // of another value, a list
//! ```
#![tactic(auto)]

mod shape;
mod value;

pub use shape::{has_only, list_of};
pub use value::{JsonFault, read_value};
