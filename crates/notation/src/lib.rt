//! What Android's notation says: devices as `adb shell am get-config` prints them, configurations as the folders of resources
//! are called, values as XML writes them, and the devices of a part of a box in the same words.
//!
//! For the crates above: a device is read of its line as the definition of its parts says, or the first part that is no word
//! is told. What is written of a device, as such a line or as JSON, reads as that device. Two records, two values, or two parts
//! that have other numbers at a coordinate, are never written alike.
//!
//! ```text
//! let device = read_printed_by("config: mcc310-mnc4-es-rMX-ldltr-sw411dp-port-560dpi-v27", rule)?;
//! let text = print_config_by(alloc, &device, rule)?;
//! write_device_json(&device, &mut out)?; // {"mcc":310,"mnc":4,"locale":"es-MX","layoutDirection":1,..}
//! write_config(&record, &mut out)?; // fr-rCA-sw600dp-land-night-xhdpi-v13
//! write_xml_value(value, &mut out)?; // 34.5sp
//! write_formats(value, &mut out)?; // reference|color
//! write_devices(&phones, &part, &mut out)?; //  on es-rMX,es-rUS sw<600dp land
//! write_test(&test, &mut out)?; // sw<600dp
//! ```
#![tactic(auto)]

mod color;
mod complex;
mod config_text;
mod cut;
mod devices;
mod exact;
mod exact_text;
mod fault;
mod float;
mod form;
mod formats;
mod forms;
mod json_text;
mod line;
mod line_locale;
mod line_parts;
mod lists;
mod locale_parts;
mod locale_word;
mod narrower;
mod number_word;
mod numeral;
mod parts;
mod phone_locale;
mod printed;
mod qualifier;
mod read;
mod said;
mod separator;
mod set_text;
mod test_text;
mod words;
mod xml_value;

pub use config_text::write_config;
pub use devices::write_devices;
pub use fault::ConfigWordFault;
pub use form::Form;
pub use formats::write_formats;
pub use json_text::write_device_json;
pub use line::NoLine;
pub use narrower::{is_narrower, is_narrower_at_one};
pub use printed::{is_printed, print_config_by, read_printed_by};
pub use read::read_config_by;
pub use test_text::write_test;
pub use xml_value::write_xml_value;
