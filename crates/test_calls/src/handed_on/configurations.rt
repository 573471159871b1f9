//! What is called of the crates of devices, rules and boxes, by the crate that hands it on: who uses the library finds it
//! there.

use config_precedence::{Mismatch, better, deciding, keeping_out, matches, mismatch, same};
use config_record::{
    Coord, Device, DeviceFault, Fields, Locale, LocaleFault, LocaleRule, Record, RecordFault,
};
