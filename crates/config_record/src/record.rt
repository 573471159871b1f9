//! Records, read field by field where they stand.

ghost use Rattle.std.specs.Prelude.{◌≡◌, ◌≢◌, ◌<◌, ◌≤◌, true, MatchBool};

use crate::coord::Coord;
use locales::{Locale, is_zero, kept_script, u32_at};
use std::fmt::{self, Debug, Display, Formatter};
use thiserror::Error;

mod fields;

/// Where the size stands, the first field.
const SIZE: usize = 0;

/// The size of the smallest record: one that ends with its versions.
const LEAST_SIZE: usize = 28;

// The bits of the numbers in fields that hold several: the shift, and the mask of what is then left
// (AOSP: `SHIFT_LAYOUTDIR`, `MASK_SCREENSIZE` and those beside them).
const LAYOUT_DIRECTION_SHIFT: u32 = 6;

const SCREEN_SIZE_MASK: u8 = 0x0f;

const LONG_SHIFT: u32 = 4;

const LONG_MASK: u8 = 0x03;

const ROUND_MASK: u8 = 0x03;

const WIDE_COLOR_MASK: u8 = 0x03;

const HDR_SHIFT: u32 = 2;

const HDR_MASK: u8 = 0x03;

const UI_TYPE_MASK: u8 = 0x0f;

const NIGHT_SHIFT: u32 = 4;

const NIGHT_MASK: u8 = 0x03;

const KEYS_HIDDEN_MASK: u8 = 0x03;

const NAV_HIDDEN_SHIFT: u32 = 2;

const NAV_HIDDEN_MASK: u8 = 0x03;

/// What is wrong with a record. Of two faults the first of this list is named.
#[derive(Clone, Copy, Error)]
pub enum RecordFault {
    /// There are fewer than four bytes, or the size that they say is below 28.
    #[error("Size")]
    Size,
    /// The record passes the end of the bytes.
    #[error("Outside")]
    Outside,
}

/// By its text.
impl Debug for RecordFault {
    fn fmt<W: fmt::Write>(&self, f: &mut Formatter<W>) -> fmt::Result {
        Display::fmt(self, f)
    }
}

/// A stored configuration (AOSP: `ResTable_config`), lent from the bytes that it stands in. Fields
/// past the end of a short one are zero.
#[derive(Clone, Copy)]
pub struct Record<'a> {
    bytes: &'a [u8],
}

impl<'a> Record<'a> {
    ghost use Rattle.config_record.specs.Coord.{greatest_of};
    ghost use Rattle.config_record.specs.Record.{record_bytes, seen, record_in, coordinate, locale_in, is_set_aside};
    ghost use Rattle.config_record.specs.declared.coord.Coord.TheVariants as coords;
    ghost use Rattle.config_record.specs.ComparedNumber.{record_number, compared_locale, has_script_or_variant};

    /// Whether another record has the same bytes: then all that is said of the one is said of the other.
    pub fn has_bytes_of(&self, other: &Record<'_>) -> bool
        ensures { MatchBool result (record_bytes self.now ≡ record_bytes other.now) (record_bytes self.now ≢ record_bytes other.now) }
    {
        self.bytes == other.bytes
    }

    /// The record that some bytes begin with.
    #[tactic(auto, unfolding(crate::specs::Record::record_in))]
    pub fn read(bytes: &'a [u8]) -> Result<Record<'a>, RecordFault>
        ensures { seen result ≡ record_in bytes.now }
    {
        let size = u32_at(bytes, SIZE).ok_or(RecordFault::Size)? as usize;
        if size < LEAST_SIZE {
            return Err(RecordFault::Size);
        }
        let bytes = bytes.get(..size).ok_or(RecordFault::Outside)?;
        Ok(Record { bytes })
    }

    /// The number at a coordinate; 0 at the locale.
    #[tactic(auto, unfolding(crate::specs::Record::coordinate, crate::specs::Coord::greatest_of))]
    pub fn get(&self, coord: Coord) -> u32
        ensures value { result ≡ coordinate (record_bytes self.now) coord }
        ensures within { result ≤ greatest_of coord }
    {
        match coord {
            Coord::Mcc => u32::from(self.mcc()),
            Coord::Mnc => u32::from(self.mnc()),
            Coord::Locale => 0,
            Coord::LayoutDirection => u32::from(self.screen_layout() >> LAYOUT_DIRECTION_SHIFT),
            Coord::SmallestWidthDp => u32::from(self.smallest_screen_width_dp()),
            Coord::WidthDp => u32::from(self.screen_width_dp()),
            Coord::HeightDp => u32::from(self.screen_height_dp()),
            Coord::ScreenSize => u32::from(self.screen_layout() & SCREEN_SIZE_MASK),
            Coord::Long => u32::from(self.screen_layout() >> LONG_SHIFT & LONG_MASK),
            Coord::Round => u32::from(self.screen_layout2() & ROUND_MASK),
            Coord::WideColor => u32::from(self.color_mode() & WIDE_COLOR_MASK),
            Coord::Hdr => u32::from(self.color_mode() >> HDR_SHIFT & HDR_MASK),
            Coord::Orientation => u32::from(self.orientation()),
            Coord::UiType => u32::from(self.ui_mode() & UI_TYPE_MASK),
            Coord::Night => u32::from(self.ui_mode() >> NIGHT_SHIFT & NIGHT_MASK),
            Coord::Density => u32::from(self.density()),
            Coord::Touchscreen => u32::from(self.touchscreen()),
            Coord::KeysHidden => u32::from(self.input_flags() & KEYS_HIDDEN_MASK),
            Coord::NavHidden => u32::from(self.input_flags() >> NAV_HIDDEN_SHIFT & NAV_HIDDEN_MASK),
            Coord::Keyboard => u32::from(self.keyboard()),
            Coord::Navigation => u32::from(self.navigation()),
            Coord::Width => u32::from(self.screen_width()),
            Coord::Height => u32::from(self.screen_height()),
            Coord::Sdk => u32::from(self.sdk_version()),
            Coord::Minor => u32::from(self.minor_version()),
        }
    }

    /// The number that is compared with that of a device: the one of a coordinate, or of the bytes of the
    /// locale, language first, with what is kept of its script and its variant.
    #[tactic(auto, unfolding(crate::specs::ComparedNumber::record_number))]
    pub fn compared_number(&self, coord: Coord) -> u64
        ensures value { result ≡ record_number (record_bytes self.now) coord }
        ensures within { coord ≢ coords.Locale → result ≤ greatest_of coord }
    {
        match coord {
            Coord::Locale => self.compared_locale().number(),
            _ => u64::from(self.get(coord)),
        }
    }

    // With what is kept of its script and its variant.
    fn compared_locale(&self) -> Locale
        ensures { result ≡ compared_locale (record_bytes self.now) }
    {
        let script = kept_script(self.script(), &self.variant(), self.script_was_computed());
        Locale {
            script,
            ..self.locale()
        }
    }

    /// Its language and region; each may be missing.
    #[tactic(auto, unfolding(crate::specs::Record::locale_in))]
    pub fn locale(&self) -> Locale
        ensures { result ≡ locale_in (record_bytes self.now) }
    {
        Locale::without_script(self.language(), self.country())
    }

    /// Whether there is a script or a variant. Such a record is shown, and matches no device that is compared by
    /// language and region.
    #[tactic(auto, unfolding(crate::specs::Record::is_set_aside))]
    pub fn set_aside(&self) -> bool
        ensures value { result ≡ is_set_aside (record_bytes self.now) }
        ensures compared { result ≡ has_script_or_variant (record_number (record_bytes self.now) coords.Locale) }
    {
        !is_zero(&self.script()) || !is_zero(&self.variant())
    }
}
