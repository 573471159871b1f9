//! The fields of a record, as they stand. They are beside `Record` and not with it so that all offsets
//! but that of the size are named in this file alone.

ghost use Rattle.std.specs.Prelude.{◌≡◌, ◌<◌};

use super::Record;

// Where the fields stand (AOSP: `ResTable_config`).
const MCC: usize = 4;

const MNC: usize = 6;

const LANGUAGE: usize = 8;

const COUNTRY: usize = 10;

const ORIENTATION: usize = 12;

const TOUCHSCREEN: usize = 13;

const DENSITY: usize = 14;

const KEYBOARD: usize = 16;

const NAVIGATION: usize = 17;

const INPUT_FLAGS: usize = 18;

const INPUT_PAD: usize = 19;

const SCREEN_WIDTH: usize = 20;

const SCREEN_HEIGHT: usize = 22;

const SDK_VERSION: usize = 24;

const MINOR_VERSION: usize = 26;

const SCREEN_LAYOUT: usize = 28;

const UI_MODE: usize = 29;

const SMALLEST_SCREEN_WIDTH_DP: usize = 30;

const SCREEN_WIDTH_DP: usize = 32;

const SCREEN_HEIGHT_DP: usize = 34;

const LOCALE_SCRIPT: usize = 36;

const LOCALE_VARIANT: usize = 40;

const SCREEN_LAYOUT2: usize = 48;

const COLOR_MODE: usize = 49;

const LOCALE_SCRIPT_WAS_COMPUTED: usize = 52;

/// The fields but the size. Those past the end of a short record are zero. What their numbers mean is
/// said at `Coord`; where a field holds several, it is given whole.
impl Record<'_> {
    ghost use Rattle.config_record.specs.Record.{record_bytes, byte, two_bytes, mcc, mnc, language, country, orientation, touchscreen, density, keyboard, navigation, input_flags, input_pad, screen_width, screen_height, sdk_version, minor_version, screen_layout, ui_mode, smallest_screen_width_dp, screen_width_dp, screen_height_dp, locale_script, locale_variant, screen_layout2, color_mode, script_was_computed};

    /// Mobile country code.
    pub fn mcc(&self) -> u16
        ensures { result ≡ mcc (record_bytes self.now) }
    {
        self.two_bytes(MCC)
    }

    /// Mobile network code.
    pub fn mnc(&self) -> u16
        ensures { result ≡ mnc (record_bytes self.now) }
    {
        self.two_bytes(MNC)
    }

    /// The two bytes of the language; see `Locale`.
    pub fn language(&self) -> [u8; 2]
        ensures { result ≡ language (record_bytes self.now) }
    {
        [self.byte(LANGUAGE), self.byte(LANGUAGE + 1)]
    }

    /// The two bytes of the region; see `Locale`.
    pub fn country(&self) -> [u8; 2]
        ensures { result ≡ country (record_bytes self.now) }
    {
        [self.byte(COUNTRY), self.byte(COUNTRY + 1)]
    }

    /// The way the screen is held.
    pub fn orientation(&self) -> u8
        ensures { result ≡ orientation (record_bytes self.now) }
    {
        self.byte(ORIENTATION)
    }

    /// The kind of touch screen.
    pub fn touchscreen(&self) -> u8
        ensures { result ≡ touchscreen (record_bytes self.now) }
    {
        self.byte(TOUCHSCREEN)
    }

    /// Dots per inch.
    pub fn density(&self) -> u16
        ensures { result ≡ density (record_bytes self.now) }
    {
        self.two_bytes(DENSITY)
    }

    /// The kind of keyboard.
    pub fn keyboard(&self) -> u8
        ensures { result ≡ keyboard (record_bytes self.now) }
    {
        self.byte(KEYBOARD)
    }

    /// The kind of navigation.
    pub fn navigation(&self) -> u8
        ensures { result ≡ navigation (record_bytes self.now) }
    {
        self.byte(NAVIGATION)
    }

    /// Whether keys and navigation are hidden (AOSP: `inputFlags`).
    pub fn input_flags(&self) -> u8
        ensures { result ≡ input_flags (record_bytes self.now) }
    {
        self.byte(INPUT_FLAGS)
    }

    /// The byte after the input flags, which says nothing (AOSP: `inputPad0`).
    pub fn input_pad(&self) -> u8
        ensures { result ≡ input_pad (record_bytes self.now) }
    {
        self.byte(INPUT_PAD)
    }

    /// In pixels.
    pub fn screen_width(&self) -> u16
        ensures { result ≡ screen_width (record_bytes self.now) }
    {
        self.two_bytes(SCREEN_WIDTH)
    }

    /// In pixels.
    pub fn screen_height(&self) -> u16
        ensures { result ≡ screen_height (record_bytes self.now) }
    {
        self.two_bytes(SCREEN_HEIGHT)
    }

    /// The version of the platform.
    pub fn sdk_version(&self) -> u16
        ensures { result ≡ sdk_version (record_bytes self.now) }
    {
        self.two_bytes(SDK_VERSION)
    }

    /// The part of that version after its dot.
    pub fn minor_version(&self) -> u16
        ensures { result ≡ minor_version (record_bytes self.now) }
    {
        self.two_bytes(MINOR_VERSION)
    }

    /// The size of the screen, whether it is long, and the direction of layouts.
    pub fn screen_layout(&self) -> u8
        ensures { result ≡ screen_layout (record_bytes self.now) }
    {
        self.byte(SCREEN_LAYOUT)
    }

    /// The kind of device, and whether it is night.
    pub fn ui_mode(&self) -> u8
        ensures { result ≡ ui_mode (record_bytes self.now) }
    {
        self.byte(UI_MODE)
    }

    /// The smaller of the two sides of the screen, in dp.
    pub fn smallest_screen_width_dp(&self) -> u16
        ensures { result ≡ smallest_screen_width_dp (record_bytes self.now) }
    {
        self.two_bytes(SMALLEST_SCREEN_WIDTH_DP)
    }

    /// In dp.
    pub fn screen_width_dp(&self) -> u16
        ensures { result ≡ screen_width_dp (record_bytes self.now) }
    {
        self.two_bytes(SCREEN_WIDTH_DP)
    }

    /// In dp.
    pub fn screen_height_dp(&self) -> u16
        ensures { result ≡ screen_height_dp (record_bytes self.now) }
    {
        self.two_bytes(SCREEN_HEIGHT_DP)
    }

    /// Four letters, or zeros (AOSP: `localeScript`).
    pub fn script(&self) -> [u8; 4]
        ensures { result ≡ locale_script (record_bytes self.now) }
    {
        [
            self.byte(LOCALE_SCRIPT),
            self.byte(LOCALE_SCRIPT + 1),
            self.byte(LOCALE_SCRIPT + 2),
            self.byte(LOCALE_SCRIPT + 3),
        ]
    }

    /// Up to eight letters or digits, then zeros (AOSP: `localeVariant`).
    pub fn variant(&self) -> [u8; 8]
        ensures { result ≡ locale_variant (record_bytes self.now) }
    {
        [
            self.byte(LOCALE_VARIANT),
            self.byte(LOCALE_VARIANT + 1),
            self.byte(LOCALE_VARIANT + 2),
            self.byte(LOCALE_VARIANT + 3),
            self.byte(LOCALE_VARIANT + 4),
            self.byte(LOCALE_VARIANT + 5),
            self.byte(LOCALE_VARIANT + 6),
            self.byte(LOCALE_VARIANT + 7),
        ]
    }

    /// Whether the screen is round.
    pub fn screen_layout2(&self) -> u8
        ensures { result ≡ screen_layout2 (record_bytes self.now) }
    {
        self.byte(SCREEN_LAYOUT2)
    }

    /// Whether the screen has a wide color gamut, and a high dynamic range.
    pub fn color_mode(&self) -> u8
        ensures { result ≡ color_mode (record_bytes self.now) }
    {
        self.byte(COLOR_MODE)
    }

    /// Whether Android has looked for its script. No tool is known to set this.
    pub fn script_was_computed(&self) -> bool
        ensures { result ≡ script_was_computed (record_bytes self.now) }
    {
        self.byte(LOCALE_SCRIPT_WAS_COMPUTED) != 0
    }

    // The byte at an offset; zero past the end.
    fn byte(&self, offset: usize) -> u8
        ensures { result ≡ byte (record_bytes self.now) offset }
    {
        self.bytes.get(offset).copied().unwrap_or(0)
    }

    // The number of two bytes.
    fn two_bytes(&self, offset: usize) -> u16
        requires { offset < usize.MAX }
        ensures { result ≡ two_bytes (record_bytes self.now) offset }
    {
        u16::from_le_bytes([self.byte(offset), self.byte(offset + 1)])
    }
}
