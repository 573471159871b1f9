//! The coordinates of a configuration.

ghost use Rattle.std.specs.Prelude.{◌≡◌, ◌<◌, ◌^◌, false, slice_get, map, length, Some};
ghost use Rattle.config_record.specs.Coord.{all_coords, place_of, name_of, greatest_of, greatest_of_device, is_outside};

use std::fmt;

/// How many coordinates a configuration has.
pub const COORD_COUNT: usize = 25;

// The greatest numbers that the fields of a record hold, by their width.
const TWO_BITS: u32 = 3;

const FOUR_BITS: u32 = 15;

const ONE_BYTE: u32 = 255;

const TWO_BYTES: u32 = 65535;

// The greatest density of a device: up to it the products of the rule of density fit AOSP's 32 bits.
const MOST_DENSITY: u32 = 32767;

/// The coordinates of a configuration, in their order. All but the locale are numbers; 0 says
/// nothing.
#[derive(Clone, Copy, Debug, PartialEq, Eq)]
pub enum Coord {
    /// Mobile country code.
    Mcc,
    /// Mobile network code; 65535 stands for code 00.
    Mnc,
    /// Language and region: see `Locale`.
    Locale,
    /// 1 left to right, 2 right to left.
    LayoutDirection,
    /// The smaller of the two sides of the screen, in dp.
    SmallestWidthDp,
    /// In dp.
    WidthDp,
    /// In dp.
    HeightDp,
    /// 1 small, 2 normal, 3 large, 4 xlarge.
    ScreenSize,
    /// 1 no, 2 yes.
    Long,
    /// 1 no, 2 yes.
    Round,
    /// 1 no, 2 yes.
    WideColor,
    /// 1 low, 2 high.
    Hdr,
    /// 1 port, 2 land, 3 square.
    Orientation,
    /// 1 normal, 2 desk, 3 car, 4 television, 5 appliance, 6 watch, 7 vrheadset.
    UiType,
    /// 1 no, 2 yes.
    Night,
    /// Dots per inch; 65534 is any, 65535 none.
    Density,
    /// 1 none, 2 stylus, 3 finger.
    Touchscreen,
    /// 1 exposed, 2 hidden, 3 soft.
    KeysHidden,
    /// 1 no, 2 yes.
    NavHidden,
    /// 1 nokeys, 2 qwerty, 3 12key.
    Keyboard,
    /// 1 nonav, 2 dpad, 3 trackball, 4 wheel.
    Navigation,
    /// In pixels.
    Width,
    /// In pixels.
    Height,
    /// The version of the platform.
    Sdk,
    /// The part of that version after its dot.
    Minor,
}

impl Coord {
    /// All coordinates, in their order.
    pub const ALL: [Coord; COORD_COUNT] = [
        Coord::Mcc,
        Coord::Mnc,
        Coord::Locale,
        Coord::LayoutDirection,
        Coord::SmallestWidthDp,
        Coord::WidthDp,
        Coord::HeightDp,
        Coord::ScreenSize,
        Coord::Long,
        Coord::Round,
        Coord::WideColor,
        Coord::Hdr,
        Coord::Orientation,
        Coord::UiType,
        Coord::Night,
        Coord::Density,
        Coord::Touchscreen,
        Coord::KeysHidden,
        Coord::NavHidden,
        Coord::Keyboard,
        Coord::Navigation,
        Coord::Width,
        Coord::Height,
        Coord::Sdk,
        Coord::Minor,
    ];

    /// The place in `ALL`.
    #[tactic(auto, unfolding(crate::specs::Coord::place_of, crate::specs::Coord::all_coords))]
    pub fn place(self) -> usize
        ensures value { result ≡ place_of self }
        ensures within { result < 25 }
        ensures stands { slice_get all_coords result ≡ Some self }
    {
        self as usize
    }

    /// The name that is printed, and that stands in JSON.
    #[tactic(auto, unfolding(crate::specs::Coord::name_of))]
    pub fn name(self) -> &'static str
        ensures { result.now ≡ name_of self }
    {
        match self {
            Coord::Mcc => "mcc",
            Coord::Mnc => "mnc",
            Coord::Locale => "locale",
            Coord::LayoutDirection => "layoutDirection",
            Coord::SmallestWidthDp => "smallestWidthDp",
            Coord::WidthDp => "widthDp",
            Coord::HeightDp => "heightDp",
            Coord::ScreenSize => "screenSize",
            Coord::Long => "long",
            Coord::Round => "round",
            Coord::WideColor => "wideColor",
            Coord::Hdr => "hdr",
            Coord::Orientation => "orientation",
            Coord::UiType => "uiType",
            Coord::Night => "night",
            Coord::Density => "density",
            Coord::Touchscreen => "touchscreen",
            Coord::KeysHidden => "keysHidden",
            Coord::NavHidden => "navHidden",
            Coord::Keyboard => "keyboard",
            Coord::Navigation => "navigation",
            Coord::Width => "width",
            Coord::Height => "height",
            Coord::Sdk => "sdk",
            Coord::Minor => "minor",
        }
    }

    /// The greatest number that the field of a record holds; 0 at the locale, which is no number. For
    /// callers that check numbers before they make a record of them.
    ///
    /// ```text
    /// if number > Coord::ScreenSize.greatest() {
    ///     return Err(Fault::TooGreat);
    /// }
    /// ```
    #[tactic(auto, unfolding(crate::specs::Coord::greatest_of))]
    pub fn greatest(self) -> u32
        ensures { result ≡ greatest_of self }
    {
        match self {
            Coord::Locale => 0,
            Coord::LayoutDirection
            | Coord::Long
            | Coord::Round
            | Coord::WideColor
            | Coord::Hdr
            | Coord::Night
            | Coord::KeysHidden
            | Coord::NavHidden => TWO_BITS,
            Coord::ScreenSize | Coord::UiType => FOUR_BITS,
            Coord::Orientation | Coord::Touchscreen | Coord::Keyboard | Coord::Navigation =>
                ONE_BYTE,
            Coord::Mcc
            | Coord::Mnc
            | Coord::SmallestWidthDp
            | Coord::WidthDp
            | Coord::HeightDp
            | Coord::Density
            | Coord::Width
            | Coord::Height
            | Coord::Sdk
            | Coord::Minor => TWO_BYTES,
        }
    }

    /// The greatest number of a device: that of a record's field, but for the density. It is the bound
    /// of `Device::check`, for callers that let a number be chosen.
    ///
    /// ```text
    /// for density in 1..=Coord::Density.greatest_of_device() {
    ///     numbers[Coord::Density.place()] = u64::from(density);
    /// }
    /// ```
    #[tactic(auto, unfolding(crate::specs::Coord::greatest_of_device, crate::specs::Coord::greatest_of))]
    pub fn greatest_of_device(self) -> u32
        ensures { result ≡ greatest_of_device self }
    {
        match self {
            Coord::Density => MOST_DENSITY,
            _ => self.greatest(),
        }
    }

    /// Whether no device has this number at the coordinate. Of the locale, which is no number, it is said
    /// of all but 0.
    #[tactic(auto, unfolding(crate::specs::Coord::is_outside))]
    pub fn is_outside(self, number: u64) -> bool
        ensures value { result ≡ is_outside self number }
        ensures fits { result ≡ false → number < 2 ^ 32 }
    {
        match self {
            Coord::Density => number == 0 || number > u64::from(self.greatest_of_device()),
            _ => number > u64::from(self.greatest_of_device()),
        }
    }

    /// The names of all coordinates, in their order.
    #[tactic(auto, unfolding(crate::specs::Coord::all_coords))]
    pub fn names() -> [&'static str; COORD_COUNT]
        ensures { map (λ name. name.now) result ≡ map name_of all_coords }
    {
        let mut names = [""; COORD_COUNT];
        fill_names(&Coord::ALL, &mut names);
        names
    }
}

fn fill_names(coords: &[Coord], names: &mut [&'static str])
    requires { length names.old ≡ length coords.now }
    ensures { map (λ name. name.now) names.new ≡ map name_of coords.now }
{
    for (place, coord) in coords.iter().enumerate() {
        names[place] = coord.name();
    }
}

/// Shows the name.
impl fmt::Display for Coord {
    ghost output = { λ coord. Some (name_of coord) };

    fn fmt<W: fmt::Write>(&self, f: &mut fmt::Formatter<W>) -> fmt::Result {
        f.write_str(self.name())
    }
}
