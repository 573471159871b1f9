//! The parts of a locale.

ghost use Rattle.std.specs.Prelude.{◌≡◌};
ghost use Rattle.locales.specs.Facts.{language_of, region_of};

/// How many numbers a region can have.
const REGIONS: u32 = 0x1_0000;

/// The locale without its region.
///
/// ```text
/// language_of(0x7A68_484B); // zh-HK: 0x7A68_0000, zh
/// ```
pub fn language_of(locale: u32) -> u32
    ensures { result ≡ language_of locale }
{
    locale - locale % REGIONS
}

/// The region of a locale; 0 is none.
pub fn region_of(locale: u32) -> u16
    ensures { result ≡ region_of locale }
{
    (locale % REGIONS) as u16
}
