//! The words by which locales are compared, over the numbers of their bytes.

ghost use Rattle.std.specs.Prelude.{◌≡◌};
ghost use Rattle.locales.specs.Words.{number_of_script, exactly_one, are_alike};

/// In the place of a device's script, that none is known.
pub(crate) const UNKNOWN_SCRIPT: u32 = 1;

// tl
const TAGALOG: u32 = 0x746C_0000;

// fil
const FILIPINO: u32 = 0xAD05_0000;

/// The number of a script, the first byte the highest.
pub(crate) fn number_of_script(script: [u8; 4]) -> u32
    ensures { result ≡ number_of_script script }
{
    u32::from_be_bytes(script)
}

/// Whether two languages are one to Android.
#[tactic(auto, unfolding(crate::specs::Words::are_alike, crate::specs::TextNumber::number_of))]
pub(crate) fn are_alike(one: u32, other: u32) -> bool
    ensures { result ≡ are_alike one other }
{
    one == other || (one == TAGALOG && other == FILIPINO) || (one == FILIPINO && other == TAGALOG)
}

pub(crate) fn exactly_one(one: bool, other: bool) -> bool
    ensures { result ≡ exactly_one one other }
{
    match (one, other) {
        (true, false) | (false, true) => true,
        (true, true) | (false, false) => false,
    }
}
