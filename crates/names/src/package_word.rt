//! Packages, as words have them.

ghost use Rattle.std.specs.Prelude.{◌≡◌};
ghost use Rattle.names.specs.PackageWord.{number_in};

use hex::FromHex;
use std::fmt;

/// Begins the number of a package.
const NUMBER_MARK: &[u8] = b"0x";

/// The package that a word names.
#[derive(Clone, Copy, PartialEq, Eq, PartialOrd, Ord)]
pub enum PackageWord<'a> {
    /// By its number, as `0x01`.
    Number(u8),
    /// By its name, as `android`.
    Name(&'a str),
}

impl<'a> PackageWord<'a> {
    ghost use Rattle.std.specs.Prelude.{◌≡◌};
    ghost use Rattle.names.specs.PackageWord.{package_word_of, package_word_in};

    /// The package that a text names: `0x` and two hexadecimal digits of either case are its number.
    #[tactic(auto, unfolding(crate::specs::PackageWord::package_word_in))]
    pub(crate) fn read(text: &'a str) -> PackageWord<'a>
        ensures { package_word_of result ≡ package_word_in text.entry.now }
    {
        match number_in(text) {
            Some(number) => PackageWord::Number(number),
            None => PackageWord::Name(text),
        }
    }
}

/// Shows it as a word has it.
impl fmt::Display for PackageWord<'_> {
    ghost use Rattle.std.specs.Prelude.{Some};
    ghost use Rattle.names.specs.PackageWord.{package_word_of};
    ghost use Rattle.names.specs.WordText.{package_word_text};

    ghost output = { λ word. Some (package_word_text (package_word_of word)) };

    fn fmt<W: fmt::Write>(&self, f: &mut fmt::Formatter<W>) -> fmt::Result {
        match *self {
            PackageWord::Number(number) => write!(f, "0x{number:02x}"),
            PackageWord::Name(name) => f.write_str(name),
        }
    }
}

/// The number that a text spells.
#[tactic(auto, unfolding(crate::specs::PackageWord::number_in))]
pub(crate) fn number_in(text: &str) -> Option<u8>
    ensures { result ≡ number_in text.now }
{
    let digits = text.as_bytes().strip_prefix(NUMBER_MARK)?;
    let bytes = <[u8; 1] as FromHex>::from_hex(digits).ok()?;
    Some(bytes[0])
}
