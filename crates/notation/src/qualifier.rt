//! What a part of a line says.

ghost use Rattle.std.specs.Prelude.{◌≡◌, IfSome};

use crate::cut::{behind, cut_at};
use crate::forms::numbered;
use crate::line_locale::locale_in;
use crate::numeral::number_of;
use crate::words::find_word;
use config_record::{Coord, Locale, LocaleRule};

/// What a part says of a device.
#[derive(Clone, Copy)]
pub(crate) enum Qualifier {
    /// The number at a coordinate.
    Number(Coord, u64),
    Locale(Locale),
    /// Width and height in pixels.
    Size(u64, u64),
    /// The version of the platform, and the part of it after its dot.
    Version(u64, u64),
}

impl Qualifier {
    ghost use Rattle.notation.specs.Qualifier.{word_in, number_in, size_in, version_of, version_in, numbers_in, locales_in, qualifier_in, HasGivenFor, kind_of};

    /// What a part says, if it is a qualifier.
    #[tactic(auto, unfolding(crate::specs::Qualifier::qualifier_in))]
    pub fn read(part: &[u8], rule: LocaleRule) -> Option<Qualifier>
        ensures value { result ≡ qualifier_in rule part.now }
        ensures given { IfSome result (λ qualifier. HasGivenFor rule qualifier) }
    {
        match Qualifier::numbers_in(part) {
            Some(qualifier) => Some(qualifier),
            None => Qualifier::locales_in(part, rule),
        }
    }

    #[tactic(auto, unfolding(crate::specs::Qualifier::numbers_in))]
    fn numbers_in(part: &[u8]) -> Option<Qualifier>
        ensures { result ≡ numbers_in part.now }
    {
        Qualifier::word_in(part)
            .or_else(|| Qualifier::number_in(part))
            .or_else(|| Qualifier::size_in(part))
            .or_else(|| Qualifier::version_in(part))
    }

    #[tactic(auto, unfolding(crate::specs::Qualifier::word_in))]
    fn word_in(part: &[u8]) -> Option<Qualifier>
        ensures { result ≡ word_in part.now }
    {
        let word = find_word(part)?;
        Some(Qualifier::Number(word.coord, word.number))
    }

    #[tactic(auto, unfolding(crate::specs::Qualifier::number_in))]
    fn number_in(part: &[u8]) -> Option<Qualifier>
        ensures { result ≡ number_in part.now }
    {
        let numbered = numbered(part)?;
        Some(Qualifier::Number(numbered.coord, numbered.number))
    }

    #[tactic(auto, unfolding(crate::specs::Qualifier::size_in))]
    fn size_in(part: &[u8]) -> Option<Qualifier>
        ensures { result ≡ size_in part.now }
    {
        let (width, height) = cut_at(b'x', part);
        Some(Qualifier::Size(number_of(width)?, number_of(height?)?))
    }

    #[tactic(auto, unfolding(crate::specs::Qualifier::version_in))]
    fn version_in(part: &[u8]) -> Option<Qualifier>
        ensures { result ≡ version_in part.now }
    {
        Qualifier::version_of(behind(b"v", part)?)
    }

    #[tactic(auto, unfolding(crate::specs::Qualifier::version_of))]
    fn version_of(text: &[u8]) -> Option<Qualifier>
        ensures { result ≡ version_of text.now }
    {
        let (sdk, minor) = cut_at(b'.', text);
        let sdk = number_of(sdk)?;
        match minor {
            Some(minor) => Some(Qualifier::Version(sdk, number_of(minor)?)),
            None => Some(Qualifier::Version(sdk, 0)),
        }
    }

    #[tactic(auto, unfolding(crate::specs::Qualifier::locales_in))]
    fn locales_in(part: &[u8], rule: LocaleRule) -> Option<Qualifier>
        ensures value { result ≡ locales_in rule part.now }
        ensures given { IfSome result (λ qualifier. HasGivenFor rule qualifier) }
    {
        Some(Qualifier::Locale(locale_in(part, rule)?))
    }

    /// Two parts are of one kind where they speak of one coordinate: of a size the width, of a version its first number.
    pub fn kind(self) -> Coord
        ensures { result ≡ kind_of self }
    {
        match self {
            Qualifier::Number(coord, _) => coord,
            Qualifier::Locale(_) => Coord::Locale,
            Qualifier::Size(..) => Coord::Width,
            Qualifier::Version(..) => Coord::Sdk,
        }
    }
}
