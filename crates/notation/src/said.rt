//! What the parts of a line say together.

ghost use Rattle.std.specs.Prelude.{◌≡◌, [], IfOk};
ghost use Rattle.notation.specs.LineLocale.{IsGivenFor};
ghost use Rattle.config_record.specs.locales.Text.{locale_by};
ghost use Rattle.notation.specs.Said.{with_number, with_qualifier};
ghost use Rattle.notation.specs.Config.{or_none};

use crate::fault::ConfigWordFault;
use crate::qualifier::Qualifier;
use config_record::{COORD_COUNT, Coord, Fields, Locale, LocaleRule, read_locale};

/// The type of an interface that no word names.
const NORMAL: u64 = 1;

/// What parts say.
#[derive(Clone, Copy)]
pub(crate) struct Said {
    pub fields: Fields,
    /// Whether a part is there, by the first coordinate that it speaks of.
    pub given: [bool; COORD_COUNT],
}

impl Said {
    ghost use Rattle.notation.specs.Fault.{seen};
    ghost use Rattle.notation.specs.Said.{is_given, with_given, with_part};
    ghost use Rattle.notation.specs.Config.{nothing_said};

    /// What is said before any part is read: the type of the interface is normal, and each other number is 0.
    #[tactic(auto, unfolding(crate::specs::Config::nothing_said))]
    pub fn nothing(rule: LocaleRule) -> Said
        ensures value { result ≡ nothing_said rule }
        ensures given { IsGivenFor rule result.fields.locale }
    {
        let mut numbers = [0; COORD_COUNT];
        numbers[Coord::UiType.place()] = NORMAL;
        Said {
            fields: Fields {
                numbers,
                locale: no_locale(rule),
            },
            given: [false; COORD_COUNT],
        }
    }

    /// With one more part.
    #[tactic(auto, unfolding(crate::specs::Said::with_part), using(crate::proofs::GivenSteps::with_given_for))]
    pub fn with_part<'a>(
        self,
        part: &'a [u8],
        rule: LocaleRule,
    ) -> Result<Said, ConfigWordFault<'a>>
        requires { IsGivenFor rule self.fields.locale }
        ensures value { seen (λ said. said) result ≡ with_part rule part.now self }
        ensures given { IfOk result (λ said. IsGivenFor rule said.fields.locale) }
    {
        match Qualifier::read(part, rule) {
            Some(qualifier) if !self.is_given(qualifier.kind()) => Ok(self.with_given(qualifier)),
            _ => Err(ConfigWordFault::Qualifier(part)),
        }
    }

    #[tactic(auto, unfolding(crate::specs::Said::is_given))]
    fn is_given(&self, coord: Coord) -> bool
        ensures { result ≡ is_given self.now coord }
    {
        self.given[coord.place()]
    }

    #[tactic(auto, unfolding(crate::specs::Said::with_given))]
    fn with_given(self, qualifier: Qualifier) -> Said
        ensures { result ≡ with_given qualifier self }
    {
        let mut given = self.given;
        given[qualifier.kind().place()] = true;
        Said {
            fields: with_qualifier(qualifier, self.fields),
            given,
        }
    }
}

// The locale of an empty text.
#[tactic(auto, using(crate::proofs::GivenSteps::none_given))]
fn no_locale(rule: LocaleRule) -> Locale
    ensures value { result ≡ or_none (locale_by rule []) }
    ensures given { IsGivenFor rule result }
{
    match read_locale("", rule) {
        Ok(locale) => locale,
        Err(_) => Locale::NONE,
    }
}

// The fields that a qualifier changes.
#[tactic(auto, unfolding(crate::specs::Said::with_qualifier))]
fn with_qualifier(qualifier: Qualifier, fields: Fields) -> Fields
    ensures { result ≡ with_qualifier qualifier fields }
{
    match qualifier {
        Qualifier::Number(coord, number) => with_number(coord, number, fields),
        Qualifier::Locale(locale) => Fields { locale, ..fields },
        Qualifier::Size(width, height) => {
            with_number(
                Coord::Height,
                height,
                with_number(Coord::Width, width, fields),
            )
        }
        Qualifier::Version(sdk, minor) => {
            with_number(Coord::Minor, minor, with_number(Coord::Sdk, sdk, fields))
        }
    }
}

fn with_number(coord: Coord, number: u64, fields: Fields) -> Fields
    ensures { result ≡ with_number coord number fields }
{
    let mut numbers = fields.numbers;
    numbers[coord.place()] = number;
    Fields { numbers, ..fields }
}
