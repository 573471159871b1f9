//! Parts that are a number with letters around it.

ghost use Rattle.std.specs.Prelude.{◌≡◌, map, option_map};
ghost use Rattle.notation.specs.Forms.{form_of, forms, stored, digits_in, number_by, numbered_by, form_for};

use crate::cut::{before, behind};
use crate::numeral::number_of;
use config_record::Coord;

/// The letters before and behind a number, and its coordinate.
#[derive(Clone, Copy)]
pub(crate) struct NumberForm {
    pub front: &'static [u8],
    pub end: &'static [u8],
    pub coord: Coord,
}

/// A number, and its coordinate.
#[derive(Clone, Copy)]
pub(crate) struct NumberAt {
    pub coord: Coord,
    pub number: u64,
}

const FORMS: [NumberForm; 6] = [
    NumberForm {
        front: b"mcc",
        end: b"",
        coord: Coord::Mcc,
    },
    NumberForm {
        front: b"mnc",
        end: b"",
        coord: Coord::Mnc,
    },
    NumberForm {
        front: b"sw",
        end: b"dp",
        coord: Coord::SmallestWidthDp,
    },
    NumberForm {
        front: b"w",
        end: b"dp",
        coord: Coord::WidthDp,
    },
    NumberForm {
        front: b"h",
        end: b"dp",
        coord: Coord::HeightDp,
    },
    NumberForm {
        front: b"",
        end: b"dpi",
        coord: Coord::Density,
    },
];

/// How the network code 0 is stored, since 0 says nothing (AOSP: `ACONFIGURATION_MNC_ZERO`).
const MNC_ZERO: u64 = 65535;

/// The number of the first form that a text has.
#[tactic(auto, unfolding(crate::specs::Forms::forms))]
pub(crate) fn numbered(text: &[u8]) -> Option<NumberAt>
    ensures { result ≡ numbered_by forms text.now }
{
    numbered_by(&FORMS, text)
}

#[tactic(auto, unfolding(crate::specs::Forms::numbered_by))]
fn numbered_by(forms: &[NumberForm], text: &[u8]) -> Option<NumberAt>
    ensures { result ≡ numbered_by (map form_of forms.now) text.now }
{
    'forms: for form in forms {
        if let Some(number) = number_by(form, text) {
            return Some(NumberAt {
                coord: form.coord,
                number: stored(form.coord, number),
            });
        }
    }
    None
}

#[tactic(auto, unfolding(crate::specs::Forms::number_by))]
fn number_by(form: &NumberForm, text: &[u8]) -> Option<u64>
    ensures { result ≡ number_by (form_of form.now) text.now }
{
    number_of(digits_in(form, text)?)
}

fn digits_in<'a>(form: &NumberForm, text: &'a [u8]) -> Option<&'a [u8]>
    ensures { option_map (λ text. text.now) result ≡ digits_in (form_of form.now) text.now }
{
    before(form.end, behind(form.front, text)?)
}

fn stored(coord: Coord, number: u64) -> u64
    ensures { result ≡ stored coord number }
{
    match coord {
        Coord::Mnc if number == 0 => MNC_ZERO,
        _ => number,
    }
}

/// The form of numbers at a coordinate.
#[tactic(auto, unfolding(crate::specs::Forms::forms))]
pub(crate) fn form_for(coord: Coord) -> Option<NumberForm>
    ensures { option_map form_of result ≡ form_for forms coord }
{
    form_among(&FORMS, coord)
}

#[tactic(auto, unfolding(crate::specs::Forms::form_for))]
fn form_among(forms: &[NumberForm], coord: Coord) -> Option<NumberForm>
    ensures { option_map form_of result ≡ form_for (map form_of forms.now) coord }
{
    'forms: for form in forms {
        if form.coord.place() == coord.place() {
            return Some(*form);
        }
    }
    None
}
