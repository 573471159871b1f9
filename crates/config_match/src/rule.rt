//! Rules: a question at a coordinate.

ghost use Rattle.std.specs.Prelude.{◌≡◌, ◌∷◌, option_to_list, IfSome, IfNone};
ghost use Rattle.config_match.specs.Rule.{beside};

use crate::answer::Answer;
use crate::kind::{Kind, Numbers};
use config_record::{Coord, Device, Record};

/// A question of some kind at a coordinate; for dimensions it is the first of the two.
#[derive(Clone, Copy)]
pub struct Rule {
    pub kind: Kind,
    pub coord: Coord,
}

impl Rule {
    ghost use Rattle.config_record.specs.Record.{record_bytes};
    ghost use Rattle.config_record.specs.ComparedNumber.{record_number, device_number};
    ghost use Rattle.config_record.specs.DeviceSeen.{device_numbers};
    ghost use Rattle.config_match.specs.Rule.{numbers_at, rule_answer};
    ghost use Rattle.config_match.specs.Reads.{reads, DependsOnReads};

    /// What the rule says of two records at a device.
    #[tactic(auto, unfolding(crate::specs::Rule::rule_answer))]
    pub fn answer(self, a: &Record, b: &Record, device: &Device) -> Answer
        ensures { result ≡ rule_answer self (record_number (record_bytes a.now))
            (record_number (record_bytes b.now)) (device_number (device_numbers device.now)) }
    {
        self.kind.answer(
            self.numbers_of_record(a),
            self.numbers_of_record(b),
            self.numbers_of_device(device),
        )
    }

    /// The coordinate that it reads beside its own; only dimensions have one. What it says depends on the
    /// numbers at these alone.
    pub fn second_read(self) -> Option<Coord>
        ensures value { reads self ≡ self.coord ∷ option_to_list result }
        ensures depends { DependsOnReads self }
    {
        match self.kind {
            Kind::Dimensions => Some(beside(self.coord)),
            _ => None,
        }
    }

    /// What it may look at in a record: for callers that ask when two records differ for a rule.
    ///
    /// ```text
    /// let numbers = rule.numbers_of_record(&record);
    /// numbers.first // the record's number at rule.coord
    /// ```
    pub fn numbers_of_record(self, stored: &Record) -> Numbers
        ensures { result ≡ numbers_at self.coord (record_number (record_bytes stored.now)) }
    {
        let first = stored.compared_number(self.coord);
        let second = match self.second_coord() {
            Some(coord) => stored.compared_number(coord),
            None => first,
        };
        Numbers { first, second }
    }

    fn numbers_of_device(self, device: &Device) -> Numbers
        ensures { result ≡ numbers_at self.coord (device_number (device_numbers device.now)) }
    {
        let first = device.compared_number(self.coord);
        let second = match self.second_coord() {
            Some(coord) => device.compared_number(coord),
            None => first,
        };
        Numbers { first, second }
    }

    // The coordinate beside its own, where that is another one. So no number is read twice.
    fn second_coord(self) -> Option<Coord>
        ensures other { IfSome result (λ coord. coord ≡ beside self.coord) }
        ensures same { IfNone result (beside self.coord ≡ self.coord) }
    {
        let other = beside(self.coord);
        if other == self.coord {
            return None;
        }
        Some(other)
    }
}

/// The second of two dimensions.
#[tactic(auto, unfolding(crate::specs::Rule::beside))]
pub fn beside(coord: Coord) -> Coord
    ensures { result ≡ beside coord }
{
    match coord {
        Coord::WidthDp => Coord::HeightDp,
        Coord::Width => Coord::Height,
        other => other,
    }
}
