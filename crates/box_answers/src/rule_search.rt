//! The search for a member of which one rule says something.

ghost use Rattle.std.specs.Prelude.{◌≡◌, ◌≢◌, ◌↔◌, ℕ, [], ◌∷◌, IfSome, IfNone, IsTrue, false};
ghost use Rattle.config_precedence.specs.config_record.DeviceSeen.{device_numbers};
ghost use Rattle.config_precedence.specs.config_match.Answer.{is_pass};
ghost use Rattle.config_precedence.specs.config_match.Reads.{reads};
ghost use Rattle.box_answers.specs.Members.{sets_of, set_at};
ghost use Rattle.box_answers.specs.NumberSet.{IsIn};

use crate::members::set_at;
use crate::number_set::NumberSet;
use config_precedence::{Answer, Coord, Device, Record, Rule};

/// One rule of a table, asked about two records. What is found is the member `from`, changed in what the
/// rule reads alone.
#[derive(Clone, Copy)]
pub(crate) struct RuleSearch<'s> {
    pub(crate) sets: &'s [NumberSet],
    pub(crate) rule: Rule,
    pub(crate) a: Record<'s>,
    pub(crate) b: Record<'s>,
    pub(crate) from: Device,
}

impl RuleSearch<'_> {
    ghost use Rattle.box_answers.specs.RuleSearch.{IsSearch, IsFound, IsNotFound, rule_says, says_beside};

    /// A member at which the rule decides, and says this.
    pub(crate) fn find_deciding(&self, want: Answer) -> Option<Device>
        requires { IsSearch self.now }
        ensures found { IfSome result (λ device. IsFound self.now want (device_numbers device) × (is_pass want ≡ false)) }
        ensures none { IfNone result (is_pass want ≡ false → IsNotFound self.now want) }
    {
        if want.is_pass() {
            None
        } else {
            self.find(want)
        }
    }

    /// A member at which the rule says this.
    pub(crate) fn find(&self, want: Answer) -> Option<Device>
        requires { IsSearch self.now }
        ensures found { IfSome result (λ device. IsFound self.now want (device_numbers device)) }
        ensures none { IfNone result (IsNotFound self.now want) }
    {
        match self.rule.second_read() {
            Some(second) => self.find_by_two(second, want),
            None => self.find_by_one(want),
        }
    }

    fn find_by_one(&self, want: Answer) -> Option<Device>
        requires search { IsSearch self.now }
        requires one { reads self.now.rule ≡ self.now.rule.coord ∷ [] }
        ensures found { IfSome result (λ device. IsFound self.now want (device_numbers device)) }
        ensures none { IfNone result (IsNotFound self.now want) }
    {
        let at = self.rule.coord;
        let set = set_at(self.sets, at);
        let (a, b) = (self.a.compared_number(at), self.b.compared_number(at));
        for place in 0..set.tried_count() {
            let device = self.from.changed(at, set.tried_number(place, a, b));
            if self.says(&device, want) {
                return Some(device);
            }
        }
        None
    }

    /// Of two dimensions a rule asks only whether the device's are 0; so the least and the greatest number
    /// of each set are enough.
    fn find_by_two(&self, second: Coord, want: Answer) -> Option<Device>
        requires search { IsSearch self.now }
        requires two { reads self.now.rule ≡ self.now.rule.coord ∷ second ∷ [] }
        ensures found { IfSome result (λ device. IsFound self.now want (device_numbers device)) }
        ensures none { IfNone result (IsNotFound self.now want) }
    {
        let at = self.rule.coord;
        let set = set_at(self.sets, at);
        let low = self.from.changed(at, set.least());
        let from_low = RuleSearch { from: low, ..*self };
        if let Some(device) = from_low.find_by_second(second, want) {
            return Some(device);
        }
        let high = self.from.changed(at, set.greatest());
        let from_high = RuleSearch {
            from: high,
            ..*self
        };
        from_high.find_by_second(second, want)
    }

    /// The member, changed in the second of two dimensions.
    fn find_by_second(&self, second: Coord, want: Answer) -> Option<Device>
        requires search { IsSearch self.now }
        requires two { reads self.now.rule ≡ self.now.rule.coord ∷ second ∷ [] }
        ensures found { IfSome result (λ device. IsFound self.now want (device_numbers device)) }
        ensures none { IfNone result ((n : ℕ) → IsIn (set_at (sets_of self.now.sets.now) second) n → says_beside self.now n ≢ want) }
    {
        let set = set_at(self.sets, second);
        let low = self.from.changed(second, set.least());
        if self.says(&low, want) {
            return Some(low);
        }
        let high = self.from.changed(second, set.greatest());
        if self.says(&high, want) {
            return Some(high);
        }
        None
    }

    /// Whether the rule says this at a device.
    fn says(&self, device: &Device, want: Answer) -> bool
        ensures { IsTrue result ↔ (rule_says self.now (device_numbers device.now) ≡ want) }
    {
        self.rule.answer(&self.a, &self.b, device) == want
    }
}
