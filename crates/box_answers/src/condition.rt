//! What one condition says of all numbers of a set.

ghost use Rattle.std.specs.Prelude.{◌≡◌, ◌≢◌, IsTrue};
ghost use Rattle.config_precedence.specs.config_match.declared.kind.Kind.TheVariants as kinds;
ghost use Rattle.box_answers.specs.NumberSet.{set_of, IsProper};
ghost use Rattle.box_answers.specs.SearchedSet.{IsConvex};
ghost use Rattle.box_answers.specs.TriedNumbers.{can_be_tried};
ghost use Rattle.box_answers.specs.Condition.{passes_at, PartsNumbers, IsExactAt};

use crate::neighbours::between;
use crate::number_set::NumberSet;
use config_precedence::{Kind, Numbers};

/// What a condition says of all numbers of a set.
#[derive(Clone, Copy)]
pub(crate) enum Suiting {
    /// It passes at all.
    Always,
    /// It passes at none.
    Never,
    /// It passes at the first of two numbers and fails at the second; in a range they differ by one.
    Mixed(u64, u64),
}

/// A condition of a record, asked of the numbers of a set.
#[derive(Clone, Copy)]
pub(crate) struct Condition<'s> {
    pub(crate) kind: Kind,
    pub(crate) stored: Numbers,
    pub(crate) set: &'s NumberSet,
}

impl Condition<'_> {
    /// Only few numbers are tried: `tried_numbers` in `specs/` says which.
    pub(crate) fn suiting(&self) -> Suiting
        requires one { self.now.kind ≢ kinds.Dimensions }
        requires set { IsProper (set_of self.now.set.now) }
        requires tried { IsTrue (can_be_tried self.now.kind (set_of self.now.set.now)) }
        ensures { IsExactAt result (set_of self.now.set.now) (passes_at self.now) }
    {
        let number = self.stored.first;
        let first = self.set.tried_number(0, number, number);
        let passes = self.passes(first);
        for place in 1..self.set.tried_count() {
            let other = self.set.tried_number(place, number, number);
            if self.passes(other) != passes {
                return if passes {
                    self.nearest(first, other)
                } else {
                    self.nearest(other, first)
                };
            }
        }
        if passes {
            Suiting::Always
        } else {
            Suiting::Never
        }
    }

    /// In a range two numbers of which one passes are brought together.
    fn nearest(&self, yes: u64, no: u64) -> Suiting
        requires parts { PartsNumbers (set_of self.now.set.now) (passes_at self.now) yes no }
        ensures { IsExactAt result (set_of self.now.set.now) (passes_at self.now) }
    {
        match self.set {
            NumberSet::Range(_, _) => self.halved(yes, no),
            _ => Suiting::Mixed(yes, no),
        }
    }

    /// The distance is halved until there is no number between them.
    fn halved(&self, yes: u64, no: u64) -> Suiting
        requires parts { PartsNumbers (set_of self.now.set.now) (passes_at self.now) yes no }
        requires range { IsConvex (set_of self.now.set.now) }
        ensures { IsExactAt result (set_of self.now.set.now) (passes_at self.now) }
    {
        let (mut yes, mut no) = (yes, no);
        while let Some(middle) = between(yes, no) {
            if self.passes(middle) {
                yes = middle;
            } else {
                no = middle;
            }
        }
        Suiting::Mixed(yes, no)
    }

    /// Whether it passes at a device that has this number.
    fn passes(&self, number: u64) -> bool
        ensures { result ≡ passes_at self.now number }
    {
        let device = Numbers {
            first: number,
            second: 0,
        };
        self.kind.answer(self.stored, self.stored, device).is_pass()
    }
}
