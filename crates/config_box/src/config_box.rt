//! Boxes.

ghost use Rattle.std.specs.Prelude.{◌≡◌, ◌≢◌, ◌↔◌, IsTrue, IfOk, IfSome, MatchBool, MatchOption};
ghost use Rattle.box_answers.specs.config_record.Record.{record_bytes};
ghost use Rattle.box_answers.specs.config_record.DeviceSeen.{device_numbers};
ghost use Rattle.box_answers.specs.config_match.Matching.{is_match};
ghost use Rattle.box_answers.specs.config_precedence.Precedence.{is_better};
ghost use Rattle.contract_words.specs.Exact.{GivesOr};
ghost use Rattle.box_answers.specs.NumberSet.{set_of};
ghost use Rattle.box_answers.specs.Members.{sets_of, set_at, IsMember, SomeMember, IsCorner, IsBox};
ghost use Rattle.config_box.specs.Tests.{test_of, coord_of};
ghost use Rattle.config_box.specs.HalfSets.{IsHalfSet};
ghost use Rattle.box_answers.specs.Sameness.{IsExact};
ghost use Rattle.config_box.specs.declared.box_fault.BoxFault.TheVariants.{OutOfMemory as WantOfMemory};

use crate::box_fault::BoxFault;
use crate::half::half_of;
use crate::joined_sets::{is_same, joined_sets};
use crate::order::order_but;
use crate::read::sets_in_text;
use crate::split::{OutOfMemory, Split, has_wrong_kind, shared_sets, with_set};
use crate::test::Test;
use crate::values::{Values, values_of};
use box_answers::{Coord, Device, LocaleRule, NumberSet, Record, Sameness, set_at};
use std::alloc::Global;
use std::cmp::Ordering;
use std::marker::Model;

/// For each coordinate a range of numbers, or a choice of values; none is empty, and all its members are
/// devices. Contracts see it as the list of its 25 sets.
#[derive(Drop)]
pub struct ConfigBox {
    sets: Vec<NumberSet>,
}

impl Model for ConfigBox {
    ghost use Rattle.std.specs.Prelude.{List};
    ghost use Rattle.box_answers.specs.NumberSet.{SetOf};
    ghost use Rattle.box_answers.specs.Members.{sets_of, IsBox};

    ghost Value = { List SetOf };

    ghost view = { λ b. sets_of b.sets.items };

    ghost invariant = { λ b. IsBox (sets_of b.sets.items) };
}

impl ConfigBox {
    ghost use Rattle.config_box.specs.BoxJson.{box_in, box_in_by};
    ghost use Rattle.config_box.specs.ByRule.{IsByRule};
    ghost use Rattle.box_answers.specs.config_record.locales.declared.locale_rule.LocaleRule.TheVariants.{LanguageAndRegion};
    ghost use Rattle.config_box.specs.BoxSeen.{values_seen};
    ghost use Rattle.config_box.specs.Halves.{IsSplit, HalvesKeepAnswers};
    ghost use Rattle.config_box.specs.Joined.{IsJoined, HasJoinedSets, CannotJoin};
    ghost use Rattle.config_box.specs.Order.{order_but};

    /// The box of a JSON text: an object with a list or a range of numbers for each coordinate and a list of
    /// texts for the locale. What is missing is 0, or no locale; the density has to be there.
    pub fn read(alloc: Global, json: &[u8]) -> Result<ConfigBox, BoxFault>
        ensures value { GivesOr WantOfMemory (λ b. b) result (box_in json.now) }
        ensures sets { IfOk result IsBox }
        ensures by_rule { IfOk result (IsByRule LanguageAndRegion) }
    {
        ConfigBox::read_by(alloc, json, LocaleRule::LanguageAndRegion)
    }

    /// The same, where the texts of locales are read by a rule, by which they are then compared.
    pub fn read_by(alloc: Global, json: &[u8], rule: LocaleRule) -> Result<ConfigBox, BoxFault>
        ensures value { GivesOr WantOfMemory (λ b. b) result (box_in_by rule json.now) }
        ensures sets { IfOk result IsBox }
        ensures by_rule { IfOk result (IsByRule rule) }
    {
        Ok(ConfigBox {
            sets: sets_in_text(alloc, json, rule)?,
        })
    }

    /// The same box. Its lists are not copied.
    pub fn shared(&self, alloc: Global) -> Result<ConfigBox, OutOfMemory>
        ensures value { IfOk result (λ b. b ≡ self.now) }
        ensures sets { IfOk result IsBox }
    {
        Ok(ConfigBox {
            sets: shared_sets(alloc, self.sets.as_slice())?,
        })
    }

    /// The set of a coordinate; a choice is in rising order.
    pub fn values(&self, at: Coord) -> Values<'_>
        ensures value { values_seen result ≡ set_at self.now at }
        ensures sets { IsBox self.now }
    {
        values_of(self.sets.as_slice(), at)
    }

    /// Whether a device is a member.
    pub fn contains(&self, device: &Device) -> bool
        ensures { IsTrue result ↔ IsMember self.now (device_numbers device.now) }
    {
        box_answers::is_member(self.sets.as_slice(), device)
    }

    /// The member that has the least number of each set.
    pub fn corner(&self) -> Device
        ensures { IsCorner self.now (device_numbers result) }
    {
        box_answers::corner(self.sets.as_slice())
    }

    /// A law, for callers that ask nothing else of a box: it has a member.
    pub fn is_never_empty(&self)
        ensures { SomeMember self.now }
    {
        let _ = &self.sets;
    }

    /// Does a record match all members, none, or some?
    pub fn match_all(&self, stored: &Record) -> Sameness
        ensures value { IsExact result self.now (is_match (record_bytes stored.now)) }
        ensures sets { IsBox self.now }
    {
        box_answers::match_all(self.sets.as_slice(), stored)
    }

    /// Is the first of two records better than the second for all members, for none, or for some?
    pub fn better_all(&self, a: &Record, b: &Record) -> Sameness
        ensures value { IsExact result self.now (is_better (record_bytes a.now) (record_bytes b.now)) }
        ensures sets { IsBox self.now }
    {
        box_answers::better_all(self.sets.as_slice(), a, b)
    }

    /// The halves by a test.
    pub fn split(&self, alloc: Global, test: &Test) -> Result<Split, OutOfMemory>
        ensures halves { IfOk result (IsSplit self.now (test_of test.now)) }
        ensures answers { IfOk result (HalvesKeepAnswers self.now) }
    {
        let sets = self.sets.as_slice();
        if has_wrong_kind(sets, test) {
            return Ok(Split::WrongKind);
        }
        let set = set_at(sets, test.coord());
        let Some(yes) = half_of(alloc, set, test, true)? else {
            return Ok(Split::EmptyHalf);
        };
        let Some(no) = half_of(alloc, set, test, false)? else {
            return Ok(Split::EmptyHalf);
        };
        let yes = half_box(alloc, sets, test, true, yes)?;
        let no = half_box(alloc, sets, test, false, no)?;
        Ok(Split::Halves(yes, no))
    }

    /// The one box that has exactly the members of both. There is one where they have the same set at each
    /// coordinate but one, and make one set there: ranges that follow one another, or choices without a common
    /// value, of at most 512 together.
    pub fn joined(&self, alloc: Global, other: &ConfigBox) -> Result<Option<ConfigBox>, OutOfMemory>
        ensures members { IfOk result (λ joined. IfSome joined (IsJoined self.now other.now)) }
        ensures sets { IfOk result (λ joined. MatchOption joined (CannotJoin self.now other.now) (HasJoinedSets self.now other.now)) }
    {
        let Some(sets) = joined_sets(alloc, self.sets.as_slice(), other.sets.as_slice())? else {
            return Ok(None);
        };
        Ok(Some(ConfigBox { sets }))
    }

    /// An order for sorts, by all sets, that of a coordinate last: boxes that are alike but there stand side by
    /// side, in the order of their sets there.
    pub fn order_but(&self, other: &ConfigBox, at: Coord) -> Ordering
        ensures { result ≡ order_but at self.now other.now }
    {
        order_but(self.sets.as_slice(), other.sets.as_slice(), at)
    }

    /// Whether two boxes have the same set at a coordinate.
    pub fn is_alike_at(&self, other: &ConfigBox, at: Coord) -> bool
        ensures { MatchBool result (set_at self.now at ≡ set_at other.now at) (set_at self.now at ≢ set_at other.now at) }
    {
        is_same(
            set_at(self.sets.as_slice(), at),
            set_at(other.sets.as_slice(), at),
        )
    }
}

ghost use Rattle.config_box.specs.Halves.{IsHalf};

/// The box with the half of the test's set that gives this answer.
fn half_box(
    alloc: Global,
    sets: &[NumberSet],
    test: &Test,
    answer: bool,
    half: NumberSet,
) -> Result<ConfigBox, OutOfMemory>
    requires sets { IsBox (sets_of sets.now) }
    requires half { IsHalfSet (set_at (sets_of sets.now) (coord_of (test_of test.now))) (test_of test.now) answer (set_of half) }
    ensures { IfOk result (λ b. IsHalf (sets_of sets.now) (test_of test.now) answer b) }
{
    Ok(ConfigBox {
        sets: with_set(alloc, sets, test.coord(), half)?,
    })
}
