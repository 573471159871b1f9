//! Where the members of a box part.

ghost use Rattle.std.specs.Prelude.{◌≡◌, ℕ, List, IsTrue, IfSome};
ghost use Rattle.bags_themes.specs.config_record.DeviceSeen.{device_numbers};
ghost use Rattle.bags_themes.specs.overlay_map.Candidates.{cand_of};
ghost use Rattle.config_box.specs.box_answers.Members.{set_at};
ghost use Rattle.config_box.specs.box_answers.Sameness.{AreNeighbours, Separates};
ghost use Rattle.box_trace.specs.Live.{does_match};
ghost use Rattle.box_trace.specs.Parting.{answer_of};
ghost use Rattle.box_trace.specs.OpenCondition.{DifferAt};

use crate::open_condition::open_condition;
use bags_themes::{Cand, Device, Step};
use config_box::{ConfigBox, Coord, MemberPair, Sameness, Values};

/// What is asked of a candidate.
#[derive(Clone, Copy)]
pub enum Asked {
    /// Whether it matches.
    Matches,
    /// Whether it matches and takes over from the best before it.
    TakesOver,
}

/// Where the members of a box part: a question that they do not all answer alike.
#[derive(Clone, Copy)]
pub struct Parting<'a> {
    /// Two members side by side. The first answers yes, the second no.
    pub pair: MemberPair,
    /// The candidate that is asked about, and the best before it, which matters to the second question alone.
    pub candidate: Cand<'a>,
    pub best: Option<Cand<'a>>,
    pub asked: Asked,
}

impl<'a> Parting<'a> {
    ghost use Rattle.std.specs.Prelude.{◌≡◌};
    ghost use Rattle.bags_themes.specs.config_record.DeviceSeen.{device_numbers};
    ghost use Rattle.box_trace.specs.Parting.{answer_of};

    /// What a device answers to the question.
    #[tactic(auto, unfolding(crate::specs::Parting::answer_of))]
    pub fn answer(&self, device: &Device) -> bool
        ensures { result ≡ answer_of self.now (device_numbers device.now) }
    {
        match (Step::of(&self.best, &self.candidate, device), self.asked) {
            (Step::NoMatch, _) => false,
            (Step::KeptOut, asked) => asked == Asked::Matches,
            (Step::TookOver, _) => true,
        }
    }
}

/// Where the condition of a candidate at a coordinate parts members.
pub(crate) fn parting_at<'a>(
    members: &ConfigBox,
    candidate: &Cand<'a>,
    at: Coord,
) -> Option<Parting<'a>>
    ensures separates { IfSome result (λ parting. Separates members.now (answer_of parting) (device_numbers parting.pair.yes) (device_numbers parting.pair.no) parting.pair.coord) }
    ensures asks { IfSome result (λ parting. (d : List ℕ) → answer_of parting d ≡ does_match (cand_of candidate.now) d) }
{
    let Sameness::Mixed(matching, _, _) = members.match_all(&candidate.row.config) else {
        return None;
    };
    let pair = open_condition(members, candidate, &matching, at)?.pair;
    let parting = Parting {
        pair,
        candidate: *candidate,
        best: None,
        asked: Asked::Matches,
    };
    if parts(&parting, members) {
        Some(parting)
    } else {
        None
    }
}

/// Whether the two of a parting, which differ in its coordinate alone, are members side by side and answer differently.
fn parts(parting: &Parting<'_>, members: &ConfigBox) -> bool
    requires { DifferAt parting.now.pair.coord parting.now.pair }
    ensures { IsTrue result → Separates members.now (answer_of parting.now) (device_numbers parting.now.pair.yes) (device_numbers parting.now.pair.no) parting.now.pair.coord }
{
    let MemberPair { yes, no, coord } = parting.pair;
    members.contains(&yes)
        && members.contains(&no)
        && parting.answer(&yes)
        && !parting.answer(&no)
        && are_side_by_side(
            members,
            coord,
            yes.compared_number(coord),
            no.compared_number(coord),
        )
}

/// Whether there is no number of a range between two.
fn are_side_by_side(members: &ConfigBox, at: Coord, first: u64, second: u64) -> bool
    ensures { IsTrue result → AreNeighbours (set_at members.now at) first second }
{
    match members.values(at) {
        Values::Range(_, _) => first.max(second) - first.min(second) == 1,
        Values::Numbers(_) | Values::Locales(_) => true,
    }
}
