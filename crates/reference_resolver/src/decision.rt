//! What a candidate does to the best before it, and why.

ghost use Rattle.std.specs.Prelude.{◌≡◌};
ghost use Rattle.std.specs.Option.{option_map};
ghost use Rattle.config_precedence.specs.config_record.DeviceSeen.{device_numbers};
ghost use Rattle.overlay_map.specs.Candidates.{cand_of};
ghost use Rattle.reference_resolver.specs.Decision.{decision_of_match, decision_against};

use crate::step::{Step, beats};
use config_precedence::{Coord, Device, Mismatch, better, deciding, keeping_out, mismatch};
use overlay_map::Cand;

/// What a candidate does to the best before it, and why. A rule is named by its number, where one
/// decides.
#[derive(Clone, Copy)]
pub enum Decision {
    /// Its record has a script or a variant.
    SetAside,
    /// Its record does not match at this coordinate.
    NoMatch(Coord),
    /// It is the first that matches.
    First,
    /// It is better.
    TookOver(Option<u8>),
    /// It is not better, but of an overlay, and its record is equal.
    TookOverEqual,
    /// It matches, and the best stays.
    KeptOut(Option<u8>),
}

impl Decision {
    ghost use Rattle.std.specs.Prelude.{◌≡◌};
    ghost use Rattle.std.specs.Option.{option_map};
    ghost use Rattle.config_precedence.specs.config_record.DeviceSeen.{device_numbers};
    ghost use Rattle.overlay_map.specs.Candidates.{cand_of};
    ghost use Rattle.reference_resolver.specs.Selection.{step_of};
    ghost use Rattle.reference_resolver.specs.Decision.{decision_of, step_by};

    /// What a candidate does, where this is the best before it.
    pub fn of(best: &Option<Cand<'_>>, candidate: &Cand<'_>, device: &Device) -> Decision
        ensures value { result ≡ decision_of
            (option_map cand_of best.now) (cand_of candidate.now) (device_numbers device.now) }
        ensures step { step_by result ≡ step_of
            (option_map cand_of best.now) (cand_of candidate.now) (device_numbers device.now) }
    {
        match mismatch(&candidate.row.config, device) {
            Some(Mismatch::SetAside) => Decision::SetAside,
            Some(Mismatch::At(coord)) => Decision::NoMatch(coord),
            None => decision_of_match(best, candidate, device),
        }
    }

    /// The same without the reason.
    pub fn step(self) -> Step
        ensures { result ≡ step_by self }
    {
        match self {
            Decision::SetAside | Decision::NoMatch(_) => Step::NoMatch,
            Decision::First | Decision::TookOver(_) | Decision::TookOverEqual => Step::TookOver,
            Decision::KeptOut(_) => Step::KeptOut,
        }
    }
}

// What a candidate does that matches.
fn decision_of_match(best: &Option<Cand<'_>>, candidate: &Cand<'_>, device: &Device) -> Decision
    ensures { result ≡ decision_of_match
        (option_map cand_of best.now) (cand_of candidate.now) (device_numbers device.now) }
{
    match best {
        Some(best) => against(best, candidate, device),
        None => Decision::First,
    }
}

// What a candidate does that matches, where this is the best before it.
#[tactic(auto, unfolding(crate::specs::Decision::decision_against))]
fn against(best: &Cand<'_>, candidate: &Cand<'_>, device: &Device) -> Decision
    ensures { result ≡ decision_against
        (cand_of best.now) (cand_of candidate.now) (device_numbers device.now) }
{
    let (config, best_config) = (&candidate.row.config, &best.row.config);
    if !beats(candidate, best, device) {
        Decision::KeptOut(keeping_out(config, best_config, device))
    } else if better(config, best_config, device) {
        Decision::TookOver(deciding(config, best_config, device))
    } else {
        Decision::TookOverEqual
    }
}
