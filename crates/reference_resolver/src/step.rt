//! What a candidate does to the best so far.

ghost use Rattle.std.specs.Prelude.{◌≡◌};
ghost use Rattle.std.specs.Option.{option_map};
ghost use Rattle.config_precedence.specs.config_record.DeviceSeen.{device_numbers};
ghost use Rattle.overlay_map.specs.Candidates.{cand_of};
ghost use Rattle.reference_resolver.specs.Selection.{beats, beats_best, step_of};

use config_precedence::{Device, better, matches, same};
use overlay_map::Cand;

/// What a candidate does to the best so far.
#[derive(Clone, Copy)]
pub enum Step {
    /// It does not match, and is passed over.
    NoMatch,
    /// It matches, and the best stays.
    KeptOut,
    /// It is now the best.
    TookOver,
}

impl Step {
    ghost use Rattle.std.specs.Option.{option_map};
    ghost use Rattle.config_precedence.specs.config_record.DeviceSeen.{device_numbers};
    ghost use Rattle.overlay_map.specs.Candidates.{cand_of};
    ghost use Rattle.reference_resolver.specs.Selection.{step_of, best_after};

    /// What a candidate does to the best so far, where there is one.
    pub fn of(best: &Option<Cand<'_>>, candidate: &Cand<'_>, device: &Device) -> Step
        ensures { result ≡ step_of
            (option_map cand_of best.now) (cand_of candidate.now) (device_numbers device.now) }
    {
        if !matches(&candidate.row.config, device) {
            Step::NoMatch
        } else if beats_best(best, candidate, device) {
            Step::TookOver
        } else {
            Step::KeptOut
        }
    }

    /// The best after a candidate that did this, where `best` was the best before it.
    pub fn best_after<'a>(self, best: Option<Cand<'a>>, candidate: Cand<'a>) -> Option<Cand<'a>>
        ensures { option_map cand_of result ≡ best_after
            self (option_map cand_of best.entry) (cand_of candidate.entry) }
    {
        match self {
            Step::NoMatch | Step::KeptOut => best,
            Step::TookOver => Some(candidate),
        }
    }
}

// Any candidate beats a best that is not there.
fn beats_best(best: &Option<Cand<'_>>, candidate: &Cand<'_>, device: &Device) -> bool
    ensures { result ≡ beats_best
        (option_map cand_of best.now) (cand_of candidate.now) (device_numbers device.now) }
{
    match best {
        Some(best) => beats(candidate, best, device),
        None => true,
    }
}

/// Whether a candidate that matches takes over from this best: it is better, or it is of an overlay and its
/// record is equal.
#[tactic(auto, unfolding(crate::specs::Selection::beats))]
pub(crate) fn beats(candidate: &Cand<'_>, best: &Cand<'_>, device: &Device) -> bool
    ensures { result ≡ beats
        (cand_of candidate.now) (cand_of best.now) (device_numbers device.now) }
{
    let (config, best) = (&candidate.row.config, &best.row.config);
    better(config, best, device) || candidate.overlay && same(config, best)
}
