//! Which candidate is selected for an id.

ghost use Rattle.std.specs.Prelude.{◌≡◌, ◌+◌, ◌∷◌, List, map};
ghost use Rattle.std.specs.Option.{option_map};
ghost use Rattle.config_precedence.specs.config_record.DeviceSeen.{device_numbers};
ghost use Rattle.overlay_map.specs.Candidates.{cand_of, candidates_of};
ghost use Rattle.reference_resolver.specs.Selection.{selected};
ghost use Rattle.reference_resolver.specs.declared.step.Step.{Step};
ghost use Rattle.reference_resolver.specs.Takers.{IsTheSelected, picked_at, last_place, places_taken};
ghost use Rattle.reference_resolver.specs.OrderLaw.{OrderDoesNotMatter};

use crate::step::Step;
use config_precedence::Device;
use overlay_map::{Cand, ResId, Stack};

/// A candidate that is selected.
pub type Pick<'a> = Cand<'a>;

/// The candidate of an id that a device selects (AOSP: `ResTable::getEntry`): the first that matches, or
/// the last of those that take over, each from the one before it. It is none where none matches.
///
/// The order of the candidates does not matter where none is of an overlay and, of any two that match,
/// exactly one is better than the other.
#[tactic(auto, unfolding(crate::specs::Selection::selected))]
pub fn select<'a>(stack: &Stack<'a>, id: ResId, device: &Device) -> Option<Pick<'a>>
    ensures value { option_map cand_of result ≡
        selected stack.now id.0 (device_numbers device.now) }
    ensures takers { IsTheSelected
        (candidates_of stack.now id.0) (device_numbers device.now) (option_map cand_of result) }
    ensures order { OrderDoesNotMatter
        (candidates_of stack.now id.0) (device_numbers device.now) (option_map cand_of result) }
{
    let mut best = None;
    for candidate in stack.candidates(id) {
        best = Step::of(&best, &candidate, device).best_after(best, candidate);
    }
    best
}

/// The place, among candidates, of the one that a device selects.
#[tactic(auto, unfolding(crate::specs::Takers::picked_at))]
pub fn picked_at(candidates: &[Cand<'_>], device: &Device) -> Option<usize>
    ensures { result ≡ picked_at (map cand_of candidates.now) (device_numbers device.now) }
{
    let mut best = None;
    let mut picked = None;
    for (place, candidate) in candidates.iter().enumerate() {
        let step = Step::of(&best, candidate, device);
        picked = picked_after(step, picked, place);
        best = step.best_after(best, *candidate);
    }
    picked
}

// The place of the best after the candidate at a place did this, where the best before it stood at `picked`.
fn picked_after(step: Step, picked: Option<usize>, place: usize) -> Option<usize>
    ensures { (steps : List Step) → last_place result (places_taken (place + 1) steps) ≡ last_place picked (places_taken place (step ∷ steps)) }
{
    match step {
        Step::NoMatch | Step::KeptOut => picked,
        Step::TookOver => Some(place),
    }
}
