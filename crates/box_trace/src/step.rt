//! One candidate more, for all members of a box.

ghost use Rattle.std.specs.Prelude.{true, IsTrue};
ghost use Rattle.std.specs.Option.{option_map};
ghost use Rattle.config_box.specs.box_answers.Members.{IsMember};
ghost use Rattle.config_box.specs.box_answers.MemberAnswers.{AllAnswer};
ghost use Rattle.config_box.specs.box_answers.Sameness.{IsExact};
ghost use Rattle.bags_themes.specs.overlay_map.Candidates.{cand_of};
ghost use Rattle.bags_themes.specs.reference_resolver.Selection.{beats, beats_best};
ghost use Rattle.box_trace.specs.Live.{does_match};
ghost use Rattle.box_trace.specs.CommonStep.{IsCommonStep};

use crate::common::CommonStep;
use crate::parting::{Asked, Parting};
use bags_themes::Cand;
use config_box::{ConfigBox, MemberPair, Sameness};
use config_precedence::same;

/// The best after the next candidate, for all members. Whether the candidate matches is asked first; of
/// a marked one it is known. Whether it takes over is asked where it matches all.
pub(crate) fn best_after<'a>(
    best: &Option<Cand<'a>>,
    live: (Cand<'a>, bool),
    members: &ConfigBox,
) -> CommonStep<'a>
    requires { IsTrue live.1 → AllAnswer (IsMember members.now) (does_match (cand_of live.0)) true }
    ensures { IsCommonStep result members.now (option_map cand_of best.now) (cand_of live.entry.0) }
{
    let candidate = live.0;
    let (asked, answer) = match matching(&live, members) {
        Sameness::Always => (Asked::TakesOver, is_best_beaten(best, &candidate, members)),
        answer => (Asked::Matches, answer),
    };
    match answer {
        Sameness::Always => CommonStep::One(Some(candidate)),
        Sameness::Never => CommonStep::One(*best),
        Sameness::Mixed(yes, no, coord) => CommonStep::Mixed(Parting {
            pair: MemberPair { yes, no, coord },
            candidate,
            best: *best,
            asked,
        }),
    }
}

/// Whether it matches.
fn matching(live: &(Cand<'_>, bool), members: &ConfigBox) -> Sameness
    requires { IsTrue live.now.1 → AllAnswer (IsMember members.now) (does_match (cand_of live.now.0)) true }
    ensures { IsExact result members.now (does_match (cand_of live.now.0)) }
{
    if live.1 {
        Sameness::Always
    } else {
        members.match_all(&live.0.row.config)
    }
}

// Any candidate beats a best that is not there.
fn is_best_beaten(best: &Option<Cand<'_>>, candidate: &Cand<'_>, members: &ConfigBox) -> Sameness
    ensures { IsExact result members.now (beats_best (option_map cand_of best.now) (cand_of candidate.now)) }
{
    match best {
        Some(best) => beats(candidate, best, members),
        None => Sameness::Always,
    }
}

// One of an overlay with an equal record beats the best at each device, whatever is better there.
#[tactic(auto, unfolding(crate::specs::Unfolded::beats))]
fn beats(candidate: &Cand<'_>, best: &Cand<'_>, members: &ConfigBox) -> Sameness
    ensures { IsExact result members.now (beats (cand_of candidate.now) (cand_of best.now)) }
{
    let (config, best) = (&candidate.row.config, &best.row.config);
    if candidate.overlay && same(config, best) {
        Sameness::Always
    } else {
        members.better_all(config, best)
    }
}
