//! The candidates of an id that members of a box match.

ghost use Rattle.std.specs.Prelude.{true, false, IsTrue, MatchOption};
ghost use Rattle.config_box.specs.box_answers.Members.{IsMember};
ghost use Rattle.config_box.specs.box_answers.MemberAnswers.{AllAnswer};
ghost use Rattle.bags_themes.specs.overlay_map.Candidates.{cand_of};
ghost use Rattle.box_trace.specs.Live.{live_of, does_match, IsLive};

use bags_themes::{Cand, ResId, Stack};
use config_box::{ConfigBox, OutOfMemory, Sameness};
use std::alloc::Global;
use std::marker::Model;

/// The candidates of one look-up that some member of a box matches, in their order, each marked where all members
/// match it. Contracts see it as that list.
#[derive(Drop)]
pub struct Live<'a> {
    list: Vec<(Cand<'a>, bool)>,
}

impl<'a> Model for Live<'a> {
    ghost use Rattle.std.specs.Prelude.{List, map};
    ghost use Rattle.box_trace.specs.Live.{LiveOf, live_of};

    ghost Value = { List LiveOf };

    ghost view = { λ live. map live_of live.list.items };
}

impl<'a> Live<'a> {
    ghost use Rattle.std.specs.Prelude.{◌≡◌, IfOk, map};
    ghost use Rattle.config_box.specs.box_answers.Members.{IsMember};
    ghost use Rattle.bags_themes.specs.overlay_map.Candidates.{cand_of, candidates_of};
    ghost use Rattle.box_trace.specs.Live.{live_of, candidates_in, MarkedMatchAll, AreLive};

    /// Those of an id. Each candidate is asked of all members.
    pub fn new(
        alloc: Global,
        stack: &Stack<'a>,
        id: ResId,
        members: &ConfigBox,
    ) -> Result<Live<'a>, OutOfMemory>
        ensures { IfOk result (AreLive (IsMember members.now) (candidates_of stack.now id.0)) }
    {
        let mut list = Vec::new(alloc);
        for candidate in stack.candidates(id) {
            if let Some(marked) = judged(&candidate, members) {
                list.push((candidate, marked))?;
            }
        }
        Ok(Live { list })
    }

    /// Those of some candidates.
    pub fn among(
        alloc: Global,
        candidates: &[Cand<'a>],
        members: &ConfigBox,
    ) -> Result<Live<'a>, OutOfMemory>
        ensures { IfOk result (AreLive (IsMember members.now) (map cand_of candidates.now)) }
    {
        let mut list = Vec::new(alloc);
        for candidate in candidates {
            if let Some(marked) = judged(candidate, members) {
                list.push((*candidate, marked))?;
            }
        }
        Ok(Live { list })
    }

    /// Those of them that members of another box match. What is marked has to match all of these, and is not asked again.
    pub fn half(&self, alloc: Global, members: &ConfigBox) -> Result<Live<'a>, OutOfMemory>
        requires { MarkedMatchAll (IsMember members.now) self.now }
        ensures { IfOk result (AreLive (IsMember members.now) (candidates_in self.now)) }
    {
        Live::of(alloc, self.list(), members)
    }

    /// The same of a part of such a list.
    pub(crate) fn of(
        alloc: Global,
        whole: &[(Cand<'a>, bool)],
        members: &ConfigBox,
    ) -> Result<Live<'a>, OutOfMemory>
        requires { MarkedMatchAll (IsMember members.now) (map live_of whole.now) }
        ensures { IfOk result (AreLive (IsMember members.now) (candidates_in (map live_of whole.now))) }
    {
        let mut list = Vec::new(alloc);
        for live in whole {
            if let Some(marked) = judged_again(live, members) {
                list.push((live.0, marked))?;
            }
        }
        Ok(Live { list })
    }

    /// The candidates in their order, each with its mark.
    pub fn list(&self) -> &[(Cand<'a>, bool)]
        ensures { map live_of result.now ≡ self.now }
    {
        self.list.as_slice()
    }
}

/// The mark of a candidate that some member matches: whether all do.
fn judged(candidate: &Cand<'_>, members: &ConfigBox) -> Option<bool>
    ensures { MatchOption result (AllAnswer (IsMember members.now) (does_match (cand_of candidate.now)) false) (λ marked. IsLive (IsMember members.now) (live_of (candidate.now, marked))) }
{
    match members.match_all(&candidate.row.config) {
        Sameness::Always => Some(true),
        Sameness::Never => None,
        Sameness::Mixed(_, _, _) => Some(false),
    }
}

/// The same of one that may be marked.
fn judged_again(live: &(Cand<'_>, bool), members: &ConfigBox) -> Option<bool>
    requires { IsTrue live.now.1 → AllAnswer (IsMember members.now) (does_match (cand_of live.now.0)) true }
    ensures { MatchOption result (AllAnswer (IsMember members.now) (does_match (cand_of live.now.0)) false) (λ marked. IsLive (IsMember members.now) (live_of (live.now.0, marked))) }
{
    if live.1 {
        members.is_never_empty();
        Some(true)
    } else {
        judged(&live.0, members)
    }
}
