//! A walk along the candidates of one look-up after the other, for all members of a box.

ghost use Rattle.std.specs.Prelude.{◌≤◌, length};

use crate::common::{CommonStep, CommonTrace};
use crate::known::Known;
use crate::live::Live;
use crate::parting::{Parting, parting_at};
use crate::step::best_after;
use crate::waiting::{Part, Waiting, open_conditions, still_open};
use crate::weight::{Weighed, weightiest};
use bags_themes::{Cand, Course, CourseStep, End, ResId, Stack};
use config_box::{ConfigBox, Coord, OutOfMemory};
use std::alloc::Global;
use std::rc::Rc;

/// Where such a walk stands: the trace from there on depends on nothing that lies behind.
#[derive(Drop)]
pub(crate) struct Walk<'a, 's> {
    /// The id that is looked up.
    id: ResId,
    /// What for.
    course: Course<'a, 's>,
    /// The candidates of the id. Those that are left out match no member.
    live: Rc<Live<'a>>,
    /// How many of these lie behind.
    passed: usize,
    /// The best of those.
    best: Option<Cand<'a>>,
    known: Known,
    ghost within: { passed ≤ length live.value },
}

impl<'a, 's> Walk<'a, 's> {
    ghost use Rattle.std.specs.Prelude.{◌≡◌, ℕ, List, IfOk, IfSome, IfNone, None, [], length, map};
    ghost use Rattle.config_box.specs.box_answers.NumberSet.{SetOf};
    ghost use Rattle.config_box.specs.box_answers.Members.{IsMember};
    ghost use Rattle.bags_themes.specs.overlay_map.Candidates.{CandOf, cand_of};
    ghost use Rattle.bags_themes.specs.overlay_map.Layer.{LayerOf};
    ghost use Rattle.bags_themes.specs.reference_resolver.Trace.{Trace};
    ghost use Rattle.bags_themes.specs.Course.{trace_from, after_course};
    ghost use Rattle.bags_themes.specs.declared.course.CourseStep.TheVariants.{LookUp};
    ghost use Rattle.box_trace.specs.Live.{live_of, candidates_in, LeavesOut, MarkedMatchAll};
    ghost use Rattle.box_trace.specs.Walk.{rest_at, live_ahead, HaveWalked, TellsMatches};
    ghost use Rattle.box_trace.specs.Parting.{IsToldApart, IsParting};
    ghost use Rattle.box_trace.specs.CommonTrace.{IsCommonTrace};
    ghost use Rattle.box_trace.specs.TraceAmong.{trace_among};

    /// Before what comes first.
    pub(crate) fn from_step(
        alloc: Global,
        stack: &Stack<'a>,
        step: CourseStep<'a, 's>,
        members: &ConfigBox,
    ) -> Result<Walk<'a, 's>, OutOfMemory>
        ensures walked { IfOk result (HaveWalked stack.now (IsMember members.now) (trace_from stack.now step.entry)) }
        ensures marked { IfOk result (λ walk. MarkedMatchAll (IsMember members.now) walk.live.value) }
    {
        match step {
            CourseStep::LookUp(id, course) => Walk::at_look_up(alloc, stack, id, course, members),
            CourseStep::EndsAt(end) => {
                let none = Live::of(alloc, &[], members)?;
                Walk::at_first(alloc, ResId(0), Course::Ended(end), none)
            }
        }
    }

    /// Before the first candidate of an id.
    fn at_look_up(
        alloc: Global,
        stack: &Stack<'a>,
        id: ResId,
        course: Course<'a, 's>,
        members: &ConfigBox,
    ) -> Result<Walk<'a, 's>, OutOfMemory>
        ensures walked { IfOk result (HaveWalked stack.now (IsMember members.now) (trace_from stack.now (LookUp id course.entry))) }
        ensures marked { IfOk result (λ walk. MarkedMatchAll (IsMember members.now) walk.live.value) }
        ensures course { IfOk result (λ walk. walk.course ≡ course.entry) }
    {
        let live = Live::new(alloc, stack, id, members)?;
        Walk::at_first(alloc, id, course, live)
    }

    /// Before the first candidate of a list.
    fn at_first(
        alloc: Global,
        id: ResId,
        course: Course<'a, 's>,
        live: Live<'a>,
    ) -> Result<Walk<'a, 's>, OutOfMemory>
        ensures walked { IfOk result (λ walk. (stack : List LayerOf) (sets : List SetOf) (trace : List ℕ → Trace) (ahead : List CandOf)
            → ((d : List ℕ) → trace d ≡ rest_at (after_course stack course.entry id.0) None ahead d)
            → LeavesOut (IsMember sets) ahead (candidates_in live.entry)
            → HaveWalked stack (IsMember sets) trace walk) }
        ensures live { IfOk result (λ walk. walk.live.value ≡ live.entry) }
        ensures course { IfOk result (λ walk. walk.course ≡ course.entry) }
    {
        let live = Rc::new(alloc, live)?;
        Ok(Walk {
            id,
            course,
            live,
            passed: 0,
            best: None,
            known: Known::Nothing,
        })
    }

    /// Before the first of some candidates, behind which nothing comes.
    pub(crate) fn among(
        alloc: Global,
        candidates: &[Cand<'a>],
        members: &ConfigBox,
    ) -> Result<Walk<'a, 's>, OutOfMemory>
        ensures walked { IfOk result (λ walk. (stack : List LayerOf) → HaveWalked stack (IsMember members.now) (trace_among (map cand_of candidates.now)) walk) }
        ensures marked { IfOk result (λ walk. MarkedMatchAll (IsMember members.now) walk.live.value) }
    {
        let live = Live::among(alloc, candidates, members)?;
        let id = ResId(0);
        Walk::at_first(alloc, id, Course::Ended(End::Absent { id }), live)
    }

    /// The same walk for a part of the members by a test of a coordinate, before it is judged where that is due. Its list is
    /// not copied.
    pub(crate) fn shared(&self, at: Coord, is_stale: bool) -> Result<Walk<'a, 's>, OutOfMemory>
        ensures walked { IfOk result (λ walk. (stack : List LayerOf) (sets : List SetOf) (trace : List ℕ → Trace) → HaveWalked stack (IsMember sets) trace self.now → HaveWalked stack (IsMember sets) trace walk) }
        ensures live { IfOk result (λ walk. walk.live.value ≡ self.now.live.value) }
    {
        Ok(Walk {
            id: self.id,
            course: self.course.shared()?,
            live: self.live.clone()?,
            passed: self.passed,
            best: self.best,
            known: self.known.of_part(at, is_stale)?,
        })
    }

    /// Keeps of the candidates ahead those that members of a smaller box match.
    pub(crate) fn judge(&mut self, alloc: Global, members: &ConfigBox) -> Result<(), OutOfMemory>
        requires { MarkedMatchAll (IsMember members.now) self.old.live.value }
        ensures walked { (stack : List LayerOf) (trace : List ℕ → Trace) → HaveWalked stack (IsMember members.now) trace self.old → HaveWalked stack (IsMember members.now) trace self.new }
        ensures marked { MarkedMatchAll (IsMember members.now) self.new.live.value }
    {
        let live = Live::of(alloc, self.ahead(), members)?;
        let judged = Rc::new(alloc, live)?;
        self.passed = 0;
        self.live = judged;
        self.known = self.known.moved();
        Ok(())
    }

    /// The candidates of the id that lie ahead.
    pub(crate) fn ahead(&self) -> &[(Cand<'a>, bool)]
        ensures ahead { map live_of result.now ≡ live_ahead self.now }
        ensures told { (stack : List LayerOf) (sets : List SetOf) (trace : List ℕ → Trace) → HaveWalked stack (IsMember sets) trace self.now → TellsMatches (IsMember sets) trace self.now }
    {
        &self.live.as_ref().list()[self.passed..]
    }

    /// Goes on as far as all members go by the same steps: to the end of the one trace that they have, or to the first
    /// question that they answer differently.
    pub(crate) fn go_on(
        &mut self,
        alloc: Global,
        stack: &Stack<'a>,
        members: &ConfigBox,
    ) -> Result<CommonTrace<'a>, OutOfMemory>
        requires { MarkedMatchAll (IsMember members.now) self.old.live.value }
        ensures marked { MarkedMatchAll (IsMember members.now) self.new.live.value }
        ensures walked { (trace : List ℕ → Trace) → HaveWalked stack.now (IsMember members.now) trace self.old → HaveWalked stack.now (IsMember members.now) trace self.new }
        ensures common { IfOk result (λ common. (trace : List ℕ → Trace) → HaveWalked stack.now (IsMember members.now) trace self.old → IsCommonTrace common members.now trace) }
    {
        'look_ups: loop {
            if let Some(parting) = self.pass_candidates(members) {
                return Ok(CommonTrace::Mixed(parting));
            }
            match self.course.after(alloc, self.id, &self.best)? {
                CourseStep::EndsAt(end) => return Ok(CommonTrace::One(end)),
                CourseStep::LookUp(target, course) => {
                    *self = Walk::at_look_up(alloc, stack, target, course, members)?;
                }
            }
        }
    }

    /// A question at which the members part, where `first` is the first: a condition of a candidate ahead, the weightiest
    /// of those that are open. Along one coordinate alone they are taken as they come.
    pub(crate) fn weightiest_parting(
        &mut self,
        alloc: Global,
        first: Parting<'a>,
        members: &ConfigBox,
    ) -> Result<Parting<'a>, OutOfMemory>
        ensures live { self.new.live.value ≡ self.old.live.value }
        ensures walked { (stack : List LayerOf) (trace : List ℕ → Trace) → HaveWalked stack (IsMember members.now) trace self.old → HaveWalked stack (IsMember members.now) trace self.new }
        ensures told { IfOk result (λ parting. (stack : List LayerOf) (trace : List ℕ → Trace) → HaveWalked stack (IsMember members.now) trace self.old → IsToldApart first.entry members.now trace → IsToldApart parting members.now trace) }
    {
        if let Known::OfOneCoordinate = self.known {
            return Ok(first);
        }
        let waiting = self.waiting(alloc, members)?;
        let parting = self.parting_of(weightiest(alloc, &waiting)?, members);
        self.known = Known::are(alloc, waiting)?;
        Ok(parting.unwrap_or(first))
    }

    /// The open conditions of the candidates ahead.
    fn waiting(&self, alloc: Global, members: &ConfigBox) -> Result<Vec<Waiting>, OutOfMemory> {
        match &self.known {
            Known::Were(known, at) => {
                let part = Part { members, at: *at };
                still_open(alloc, known.as_ref(), self.ahead(), self.passed, part)
            }
            _ => open_conditions(alloc, self.ahead(), self.passed, members),
        }
    }

    /// Where a condition of one of the candidates ahead parts the members.
    fn parting_of(&self, weighed: Option<Weighed>, members: &ConfigBox) -> Option<Parting<'a>>
        ensures { IfSome result (λ parting. (stack : List LayerOf) (trace : List ℕ → Trace) → HaveWalked stack (IsMember members.now) trace self.now → IsToldApart parting members.now trace) }
    {
        let condition = weighed?.condition;
        let place = condition.place.checked_sub(self.passed)?;
        let live = self.ahead().get(place)?;
        parting_at(members, &live.0, condition.coord)
    }

    /// Passes the candidates of the id that do the same at all members, up to where these part.
    fn pass_candidates(&mut self, members: &ConfigBox) -> Option<Parting<'a>>
        requires { MarkedMatchAll (IsMember members.now) self.old.live.value }
        ensures marked { MarkedMatchAll (IsMember members.now) self.new.live.value }
        ensures course { self.new.course ≡ self.old.course }
        ensures walked { (stack : List LayerOf) (trace : List ℕ → Trace) → HaveWalked stack (IsMember members.now) trace self.old → HaveWalked stack (IsMember members.now) trace self.new }
        ensures none_ahead { IfNone result (live_ahead self.new ≡ []) }
        ensures parts { IfSome result (λ parting. (stack : List LayerOf) (trace : List ℕ → Trace) → HaveWalked stack (IsMember members.now) trace self.old → IsParting parting members.now trace) }
    {
        'candidates: while self.passed < self.live.as_ref().list().len() {
            let live = self.live.as_ref().list()[self.passed];
            match best_after(&self.best, live, members) {
                CommonStep::One(best) => self.best = best,
                CommonStep::Mixed(parting) => return Some(parting),
            }
            self.passed += 1;
        }
        None
    }
}
