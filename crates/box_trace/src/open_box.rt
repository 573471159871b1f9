//! The boxes of open paths.

ghost use Rattle.std.specs.Prelude.{ℕ, List};

use crate::common::CommonTrace;
use crate::parting::Parting;
use crate::walk::Walk;
use bags_themes::{Cand, Course, CourseStep, ResId, Stack};
use config_box::{ConfigBox, Coord, OutOfMemory, Values};
use std::alloc::Global;

/// The box of an open path in a tree, and how far all its members go by the same steps.
#[derive(Drop)]
pub struct OpenBox<'a, 's> {
    pub members: ConfigBox,
    pub(crate) walk: Walk<'a, 's>,
    /// Whether the candidates of its walk are judged anew before it goes on. No promise depends on it.
    is_stale: bool,
    ghost marked: { MarkedMatchAll (IsMember members) walk.live.value },
}

ghost use Rattle.config_box.specs.box_answers.Members.{IsMember};
ghost use Rattle.box_trace.specs.Live.{MarkedMatchAll};

impl<'a, 's> OpenBox<'a, 's> {
    ghost use Rattle.std.specs.Prelude.{◌≡◌, ℕ, List, IfOk, map};
    ghost use Rattle.config_box.specs.box_answers.Members.{IsMember};
    ghost use Rattle.bags_themes.specs.overlay_map.Candidates.{cand_of};
    ghost use Rattle.bags_themes.specs.overlay_map.Layer.{LayerOf};
    ghost use Rattle.bags_themes.specs.reference_resolver.Ends.{references_followed};
    ghost use Rattle.bags_themes.specs.reference_resolver.Trace.{Trace, trace_of};
    ghost use Rattle.bags_themes.specs.AttributeTrace.{attribute_trace};
    ghost use Rattle.bags_themes.specs.ContentTrace.{content_trace};
    ghost use Rattle.bags_themes.specs.Course.{trace_from};
    ghost use Rattle.box_trace.specs.OpenBox.{IsReached};
    ghost use Rattle.box_trace.specs.CommonTrace.{IsCommonTrace};
    ghost use Rattle.box_trace.specs.Parting.{IsToldApart};
    ghost use Rattle.box_trace.specs.TraceAmong.{trace_among};

    /// A whole box, where nothing of an id is asked yet, and at most twenty references are followed.
    pub fn whole(
        alloc: Global,
        stack: &Stack<'a>,
        id: ResId,
        members: ConfigBox,
    ) -> Result<OpenBox<'a, 's>, OutOfMemory>
        ensures members { IfOk result (λ part. part.members ≡ members) }
        ensures reached { IfOk result (IsReached stack.now (trace_of stack.now references_followed id.0)) }
    {
        OpenBox::from_step(alloc, stack, Course::of_id(id), members)
    }

    /// The same of an attribute under styles.
    pub fn whole_of_attribute(
        alloc: Global,
        stack: &Stack<'a>,
        attr: ResId,
        styles: &'s [ResId],
        members: ConfigBox,
    ) -> Result<OpenBox<'a, 's>, OutOfMemory>
        ensures members { IfOk result (λ part. part.members ≡ members) }
        ensures reached { IfOk result (IsReached stack.now (attribute_trace stack.now attr.0 styles.now)) }
    {
        let first = Course::of_attribute(alloc, attr, styles)?;
        OpenBox::from_step(alloc, stack, first, members)
    }

    /// The same of what an id says, for which the parents of a bag are looked up too.
    pub fn whole_of_content(
        alloc: Global,
        stack: &Stack<'a>,
        id: ResId,
        members: ConfigBox,
    ) -> Result<OpenBox<'a, 's>, OutOfMemory>
        ensures members { IfOk result (λ part. part.members ≡ members) }
        ensures reached { IfOk result (IsReached stack.now (content_trace stack.now id.0)) }
    {
        OpenBox::from_step(alloc, stack, Course::of_content(id), members)
    }

    /// The same of what some candidates do, and nothing behind them: so no stack is asked.
    pub fn whole_among(
        alloc: Global,
        candidates: &[Cand<'a>],
        members: ConfigBox,
    ) -> Result<OpenBox<'a, 's>, OutOfMemory>
        ensures members { IfOk result (λ part. part.members ≡ members) }
        ensures reached { IfOk result (λ part. (stack : List LayerOf) → IsReached stack (trace_among (map cand_of candidates.now)) part) }
    {
        let walk = Walk::among(alloc, candidates, &members)?;
        Ok(OpenBox {
            members,
            walk,
            is_stale: false,
        })
    }

    // The same, where this is what comes first.
    fn from_step(
        alloc: Global,
        stack: &Stack<'a>,
        first: CourseStep<'a, 's>,
        members: ConfigBox,
    ) -> Result<OpenBox<'a, 's>, OutOfMemory>
        ensures members { IfOk result (λ part. part.members ≡ members) }
        ensures reached { IfOk result (IsReached stack.now (trace_from stack.now first.entry)) }
    {
        let walk = Walk::from_step(alloc, stack, first, &members)?;
        Ok(OpenBox {
            members,
            walk,
            is_stale: false,
        })
    }

    /// A part of it, which goes on where the whole stopped. It is smaller at this coordinate; no promise depends on that.
    pub fn narrowed(&self, members: ConfigBox, at: Coord) -> Result<OpenBox<'a, 's>, OutOfMemory>
        requires { (d : List ℕ) → IsMember members d → IsMember self.now.members d }
        ensures members { IfOk result (λ part. part.members ≡ members) }
        ensures reached { IfOk result (λ part. (stack : List LayerOf) (trace : List ℕ → Trace) → IsReached stack trace self.now → IsReached stack trace part) }
    {
        let is_stale = is_much_smaller(&members, &self.members, at);
        Ok(OpenBox {
            members,
            walk: self.walk.shared(at, is_stale)?,
            is_stale,
        })
    }

    /// What the traces of all members have in common. The walk goes on to their end, or to where they part.
    pub fn common_trace(
        &mut self,
        alloc: Global,
        stack: &Stack<'a>,
    ) -> Result<CommonTrace<'a>, OutOfMemory>
        ensures members { self.new.members ≡ self.old.members }
        ensures reached { (trace : List ℕ → Trace) → IsReached stack.now trace self.old → IsReached stack.now trace self.new }
        ensures common { IfOk result (λ common. (trace : List ℕ → Trace) → IsReached stack.now trace self.old → IsCommonTrace common self.old.members trace) }
    {
        if self.is_stale {
            self.walk.judge(alloc, &self.members)?;
            self.is_stale = false;
        }
        self.walk.go_on(alloc, stack, &self.members)
    }

    /// A question at which the members part, where `first` is the one that `common_trace` told: of the conditions of
    /// candidates ahead one of the coordinate that most of them ask. For whoever looks for a small tree; no promise depends on which it is.
    pub fn weightiest_parting(
        &mut self,
        alloc: Global,
        first: Parting<'a>,
    ) -> Result<Parting<'a>, OutOfMemory>
        ensures members { self.new.members ≡ self.old.members }
        ensures reached { (stack : List LayerOf) (trace : List ℕ → Trace) → IsReached stack trace self.old → IsReached stack trace self.new }
        ensures told { IfOk result (λ parting. (stack : List LayerOf) (trace : List ℕ → Trace) → IsReached stack trace self.old → IsToldApart first.entry self.old.members trace → IsToldApart parting self.old.members trace) }
    {
        self.walk.weightiest_parting(alloc, first, &self.members)
    }

    /// Drops the box. Where a crate drops it so, and never otherwise, how that is done is proved here alone.
    pub fn close(self) {}
}

/// Whether a part of a box has at most about half of its values at a coordinate. Candidates are judged anew only then: in a
/// chain that takes off value by value the long half does not ask all of them each time.
fn is_much_smaller(part: &ConfigBox, whole: &ConfigBox, at: Coord) -> bool {
    count(&part.values(at)) <= count(&whole.values(at)) / 2
}

fn count(values: &Values<'_>) -> usize {
    match values {
        Values::Range(low, high) => (*high).saturating_sub(*low) as usize,
        Values::Numbers(numbers) => numbers.len(),
        Values::Locales(locales) => locales.len(),
    }
}
