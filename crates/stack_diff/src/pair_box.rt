//! The boxes of open paths, where two stacks are asked.

ghost use Rattle.std.specs.Prelude.{◌≡◌, true, ℕ, List, length, [], ◌∷◌, ◌++◌, IfOk, OnOk, MatchOption};
ghost use Rattle.cert_maker.specs.box_answers.Members.{IsMember};
ghost use Rattle.cert_maker.specs.cert_checker.OpenBoxes.{IsWholeBox};
ghost use Rattle.cert_maker.specs.cert_checker.box_trace.OpenBox.{boxes_of, IsReached};
ghost use Rattle.cert_maker.specs.config_box.Tests.{test_of};
ghost use Rattle.cert_maker.specs.Growth.{CanBeAsked};
ghost use Rattle.stack_diff.specs.PairBox.{members_of, IsOpen, TracesTo, PairTracesTo, members_open, AreWhole, PopsLast, PushesNarrowed, PushesPart, PushesHalves};
ghost use Rattle.stack_diff.specs.Sides.{trace_in};

use crate::pair::{Pair, Resource};
use answer_text::End;
use cert_maker::{CommonTrace, ConfigBox, OpenBox, OpenBoxes, OutOfMemory, Parting, Split, Test};
use config_box::Coord;
use std::alloc::Global;

/// What all members of a box have in common in two stacks.
pub(crate) enum PairTrace<'a> {
    /// They have one trace in either, with these ends.
    One { before: End, after: End },
    /// They part at this question in one of them.
    Parted(Parting<'a>),
}

/// The box of an open path, and how far all its members go by the same steps in either stack. It is dropped by `close` alone.
pub(crate) struct PairBox<'a, 's> {
    before: OpenBox<'a, 's>,
    after: OpenBox<'a, 's>,
}

impl<'a, 's> PairBox<'a, 's> {
    pub(crate) fn members(&self) -> &ConfigBox
        ensures { result.now ≡ members_of self.now }
    {
        &self.before.members
    }

    /// What the traces of all members have in common in either stack.
    pub(crate) fn trace(
        &mut self,
        alloc: Global,
        pair: Pair<'_, 'a>,
    ) -> Result<PairTrace<'a>, OutOfMemory>
        requires { IsOpen pair self.old }
        ensures { IfOk result (PairTracesTo pair.entry self.old self.new) }
    {
        if pair.is_alone {
            return self.trace_alone(alloc, pair);
        }
        // Either goes on as far as it can, so that its halves do not ask again what it has passed.
        let before = trace_in(alloc, pair.before, &mut self.before)?;
        let after = trace_in(alloc, pair.after, &mut self.after)?;
        let before = match before {
            CommonTrace::One(end) => end,
            CommonTrace::Mixed(parting) => return Ok(PairTrace::Parted(parting)),
        };
        match after {
            CommonTrace::One(after) => Ok(PairTrace::One { before, after }),
            CommonTrace::Mixed(parting) => Ok(PairTrace::Parted(parting)),
        }
    }

    // The same of one resource, whose trace tells both.
    fn trace_alone(
        &mut self,
        alloc: Global,
        pair: Pair<'_, 'a>,
    ) -> Result<PairTrace<'a>, OutOfMemory>
        requires open { IsOpen pair self.old }
        requires alone { pair.is_alone ≡ true }
        ensures { IfOk result (PairTracesTo pair.entry self.old self.new) }
    {
        match trace_in(alloc, pair.after, &mut self.after)? {
            CommonTrace::One(end) => Ok(PairTrace::One {
                before: end,
                after: end,
            }),
            CommonTrace::Mixed(parting) => Ok(PairTrace::Parted(parting)),
        }
    }

    /// Drops it.
    pub(crate) fn close(self) {
        let PairBox { before, after } = self;
        before.close();
        after.close();
    }
}

/// All open boxes, the next one last. They have the same members in either stack.
pub(crate) struct PairBoxes<'a, 's> {
    before: OpenBoxes<'a, 's>,
    after: OpenBoxes<'a, 's>,
}

impl<'a, 's> PairBoxes<'a, 's> {
    /// A whole box, where nothing of either resource is asked yet.
    pub(crate) fn whole(
        alloc: Global,
        pair: Pair<'_, 'a>,
        members: &ConfigBox,
    ) -> Result<PairBoxes<'a, 's>, OutOfMemory>
        ensures { IfOk result (AreWhole pair.entry members.now) }
    {
        let before = whole_of(alloc, pair.before, members)?;
        match whole_of(alloc, pair.after, members) {
            Ok(after) => Ok(PairBoxes { before, after }),
            Err(error) => {
                before.close();
                Err(error)
            }
        }
    }

    pub(crate) fn len(&self) -> usize
        ensures { result ≡ length self.now.before }
    {
        self.before.len()
    }

    /// Takes the last one away.
    pub(crate) fn pop(&mut self) -> Option<PairBox<'a, 's>>
        requires { boxes_of self.old.after ≡ boxes_of self.old.before }
        ensures { MatchOption result (members_open self.old ≡ []) (PopsLast self.old self.new) }
    {
        let before = self.before.pop()?;
        match self.after.pop() {
            Some(after) => Some(PairBox { before, after }),
            None => unreachable!(),
        }
    }

    /// The halves of a box by a test, which go on where the whole stopped, the one with yes last.
    pub(crate) fn push_halves(
        &mut self,
        alloc: Global,
        whole: &PairBox<'a, 's>,
        test: &Test,
    ) -> Result<(), OutOfMemory>
        requires same { whole.now.after.members ≡ whole.now.before.members }
        requires asked { CanBeAsked (members_of whole.now) (test_of test.now) }
        ensures { IfOk result (λ _. PushesHalves whole.now (test_of test.now) self.old self.new) }
    {
        match whole.before.members.split(alloc, test)? {
            Split::Halves(yes, no) => {
                self.push_part(alloc, whole, no, test)?;
                self.push_part(alloc, whole, yes, test)
            }
            // The test is one that can be asked of these members, and parts two of them.
            Split::WrongKind => unreachable!(),
            Split::EmptyHalf => unreachable!(),
        }
    }

    // One of them.
    fn push_part(
        &mut self,
        alloc: Global,
        whole: &PairBox<'a, 's>,
        half: ConfigBox,
        test: &Test,
    ) -> Result<(), OutOfMemory>
        requires same { whole.now.after.members ≡ whole.now.before.members }
        requires within { (d : List ℕ) → IsMember half d → IsMember (members_of whole.now) d }
        ensures { IfOk result (λ _. PushesPart whole.now half self.old self.new) }
    {
        let shared = half.shared(alloc)?;
        push_narrowed(&mut self.before, &whole.before, shared, test.coord())?;
        push_narrowed(&mut self.after, &whole.after, half, test.coord())
    }

    /// Drops them.
    pub(crate) fn close(self) {
        let PairBoxes { before, after } = self;
        before.close();
        after.close();
    }
}

// A part of a box, which goes on where the whole stopped.
fn push_narrowed<'a, 's>(
    open_boxes: &mut OpenBoxes<'a, 's>,
    whole: &OpenBox<'a, 's>,
    members: ConfigBox,
    at: Coord,
) -> Result<(), OutOfMemory>
    requires { (d : List ℕ) → IsMember members d → IsMember whole.now.members d }
    ensures { OnOk result (PushesNarrowed whole.now members open_boxes.old open_boxes.new) }
{
    let part = whole.narrowed(members, at)?;
    open_boxes.push(part)
}

// A whole box and no other, where nothing of a resource is asked yet.
fn whole_of<'a, 's>(
    alloc: Global,
    resource: Resource<'_, 'a>,
    members: &ConfigBox,
) -> Result<OpenBoxes<'a, 's>, OutOfMemory>
    ensures { IfOk result (IsWholeBox resource.entry.stack.now (trace_in resource.entry) members.now) }
{
    let members = members.shared(alloc)?;
    let whole = OpenBox::whole_of_content(alloc, resource.stack.stack(), resource.id, members)?;
    OpenBoxes::of(alloc, whole)
}

// What the traces of all members have in common in one stack; where they part, at the weightiest question.
fn trace_in<'a, 's>(
    alloc: Global,
    resource: Resource<'_, 'a>,
    part: &mut OpenBox<'a, 's>,
) -> Result<CommonTrace<'a>, OutOfMemory>
    requires { IsReached resource.stack.now (trace_in resource) part.old }
    ensures { IfOk result (TracesTo resource.entry part.old part.new) }
{
    match part.common_trace(alloc, resource.stack.stack())? {
        CommonTrace::One(end) => Ok(CommonTrace::One(end)),
        CommonTrace::Mixed(first) => {
            let parting = part.weightiest_parting(alloc, first)?;
            Ok(CommonTrace::Mixed(parting))
        }
    }
}
