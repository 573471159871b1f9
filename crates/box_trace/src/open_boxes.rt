//! The list of the boxes of open paths.

use crate::halving::Halving;
use crate::open_box::OpenBox;
use config_box::{ConfigBox, Coord, OutOfMemory, Split, Test};
use smallvec::SmallVec;
use std::alloc::Global;
use std::marker::Model;

/// The boxes of open paths, the next one last. Few trees have more than four paths open at once; so many boxes take
/// no memory beside their own. Contracts see the list of them.
#[derive(Drop)]
pub struct OpenBoxes<'a, 's> {
    /// A place holds a box, or none while it is free. There are no free places among those in use.
    places: SmallVec<Option<OpenBox<'a, 's>>, 4>,
}

impl<'a, 's> Model for OpenBoxes<'a, 's> {
    ghost use Rattle.std.specs.Prelude.{List, IsSome};
    ghost use Rattle.std.specs.List.{All, flat_map};
    ghost use Rattle.std.specs.Option.{option_to_list};
    ghost use Rattle.box_trace.specs.declared.open_box.OpenBox.{OpenBox};

    ghost Value = { List OpenBox };

    ghost view = { λ boxes. flat_map option_to_list boxes.places.items };

    ghost invariant = { λ boxes. All IsSome boxes.places.items };
}

impl<'a, 's> OpenBoxes<'a, 's> {
    ghost use Rattle.std.specs.Prelude.{◌≡◌, ℕ, List, [], ◌∷◌, ◌++◌, length, IfOk, OnOk, OnErr, IfNone};
    ghost use Rattle.std.specs.List.{All};
    ghost use Rattle.std.specs.Option.{option_to_list};
    ghost use Rattle.config_box.specs.box_answers.Members.{IsMember};
    ghost use Rattle.config_box.specs.Tests.{test_of};
    ghost use Rattle.bags_themes.specs.overlay_map.Layer.{LayerOf};
    ghost use Rattle.bags_themes.specs.reference_resolver.Trace.{Trace};
    ghost use Rattle.box_trace.specs.Halving.{IsHalving};
    ghost use Rattle.box_trace.specs.OpenBox.{boxes_of, IsReached};

    /// One box, and no other.
    pub fn of(alloc: Global, part: OpenBox<'a, 's>) -> Result<OpenBoxes<'a, 's>, OutOfMemory>
        ensures { IfOk result (λ boxes. boxes ≡ part.entry ∷ []) }
    {
        let mut boxes = OpenBoxes {
            places: SmallVec::new(alloc),
        };
        boxes.push(part)?;
        Ok(boxes)
    }

    pub fn len(&self) -> usize
        ensures { result ≡ length self.now }
    {
        self.places.len()
    }

    pub fn push(&mut self, part: OpenBox<'a, 's>) -> Result<(), OutOfMemory>
        ensures items { OnOk result (self.new ≡ self.old ++ part.entry ∷ []) }
        ensures err { OnErr result (self.new ≡ self.old) }
    {
        self.places.push(Some(part))?;
        Ok(())
    }

    /// The halves of a box by a test, which go on where the whole stopped, the one with yes last.
    pub fn push_halves(
        &mut self,
        alloc: Global,
        whole: &OpenBox<'a, 's>,
        test: &Test,
    ) -> Result<Halving, OutOfMemory>
        ensures halved { IfOk result (IsHalving whole.now.members (test_of test.now) (boxes_of self.old) (boxes_of self.new)) }
        ensures reached { OnOk result ((stack : List LayerOf) (trace : List ℕ → Trace) → IsReached stack trace whole.now → All (IsReached stack trace) self.old → All (IsReached stack trace) self.new) }
    {
        match whole.members.split(alloc, test)? {
            Split::Halves(yes, no) => {
                self.push_part(whole, no, test.coord())?;
                self.push_part(whole, yes, test.coord())?;
                Ok(Halving::Opened)
            }
            Split::WrongKind => Ok(Halving::WrongKind),
            Split::EmptyHalf => Ok(Halving::EmptyHalf),
        }
    }

    /// A part of a box, smaller at this coordinate.
    fn push_part(
        &mut self,
        whole: &OpenBox<'a, 's>,
        members: ConfigBox,
        at: Coord,
    ) -> Result<(), OutOfMemory>
        requires { (d : List ℕ) → IsMember members d → IsMember whole.now.members d }
        ensures boxes { OnOk result (boxes_of self.new ≡ boxes_of self.old ++ members ∷ []) }
        ensures reached { OnOk result ((stack : List LayerOf) (trace : List ℕ → Trace) → IsReached stack trace whole.now → All (IsReached stack trace) self.old → All (IsReached stack trace) self.new) }
    {
        let part = whole.narrowed(members, at)?;
        self.push(part)
    }

    /// Takes the last one away.
    pub fn pop(&mut self) -> Option<OpenBox<'a, 's>>
        ensures items { self.old ≡ self.new ++ option_to_list result }
        ensures none { IfNone result (self.old ≡ []) }
    {
        self.places.pop()?
    }

    /// Drops them, as `OpenBox::close` does.
    pub fn close(self) {}
}
