//! How a resource of one stack differs from one of another.

ghost use Rattle.std.specs.Prelude.{◌≡◌, [], ◌∷◌, ◌++◌, IfOk};
ghost use Rattle.std.specs.List.{All};
ghost use Rattle.cert_maker.specs.box_answers.Members.{SomeMember};
ghost use Rattle.stack_diff.specs.Grouped.{JoinsBoxes};

use crate::difference::Difference;
use crate::tree::Leaf;
use cert_maker::{ConfigBox, OutOfMemory};
use config_box::join_boxes;
use std::alloc::Global;

/// A difference, and on which devices it is so.
#[derive(Drop)]
pub struct Change<'a> {
    pub difference: Box<Difference<'a>>,
    /// The devices, in boxes that have none in common.
    pub boxes: Vec<ConfigBox>,
}

impl<'a> Change<'a> {
    /// What one leaf tells.
    pub(crate) fn of(alloc: Global, leaf: Leaf<'a>) -> Result<Change<'a>, OutOfMemory>
        ensures difference { IfOk result (λ change. change.difference.value ≡ leaf.entry.difference.value) }
        ensures boxes { IfOk result (λ change. change.boxes.items ≡ leaf.entry.members ∷ []) }
    {
        let mut boxes = Vec::new(alloc);
        boxes.push(leaf.members)?;
        Ok(Change {
            difference: leaf.difference,
            boxes,
        })
    }

    /// With one more box.
    pub(crate) fn with_box(self, members: ConfigBox) -> Result<Change<'a>, OutOfMemory>
        ensures difference { IfOk result (λ change. change.difference.value ≡ self.entry.difference.value) }
        ensures boxes { IfOk result (λ change. change.boxes.items ≡ self.entry.boxes.items ++ members ∷ []) }
    {
        let mut boxes = self.boxes;
        boxes.push(members)?;
        Ok(Change {
            difference: self.difference,
            boxes,
        })
    }

    /// With boxes that make one box together joined.
    pub(crate) fn joined(self, alloc: Global) -> Result<Change<'a>, OutOfMemory>
        ensures { IfOk result (JoinsBoxes self.entry) }
    {
        let boxes = join_boxes(alloc, self.boxes)?;
        have_devices(&boxes);
        Ok(Change {
            difference: self.difference,
            boxes,
        })
    }
}

/// All changes, and how many nodes the tree had that found them.
#[derive(Drop)]
pub struct Compared<'a> {
    pub changes: Vec<Change<'a>>,
    pub nodes: usize,
}

// A law: no box is empty.
fn have_devices(boxes: &[ConfigBox])
    ensures { All SomeMember boxes.now }
{
    for part in boxes {
        part.is_never_empty();
    }
}
