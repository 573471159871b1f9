//! Where the rows of each id stand.

ghost use Rattle.std.specs.Prelude.{◌≡◌, ◌<◌, ◌^◌, IfOk, OnOk, length};
ghost use Rattle.type_chunks.specs.TypeRows.{rows_of_type, rows_of_types};
ghost use Rattle.overlay_map.specs.Heads.{head_of};
ghost use Rattle.overlay_map.specs.Places.{AddsPlace, AddsType, AreLinked, ArePlacesOf};

use crate::heads::Heads;
use crate::link::Link;
use std::alloc::{AllocError, Global};
use type_chunks::{CheckedType, ResId};

/// An id can name so many entries of a type.
const ENTRIES: usize = 0x1_0000;

/// The rows of each id, linked from its first in the order of the file to its last: eight bytes for each
/// row, and four for each entry that a type spec counts.
#[derive(Drop)]
pub(crate) struct RowPlaces {
    pub(crate) heads: Heads,
    pub(crate) links: Vec<Link>,
}

impl RowPlaces {
    /// The places of all rows of types. Refused where memory runs out.
    pub(crate) fn of_types(
        alloc: Global,
        types: &[CheckedType<'_>],
    ) -> Result<RowPlaces, AllocError>
        ensures { IfOk result (ArePlacesOf (rows_of_types types.now) types.now) }
    {
        let mut places = RowPlaces {
            heads: Heads::new(alloc),
            links: Vec::new(alloc),
        };
        let mut number = types.len();
        // Each row is put before those of its id, so the last type is the first.
        while number > 0 {
            number -= 1;
            places.push_type(alloc, number, &types[number])?;
        }
        Ok(places)
    }

    // Adds the rows of the type of a number.
    fn push_type(
        &mut self,
        alloc: Global,
        number: usize,
        of: &CheckedType<'_>,
    ) -> Result<(), AllocError>
        ensures linked { OnOk result (AreLinked self.old → AreLinked self.new) }
        ensures added { OnOk result (AreLinked self.old → AddsType number (rows_of_type of.now) self.old self.new) }
    {
        // No table of 4 GiB has more types than this.
        let Ok(number) = u32::try_from(number) else {
            return Err(AllocError);
        };
        let entries = of.counted_entries().min(ENTRIES);
        self.heads
            .make_room(alloc, of.package_id(), of.id(), entries)?;
        for row in of.rows() {
            self.push(alloc, row.id, number)?;
        }
        Ok(())
    }

    // Adds a row of an id, in the type of a number.
    fn push(&mut self, alloc: Global, id: ResId, type_number: u32) -> Result<(), AllocError>
        ensures linked { OnOk result (AreLinked self.old → AreLinked self.new) }
        ensures added { OnOk result (AreLinked self.old → AddsPlace id.0 type_number self.old self.new) }
    {
        let next = self.heads.get(id);
        self.links.push(Link { type_number, next })?;
        let Ok(head) = u32::try_from(self.links.len()) else {
            return Err(AllocError);
        };
        self.heads.set(alloc, id, head)
    }
}
