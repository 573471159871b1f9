//! Where one look-up leads.

ghost use Rattle.std.specs.Prelude.{◌≡◌};
ghost use Rattle.reference_resolver.specs.Ends.{is_reference};

use crate::end::End;
use overlay_map::{Cand, Cell, ResId, Value, kind};

/// Where the look-up of an id leads.
#[derive(Clone, Copy)]
pub enum Next {
    /// To this id, which the selected reference names.
    LookUp(ResId),
    /// No further.
    EndsAt(End),
}

impl Next {
    ghost use Rattle.std.specs.Prelude.{◌≡◌};
    ghost use Rattle.std.specs.Option.{option_map};
    ghost use Rattle.overlay_map.specs.Candidates.{cand_of};
    ghost use Rattle.reference_resolver.specs.Ends.{next_of, cut_off};

    /// Where an id leads for which this candidate was selected, or none.
    pub fn of(id: ResId, picked: &Option<Cand<'_>>) -> Next
        ensures { result ≡ next_of id.0 (option_map cand_of picked.now) }
    {
        let Some(candidate) = picked else {
            return Next::EndsAt(End::Absent { id });
        };
        match candidate.row.cell {
            Cell::Plain(value) if is_reference(value) => Next::LookUp(ResId(value.word)),
            Cell::Plain(value) => Next::EndsAt(End::Value {
                layer: candidate.layer,
                value,
            }),
            Cell::Bag { .. } => Next::EndsAt(End::Bag { id }),
        }
    }

    /// The same, where at most `left` references may still be followed.
    pub fn cut_off(self, left: u8) -> Next
        ensures { result ≡ cut_off left self }
    {
        match self {
            Next::LookUp(target) if left == 0 => Next::EndsAt(End::TooLong { id: target }),
            next => next,
        }
    }
}

/// Whether a value is a reference to an id. A reference to 0 is to none.
pub fn is_reference(value: Value) -> bool
    ensures { result ≡ is_reference value }
{
    value.kind == kind::REFERENCE && value.word != 0
}
