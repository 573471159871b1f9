//! What is known of the open conditions of the candidates ahead. No promise depends on it.

use crate::waiting::Waiting;
use config_box::{Coord, OutOfMemory};
use std::alloc::Global;
use std::rc::Rc;

/// What is known of the open conditions of the candidates ahead, for the members of a box.
#[derive(Drop)]
pub(crate) enum Known {
    Nothing,
    /// They are conditions of one coordinate alone, and so are those of each part.
    OfOneCoordinate,
    /// They are these.
    Are(Rc<Vec<Waiting>>),
    /// They were these in a larger box, of which this is a part by a test of the coordinate.
    Were(Rc<Vec<Waiting>>, Coord),
}

impl Known {
    /// They are these.
    pub(crate) fn are(alloc: Global, waiting: Vec<Waiting>) -> Result<Known, OutOfMemory> {
        if are_of_one_coordinate(&waiting) {
            return Ok(Known::OfOneCoordinate);
        }
        Ok(Known::Are(Rc::new(alloc, waiting)?))
    }

    /// What is known where the candidates ahead stand at other places.
    pub(crate) fn moved(&self) -> Known {
        match self {
            Known::OfOneCoordinate => Known::OfOneCoordinate,
            Known::Nothing | Known::Are(_) | Known::Were(_, _) => Known::Nothing,
        }
    }

    /// What is known of a part by a test of a coordinate, where candidates are not to be judged anew. Else no list is kept, so
    /// that only one of the two parts has one. Soft keys meet what asks for exposed ones, though their numbers do not stand
    /// side by side: so no open condition tells whether that is still met.
    pub(crate) fn of_part(&self, at: Coord, is_stale: bool) -> Result<Known, OutOfMemory> {
        match self {
            Known::Are(waiting) if !is_stale && at != Coord::KeysHidden => {
                Ok(Known::Were(waiting.clone()?, at))
            }
            _ => Ok(self.moved()),
        }
    }
}

/// Whether they all are of one coordinate.
fn are_of_one_coordinate(waiting: &[Waiting]) -> bool {
    let Some(first) = waiting.first() else {
        return true;
    };
    for condition in waiting {
        if condition.coord != first.coord {
            return false;
        }
    }
    true
}
