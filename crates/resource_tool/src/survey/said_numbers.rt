//! The numbers that a row says.

ghost use Rattle.std.specs.Prelude.{◌≡◌};
ghost use Rattle.command_base.specs.overlay_map.type_chunks.Row.{row_of};
ghost use Rattle.resource_tool.specs.NumberSaid.{number_said};

use command_base::{Coord, Row};

/// The number that a row says at a coordinate. Of the locale it is that of its language and its region.
#[tactic(auto, unfolding(crate::specs::NumberSaid::number_said))]
pub(crate) fn number_said(row: &Row<'_>, at: Coord) -> u64
    ensures { result ≡ number_said (row_of row.now).config at }
{
    match at {
        Coord::Locale => row.config.locale().number(),
        _ => row.config.compared_number(at),
    }
}
