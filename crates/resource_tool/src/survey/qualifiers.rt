//! The qualifiers that rows have, with their numbers.

ghost use Rattle.std.specs.Prelude.{◌≡◌};
ghost use Rattle.std.specs.List.{flat_map};
ghost use Rattle.command_base.specs.cert_tree.config_box.config_record.declared.coord.Coord as coord;
ghost use Rattle.command_base.specs.overlay_map.type_chunks.Row.{row_of};
ghost use Rattle.command_base.specs.overlay_map.Table.{rows_of};
ghost use Rattle.resource_tool.specs.LayerNotes.{rows_at};
ghost use Rattle.resource_tool.specs.Qualifiers.{rows_in_stack, numbers_at, spread_of};
ghost use Rattle.resource_tool.specs.Counting.{and_number, spread_in, with_number, counted, said_at, said_by};

use crate::survey::said_numbers::number_said;
use command_base::{Coord, Row, Stack, Table};

/// How many coordinates there are.
const COORD_COUNT: usize = Coord::ALL.len();

/// How many numbers there are, the least and the greatest of them.
#[derive(Clone, Copy)]
pub(crate) struct Spread {
    /// 4294967295 stands for as many and more.
    pub count: u32,
    pub least: u64,
    pub greatest: u64,
}

impl Spread {
    const NONE: Spread = Spread {
        count: 0,
        least: 0,
        greatest: 0,
    };

    // With one more number; 0 says nothing.
    fn and_number(self, number: u64) -> Spread
        ensures { result ≡ and_number self number }
    {
        if number == 0 {
            return self;
        }
        if self.count == 0 {
            return Spread {
                count: 1,
                least: number,
                greatest: number,
            };
        }
        Spread {
            count: self.count.saturating_add(1),
            least: self.least.min(number),
            greatest: self.greatest.max(number),
        }
    }
}

/// Of each coordinate the numbers that rows have.
#[derive(Clone, Copy)]
pub(crate) struct Qualifiers {
    spreads: [Spread; COORD_COUNT],
}

impl Qualifiers {
    /// Those of the rows of all layers.
    pub fn of_stack(stack: &Stack<'_>) -> Qualifiers
        ensures { (c : coord.Coord) → spread_in result c ≡ spread_of (numbers_at c (rows_in_stack stack.now)) }
    {
        let mut qualifiers = Qualifiers {
            spreads: [Spread::NONE; COORD_COUNT],
        };
        for place in 0..stack.len() {
            qualifiers.add_layer(stack, place);
        }
        qualifiers
    }

    /// The numbers of a coordinate.
    pub fn spread(&self, coord: Coord) -> Spread
        ensures { result ≡ spread_in self.now coord }
    {
        self.spreads[coord.place()]
    }

    #[tactic(auto, unfolding(crate::specs::LayerNotes::rows_at), using(crate::proofs::QualifierSteps::counted_steps))]
    fn add_layer(&mut self, stack: &Stack<'_>, place: usize)
        ensures { self.new ≡ counted self.old (flat_map said_by (rows_at stack.now place)) }
    {
        if let Some(table) = stack.layer_table(place) {
            self.add_table(table);
        }
    }

    #[tactic(auto, using(crate::proofs::QualifierSteps::counted_steps))]
    fn add_table(&mut self, table: &Table<'_>)
        ensures { self.new ≡ counted self.old (flat_map said_by (rows_of table.now)) }
    {
        for row in table.all_rows() {
            self.add_row(&row);
        }
    }

    #[tactic(auto, unfolding(crate::specs::Counting::said_by, crate::specs::Unfolded::all_coords))]
    fn add_row(&mut self, row: &Row<'_>)
        ensures { self.new ≡ counted self.old (said_by (row_of row.now)) }
    {
        self.add_coords(row, &Coord::ALL);
    }

    fn add_coords(&mut self, row: &Row<'_>, coords: &[Coord])
        ensures { self.new ≡ counted self.old (flat_map (said_at (row_of row.now)) coords.now) }
    {
        for coord in coords {
            self.add_number(*coord, number_said(row, *coord));
        }
    }

    #[tactic(auto, unfolding(crate::specs::Counting::with_number))]
    fn add_number(&mut self, coord: Coord, number: u64)
        ensures { self.new ≡ with_number self.old (record { coord = coord; number = number }) }
    {
        let place = coord.place();
        self.spreads[place] = self.spreads[place].and_number(number);
    }
}
