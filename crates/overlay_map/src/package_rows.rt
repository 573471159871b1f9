//! The rows of a package, one type after the other.

ghost use Rattle.std.specs.Prelude.{◌≡◌, []};
ghost use Rattle.std.specs.Option.{unwrap_or};
ghost use Rattle.std.specs.Iterator.{YieldsFirstBy};
ghost use Rattle.type_chunks.specs.Row.{row_of};

use std::marker::Model;
use type_chunks::{Row, TypeRows, Types};

/// The rows of a package that are left, in the order of the file.
#[derive(Drop)]
pub struct PackageRows<'t, 'a> {
    /// Those of the type that stands before `types`; none before the first.
    left: Option<TypeRows<'a>>,
    types: Types<'t, 'a>,
}

impl<'t, 'a> Model for PackageRows<'t, 'a> {
    ghost use Rattle.std.specs.Prelude.{List, [], ◌++◌};
    ghost use Rattle.std.specs.Option.{unwrap_or};
    ghost use Rattle.type_chunks.specs.TypeRows.{rows_of_each};
    ghost use Rattle.type_chunks.specs.Row.{RowOf};

    ghost Value = { List RowOf };

    ghost view = { λ s. unwrap_or s.left [] ++ rows_of_each s.types };
}

impl<'t, 'a> PackageRows<'t, 'a> {
    ghost use Rattle.type_chunks.specs.TypeRows.{rows_of_each};

    pub(crate) fn new(types: Types<'t, 'a>) -> Self
        ensures { result ≡ rows_of_each types.entry }
    {
        PackageRows { left: None, types }
    }
}

impl<'t, 'a> Iterator for PackageRows<'t, 'a> {
    ghost use Rattle.std.specs.Iterator.{YieldsFirstBy, item_count};
    ghost use Rattle.type_chunks.specs.Row.{row_of};

    type Item = Row<'a>;

    ghost next_gives = { YieldsFirstBy row_of (λ s. s) };

    ghost remaining = { item_count (λ s. s) };

    fn next(&mut self) -> Option<Row<'a>> {
        'types: loop {
            if let Some(row) = next_of(&mut self.left) {
                return Some(row);
            }
            let checked = self.types.next()?;
            self.left = Some(checked.rows());
        }
    }
}

// The next row of a type, where there is one.
fn next_of<'a>(rows: &mut Option<TypeRows<'a>>) -> Option<Row<'a>>
    ensures { YieldsFirstBy row_of (λ o. unwrap_or o []) rows.old result rows.new }
{
    match rows {
        Some(rows) => rows.next(),
        None => None,
    }
}
