//! The rows of a table, one after the other.

ghost use Rattle.std.specs.Prelude.{◌≡◌, ◌*◌, ◌≤◌, ◌^◌, [], length};
ghost use Rattle.std.specs.Option.{unwrap_or};
ghost use Rattle.std.specs.Iterator.{YieldsFirstBy};
ghost use Rattle.type_chunks.specs.Row.{row_of};

use crate::package::Package;
use crate::package_rows::PackageRows;
use std::marker::Model;
use std::slice::Iter;
use type_chunks::{ResId, Row};

/// All rows of a table that are left, in the order of the file.
#[derive(Drop)]
pub struct AllRows<'t, 'a> {
    /// Those of the package that stands before `packages`; none before the first.
    left: Option<PackageRows<'t, 'a>>,
    packages: Iter<'t, Package<'a>>,
}

impl<'t, 'a> Model for AllRows<'t, 'a> {
    ghost use Rattle.std.specs.Prelude.{List, [], ◌++◌};
    ghost use Rattle.std.specs.Option.{unwrap_or};
    ghost use Rattle.std.specs.Slice.Iter.{iter_rest};
    ghost use Rattle.type_chunks.specs.Row.{RowOf};
    ghost use Rattle.overlay_map.specs.Package.{packages_of, rows_of_packages};

    ghost Value = { List RowOf };

    ghost view = { λ s. unwrap_or s.left [] ++ rows_of_packages (packages_of (iter_rest s.packages)) };
}

impl<'t, 'a> AllRows<'t, 'a> {
    ghost use Rattle.overlay_map.specs.Package.{packages_of, rows_of_packages};

    #[tactic(auto, using(crate::proofs::RowsSteps::rows_steps))]
    pub(crate) fn new(packages: &'t [Package<'a>]) -> Self
        ensures rows { result ≡ rows_of_packages (packages_of packages.now) }
        ensures few { length result ≤ length packages.now * 2 ^ 63 }
    {
        AllRows {
            left: None,
            packages: packages.iter(),
        }
    }
}

impl<'t, 'a> Iterator for AllRows<'t, 'a> {
    ghost use Rattle.std.specs.Iterator.{YieldsFirstBy, item_count};
    ghost use Rattle.type_chunks.specs.Row.{row_of};

    type Item = Row<'a>;

    ghost next_gives = { YieldsFirstBy row_of (λ s. s) };

    ghost remaining = { item_count (λ s. s) };

    #[tactic(auto, using(crate::proofs::RowsSteps::rows_steps))]
    fn next(&mut self) -> Option<Row<'a>> {
        'packages: loop {
            if let Some(row) = next_of(&mut self.left) {
                return Some(row);
            }
            let package = self.packages.next()?;
            self.left = Some(package.rows());
        }
    }
}

// The next row of a package, where there is one.
fn next_of<'a>(rows: &mut Option<PackageRows<'_, 'a>>) -> Option<Row<'a>>
    ensures { YieldsFirstBy row_of (λ o. unwrap_or o []) rows.old result rows.new }
{
    match rows {
        Some(rows) => rows.next(),
        None => None,
    }
}

/// The rows of one id that are left, in the order of the file.
#[derive(Drop)]
pub struct Rows<'t, 'a> {
    all: AllRows<'t, 'a>,
    id: ResId,
}

impl<'t, 'a> Model for Rows<'t, 'a> {
    ghost use Rattle.std.specs.Prelude.{List};
    ghost use Rattle.type_chunks.specs.Row.{RowOf, with_id};

    ghost Value = { List RowOf };

    ghost view = { λ s. with_id s.id.0 s.all };
}

impl<'t, 'a> Rows<'t, 'a> {
    ghost use Rattle.type_chunks.specs.Row.{with_id};
    ghost use Rattle.overlay_map.specs.Package.{packages_of, rows_of_packages};

    pub(crate) fn new(packages: &'t [Package<'a>], id: ResId) -> Self
        ensures { result ≡ with_id id.0 (rows_of_packages (packages_of packages.now)) }
    {
        Rows {
            all: AllRows::new(packages),
            id,
        }
    }
}

impl<'t, 'a> Iterator for Rows<'t, 'a> {
    ghost use Rattle.std.specs.Iterator.{YieldsFirstBy, item_count};
    ghost use Rattle.type_chunks.specs.Row.{row_of};

    type Item = Row<'a>;

    ghost next_gives = { YieldsFirstBy row_of (λ s. s) };

    ghost remaining = { item_count (λ s. s) };

    fn next(&mut self) -> Option<Row<'a>> {
        while let Some(row) = self.all.next() {
            if row.id == self.id {
                return Some(row);
            }
        }
        None
    }
}
