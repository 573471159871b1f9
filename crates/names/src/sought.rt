//! A name that is looked for.

ghost use Rattle.std.specs.Prelude.{◌≡◌, IfOk, OnOk};
ghost use Rattle.overlay_map.specs.type_chunks.Row.{row_of};
ghost use Rattle.string_pool.specs.Text.{seen_text};
ghost use Rattle.names.specs.Names.{name_of, is_name, has_names};
ghost use Rattle.names.specs.Sought.{noted};

use crate::found::Found;
use crate::name::Name;
use crate::packages::{Packages, is_asked_in};
use crate::text::name_text;
use crate::wanted::Wanted;
use overlay_map::{Row, Table};
use std::alloc::{AllocError, Global};
use string_pool::{StringFault, Text};

/// A name, with what was found of it.
#[derive(Clone, Copy)]
pub(crate) struct Sought<'n> {
    pub packages: Packages<'n>,
    pub wanted: Wanted<'n>,
    pub found: Found,
}

impl<'n> Sought<'n> {
    /// Notes a row, if it has the name.
    pub fn note(
        &mut self,
        alloc: Global,
        table: &Table<'_>,
        row: &Row<'_>,
    ) -> Result<(), AllocError>
        ensures { OnOk result (self.new ≡ noted table.now (row_of row.now) self.old) }
    {
        let Wanted { package, name } = self.wanted;
        let named = is_named(alloc, table, row, name)?;
        if named && is_asked_in(self.packages.all, package, row.id.package()) {
            self.found = self.found.also(row.id);
        }
        Ok(())
    }
}

// Whether a row has a name.
fn is_named(
    alloc: Global,
    table: &Table<'_>,
    row: &Row<'_>,
    name: Name<'_>,
) -> Result<bool, AllocError>
    ensures { IfOk result (λ named. named ≡ has_names table.now (name_of name.entry).type_name (name_of name.entry).entry_name (row_of row.now)) }
{
    let of_type = is_text(alloc, table.type_name(row), name.type_name)?;
    let of_entry = is_text(alloc, table.key_name(row), name.entry_name)?;
    Ok(of_type && of_entry)
}

/// Whether a name can be read and is this text.
pub(crate) fn is_text(
    alloc: Global,
    name: Result<Text<'_>, StringFault>,
    text: &str,
) -> Result<bool, AllocError>
    ensures { IfOk result (λ same. same ≡ is_name (seen_text name.entry) text.now) }
{
    match name_text(alloc, name)? {
        Some(own) => {
            let same = own.as_str() == text;
            drop(own);
            Ok(same)
        }
        None => Ok(false),
    }
}
