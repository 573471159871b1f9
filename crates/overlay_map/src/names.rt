//! The names of rows, and rows by their names: methods of `Table` that ask no more of it than its packages and
//! rows.

ghost use Rattle.std.specs.Prelude.{◌≡◌};
ghost use Rattle.std.specs.Option.{option_map};
ghost use Rattle.type_chunks.specs.string_pool.Text.{seen_text};
ghost use Rattle.type_chunks.specs.Row.{row_of};
ghost use Rattle.overlay_map.specs.Package.{package_of};
ghost use Rattle.overlay_map.specs.Names.{type_name_in, key_name_in, is_name, has_names, found_in};

use crate::table::Table;
use type_chunks::{ResId, Row, StringFault, Text};

impl<'a> Table<'a> {
    /// The name of a row's type, as `string` or `layout`. `NoSuch` also where the table has no such
    /// package, or the type's id is not above the package's offset.
    #[tactic(auto, unfolding(crate::specs::Names::type_name_in))]
    pub fn type_name(&self, row: &Row<'_>) -> Result<Text<'a>, StringFault>
        ensures { seen_text result ≡ type_name_in self.now (row_of row.now) }
    {
        let Some(package) = self.packages().get(row.package) else {
            return Err(StringFault::NoSuch);
        };
        let first_id = package.header.type_id_offset as usize + 1;
        match usize::from(row.id.type_id()).checked_sub(first_id) {
            Some(index) => package.header.type_names.get(index),
            None => Err(StringFault::NoSuch),
        }
    }

    /// The name of a row's entry among those of its type.
    #[tactic(auto, unfolding(crate::specs::Names::key_name_in))]
    pub fn key_name(&self, row: &Row<'_>) -> Result<Text<'a>, StringFault>
        ensures { seen_text result ≡ key_name_in self.now (row_of row.now) }
    {
        match self.packages().get(row.package) {
            Some(package) => package.header.key_names.get(row.key as usize),
            None => Err(StringFault::NoSuch),
        }
    }

    /// The resource whose type has the name `kind` and whose entry the name `key`: that of the first row in the
    /// order of the file which has both. For a user who knows names, where all else takes ids. It walks over the
    /// rows, so for many names it is better to read each row's names once.
    ///
    /// ```text
    /// let Some(id) = table.find("string", "app_name") else {
    ///     return Err(Fault::NoSuchResource);
    /// };
    /// ```
    pub fn find(&self, kind: &str, key: &str) -> Option<ResId>
        ensures { option_map (λ id. id.0) result ≡ found_in self.now kind.now key.now }
    {
        for row in self.all_rows() {
            if self.is_named(&row, kind, key) {
                return Some(row.id);
            }
        }
        None
    }

    // Whether a row has these names.
    fn is_named(&self, row: &Row<'_>, type_name: &str, key_name: &str) -> bool
        ensures { result ≡ has_names self.now type_name.now key_name.now (row_of row.now) }
    {
        is_text(self.type_name(row), type_name) && is_text(self.key_name(row), key_name)
    }
}

// Whether a name can be read and is this text.
fn is_text(name: Result<Text<'_>, StringFault>, text: &str) -> bool
    ensures { result ≡ is_name (seen_text name.entry) text.now }
{
    match name {
        Ok(name) => name.is_text(text),
        Err(_) => false,
    }
}
