//! What stands in answers for ids, values and layers.

ghost use Rattle.std.specs.Prelude.{◌≡◌, map, string_bytes, OnOk};
ghost use Rattle.std.specs.List.{list_all};
ghost use Rattle.std.specs.Char.{is_ascii_graphic};
ghost use Rattle.contract_words.specs.Writes.{Writes};
ghost use Rattle.serde_json.specs.View.{members_view};
ghost use Rattle.resource_text.specs.EndJson.{with_layer_at};
ghost use Rattle.resource_text.specs.Naming.{path_notation};

use crate::content_json::{put_row, value_json};
use crate::text_json::text_json;
use answer_text::{
    BagRow, Keys, ResId, RowKey, Stack, Value, value_content, write_id, write_key_notation,
    write_layer, write_row_notation, write_value_notation,
};
use names::{NamedStack, PackageNames, write_quoted};
use serde_json::{self, Map, put};
use std::alloc::{AllocError, Global};
use std::io::{self, Write};
use std::marker::Model;

/// A stack with its names, and the paths of the tables of its layers. Contracts see it as the stack and the paths.
#[derive(Drop)]
pub struct Naming<'s, 'a, 'p> {
    alloc: Global,
    stack: NamedStack<'s, 'a>,
    packages: PackageNames<'a>,
    paths: &'p [String],
}

impl<'s, 'a, 'p> Model for Naming<'s, 'a, 'p> {
    ghost use Rattle.std.specs.Prelude.{◌≡◌, map, string_bytes};
    ghost use Rattle.names.specs.NamedIds.{packages_of};
    ghost use Rattle.resource_text.specs.Naming.{NamingOf};

    ghost Value = { NamingOf };

    ghost view = { λ naming. record { stack = naming.stack; paths = map string_bytes naming.paths.now } };

    ghost invariant = { λ naming. naming.packages ≡ packages_of naming.stack };
}

impl<'s, 'a, 'p> Naming<'s, 'a, 'p> {
    ghost use Rattle.std.specs.Prelude.{◌≡◌, map, string_bytes, IfOk, OnOk, Some};
    ghost use Rattle.contract_words.specs.Writes.{Writes};
    ghost use Rattle.serde_json.specs.View.{view, members_view};
    ghost use Rattle.resource_text.specs.BagJson.{with_row_at};
    ghost use Rattle.resource_text.specs.ContentJson.{with_row};
    ghost use Rattle.resource_text.specs.EndJson.{name_data, with_id, resource_data, value_data_at, with_layer, with_from_layer};
    ghost use Rattle.resource_text.specs.Naming.{id_notation, value_at, key_and_value, row_at, layer_notation};
    ghost use Rattle.names.specs.NamedIds.{packages_of};
    ghost use Rattle.answer_text.specs.ContentSeen.{row_key_of};
    ghost use Rattle.answer_text.specs.ValueContent.{value_content};

    /// Notes what the ids of a stack are called, whose tables lie at these paths.
    pub fn of(
        alloc: Global,
        stack: &'s Stack<'a>,
        paths: &'p [String],
    ) -> Result<Naming<'s, 'a, 'p>, AllocError>
        ensures { IfOk result (λ naming. naming ≡ record { stack = stack.now; paths = map string_bytes paths.now }) }
    {
        let tables = stack.base_tables(alloc)?;
        let packages = PackageNames::of(alloc, &tables)?;
        let stack = NamedStack::of(alloc, stack)?;
        Ok(Naming {
            alloc,
            stack,
            packages,
            paths,
        })
    }

    pub fn stack(&self) -> &'s Stack<'a>
        ensures { result.now ≡ self.now.stack }
    {
        self.stack.stack()
    }

    /// What takes memory for it.
    pub(crate) fn alloc(&self) -> Global {
        self.alloc
    }

    /// Writes what an id is called.
    #[tactic(auto, unfolding(crate::specs::Naming::id_notation))]
    pub fn write_id<W: Write + Drop>(&self, id: ResId, out: &mut W) -> io::Result<()>
        ensures { Writes W.contents out.old out.new result (id_notation self.now id.0) }
    {
        let label = self.stack.label_of_id(self.alloc, id)?;
        let written = self.packages.write_label(&label, out);
        drop(label);
        written
    }

    /// Writes what a value says that a row of the layer at a place holds.
    #[tactic(auto, unfolding(crate::specs::Naming::value_at))]
    pub(crate) fn write_value<W: Write + Drop>(
        &self,
        layer: usize,
        value: Value,
        out: &mut W,
    ) -> io::Result<()>
        ensures { Writes W.contents out.old out.new result (value_at self.now layer value) }
    {
        let content = value_content(self.alloc, &self.stack, layer, value)?;
        let written = write_value_notation(&self.packages, &content, out);
        drop(content);
        written
    }

    /// Writes the row of a bag at a place: what tells it from the others, and what it says.
    #[tactic(auto, unfolding(crate::specs::Naming::row_at))]
    pub(crate) fn write_row<W: Write + Drop>(
        &self,
        keys: Keys,
        place: usize,
        row: BagRow,
        out: &mut W,
    ) -> io::Result<()>
        ensures { Writes W.contents out.old out.new result (row_at self.now keys place row) }
    {
        let key = keys.of_row(self.alloc, &self.stack, place, row.name)?;
        let written = self.write_key_and_value(&key, row, out);
        drop(key);
        written
    }

    #[tactic(auto, unfolding(crate::specs::Naming::key_and_value))]
    fn write_key_and_value<W: Write + Drop>(
        &self,
        key: &RowKey<'_>,
        row: BagRow,
        out: &mut W,
    ) -> io::Result<()>
        ensures { Writes W.contents out.old out.new result (key_and_value self.now (row_key_of key.now) (value_content self.now.stack row.layer row.value)) }
    {
        write_key_notation(&self.packages, key, out)?;
        out.write_all(b" ")?;
        let value = value_content(self.alloc, &self.stack, row.layer, row.value)?;
        let written = write_row_notation(&self.packages, key, &value, out);
        drop(value);
        written
    }

    /// Writes the path of the table of the layer at a place.
    #[tactic(auto, unfolding(crate::specs::Naming::layer_notation))]
    pub(crate) fn write_layer<W: Write + Drop>(&self, place: usize, out: &mut W) -> io::Result<()>
        ensures { Writes W.contents out.old out.new result (layer_notation self.now place) }
    {
        match self.paths.get(place) {
            Some(path) => write_path(path.as_str(), out),
            None => write_layer(place, out),
        }
    }

    // ---- as JSON

    // What an id is called.
    fn name_json(&self, id: ResId) -> Result<serde_json::Value, AllocError>
        ensures { IfOk result (λ name. view name ≡ name_data self.now id.0) }
    {
        let mut text = Vec::new(self.alloc);
        match self.write_id(id, &mut text) {
            Ok(()) => text_json(self.alloc, &text),
            // To a `Vec` only a want of memory is a fault.
            Err(_) => Err(AllocError),
        }
    }

    /// Puts an id, and what it is called.
    #[tactic(auto, unfolding(crate::specs::EndJson::with_id))]
    pub(crate) fn put_id(
        &self,
        id: ResId,
        members: &mut Map<String, serde_json::Value>,
    ) -> Result<(), AllocError>
        ensures { OnOk result (members_view members.new.entries ≡ with_id self.now id.0 (members_view members.old.entries)) }
    {
        let mut text = Vec::new(self.alloc);
        let Ok(()) = write_id(id, &mut text) else {
            // To a `Vec` only a want of memory is a fault.
            return Err(AllocError);
        };
        put(members, self.alloc, "id", text_json(self.alloc, &text)?)?;
        let name = self.name_json(id)?;
        put(members, self.alloc, "name", name)
    }

    /// An id with what it is called.
    #[tactic(auto, unfolding(crate::specs::EndJson::resource_data))]
    pub(crate) fn resource_json(&self, id: ResId) -> Result<serde_json::Value, AllocError>
        ensures { IfOk result (λ json. view json ≡ resource_data self.now id.0) }
    {
        let mut members = Map::new(self.alloc);
        self.put_id(id, &mut members)?;
        Ok(serde_json::Value::Object(members))
    }

    /// What a value says that a row of the layer at a place holds.
    #[tactic(auto, unfolding(crate::specs::EndJson::value_data_at))]
    pub(crate) fn value_json(
        &self,
        layer: usize,
        value: Value,
    ) -> Result<serde_json::Value, AllocError>
        ensures { IfOk result (λ json. view json ≡ value_data_at self.now layer value) }
    {
        let content = value_content(self.alloc, &self.stack, layer, value)?;
        let json = value_json(self.alloc, &self.packages, Some(value), &content);
        drop(content);
        json
    }

    /// Puts the layer at a place, and the path of its table, where it has one.
    pub(crate) fn put_layer(
        &self,
        place: usize,
        members: &mut Map<String, serde_json::Value>,
    ) -> Result<(), AllocError>
        ensures { OnOk result (members_view members.new.entries ≡ with_layer self.now place (members_view members.old.entries)) }
    {
        put_layer(self.alloc, self.paths, place, members)
    }

    /// Puts the layer at a place where no row is told.
    #[tactic(auto, unfolding(crate::specs::EndJson::with_from_layer))]
    pub(crate) fn put_from_layer(
        &self,
        place: usize,
        members: &mut Map<String, serde_json::Value>,
    ) -> Result<(), AllocError>
        ensures { OnOk result (members_view members.new.entries ≡ with_from_layer self.now place (members_view members.old.entries)) }
    {
        let mut layer = Map::new(self.alloc);
        self.put_layer(place, &mut layer)?;
        put(
            members,
            self.alloc,
            "from",
            serde_json::Value::Object(layer),
        )
    }

    /// Puts what tells the row of a bag at a place from the others, and what it says.
    #[tactic(auto, unfolding(crate::specs::BagJson::with_row_at))]
    pub(crate) fn put_row(
        &self,
        keys: Keys,
        place: usize,
        row: BagRow,
        members: &mut Map<String, serde_json::Value>,
    ) -> Result<(), AllocError>
        ensures { OnOk result (members_view members.new.entries ≡ with_row_at self.now keys place row (members_view members.old.entries)) }
    {
        let key = keys.of_row(self.alloc, &self.stack, place, row.name)?;
        let put = self.put_key_and_value(&key, row, members);
        drop(key);
        put
    }

    fn put_key_and_value(
        &self,
        key: &RowKey<'_>,
        row: BagRow,
        members: &mut Map<String, serde_json::Value>,
    ) -> Result<(), AllocError>
        ensures { OnOk result (members_view members.new.entries ≡ with_row (packages_of self.now.stack) (Some row.value) (row_key_of key.now)
            (value_content self.now.stack row.layer row.value) (members_view members.old.entries)) }
    {
        let value = value_content(self.alloc, &self.stack, row.layer, row.value)?;
        let stored = Some(row.value);
        let put = put_row(self.alloc, &self.packages, stored, key, &value, members);
        drop(value);
        put
    }
}

/// Puts the layer at a place, and the path of its table, where it has one of these.
#[tactic(auto, unfolding(crate::specs::EndJson::with_layer_at))]
pub fn put_layer(
    alloc: Global,
    paths: &[String],
    place: usize,
    members: &mut Map<String, serde_json::Value>,
) -> Result<(), AllocError>
    ensures { OnOk result (members_view members.new.entries ≡ with_layer_at (map string_bytes paths.now) place (members_view members.old.entries)) }
{
    put(members, alloc, "layer", serde_json::Value::from(place))?;
    let Some(path) = paths.get(place) else {
        return Ok(());
    };
    let path = serde_json::Value::try_from_str(alloc, path.as_str())?;
    put(members, alloc, "path", path)
}

#[tactic(auto, unfolding(crate::specs::Naming::path_notation))]
fn write_path<W: Write + Drop>(path: &str, out: &mut W) -> io::Result<()>
    ensures { Writes W.contents out.old out.new result (path_notation path.now) }
{
    let path = path.as_bytes();
    if is_seen(path) {
        out.write_all(path)
    } else {
        write_quoted(path, out)
    }
}

// Whether each character is one of ASCII that is seen.
fn is_seen(path: &[u8]) -> bool
    ensures { result ≡ list_all is_ascii_graphic path.now }
{
    'bytes: for byte in path {
        if !byte.is_ascii_graphic() {
            return false;
        }
    }
    true
}
