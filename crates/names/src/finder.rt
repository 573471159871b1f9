//! What names stand for, told name by name.

ghost use Rattle.std.specs.Prelude.{◌≡◌, ℕ, ◌++◌, ◌∷◌, [], List, filter, map, IfOk, OnOk};
ghost use Rattle.std.specs.List.{flat_map};
ghost use Rattle.std.specs.Option.{option_map};
ghost use Rattle.json_input.specs.Each.{each};
ghost use Rattle.overlay_map.specs.Layer.{LayerOf};
ghost use Rattle.res_value.specs.ResId.{package_of};
ghost use Rattle.names.specs.Named.{named_of};
ghost use Rattle.names.specs.NamedSet.{named_set_of};
ghost use Rattle.names.specs.Names.{WantedOf, wanted_of};
ghost use Rattle.names.specs.NameFault.{GivesNamed};
ghost use Rattle.names.specs.NamedIds.{id_named, id_of_found, ids_in_package, ids_of_rows, ids_of_set, some_of};
ghost use Rattle.names.specs.AskedNames.{names_in, names_in_set};
ghost use Rattle.names.specs.Finder.{Tells};
ghost use Rattle.names.specs.PackageWord.{package_word_of};
ghost use Rattle.names.specs.Packages.{package_name_of, is_asked_in};

use crate::fault::NameFault;
use crate::found::Found;
use crate::ids::ids_of_type;
use crate::named::Named;
use crate::named_set::NamedSet;
use crate::package_word::PackageWord;
use crate::packages::{PackageName, PackageNames, Packages, is_asked_in};
use crate::search::find_each;
use crate::wanted::Wanted;
use overlay_map::{ResId, Stack, Table};
use std::alloc::{AllocError, Global};
use std::collections::BTreeMap;
use std::rc::Rc;
use std::vec::IntoIter;

/// The ids of words, which are asked in the order in which their names were looked up.
#[derive(Drop)]
pub(crate) struct Finder<'s, 'a, 'n> {
    /// Those of the base layers.
    tables: Vec<&'s Table<'a>>,
    /// Those of these tables.
    packages: Vec<PackageName<'a>>,
    /// What the names that are left stand for.
    found: IntoIter<Found>,
    /// The ids of types, or of all rows, that were asked for before.
    known: BTreeMap<Option<&'n str>, Rc<Vec<ResId>>>,
}

impl<'s, 'a, 'n> Finder<'s, 'a, 'n> {
    /// Looks up names in the base layers, all in one walk.
    pub fn new(
        alloc: Global,
        stack: &'s Stack<'a>,
        names: &[Wanted<'_>],
    ) -> Result<Finder<'s, 'a, 'n>, AllocError>
        ensures { IfOk result (Tells stack.now (map wanted_of names.now)) }
    {
        let tables = stack.base_tables(alloc)?;
        let packages = PackageNames::of(alloc, &tables)?.all;
        let of_tables = Packages { all: &packages };
        let found = find_each(alloc, of_tables, &tables, names)?.into_iter();
        Ok(Finder {
            tables,
            packages,
            found,
            known: BTreeMap::new(alloc),
        })
    }

    /// The id of a resource.
    pub fn id(&mut self, alloc: Global, named: &Named<'_>) -> Result<ResId, NameFault>
        ensures { (layers : List LayerOf) (names : List WantedOf) → Tells layers (names_in (named_of named.now) ++ names) self.old
            → Tells layers names self.new × GivesNamed (λ id. id) result (id_named layers (named_of named.now)) }
    {
        match named {
            Named::Id(id) => Ok(*id),
            Named::Name {
                package,
                type_name,
                entry_name,
            } => {
                let wanted = Wanted::of_parts(*package, type_name, entry_name);
                let found = self.found.next().unwrap_or(Found::Nothing);
                id_of_found(alloc, &self.packages, wanted, found)
            }
        }
    }

    /// The ids of resources, one after the other.
    pub fn each_id(&mut self, alloc: Global, all: &[Named<'_>]) -> Result<Vec<ResId>, NameFault>
        ensures { (layers : List LayerOf) (names : List WantedOf) → Tells layers (flat_map (λ named. names_in (named_of named)) all.now ++ names) self.old
            → OnOk result (Tells layers names self.new) × GivesNamed (λ ids. ids.items) result (each (id_named layers) (map named_of all.now)) }
    {
        let mut ids = Vec::with_capacity(alloc, all.len())?;
        for named in all {
            let id = self.id(alloc, named)?;
            ids.push(id)?;
        }
        Ok(ids)
    }

    /// The ids of a set of resources.
    pub fn ids(&mut self, alloc: Global, set: &NamedSet<'n>) -> Result<Rc<Vec<ResId>>, NameFault>
        ensures { (layers : List LayerOf) (names : List WantedOf) → Tells layers (names_in_set (named_set_of set.now) ++ names) self.old
            → OnOk result (Tells layers names self.new) × GivesNamed (λ ids. ids.value.items) result (ids_of_set layers (named_set_of set.now)) }
    {
        match set {
            NamedSet::One(named) => {
                let id = self.id(alloc, named)?;
                let ids = list_of_one(alloc, id)?;
                Ok(ids)
            }
            NamedSet::OfType { package, type_name } => {
                let ids = self.ids_of_rows(alloc, Some(*type_name))?;
                let ids = self.in_package(alloc, *package, &ids)?;
                some_of(alloc, *set, ids)
            }
            NamedSet::All => {
                let ids = self.ids_of_rows(alloc, None)?;
                some_of(alloc, *set, ids)
            }
        }
    }

    // The ids of all rows whose type has a name; those of all rows where none is named. However often they are asked for,
    // one walk over the rows finds them.
    fn ids_of_rows(
        &mut self,
        alloc: Global,
        type_name: Option<&'n str>,
    ) -> Result<Rc<Vec<ResId>>, AllocError>
        ensures { (layers : List LayerOf) (names : List WantedOf) → Tells layers names self.old → IfOk result (λ ids. Tells layers names self.new × (ids.value.items ≡ ids_of_rows layers (option_map (λ name. name.now) type_name.entry))) }
    {
        if let Some(ids) = self.known.get(&type_name) {
            return ids.clone();
        }
        let ids = ids_of_type(alloc, &self.tables, type_name)?;
        let ids = Rc::new(alloc, ids)?;
        self.known.insert(type_name, ids.clone()?)?;
        Ok(ids)
    }

    // Those of these ids that are of a package, where one is named.
    fn in_package(
        &self,
        alloc: Global,
        word: Option<PackageWord<'n>>,
        ids: &[ResId],
    ) -> Result<Rc<Vec<ResId>>, AllocError>
        ensures { (layers : List LayerOf) (names : List WantedOf) → Tells layers names self.now → IfOk result (λ kept. kept.value.items ≡ ids_in_package layers (option_map package_word_of word.entry) ids.now) }
    {
        let mut kept = Vec::new(alloc);
        for id in ids {
            if is_asked_in(&self.packages, word, id.package()) {
                kept.push(*id)?;
            }
        }
        Ok(Rc::new(alloc, kept)?)
    }
}

fn list_of_one(alloc: Global, id: ResId) -> Result<Rc<Vec<ResId>>, AllocError>
    ensures { IfOk result (λ ids. ids.value.items ≡ id ∷ []) }
{
    let ids = vec![in alloc; id]?;
    Ok(Rc::new(alloc, ids)?)
}

// The id of a name, of which this was found.
fn id_of_found(
    alloc: Global,
    packages: &[PackageName<'_>],
    wanted: Wanted<'_>,
    found: Found,
) -> Result<ResId, NameFault>
    ensures { GivesNamed (λ id. id) result (id_of_found (map package_name_of packages.now) (wanted_of wanted.entry) found) }
{
    match found {
        Found::Nothing => Err(NameFault::no_name(alloc, wanted)),
        Found::One(id) => Ok(id),
        Found::Two { first, other } => Err(NameFault::two(alloc, packages, wanted, first, other)),
    }
}

// These ids; none are a fault.
fn some_of(
    alloc: Global,
    set: NamedSet<'_>,
    ids: Rc<Vec<ResId>>,
) -> Result<Rc<Vec<ResId>>, NameFault>
    ensures { GivesNamed (λ ids. ids.value.items) result (some_of (named_set_of set.entry) ids.value.items) }
{
    if ids.is_empty() {
        return Err(NameFault::no_set(alloc, set));
    }
    Ok(ids)
}
