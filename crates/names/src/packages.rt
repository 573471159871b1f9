//! The packages of tables.

ghost use Rattle.std.specs.Prelude.{◌≡◌, ◌++◌, map, Ok, IfOk, OnOk};
ghost use Rattle.std.specs.List.{list_any};
ghost use Rattle.std.specs.Option.{option_map};
ghost use Rattle.overlay_map.specs.Package.{packages_of};
ghost use Rattle.names.specs.NamedIds as of_layers;
ghost use Rattle.names.specs.PackageWord.{package_word_of};
ghost use Rattle.names.specs.Packages.{package_name_of, name_of_package, packages_in, is_called, is_asked_in};

use crate::package_word::PackageWord;
use crate::text::name_text;
use overlay_map::{Package, Stack, Table};
use std::alloc::{AllocError, Global};
use std::borrow::CowStr;
use std::marker::Model;

/// The number and the name of a package.
#[derive(Drop)]
pub(crate) struct PackageName<'a> {
    pub number: u8,
    /// None where it is no text.
    pub name: Option<CowStr<'a, Global>>,
}

/// The packages of base layers, by which resources are told apart. Contracts see them by their numbers and names.
#[derive(Drop)]
pub struct PackageNames<'a> {
    pub(crate) all: Vec<PackageName<'a>>,
}

impl<'a> Model for PackageNames<'a> {
    ghost use Rattle.std.specs.Prelude.{List, map};
    ghost use Rattle.names.specs.Packages.{PackageNameOf, package_name_of};

    ghost Value = { List PackageNameOf };

    ghost view = { λ packages. map package_name_of packages.all.items };
}

impl<'a> PackageNames<'a> {
    ghost use Rattle.std.specs.Prelude.{◌≡◌, ◌++◌, map, IfOk};
    ghost use Rattle.names.specs.NamedIds as of_layers;
    ghost use Rattle.names.specs.Packages.{packages_in};

    /// Those of tables, in their order.
    pub fn of(alloc: Global, tables: &[&Table<'a>]) -> Result<PackageNames<'a>, AllocError>
        ensures { IfOk result (λ packages. packages ≡ packages_in (map (λ table. table.now) tables.now)) }
    {
        let mut all = Vec::new(alloc);
        push_packages_in(alloc, tables, &mut all)?;
        Ok(PackageNames { all })
    }

    /// Those of the base layers of two stacks.
    pub fn of_both(
        alloc: Global,
        old: &Stack<'a>,
        new: &Stack<'a>,
    ) -> Result<PackageNames<'a>, AllocError>
        ensures { IfOk result (λ packages. packages ≡ of_layers.packages_of old.now ++ of_layers.packages_of new.now) }
    {
        let mut all = Vec::new(alloc);
        push_packages_of(alloc, old, &mut all)?;
        push_packages_of(alloc, new, &mut all)?;
        Ok(PackageNames { all })
    }
}

// Pushes those of the base layers of a stack behind others.
fn push_packages_of<'a>(
    alloc: Global,
    stack: &Stack<'a>,
    all: &mut Vec<PackageName<'a>>,
) -> Result<(), AllocError>
    ensures { OnOk result (map package_name_of all.new.items ≡ map package_name_of all.old.items ++ of_layers.packages_of stack.now) }
{
    let tables = stack.base_tables(alloc)?;
    push_packages_in(alloc, &tables, all)
}

/// The packages of all tables that are looked at.
#[derive(Clone, Copy)]
pub(crate) struct Packages<'p> {
    pub all: &'p [PackageName<'p>],
}

impl PackageName<'_> {
    ghost use Rattle.std.specs.Prelude.{◌≡◌};
    ghost use Rattle.names.specs.Packages.{package_name_of, has_name};

    /// Whether its name is this text.
    pub fn has_name(&self, name: &str) -> bool
        ensures { result ≡ has_name name.now (package_name_of self.now) }
    {
        match &self.name {
            Some(own) => own.as_str() == name,
            None => false,
        }
    }
}

// Pushes the packages of tables behind others.
fn push_packages_in<'a>(
    alloc: Global,
    tables: &[&Table<'a>],
    all: &mut Vec<PackageName<'a>>,
) -> Result<(), AllocError>
    ensures { OnOk result (map package_name_of all.new.items ≡ map package_name_of all.old.items ++ packages_in (map (λ table. table.now) tables.now)) }
{
    for table in tables {
        push_packages(alloc, table.packages(), all)?;
    }
    Ok(())
}

fn push_packages<'a>(
    alloc: Global,
    packages: &[Package<'a>],
    all: &mut Vec<PackageName<'a>>,
) -> Result<(), AllocError>
    ensures { OnOk result (map package_name_of all.new.items ≡ map package_name_of all.old.items ++ map name_of_package (packages_of packages.now)) }
{
    for package in packages {
        let name = name_text(alloc, Ok(package.name()))?;
        all.push(PackageName {
            number: package.id(),
            name,
        })?;
    }
    Ok(())
}

/// Whether resources of the package with this number are asked for, where a word names this one.
pub(crate) fn is_asked_in(
    packages: &[PackageName<'_>],
    word: Option<PackageWord<'_>>,
    number: u8,
) -> bool
    ensures { result ≡ is_asked_in (map package_name_of packages.now) (option_map package_word_of word.entry) number }
{
    match word {
        None => true,
        Some(PackageWord::Number(other)) => other == number,
        Some(PackageWord::Name(name)) => some_is_called(packages, name, number),
    }
}

fn some_is_called(packages: &[PackageName<'_>], name: &str, number: u8) -> bool
    ensures { result ≡ list_any (is_called name.now number) (map package_name_of packages.now) }
{
    'packages: for package in packages {
        if package.number == number && package.has_name(name) {
            return true;
        }
    }
    false
}
