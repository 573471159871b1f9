//! Why words ask for no resource.

ghost use Rattle.std.specs.Prelude.{◌≡◌};
ghost use Rattle.names.specs.declared.fault.NameFault.TheVariants.{OutOfMemory};

use crate::named::Named;
use crate::named_set::{ALL, NamedSet};
use crate::packages::PackageName;
use crate::wanted::Wanted;
use crate::word_text::package_word_for;
use overlay_map::ResId;
use res_value::write_id;
use std::alloc::{AllocError, AllocFailed, Global};

/// Why words ask for no resource.
#[derive(Drop)]
pub enum NameFault {
    /// The first that asks for nothing that is there: its text, as `0x7f010000`, `dimen/margin`, `dimen/*` or `*`.
    NoResource(String),
    /// The first that is a name of two packages: its text, and a name for either, as
    /// `string/cancel: android:string/cancel, org.example:string/cancel`.
    TwoResources(String),
    OutOfMemory,
}

impl NameFault {
    ghost use Rattle.std.specs.Prelude.{◌≡◌, ◌≢◌, map, string_bytes, IfOk, IfErr};
    ghost use Rattle.std.specs.Str.{IsUtf8};
    ghost use Rattle.res_value.specs.ResId.{id_text};
    ghost use Rattle.names.specs.NamedSet.{named_set_of};
    ghost use Rattle.names.specs.NameFault.{name_fault_of, no_resource, two_resources};
    ghost use Rattle.names.specs.Names.{wanted_of};
    ghost use Rattle.names.specs.Packages.{package_name_of};
    ghost use Rattle.names.specs.WordText.{text_of_set, two_text, wanted_text};
    ghost use Rattle.names.specs.declared.fault.NameFault.TheVariants.{OutOfMemory};

    /// No row has this name.
    pub(crate) fn no_name(alloc: Global, wanted: Wanted<'_>) -> NameFault
        ensures { result ≢ OutOfMemory → name_fault_of result ≡ no_resource (wanted_text (wanted_of wanted.entry)) }
    {
        NameFault::or_memory(format!(in alloc; "{wanted}"))
    }

    /// Rows of two packages have this name.
    #[tactic(auto, unfolding(crate::specs::WordText::two_text, crate::specs::WordText::both_names))]
    pub(crate) fn two(
        alloc: Global,
        packages: &[PackageName<'_>],
        wanted: Wanted<'_>,
        first: ResId,
        other: ResId,
    ) -> NameFault
        ensures { result ≢ OutOfMemory → name_fault_of result ≡ two_resources (two_text (map package_name_of packages.now) (wanted_of wanted.entry) first other) }
    {
        let first = wanted.in_package(package_word_for(packages, first.package()));
        let other = wanted.in_package(package_word_for(packages, other.package()));
        match format!(in alloc; "{wanted}: {first}, {other}") {
            Ok(text) => NameFault::TwoResources(text),
            Err(_) => NameFault::OutOfMemory,
        }
    }

    /// Nothing is there that this word asks for.
    pub(crate) fn no_set(alloc: Global, set: NamedSet<'_>) -> NameFault
        ensures { result ≢ OutOfMemory → name_fault_of result ≡ no_resource (text_of_set (named_set_of set.entry)) }
    {
        match set {
            NamedSet::One(Named::Id(id)) => NameFault::no_id(alloc, id),
            NamedSet::One(
                Named::Name {
                    package,
                    type_name,
                    entry_name,
                },
            ) => NameFault::no_name(alloc, Wanted::of_parts(package, type_name, entry_name)),
            NamedSet::OfType { package, type_name } => {
                NameFault::no_name(alloc, Wanted::of_parts(package, type_name, ALL))
            }
            NamedSet::All => NameFault::or_memory(String::from_str(alloc, ALL)),
        }
    }

    // Nothing has this id.
    fn no_id(alloc: Global, id: ResId) -> NameFault
        ensures { result ≢ OutOfMemory → name_fault_of result ≡ no_resource (id_text id.0) }
    {
        let mut text = Vec::new(alloc);
        match write_id(id, &mut text) {
            Ok(()) => NameFault::of_bytes(text),
            // To a `Vec` only a want of memory is a fault.
            Err(_) => NameFault::OutOfMemory,
        }
    }

    fn of_bytes(text: Vec<u8>) -> NameFault
        requires { IsUtf8 text.items }
        ensures { name_fault_of result ≡ no_resource text.items }
    {
        match String::from_utf8(text) {
            Ok(text) => NameFault::NoResource(text),
            Err(_) => unreachable!(),
        }
    }

    // Nothing is there that a word of this text asks for.
    fn or_memory(text: Result<String, AllocError>) -> NameFault
        ensures text { IfOk text (λ told. name_fault_of result ≡ no_resource (string_bytes told)) }
        ensures memory { IfErr text (λ _. result ≡ OutOfMemory) }
    {
        match text {
            Ok(text) => NameFault::NoResource(text),
            Err(_) => NameFault::OutOfMemory,
        }
    }
}

impl From<AllocError> for NameFault {
    ghost from_gives = { λ _ e. e ≡ OutOfMemory };

    fn from(_error: AllocError) -> NameFault {
        NameFault::OutOfMemory
    }
}

impl<T: Drop> From<AllocFailed<T>> for NameFault {
    ghost from_gives = { λ _ e. e ≡ OutOfMemory };

    fn from(_error: AllocFailed<T>) -> NameFault {
        NameFault::OutOfMemory
    }
}
