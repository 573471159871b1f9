//! Where the rows of each id begin: a number for each id, laid out by the id's package, type and entry.

ghost use Rattle.std.specs.Prelude.{◌≡◌, ℕ, ◌==◌, ◌&&◌, ◌<◌, length, OnOk, if◌then◌else◌};
ghost use Rattle.overlay_map.specs.Heads.{head_of_entry, head_of_type, head_of};

use std::alloc::{AllocError, Global};
use type_chunks::ResId;

/// A head for each entry of a type; 0 where there is none.
#[derive(Drop)]
pub(crate) struct EntryHeads {
    heads: Vec<u32>,
}

impl EntryHeads {
    fn get(&self, entry: u16) -> u32
        ensures { result ≡ head_of_entry self.now entry }
    {
        match self.heads.get(usize::from(entry)) {
            Some(head) => *head,
            None => 0,
        }
    }

    // Makes room for so many entries, where there is less.
    fn make_room(&mut self, entries: usize) -> Result<(), AllocError>
        ensures { (entry : ℕ) → head_of_entry self.new entry ≡ head_of_entry self.old entry }
    {
        let room = self.heads.len();
        if room < entries {
            self.heads.reserve_exact(entries - room)?;
            self.heads.resize(entries, 0)?;
        }
        Ok(())
    }

    fn set(&mut self, entry: u16, head: u32) -> Result<(), AllocError>
        ensures { OnOk result ((other : ℕ) → head_of_entry self.new other ≡ (if entry == other then head else head_of_entry self.old other)) }
    {
        let index = usize::from(entry);
        if self.heads.len() <= index {
            self.heads.resize(index + 1, 0)?;
        }
        self.heads[index] = head;
        Ok(())
    }
}

/// The heads of each type of a package.
#[derive(Drop)]
pub(crate) struct TypeHeads {
    by_type: Vec<EntryHeads>,
}

impl TypeHeads {
    fn get(&self, type_id: u8, entry: u16) -> u32
        ensures { result ≡ head_of_type self.now type_id entry }
    {
        match self.by_type.get(usize::from(type_id)) {
            Some(of) => of.get(entry),
            None => 0,
        }
    }

    // Makes room for a type.
    fn make_type(&mut self, alloc: Global, type_id: u8) -> Result<(), AllocError>
        ensures same { (other entry : ℕ) → head_of_type self.new other entry ≡ head_of_type self.old other entry }
        ensures there { OnOk result (type_id < length self.new.by_type.items) }
    {
        while self.by_type.len() <= usize::from(type_id) {
            let heads = Vec::new(alloc);
            self.by_type.push(EntryHeads { heads })?;
        }
        Ok(())
    }

    fn make_room(&mut self, alloc: Global, type_id: u8, entries: usize) -> Result<(), AllocError>
        ensures { OnOk result ((other entry : ℕ) → head_of_type self.new other entry ≡ head_of_type self.old other entry) }
    {
        self.make_type(alloc, type_id)?;
        self.by_type[usize::from(type_id)].make_room(entries)
    }

    fn set(&mut self, alloc: Global, type_id: u8, entry: u16, head: u32) -> Result<(), AllocError>
        ensures { OnOk result ((other at : ℕ) → head_of_type self.new other at ≡ (if type_id == other && entry == at then head else head_of_type self.old other at)) }
    {
        self.make_type(alloc, type_id)?;
        self.by_type[usize::from(type_id)].set(entry, head)
    }
}

/// The heads of all ids.
#[derive(Drop)]
pub(crate) struct Heads {
    by_package: Vec<TypeHeads>,
}

impl Heads {
    /// No id has a head.
    pub(crate) fn new(alloc: Global) -> Heads
        ensures { (id : ℕ) → head_of result id ≡ 0 }
    {
        Heads {
            by_package: Vec::new(alloc),
        }
    }

    /// The head of an id; 0 where it has none.
    pub(crate) fn get(&self, id: ResId) -> u32
        ensures { result ≡ head_of self.now id.0 }
    {
        match self.by_package.get(usize::from(id.package())) {
            Some(of) => of.get(id.type_id(), id.entry()),
            None => 0,
        }
    }

    // Makes room for a package.
    fn make_package(&mut self, alloc: Global, package_id: u8) -> Result<(), AllocError>
        ensures same { (id : ℕ) → head_of self.new id ≡ head_of self.old id }
        ensures there { OnOk result (package_id < length self.new.by_package.items) }
    {
        while self.by_package.len() <= usize::from(package_id) {
            let by_type = Vec::new(alloc);
            self.by_package.push(TypeHeads { by_type })?;
        }
        Ok(())
    }

    /// Makes room for so many entries of a type of a package at once, where there is less.
    pub(crate) fn make_room(
        &mut self,
        alloc: Global,
        package_id: u8,
        type_id: u8,
        entries: usize,
    ) -> Result<(), AllocError>
        ensures { OnOk result ((id : ℕ) → head_of self.new id ≡ head_of self.old id) }
    {
        self.make_package(alloc, package_id)?;
        self.by_package[usize::from(package_id)].make_room(alloc, type_id, entries)
    }

    /// Gives an id this head.
    pub(crate) fn set(&mut self, alloc: Global, id: ResId, head: u32) -> Result<(), AllocError>
        ensures { OnOk result ((other : ℕ) → head_of self.new other ≡ (if id.0 == other then head else head_of self.old other)) }
    {
        let package_id = id.package();
        self.make_package(alloc, package_id)?;
        self.by_package[usize::from(package_id)].set(alloc, id.type_id(), id.entry(), head)
    }
}
