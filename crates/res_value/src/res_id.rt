//! Resource ids.

ghost use Rattle.std.specs.Prelude.{◌≡◌, OnOk};
ghost use Rattle.contract_words.specs.Writes.{Writes};
ghost use Rattle.res_value.specs.ResId.{id_of, id_of_parts, package_of, type_of, entry_of, id_text};

use crate::word::write_word;
use hex::FromHex;
use std::io::{self, Write};

// Where the parts stand in an id.
const PACKAGE_SHIFT: u32 = 24;

const TYPE_SHIFT: u32 = 16;

const TYPE_MASK: u32 = 0xff;

const ENTRY_MASK: u32 = 0xffff;

/// The id of a resource: a package, a type of that package, and an entry of that type.
#[derive(Clone, Copy, Debug, PartialEq, Eq, PartialOrd, Ord, Hash)]
pub struct ResId(pub u32);

impl ResId {
    /// The id of these parts (AOSP: `Res_MAKEID`, which counts package and type from 0).
    pub fn of(package_id: u8, type_id: u8, entry: u16) -> ResId
        ensures id { result ≡ record { 0 = id_of_parts package_id type_id entry } }
        ensures package_back { package_of result ≡ package_id }
        ensures type_back { type_of result ≡ type_id }
        ensures entry_back { entry_of result ≡ entry }
    {
        let in_package = u32::from(type_id) << TYPE_SHIFT | u32::from(entry);
        ResId(u32::from(package_id) << PACKAGE_SHIFT | in_package)
    }

    /// The id that a text spells: `0x` and eight hexadecimal digits of either case.
    #[tactic(auto, unfolding(crate::specs::ResId::id_of))]
    pub fn read(text: &str) -> Option<ResId>
        ensures { result ≡ id_of text.now }
    {
        let digits = text.as_bytes().strip_prefix(b"0x")?;
        let bytes = <[u8; 4] as FromHex>::from_hex(digits).ok()?;
        Some(ResId(u32::from_be_bytes(bytes)))
    }

    pub fn package(self) -> u8
        ensures { result ≡ package_of self }
    {
        (self.0 >> PACKAGE_SHIFT) as u8
    }

    pub fn type_id(self) -> u8
        ensures { result ≡ type_of self }
    {
        (self.0 >> TYPE_SHIFT & TYPE_MASK) as u8
    }

    /// Its number among the entries of its type: the index of the entry in each type chunk that has it, and
    /// the last four digits of the id's text.
    ///
    /// ```text
    /// let same_index = first.entry() == second.entry(); // 0x7f010002 and 0x7f020002
    /// ```
    pub fn entry(self) -> u16
        ensures { result ≡ entry_of self }
    {
        (self.0 & ENTRY_MASK) as u16
    }
}

/// Writes an id as `0x` and eight small hexadecimal digits.
#[tactic(auto, using(crate::proofs::IdText::reads_back))]
pub fn write_id<W: Write + Drop>(id: ResId, out: &mut W) -> io::Result<()>
    ensures text { Writes W.contents out.old out.new result (id_text id.0) }

    // What is written is read as that id.
    ensures reads_back { id_of (id_text id.0) ≡ Some id }
{
    write_word(id.0, out)
}
