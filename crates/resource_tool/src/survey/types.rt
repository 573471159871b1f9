//! The flags and the configurations of types.

ghost use Rattle.std.specs.Prelude.{◌≡◌};
ghost use Rattle.chunk_walk.specs.Chunk.{chunk_of};
ghost use Rattle.resource_tool.specs.Findings.{noted};
ghost use Rattle.resource_tool.specs.Entries.{type_flags, is_sparse, has_short_offsets};
ghost use Rattle.resource_tool.specs.Types.{config_of, notes_of_flags, notes_of_config, notes_of_type, has_other_flags, has_gender, has_newer, is_zero};

use crate::survey::finding::Finding;
use crate::survey::findings::Findings;
use crate::survey::layout::{config, type_header};
use crate::survey::site::Site;
use chunk_walk::{Chunk, u32_at};

// The flags of a type; 0 where the header is too short to have them.
fn type_flags(chunk: &Chunk<'_>) -> u8
    ensures { result ≡ type_flags (chunk_of chunk.now) }
{
    chunk.header.get(type_header::FLAGS).copied().unwrap_or(0)
}

// The configuration of a type, as many bytes as its size says and the header has.
#[tactic(auto, unfolding(crate::specs::Types::config_of))]
fn config_of<'a>(chunk: &Chunk<'a>) -> &'a [u8]
    ensures { result.now ≡ config_of (chunk_of chunk.now) }
{
    let Some(size) = u32_at(chunk.header, type_header::CONFIG) else {
        return &chunk.header[..0];
    };
    let behind = &chunk.header[type_header::CONFIG..];
    match behind.get(..size as usize) {
        Some(config) => config,
        None => behind,
    }
}

/// Whether the type has entry offsets for the entries alone that are there.
pub(crate) fn is_sparse(chunk: &Chunk<'_>) -> bool
    ensures { result ≡ is_sparse (chunk_of chunk.now) }
{
    type_flags(chunk) & 1 == 1
}

pub(crate) fn has_short_offsets(chunk: &Chunk<'_>) -> bool
    ensures { result ≡ has_short_offsets (chunk_of chunk.now) }
{
    type_flags(chunk) >> 1 & 1 == 1
}

// Whether there are flags behind these two.
fn has_other_flags(chunk: &Chunk<'_>) -> bool
    ensures { result ≡ has_other_flags (chunk_of chunk.now) }
{
    type_flags(chunk) >> 2 != 0
}

fn has_gender(config: &[u8]) -> bool
    ensures { result ≡ has_gender config.now }
{
    config.get(config::GENDER).copied().unwrap_or(0) != 0
}

// Whether a byte behind the fields that are read says something.
fn has_newer(config: &[u8]) -> bool
    ensures { result ≡ has_newer config.now }
{
    if config.len() <= config::KNOWN {
        return false;
    }
    let (_, newer) = config.split_at(config::KNOWN);
    !is_zero(newer)
}

fn is_zero(bytes: &[u8]) -> bool
    ensures { result ≡ is_zero bytes.now }
{
    for byte in bytes {
        if *byte != 0 {
            return false;
        }
    }
    true
}

impl Findings {
    /// Adds what a type has, and its entries.
    #[tactic(auto, using(crate::proofs::FindingsSteps::noted_steps), unfolding(crate::specs::Types::notes_of_type))]
    pub(crate) fn add_type(&mut self, chunk: &Chunk<'_>)
        ensures { self.new ≡ noted self.old (notes_of_type (chunk_of chunk.now)) }
    {
        self.add_flags(chunk);
        self.add_config(chunk);
        self.add_entries(chunk);
    }

    #[tactic(auto, using(crate::proofs::FindingsSteps::noted_steps), unfolding(crate::specs::Types::notes_of_flags))]
    fn add_flags(&mut self, chunk: &Chunk<'_>)
        ensures { self.new ≡ noted self.old (notes_of_flags (chunk_of chunk.now)) }
    {
        self.note_if(
            has_short_offsets(chunk),
            Finding::ShortOffsets,
            Site::Chunk(chunk.place),
        );
        self.note_if(
            has_other_flags(chunk),
            Finding::TypeFlags,
            Site::Chunk(chunk.place),
        );
    }

    #[tactic(auto, using(crate::proofs::FindingsSteps::noted_steps), unfolding(crate::specs::Types::notes_of_config))]
    fn add_config(&mut self, chunk: &Chunk<'_>)
        ensures { self.new ≡ noted self.old (notes_of_config (chunk_of chunk.now)) }
    {
        let config = config_of(chunk);
        self.note_if(
            has_gender(config),
            Finding::Gender,
            Site::Chunk(chunk.place),
        );
        self.note_if(
            has_newer(config),
            Finding::NewerQualifier,
            Site::Chunk(chunk.place),
        );
    }
}
