//! The chunks of a table and of its packages.

ghost use Rattle.std.specs.Prelude.{◌≡◌, ◌||◌};
ghost use Rattle.chunk_walk.specs.Chunk.{chunk_of, seen};
ghost use Rattle.resource_tool.specs.Findings.{noted};
ghost use Rattle.resource_tool.specs.Chunks.{notes_of_chunks, notes_of_table, notes_of_child, notes_of_package, notes_of_package_child};
ghost use Rattle.resource_tool.specs.Differs.{table_differs};

use crate::survey::finding::Finding;
use crate::survey::findings::Findings;
use crate::survey::layout::{LEAST_TABLE_HEADER, kind};
use crate::survey::site::Site;
use chunk_walk::{Chunk, ChunkFault, chunk_at};

impl Findings {
    /// Adds what the chunks of a table have.
    #[tactic(auto, using(crate::proofs::DiffersSteps::differs_steps))]
    pub fn add_chunks(&mut self, bytes: &[u8])
        ensures notes { self.new ≡ noted self.old (notes_of_chunks bytes.now) }
        ensures differs { self.new.differs ≡ (self.old.differs || table_differs bytes.now) }
    {
        self.add_table(bytes);
    }

    #[tactic(auto, using(crate::proofs::FindingsSteps::noted_steps), unfolding(crate::specs::Chunks::notes_of_chunks))]
    fn add_table(&mut self, bytes: &[u8])
        ensures { self.new ≡ noted self.old (notes_of_chunks bytes.now) }
    {
        match chunk_at(bytes, 0, LEAST_TABLE_HEADER) {
            Ok(table) if table.kind == kind::TABLE => self.add_children(&table),
            _ => {}
        }
    }

    #[tactic(auto, using(crate::proofs::FindingsSteps::noted_steps))]
    fn add_children(&mut self, table: &Chunk<'_>)
        ensures { self.new ≡ noted self.old (notes_of_table (chunk_of table.now)) }
    {
        for child in table.children() {
            self.add_child(child);
        }
    }

    // A chunk in a table.
    #[tactic(auto, using(crate::proofs::FindingsSteps::noted_steps), unfolding(crate::specs::Chunks::notes_of_child))]
    fn add_child(&mut self, child: Result<Chunk<'_>, ChunkFault>)
        ensures { self.new ≡ noted self.old (notes_of_child (seen child.entry)) }
    {
        let Ok(child) = child else { return };
        match child.kind {
            kind::PACKAGE => self.add_package(&child),
            kind::POOL => {}
            _ => self.note_if(true, Finding::UnknownChunk, Site::Chunk(child.place)),
        }
    }

    #[tactic(auto, using(crate::proofs::FindingsSteps::noted_steps))]
    fn add_package(&mut self, owner: &Chunk<'_>)
        ensures { self.new ≡ noted self.old (notes_of_package (chunk_of owner.now)) }
    {
        for child in owner.children() {
            self.add_package_child(child);
        }
    }

    // A chunk in a package.
    #[tactic(auto, using(crate::proofs::FindingsSteps::noted_steps), unfolding(crate::specs::Chunks::notes_of_package_child))]
    fn add_package_child(&mut self, child: Result<Chunk<'_>, ChunkFault>)
        ensures { self.new ≡ noted self.old (notes_of_package_child (seen child.entry)) }
    {
        let Ok(child) = child else { return };
        match child.kind {
            kind::TYPE => self.add_type(&child),
            kind::POOL | kind::TYPE_SPEC => {}
            kind::OVERLAYABLE => self.note_if(true, Finding::Overlayable, Site::Chunk(child.place)),
            kind::LIBRARY => self.note_if(true, Finding::Library, Site::Chunk(child.place)),
            kind::STAGED_ALIAS => self.note_if(
                true,
                Finding::StagedAlias,
                Site::Chunk(child.place),
            ),
            _ => self.note_if(true, Finding::UnknownChunk, Site::Chunk(child.place)),
        }
    }
}
