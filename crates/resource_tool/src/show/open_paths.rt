//! The paths of a tree that are open.

use crate::show::path_end::PathEnd;
use std::alloc::{AllocError, Global};
use std::marker::Model;

/// The ends of the paths at which no node stands yet. Contracts see the list of them, that of the next node first.
#[derive(Drop)]
pub(crate) struct OpenPaths {
    /// That of the next node last.
    paths: Vec<PathEnd>,
}

impl Model for OpenPaths {
    ghost use Rattle.std.specs.Prelude.{List, reverse};
    ghost use Rattle.resource_tool.specs.declared.show.path_end.PathEnd.{PathEnd};

    ghost Value = { List PathEnd };

    ghost view = { λ open_paths. reverse open_paths.paths.items };
}

impl OpenPaths {
    ghost use Rattle.std.specs.Prelude.{◌≡◌, [], ◌∷◌, MatchOption, OnOk, IfOk};
    ghost use Rattle.resource_tool.specs.TreeLines.{start, behind_yes, behind_no};

    /// Before the first node of a tree one is open.
    pub fn at_start(alloc: Global) -> Result<OpenPaths, AllocError>
        ensures { IfOk result (λ paths. paths ≡ start ∷ []) }
    {
        let mut paths = Vec::new(alloc);
        paths.push(PathEnd::start())?;
        Ok(OpenPaths { paths })
    }

    /// Takes the one of the next node away.
    pub fn pop(&mut self) -> Option<PathEnd>
        ensures { MatchOption result
            ((self.old ≡ []) × (self.new ≡ []))
            (λ path. self.old ≡ path ∷ self.new) }
    {
        self.paths.pop()
    }

    /// Opens those behind the answers of a test that stands at the end of a path.
    pub fn push_answers(&mut self, test: usize, path: PathEnd) -> Result<(), AllocError>
        ensures { OnOk result (self.new ≡ behind_yes test path ∷ behind_no test path ∷ self.old) }
    {
        self.paths.push(path.behind_no(test))?;
        self.paths.push(path.behind_yes(test))?;
        Ok(())
    }
}
