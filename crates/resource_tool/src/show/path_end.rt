//! The ends of paths in a tree.

ghost use Rattle.std.specs.Prelude.{◌≡◌};
ghost use Rattle.resource_tool.specs.TreeLines.{start, behind_yes, behind_no};

/// So many answers yes indent a line.
pub(crate) const MOST_DEPTH: u8 = 32;

/// What a path ends with.
#[derive(Clone, Copy)]
pub(crate) enum LastAnswer {
    /// The path has no answer: it leads to the first node of a tree.
    Nothing,
    /// The answer yes of the test at the node of this number.
    Yes(usize),
    /// The answer no of that test.
    No(usize),
}

/// The end of a path, where a node of a tree stands.
#[derive(Clone, Copy)]
pub(crate) struct PathEnd {
    pub last: LastAnswer,
    /// How many answers of the path are yes, counted up to 32.
    pub depth: u8,
}

impl PathEnd {
    /// The end of the path to the first node.
    pub fn start() -> PathEnd
        ensures { result ≡ start }
    {
        PathEnd {
            last: LastAnswer::Nothing,
            depth: 0,
        }
    }

    /// Behind the answer yes of the test that stands here, at the node of this number.
    pub fn behind_yes(self, test: usize) -> PathEnd
        ensures { result ≡ behind_yes test self }
    {
        let depth = if self.depth < MOST_DEPTH {
            self.depth + 1
        } else {
            MOST_DEPTH
        };
        PathEnd {
            last: LastAnswer::Yes(test),
            depth,
        }
    }

    /// Behind its answer no.
    pub fn behind_no(self, test: usize) -> PathEnd
        ensures { result ≡ behind_no test self }
    {
        PathEnd {
            last: LastAnswer::No(test),
            depth: self.depth,
        }
    }
}
