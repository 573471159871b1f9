//! What was found.

ghost use Rattle.std.specs.Prelude.{◌≡◌};
ghost use Rattle.resource_tool.specs.Findings.{nothing_found, tally_in, and_one_at, noted, note_if};

use crate::survey::finding::{FINDING_COUNT, Finding};
use crate::survey::site::Site;

/// How many of something there are, and where the first is.
#[derive(Clone, Copy)]
pub(crate) struct Tally {
    /// 4294967295 stands for as many and more.
    pub count: u32,
    pub first: Site,
}

impl Tally {
    const NONE: Tally = Tally {
        count: 0,
        first: Site::Chunk(0),
    };

    // With one more of it. More than 4294967295 are not counted.
    fn and_one_at(self, site: Site) -> Tally
        ensures { result ≡ and_one_at self site }
    {
        let first = if self.count == 0 { site } else { self.first };
        Tally {
            count: self.count.saturating_add(1),
            first,
        }
    }
}

/// What was found so far: of each finding how many, and where the first is.
#[derive(Drop)]
pub(crate) struct Findings {
    tallies: [Tally; FINDING_COUNT],
    differs: bool,
}

impl Findings {
    /// Nothing was found yet.
    pub fn none() -> Self
        ensures { result ≡ nothing_found }
    {
        Findings {
            tallies: [Tally::NONE; FINDING_COUNT],
            differs: false,
        }
    }

    /// How many there are of a finding, and where the first is; at a chunk at 0 where there is none.
    pub fn tally(&self, finding: Finding) -> Tally
        ensures { result ≡ tally_in self.now finding }
    {
        self.tallies[finding.place()]
    }

    /// Whether something was found by which an answer can differ from a device's.
    pub fn differs(&self) -> bool
        ensures { result ≡ self.now.differs }
    {
        self.differs
    }

    /// Notes a finding, where it was found.
    #[tactic(auto, unfolding(crate::specs::Findings::noted, crate::specs::Findings::with_note))]
    pub fn note_if(&mut self, found: bool, finding: Finding, site: Site)
        ensures { self.new ≡ noted self.old (note_if found finding site) }
    {
        if found {
            let index = finding.place();
            self.tallies[index] = self.tallies[index].and_one_at(site);
            self.differs |= finding.differs();
        }
    }
}
