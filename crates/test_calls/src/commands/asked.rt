//! What a command is asked of.

use crate::marked::{Writer, bytes_of, word};
use cert_checker::{Cert, Goal, ResId};
use resource_tool::{
    LayerParts, Status, ToolFault, attr_bytes, bag_bytes, check_bytes, explain_bytes, make_bytes,
    query_bytes,
};
use std::alloc::Global;
use std::test::Fail;

/// How many nodes are made at most, where no word says it.
const MOST_NODES: u32 = 10;

/// The resource of entry 0.
const FIRST: ResId = ResId(0x7f01_0000);

/// The styles that the bags of entries 0 and 1 are.
const STYLES: [ResId; 2] = [FIRST, ResId(0x7f01_0001)];

const ATTR: ResId = ResId(0x0101_0001);

/// A command, its table, the device or the box that it is asked of, a certificate whose goals are asked, another that is
/// checked, and how many nodes are made at most.
#[derive(Drop)]
pub struct Asked<'w> {
    name: &'w str,
    table: Vec<u8>,
    of: &'w [u8],
    goals: Vec<Goal>,
    certificate: &'w [u8],
    most_nodes: u32,
}

impl<'w> Asked<'w> {
    /// What these words ask.
    pub fn read(alloc: Global, words: &'w [String]) -> Result<Asked<'w>, Fail> {
        let table = bytes_of(alloc, word(words, 1))?;
        Ok(Asked {
            name: word(words, 0),
            table,
            of: word(words, 2).as_bytes(),
            goals: goals_in(alloc, word(words, 3))?,
            certificate: word(words, 4).as_bytes(),
            most_nodes: word(words, 5).parse::<u32>().unwrap_or(MOST_NODES),
        })
    }

    /// Gives the command.
    pub fn answer(&self, alloc: Global, out: &mut Writer) -> Result<Status, ToolFault> {
        let layers = [(self.table.as_slice(), None)];
        match self.name {
            "query_bytes" => query_bytes(alloc, &layers, self.of, &[FIRST], out),
            "explain_bytes" => explain_bytes(alloc, &layers, self.of, FIRST, out),
            "bag_bytes" => bag_bytes(alloc, &layers, self.of, FIRST, out),
            "attr_bytes" => attr_bytes(alloc, &layers, self.of, ATTR, &STYLES, false, out),
            _ => self.answer_of_goals(alloc, &layers, out),
        }
    }

    // Gives a command that is asked about goals and a box.
    fn answer_of_goals(
        &self,
        alloc: Global,
        layers: &[LayerParts<&[u8]>],
        out: &mut Writer,
    ) -> Result<Status, ToolFault> {
        let goals = self.goals.as_slice();
        match self.name {
            "check_bytes" => check_bytes(alloc, layers, self.of, self.certificate, goals, out),
            _ => make_bytes(alloc, layers, self.of, goals, self.most_nodes, out),
        }
    }
}

// The goals of a certificate.
fn goals_in(alloc: Global, certificate: &str) -> Result<Vec<Goal>, Fail> {
    let certificate = Cert::read(alloc, certificate.as_bytes())?;
    let mut goals = Vec::new(alloc);
    for tree in &certificate.goals {
        goals.push(tree.goal.clone()?)?;
    }
    Ok(goals)
}
