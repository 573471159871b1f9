//! Files of layers that are not as they have to be.

use crate::hints::Asked;
use crate::hints::content::{Expected, say_instead};
use crate::hints::text::{Hint, text_of};
use command_base::{
    ApkFault, Inputs, LayerParts, MapFault, STANDARD_INPUT, Side, TableFault, ToolFault,
};
use std::alloc::Global;

/// What is wrong with a file of a layer.
#[derive(Clone, Copy)]
enum Wrong {
    /// It has something else.
    No(Expected),
    /// The table of an apk is compressed.
    Compressed,
}

/// Which layer a fault is of.
#[derive(Clone, Copy)]
struct LayerAt {
    /// Where two stacks are compared, the one that has it.
    side: Side,
    place: usize,
}

impl<I: Inputs> Asked<'_, '_, I> {
    /// Says what is wrong where there is a fault of a layer, or of a table that is read alone.
    pub(crate) fn say_layer(&self, fault: ToolFault, hint: &mut Hint) {
        let Some(wrong) = wrong_by(fault) else {
            return;
        };
        let Some(path) = self.path_of(layer_with(fault), wrong) else {
            return;
        };
        match wrong {
            Wrong::No(expected) => {
                if let Some(bytes) = self.inputs.read_again(path.as_str()) {
                    say_instead(expected, path.as_str(), &bytes, hint);
                }
            }
            Wrong::Compressed => {
                hint.say(b"unpack its table: unzip -p ");
                hint.say_text(path.as_str());
                hint.say(b" resources.arsc >a.arsc");
            }
        }
    }

    // The path of the file; of a table with a word of its own where this is a file.
    fn path_of(&self, at: LayerAt, wrong: Wrong) -> Option<String> {
        if let Some(word) = self.parts.layers(at.side) {
            return path_among(self.alloc, &self.listed_paths(word)?, at.place, wrong);
        }
        let word = self.parts.table(at.place)?;
        if word == STANDARD_INPUT {
            return None;
        }
        text_of(self.alloc, &[word])
    }
}

fn wrong_by(fault: ToolFault) -> Option<Wrong> {
    match fault {
        ToolFault::Apk(fault) | ToolFault::LayerApk(_, fault) | ToolFault::SideApk(_, _, fault) =>
            match fault {
                ApkFault::NotZip => Some(Wrong::No(Expected::Apk)),
                ApkFault::Compressed => Some(Wrong::Compressed),
                _ => None,
            },
        ToolFault::Table(fault)
        | ToolFault::LayerTable(_, fault)
        | ToolFault::SideTable(_, _, fault) => match fault {
            TableFault::NotTable | TableFault::Chunk(_) => Some(Wrong::No(Expected::Table)),
            _ => None,
        },
        ToolFault::LayerMap(_, MapFault::Syntax) | ToolFault::SideMap(_, _, MapFault::Syntax) => {
            Some(Wrong::No(Expected::Map))
        }
        _ => None,
    }
}

fn layer_with(fault: ToolFault) -> LayerAt {
    match fault {
        ToolFault::LayerApk(place, _)
        | ToolFault::LayerTable(place, _)
        | ToolFault::LayerMap(place, _) => LayerAt {
            side: Side::Old,
            place,
        },
        ToolFault::SideApk(side, place, _)
        | ToolFault::SideTable(side, place, _)
        | ToolFault::SideMap(side, place, _) => LayerAt { side, place },
        _ => LayerAt {
            side: Side::Old,
            place: 0,
        },
    }
}

// The path of a layer's table, or of its id map.
fn path_among(
    alloc: Global,
    paths: &[LayerParts<String>],
    place: usize,
    wrong: Wrong,
) -> Option<String> {
    let (table, map) = paths.get(place)?;
    match (wrong, map) {
        (Wrong::No(Expected::Map), Some(map)) => text_of(alloc, &[map.as_str()]),
        (Wrong::No(Expected::Map), None) => None,
        _ => text_of(alloc, &[table.as_str()]),
    }
}
