//! The files of a command for a box of devices, in the order in which they are read.

ghost use Rattle.std.specs.Prelude.{◌≡◌, map, IfSome};
ghost use Rattle.command_base.specs.Stop.{GivesOrStops};
ghost use Rattle.resource_tool.specs.BoxFiles.{asked_box_files, asked_box_held, box_files, box_held};

use command_base::{Inputs, LayerFiles, Stop, asked_words, file_bytes};
use std::alloc::Global;

/// The bytes of layers and of a box.
#[derive(Drop)]
pub(crate) struct BoxFiles {
    pub layers: LayerFiles,
    pub box_json: Vec<u8>,
}

impl BoxFiles {
    /// Reads a list of layers with the files that it names, and then the box.
    #[tactic(auto, unfolding(crate::specs::BoxFiles::box_files))]
    pub fn read<'a, I: Inputs>(
        alloc: Global,
        inputs: &I,
        layers_path: &'a str,
        box_path: &'a str,
    ) -> Result<BoxFiles, Stop<'a>>
        ensures { IfSome (I.places inputs.now) (λ places. GivesOrStops box_held result
            (box_files places layers_path.entry.now box_path.entry.now)) }
    {
        let layers = LayerFiles::read(alloc, inputs, layers_path)?;
        let box_json = file_bytes(inputs, box_path)?;
        Ok(BoxFiles { layers, box_json })
    }
}

/// The bytes of layers and of a box, and the words of the argument that takes several.
#[derive(Drop)]
pub(crate) struct AskedBoxFiles {
    pub layers: LayerFiles,
    pub box_json: Vec<u8>,
    pub words: Vec<String>,
}

impl AskedBoxFiles {
    /// Reads a list of layers with the files that it names, then the box, and then the files of words.
    #[tactic(auto, unfolding(crate::specs::BoxFiles::asked_box_files))]
    pub fn read<'a, I: Inputs>(
        alloc: Global,
        inputs: &I,
        layers_path: &'a str,
        box_path: &'a str,
        words: &[&'a str],
    ) -> Result<AskedBoxFiles, Stop<'a>>
        ensures { IfSome (I.places inputs.now) (λ places. GivesOrStops asked_box_held result
            (asked_box_files places layers_path.entry.now box_path.entry.now (map (λ word. word.now) words.now))) }
    {
        let BoxFiles { layers, box_json } = BoxFiles::read(alloc, inputs, layers_path, box_path)?;
        let words = asked_words(alloc, inputs, words)?;
        Ok(AskedBoxFiles {
            layers,
            box_json,
            words,
        })
    }
}
