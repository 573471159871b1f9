//! The files of a command for a device, in the order in which they are read.

ghost use Rattle.std.specs.Prelude.{◌≡◌, map, IfSome};
ghost use Rattle.command_base.specs.Stop.{GivesOrStops};
ghost use Rattle.command_base.specs.DeviceFiles.{device_files, asked_files};
ghost use Rattle.command_base.specs.FilesSeen.{device_held, asked_held};

use crate::device_text::DeviceText;
use crate::file_words::asked_words;
use crate::inputs::Inputs;
use crate::layer_files::LayerFiles;
use crate::stop::Stop;
use std::alloc::Global;

/// The bytes of layers, and the text of a device.
#[derive(Drop)]
pub struct DeviceFiles<'a> {
    pub layers: LayerFiles,
    pub device: DeviceText<'a>,
}

impl<'a> DeviceFiles<'a> {
    /// Reads a list of layers with the files that it names, and then the device.
    #[tactic(auto, unfolding(crate::specs::DeviceFiles::device_files))]
    pub fn read<I: Inputs>(
        alloc: Global,
        inputs: &I,
        layers_path: &'a str,
        device: &'a str,
    ) -> Result<DeviceFiles<'a>, Stop<'a>>
        ensures { IfSome (I.places inputs.now) (λ places. GivesOrStops device_held result
            (device_files places layers_path.entry.now device.entry.now)) }
    {
        let layers = LayerFiles::read(alloc, inputs, layers_path)?;
        let device = DeviceText::read(inputs, device)?;
        Ok(DeviceFiles { layers, device })
    }
}

/// The bytes of layers, the text of a device, and the words of the argument that takes several.
#[derive(Drop)]
pub struct AskedFiles<'a> {
    pub layers: LayerFiles,
    pub device: DeviceText<'a>,
    pub words: Vec<String>,
}

impl<'a> AskedFiles<'a> {
    /// Reads a list of layers with the files that it names, then the device, and then the files of words.
    #[tactic(auto, unfolding(crate::specs::DeviceFiles::asked_files))]
    pub fn read<I: Inputs>(
        alloc: Global,
        inputs: &I,
        layers_path: &'a str,
        device: &'a str,
        words: &[&'a str],
    ) -> Result<AskedFiles<'a>, Stop<'a>>
        ensures { IfSome (I.places inputs.now) (λ places. GivesOrStops asked_held result
            (asked_files places layers_path.entry.now device.entry.now (map (λ word. word.now) words.now))) }
    {
        let DeviceFiles { layers, device } = DeviceFiles::read(alloc, inputs, layers_path, device)?;
        let words = asked_words(alloc, inputs, words)?;
        Ok(AskedFiles {
            layers,
            device,
            words,
        })
    }
}
