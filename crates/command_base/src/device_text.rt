//! The text of a device: the word itself, as `am get-config` prints it, or the JSON text of a file.

ghost use Rattle.std.specs.Prelude.{◌≡◌, IfSome};
ghost use Rattle.notation.specs.Fault.{fault_of};
ghost use Rattle.command_base.specs.DeviceText.{stop_of_words};
ghost use Rattle.command_base.specs.Stop.{GivesOrStops, stop_of};

use crate::fault::ToolFault;
use crate::inputs::{Inputs, file_bytes};
use crate::stop::Stop;
use answer_text::Device;
use cert_tree::LocaleRule;
use notation::{ConfigWordFault, is_printed, read_printed_by};
use std::alloc::Global;

/// The text of a device.
#[derive(Drop)]
pub enum DeviceText<'a> {
    /// As `am get-config` prints it, which begins with `config:`.
    Printed(&'a str),
    /// The bytes of a file, a JSON text.
    Json(Vec<u8>),
}

impl<'a> DeviceText<'a> {
    ghost use Rattle.command_base.specs.answer_text.config_record.DeviceSeen.{device_numbers};
    ghost use Rattle.command_base.specs.DeviceText.{device_in_text, device_text_at, device_text_of};

    /// The text that a word of the command line gives: a word that begins with `config:` is the device itself, any other the
    /// path of its file.
    #[tactic(auto, unfolding(crate::specs::DeviceText::device_text_at))]
    pub fn read<I: Inputs>(inputs: &I, word: &'a str) -> Result<DeviceText<'a>, Stop<'a>>
        ensures { IfSome (I.places inputs.now) (λ places. GivesOrStops device_text_of result (device_text_at places word.entry.now)) }
    {
        if is_printed(word) {
            return Ok(DeviceText::Printed(word));
        }
        let json = file_bytes(inputs, word)?;
        Ok(DeviceText::Json(json))
    }

    /// The device, whose locale is read by a rule, by which it is then compared.
    pub fn device(&self, alloc: Global, rule: LocaleRule) -> Result<Device, Stop<'a>>
        ensures { GivesOrStops device_numbers result (device_in_text rule (device_text_of self.now)) }
    {
        match self {
            DeviceText::Printed(text) => match read_printed_by(text, rule) {
                Ok(device) => Ok(device),
                Err(fault) => Err(stop_of_words(fault)),
            },
            DeviceText::Json(json) => match Device::read_by(alloc, json, rule) {
                Ok(device) => Ok(device),
                Err(fault) => Err(Stop::Tool(ToolFault::from(fault))),
            },
        }
    }
}

// Why the program stops where a printed text is no device.
fn stop_of_words(fault: ConfigWordFault<'_>) -> Stop<'_>
    ensures { stop_of result ≡ stop_of_words (fault_of fault.entry) }
{
    match fault {
        ConfigWordFault::Qualifier(part) => Stop::DevicePart(part),
        ConfigWordFault::Device(fault) => Stop::Tool(ToolFault::from(fault)),
    }
}
