//! The command `device`.

ghost use Rattle.std.specs.Prelude.{◌≡◌, Ok, IfSome};
ghost use Rattle.command_base.specs.answer_text.config_record.DeviceSeen.{device_numbers};
ghost use Rattle.command_base.specs.CarriesOut.{IsKept};
ghost use Rattle.command_base.specs.FilesSeen.{bytes_of};
ghost use Rattle.command_base.specs.Stop.{GivesOrStops};
ghost use Rattle.command_base.specs.declared.fault.ToolFault.TheVariants.{Write};
ghost use Rattle.notation.specs.JsonText.{device_json};
ghost use Rattle.resource_tool.specs.DeviceOutput.{PrintsDevice, config_of, device_form};

use crate::text::print_text;
use command_base::{
    Device, DeviceText, Inputs, LocaleRule, Status, Stop, ToolFault, status_or_stop,
};
use notation::{NoLine, print_config_by, write_device_json};
use std::alloc::Global;
use std::io::Write;

/// What the words of `device` ask: a device in another form.
#[derive(Drop)]
pub struct DeviceForm<'a> {
    /// The device itself, as `am get-config` prints it, or where its JSON text lies.
    pub device: &'a str,
    /// By which rule its locale is read.
    pub locales: LocaleRule,
    /// Whether it is printed as `am get-config` prints it, and not as JSON.
    pub config: bool,
}

impl<'a> DeviceForm<'a> {
    /// Reads the device, and prints it; what is printed reads as that device. Where it is not answered, nothing is written,
    /// unless a write fails.
    pub fn answer<I: Inputs, W: Write + Drop>(
        &self,
        alloc: Global,
        inputs: &I,
        out: &mut W,
    ) -> Result<Status, Stop<'a>>
        ensures answers { IfSome (I.places inputs.now) (λ places. PrintsDevice W.contents out.old out.new places self.now result) }
        ensures unwritten { IsKept out.old out.new result }
    {
        let text = self.text(alloc, inputs)?;
        status_or_stop(print_text(Status::Done, &text, out))
    }

    // The device in its other form.
    #[tactic(auto, unfolding(crate::specs::DeviceOutput::device_form))]
    fn text<I: Inputs>(&self, alloc: Global, inputs: &I) -> Result<Vec<u8>, Stop<'a>>
        ensures { IfSome (I.places inputs.now) (λ places. GivesOrStops bytes_of result
            (device_form places self.now.locales self.now.config self.now.device.now)) }
    {
        let text = DeviceText::read(inputs, self.device)?;
        let device = text.device(alloc, self.locales)?;
        if self.config {
            config_text(alloc, &device, self.locales)
        } else {
            json_text(alloc, &device)
        }
    }
}

fn config_text(alloc: Global, device: &Device, rule: LocaleRule) -> Result<Vec<u8>, Stop<'static>>
    ensures { GivesOrStops bytes_of result (config_of rule (device_numbers device.now)) }
{
    match print_config_by(alloc, device, rule) {
        Ok(text) => Ok(text),
        Err(NoLine::NoWord(coord)) => Err(Stop::NoWord(coord)),
        Err(NoLine::OutOfMemory) => Err(Stop::Tool(ToolFault::OutOfMemory)),
    }
}

fn json_text(alloc: Global, device: &Device) -> Result<Vec<u8>, Stop<'static>>
    ensures { GivesOrStops bytes_of result (Ok (device_json (device_numbers device.now))) }
{
    let mut text = Vec::new(alloc);
    match write_device_json(device, &mut text) {
        Ok(()) => Ok(text),
        // To a `Vec` only a want of memory is a fault.
        Err(_) => Err(Stop::Tool(ToolFault::OutOfMemory)),
    }
}
