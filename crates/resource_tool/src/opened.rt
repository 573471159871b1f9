//! What the commands are asked of: layers and a device, opened from their bytes, and a resource.

ghost use Rattle.std.specs.Prelude.{map};
ghost use Rattle.contract_words.specs.Exact.{GivesOr};
ghost use Rattle.command_base.specs.declared.fault.ToolFault.TheVariants.{OutOfMemory};
ghost use Rattle.command_base.specs.DeviceText.{device_text_of};
ghost use Rattle.command_base.specs.FilesSeen.{layers_held};
ghost use Rattle.command_base.specs.Output.{IsOfInput};
ghost use Rattle.command_base.specs.StackBytesSeen.{layer_bytes};
ghost use Rattle.command_base.specs.Stop.{GivesOrStops};
ghost use Rattle.command_base.specs.names.Named.{named_of};
ghost use Rattle.resource_tool.specs.Opened.{opened_in, opened_by, id_opened};

use command_base::{
    Device, DeviceText, LayerFiles, LayerParts, LocaleRule, Named, ResId, Stack, Stop, ToolFault,
    open_stack,
};
use names::id_named;
use std::alloc::Global;

/// The layers that a command is asked of, and the device. The commands are its methods, so that one stack answers
/// several of them.
#[derive(Drop)]
pub(crate) struct Opened<'a> {
    pub stack: Stack<'a>,
    pub device: Device,
}

impl<'a> Opened<'a> {
    ghost use Rattle.resource_tool.specs.OpenedSeen.{opened_of};

    /// Opens the layers, and then reads a device of JSON, by language and region.
    #[tactic(auto, unfolding(crate::specs::Opened::opened_in))]
    pub fn read(
        alloc: Global,
        layers: &[LayerParts<&'a [u8]>],
        device: &[u8],
    ) -> Result<Opened<'a>, ToolFault>
        ensures value { GivesOr OutOfMemory opened_of result (opened_in (map layer_bytes layers.now) device.now) }
        ensures of_input { IsOfInput result }
    {
        let stack = open_stack(alloc, layers)?;
        let device = Device::read(alloc, device)?;
        Ok(Opened { stack, device })
    }

    /// The same of the files of layers and the text of a device, whose locale is read by a rule, by which it is then compared.
    #[tactic(auto, unfolding(crate::specs::Opened::opened_by))]
    pub(crate) fn read_by<'t>(
        alloc: Global,
        files: &'a LayerFiles,
        device: &DeviceText<'t>,
        rule: LocaleRule,
    ) -> Result<Opened<'a>, Stop<'t>>
        ensures { GivesOrStops opened_of result (opened_by rule (layers_held files.now) (device_text_of device.now)) }
    {
        let layers = files.layers(alloc)?;
        let stack = open_stack(alloc, &layers)?;
        let device = device.device(alloc, rule)?;
        Ok(Opened { stack, device })
    }
}

/// Layers and a device that were opened, and the one resource that is asked for.
#[derive(Drop)]
pub(crate) struct OpenId<'a> {
    pub opened: Opened<'a>,
    pub id: ResId,
}

impl<'a> OpenId<'a> {
    ghost use Rattle.resource_tool.specs.OpenedSeen.{id_seen};

    /// Opens the layers, reads the device, and then finds the resource.
    #[tactic(auto, unfolding(crate::specs::Opened::id_opened))]
    pub fn open<'t>(
        alloc: Global,
        files: &'a LayerFiles,
        device: &DeviceText<'t>,
        rule: LocaleRule,
        resource: Named<'_>,
    ) -> Result<OpenId<'a>, Stop<'t>>
        ensures { GivesOrStops id_seen result
            (id_opened rule (layers_held files.now) (device_text_of device.now) (named_of resource.entry)) }
    {
        let opened = Opened::read_by(alloc, files, device, rule)?;
        let id = id_named(alloc, &opened.stack, resource)?;
        Ok(OpenId { opened, id })
    }
}
