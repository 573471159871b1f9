//! Faults of stacks, of bags, of inputs, and of commands.

use crate::texts::show;
use bags_themes::BagFault;
use overlay_map::{MapFault, StackFault, TableFault};
use resource_text::Side;
use resource_tool::{InputFault, LayersFault, ToolFault};

pub fn print(rt: &HostRuntime) {
    show(rt, StackFault::TooManyLayers);
    show(rt, BagFault::BagDepth);
    show(rt, InputFault::TooLarge);
    show(rt, ToolFault::Layers(LayersFault::Shape));
    show(rt, ToolFault::LayerTable(2, TableFault::NotTable));
    show(rt, ToolFault::LayerMap(63, MapFault::Syntax));
    show(rt, ToolFault::SideMap(Side::New, 63, MapFault::Syntax));
    show(rt, ToolFault::Write);
}
