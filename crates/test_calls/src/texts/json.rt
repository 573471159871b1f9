//! Faults of JSON texts.

use crate::texts::show;
use cert_tree::{BoxFault, CertFault};
use config_record::{Coord, DeviceFault, LocaleFault};
use json_input::JsonFault;
use overlay_map::MapFault;
use res_value::ResId;
use resource_tool::LayersFault;

pub fn print(rt: &HostRuntime) {
    show(rt, JsonFault::OutOfMemory);
    show(rt, LocaleFault::RegionAlone);
    show(rt, DeviceFault::Density);
    show(rt, DeviceFault::FieldRange(Coord::Mcc));
    show(rt, BoxFault::Density);
    show(rt, BoxFault::TooMany(Coord::WidthDp));
    show(rt, CertFault::Version);
    show(rt, CertFault::Shape(2, 10));
    show(rt, LayersFault::TooManyLayers);
    show(rt, MapFault::Syntax);
    show(rt, MapFault::OtherPackage(ResId(0x0101_0000)));
}
