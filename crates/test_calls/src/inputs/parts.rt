//! What is made of its parts, without memory.

use crate::marked::{begin, end, tell};
use cert_checker::{Goal, ResId};
use config_record::{Device, Fields, Locale};
use std::test::Fail;

/// A device of numbers that not all qualifiers may have.
pub fn device(rt: &HostRuntime) -> Result<(), Fail> {
    let fields = Fields {
        numbers: [160; 25],
        locale: Locale::read("fr")?,
    };
    begin(rt);
    tell(rt, Device::check(&fields).err());
    end(rt);
    Ok(())
}

/// The goal of an attribute under a style.
pub fn goal(rt: &HostRuntime) -> Result<(), Fail> {
    let styles = vec![in rt.alloc(); ResId(0x7f01_0000)]?;
    begin(rt);
    tell(rt, Goal::attr(ResId(0x0101_0001), styles));
    end(rt);
    Ok(())
}
