//! JSON texts that are not as they have to be.

use crate::hints::Asked;
use crate::hints::boxes::{say_box, say_outside};
use crate::hints::content::{Expected, say_instead};
use crate::hints::devices::say_device;
use crate::hints::kinds::{JsonFile, Kind, Wrong, kind_of, say_kind};
use crate::hints::layers::say_layers;
use crate::hints::locale_texts::say_locales;
use crate::hints::members::{Member, members_of};
use crate::hints::request_parts::RequestParts;
use crate::hints::text::Hint;
use command_base::{
    BoxFault, Coord, DeviceFault, Inputs, LayersFault, LocaleRule, Side, ToolFault,
};
use json_input::{JsonFault, read_value};
use json_tokens::{MOST_DEPTH, Scratch, Tokens};
use notation::is_printed;
use serde_json::Value;
use std::alloc::Global;

/// The most bytes of a text that is read as a value, which takes many times as much memory.
const MOST_BYTES: usize = 1 << 16;

impl<I: Inputs> Asked<'_, '_, I> {
    /// Says what is wrong where there is a fault, mostly of a JSON text.
    pub(crate) fn say_fault(&self, fault: ToolFault, hint: &mut Hint) {
        let Some(file) = file_with(&self.parts, fault) else {
            return self.say_layer(fault, hint);
        };
        if file.expected == Kind::Device && is_printed(file.path) {
            if let Wrong::DeviceDensity = file.wrong {
                hint.say(b"add the density, as xhdpi or 560dpi");
            }
            return;
        }
        let Some(bytes) = self.inputs.read_again(file.path) else {
            return;
        };
        if bytes.len() > MOST_BYTES {
            return say_long(self.alloc, self.parts.order, file, &bytes, hint);
        }
        match read_value(self.alloc, &bytes) {
            Ok(value) => say_value(self.alloc, &self.parts, file, &value, hint),
            Err(_) => say_instead(Expected::Json(file.expected), file.path, &bytes, hint),
        }
    }
}

// The same of a text that is too long to be kept as a value. Such a text is mostly written by a program: a hint tells at most
// that it is a certificate.
fn say_long(alloc: Global, order: &[u8], file: JsonFile<'_>, bytes: &[u8], hint: &mut Hint) {
    match is_certificate(alloc, bytes) {
        Ok(is_certificate) => {
            if is_certificate && file.expected != Kind::Certificate {
                say_kind(order, file, Kind::Certificate, hint);
            }
        }
        Err(JsonFault::Syntax) => {
            say_instead(Expected::Json(file.expected), file.path, bytes, hint);
        }
        Err(JsonFault::OutOfMemory) => {}
    }
}

// Whether a text has goals, and no member but of a certificate.
fn is_certificate(alloc: Global, bytes: &[u8]) -> Result<bool, JsonFault> {
    let mut scratch = Scratch::new(alloc);
    let mut tokens = Tokens::of(bytes, &mut scratch)?;
    let mut members = [None; 2];
    let no_others = tokens.fields(MOST_DEPTH, &["goals", "version"], &mut members)?;
    tokens.end()?;
    Ok(no_others && members[0].is_some())
}

// The JSON text that has a fault.
fn file_with<'a>(parts: &RequestParts<'_, 'a>, fault: ToolFault) -> Option<JsonFile<'a>> {
    let (expected, path) = match fault {
        ToolFault::Layers(_) => (Kind::Layers, parts.layers(Side::Old)),
        ToolFault::SideLayers(side, _) => (Kind::Layers, parts.layers(side)),
        ToolFault::Device(_) => (Kind::Device, parts.device),
        ToolFault::Box(_) => (Kind::Box, parts.members),
        ToolFault::Certificate(_) => (Kind::Certificate, parts.certificate),
        _ => return None,
    };
    let wrong = match fault {
        ToolFault::Layers(LayersFault::Shape) | ToolFault::SideLayers(_, LayersFault::Shape) => {
            Wrong::Layers
        }
        ToolFault::Device(DeviceFault::Shape) => Wrong::Device,
        ToolFault::Device(DeviceFault::Density) => Wrong::DeviceDensity,
        ToolFault::Box(BoxFault::Shape) => Wrong::Box,
        ToolFault::Box(BoxFault::Density) => Wrong::BoxDensity,
        ToolFault::Device(DeviceFault::FieldRange(coord))
        | ToolFault::Box(BoxFault::FieldRange(coord)) => Wrong::Range(coord),
        _ => Wrong::Other,
    };
    Some(JsonFile {
        expected,
        path: path?,
        wrong,
    })
}

// That a text is of another kind than was expected, or else what is wrong with it.
fn say_value(
    alloc: Global,
    parts: &RequestParts<'_, '_>,
    file: JsonFile<'_>,
    value: &Value,
    hint: &mut Hint,
) {
    let members = members_of(alloc, value);
    let members = members.as_deref().unwrap_or(&[]);
    match kind_of(value, members) {
        Some(kind) if kind != file.expected => say_kind(parts.order, file, kind, hint),
        _ => say_wrong(alloc, parts.rule, value, members, file.wrong, hint),
    }
}

fn say_wrong(
    alloc: Global,
    rule: LocaleRule,
    value: &Value,
    members: &[Member<'_>],
    wrong: Wrong,
    hint: &mut Hint,
) {
    match wrong {
        Wrong::Layers => say_layers(alloc, value, hint),
        Wrong::Device => say_device(alloc, members, hint),
        Wrong::DeviceDensity => say_outside(value, Coord::Density, hint),
        Wrong::Box => say_box(alloc, members, hint),
        Wrong::BoxDensity => {
            say_outside(value, Coord::Density, hint);
            if hint.is_empty() {
                hint.say(
                    b"give the densities, as \"density\":[160,320] or \"density\":{\"from\":120,\"to\":640}",
                );
            }
        }
        Wrong::Range(Coord::Locale) => say_locales(alloc, value, rule, hint),
        Wrong::Range(coord) => say_outside(value, coord, hint),
        Wrong::Other => {}
    }
}
