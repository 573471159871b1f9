//! Why a command was not carried out, and the line that says so.

ghost use Rattle.std.specs.Prelude.{◌≡◌};
ghost use Rattle.answer_text.specs.contract_words.Writes.{Writes};
ghost use Rattle.command_base.specs.FaultText.{mark_text, part_text, reason_text, refused_line, fault_line};
ghost use Rattle.command_base.specs.ToolFault.{fault_of_layer_table, fault_of_layer_map, fault_on_side};
ghost use Rattle.command_base.specs.declared.fault.ToolFault.TheVariants.{OutOfMemory, Write};

use crate::apk_fault::write_apk_fault;
use crate::box_fault::write_box_fault;
use crate::cert_fault::write_cert_fault;
use crate::device_fault::write_device_fault;
use crate::layer_mark::{write_layer_mark, write_side_mark};
use crate::layers_fault::{LayersFault, write_layers_fault};
use crate::map_fault::write_map_fault;
use crate::side::Side;
use crate::table_fault::write_table_fault;
use answer_text::{DeviceFault, MapFault, StackFault, TableFault};
use apk_member::ApkFault;
use cert_tree::{BoxFault, CertFault};
use std::alloc::AllocError;
use std::fmt::{self, Debug, Display, Formatter};
use std::io::{self, Write};
use thiserror::Error;

/// Why a command was not carried out: the part of its input that is refused, or what failed. Layers
/// are named by their place, from 0.
#[derive(Clone, Copy, Error)]
pub enum ToolFault {
    /// The apk of a command that reads one table alone.
    #[error("refused: apk: {0}")]
    Apk(ApkFault),
    /// The table of a command that reads one alone.
    #[error("refused: table: {0}")]
    Table(TableFault),
    /// The list of the layers' files.
    #[error("refused: layers: {0}")]
    Layers(LayersFault),
    #[error("refused: layer {0} apk: {1}")]
    LayerApk(usize, ApkFault),
    #[error("refused: layer {0} table: {1}")]
    LayerTable(usize, TableFault),
    /// The id map of an overlay.
    #[error("refused: layer {0} map: {1}")]
    LayerMap(usize, MapFault),
    /// The list of the layers' files of one of two stacks that are compared.
    #[error("refused: {0} layers: {1}")]
    SideLayers(Side, LayersFault),
    #[error("refused: {0} layer {1} apk: {2}")]
    SideApk(Side, usize, ApkFault),
    #[error("refused: {0} layer {1} table: {2}")]
    SideTable(Side, usize, TableFault),
    /// The id map of an overlay in one of two stacks.
    #[error("refused: {0} layer {1} map: {2}")]
    SideMap(Side, usize, MapFault),
    #[error("refused: device: {0}")]
    Device(DeviceFault),
    #[error("refused: box: {0}")]
    Box(BoxFault),
    #[error("refused: certificate: {0}")]
    Certificate(CertFault),
    #[error("out of memory")]
    OutOfMemory,
    /// The writer failed.
    #[error("Write")]
    Write,
}

/// By its text.
impl Debug for ToolFault {
    fn fmt<W: fmt::Write>(&self, f: &mut Formatter<W>) -> fmt::Result {
        Display::fmt(self, f)
    }
}

impl ToolFault {
    /// The fault of a layer's table; want of memory is the command's own.
    pub fn of_layer_table(layer: usize, fault: TableFault) -> ToolFault
        ensures { result ≡ fault_of_layer_table layer fault }
    {
        match fault {
            TableFault::OutOfMemory => ToolFault::OutOfMemory,
            fault => ToolFault::LayerTable(layer, fault),
        }
    }

    /// The fault of an overlay's id map; want of memory is the command's own.
    pub fn of_layer_map(layer: usize, fault: MapFault) -> ToolFault
        ensures { result ≡ fault_of_layer_map layer fault }
    {
        match fault {
            MapFault::OutOfMemory => ToolFault::OutOfMemory,
            fault => ToolFault::LayerMap(layer, fault),
        }
    }

    /// The same fault in one of two stacks that are compared: that of a list of layers, or of a layer, names the side,
    /// and every other stays.
    pub fn on_side(self, side: Side) -> ToolFault
        ensures { result ≡ fault_on_side side self }
    {
        match self {
            ToolFault::Layers(fault) => ToolFault::SideLayers(side, fault),
            ToolFault::LayerApk(layer, fault) => ToolFault::SideApk(side, layer, fault),
            ToolFault::LayerTable(layer, fault) => ToolFault::SideTable(side, layer, fault),
            ToolFault::LayerMap(layer, fault) => ToolFault::SideMap(side, layer, fault),
            other => other,
        }
    }
}

impl From<TableFault> for ToolFault {
    ghost use Rattle.command_base.specs.ToolFault.{fault_of_table};

    ghost from_gives = { λ fault e. e ≡ fault_of_table fault };

    fn from(fault: TableFault) -> ToolFault {
        match fault {
            TableFault::OutOfMemory => ToolFault::OutOfMemory,
            fault => ToolFault::Table(fault),
        }
    }
}

impl From<LayersFault> for ToolFault {
    ghost use Rattle.command_base.specs.ToolFault.{fault_of_layers};

    ghost from_gives = { λ fault e. e ≡ fault_of_layers fault };

    fn from(fault: LayersFault) -> ToolFault {
        match fault {
            LayersFault::OutOfMemory => ToolFault::OutOfMemory,
            fault => ToolFault::Layers(fault),
        }
    }
}

impl From<DeviceFault> for ToolFault {
    ghost use Rattle.command_base.specs.ToolFault.{fault_of_device};

    ghost from_gives = { λ fault e. e ≡ fault_of_device fault };

    fn from(fault: DeviceFault) -> ToolFault {
        match fault {
            DeviceFault::OutOfMemory => ToolFault::OutOfMemory,
            fault => ToolFault::Device(fault),
        }
    }
}

impl From<BoxFault> for ToolFault {
    ghost use Rattle.command_base.specs.ToolFault.{fault_of_box};

    ghost from_gives = { λ fault e. e ≡ fault_of_box fault };

    fn from(fault: BoxFault) -> ToolFault {
        match fault {
            BoxFault::OutOfMemory => ToolFault::OutOfMemory,
            fault => ToolFault::Box(fault),
        }
    }
}

impl From<CertFault> for ToolFault {
    ghost use Rattle.command_base.specs.ToolFault.{fault_of_certificate};

    ghost from_gives = { λ fault e. e ≡ fault_of_certificate fault };

    fn from(fault: CertFault) -> ToolFault {
        match fault {
            CertFault::OutOfMemory => ToolFault::OutOfMemory,
            fault => ToolFault::Certificate(fault),
        }
    }
}

impl From<StackFault> for ToolFault {
    ghost use Rattle.command_base.specs.ToolFault.{fault_of_stack};

    ghost from_gives = { λ fault e. e ≡ fault_of_stack fault };

    fn from(fault: StackFault) -> ToolFault {
        match fault {
            StackFault::TooManyLayers => ToolFault::Layers(LayersFault::TooManyLayers),
            StackFault::OutOfMemory => ToolFault::OutOfMemory,
        }
    }
}

impl From<AllocError> for ToolFault {
    ghost from_gives = { λ _ e. e ≡ OutOfMemory };

    fn from(_error: AllocError) -> ToolFault {
        ToolFault::OutOfMemory
    }
}

/// A command has no errors of its own from streams but those of its writer.
impl From<io::Error> for ToolFault {
    ghost from_gives = { λ _ e. e ≡ Write };

    fn from(_error: io::Error) -> ToolFault {
        ToolFault::Write
    }
}

/// Writes the line for a fault: which part of the input is refused, and the names of its fault from outside
/// in, with its place, its id, its coordinate, or its goal and node. A writer that failed has no line.
#[tactic(auto, unfolding(crate::specs::FaultText::fault_line))]
pub fn fault_text<W: Write + Drop>(fault: &ToolFault, out: &mut W) -> io::Result<()>
    ensures { Writes W.contents out.old out.new result (fault_line fault.now) }
{
    match fault {
        ToolFault::Write => Ok(()),
        ToolFault::OutOfMemory => out.write_all(b"out of memory\n"),
        fault => write_refused(fault, out),
    }
}

#[tactic(auto, unfolding(crate::specs::FaultText::refused_line))]
fn write_refused<W: Write + Drop>(fault: &ToolFault, out: &mut W) -> io::Result<()>
    ensures { Writes W.contents out.old out.new result (refused_line fault.now) }
{
    out.write_all(b"refused: ")?;
    write_mark(fault, out)?;
    out.write_all(part_text(fault).as_bytes())?;
    write_reason(fault, out)?;
    out.write_all(b"\n")
}

// Of which layer the part is, and on which side.
#[tactic(auto, unfolding(crate::specs::FaultText::mark_text))]
fn write_mark<W: Write + Drop>(fault: &ToolFault, out: &mut W) -> io::Result<()>
    ensures { Writes W.contents out.old out.new result (mark_text fault.now) }
{
    match *fault {
        ToolFault::LayerApk(layer, _)
        | ToolFault::LayerTable(layer, _)
        | ToolFault::LayerMap(layer, _) => write_layer_mark(None, layer, out),
        ToolFault::SideApk(side, layer, _)
        | ToolFault::SideTable(side, layer, _)
        | ToolFault::SideMap(side, layer, _) => write_layer_mark(Some(side), layer, out),
        ToolFault::SideLayers(side, _) => write_side_mark(Some(side), out),
        _ => Ok(()),
    }
}

// Which part it is.
fn part_text(fault: &ToolFault) -> &'static str
    ensures { result.now ≡ part_text fault.now }
{
    match fault {
        ToolFault::Apk(_) | ToolFault::LayerApk(..) | ToolFault::SideApk(..) => "apk: ",
        ToolFault::Table(_) | ToolFault::LayerTable(..) | ToolFault::SideTable(..) => "table: ",
        ToolFault::Layers(_) | ToolFault::SideLayers(..) => "layers: ",
        ToolFault::LayerMap(..) | ToolFault::SideMap(..) => "map: ",
        ToolFault::Device(_) => "device: ",
        ToolFault::Box(_) => "box: ",
        ToolFault::Certificate(_) => "certificate: ",
        ToolFault::OutOfMemory | ToolFault::Write => "",
    }
}

// The names of a fault from outside in.
#[tactic(auto, unfolding(crate::specs::FaultText::reason_text))]
fn write_reason<W: Write + Drop>(fault: &ToolFault, out: &mut W) -> io::Result<()>
    ensures { Writes W.contents out.old out.new result (reason_text fault.now) }
{
    match *fault {
        ToolFault::Apk(fault) | ToolFault::LayerApk(_, fault) | ToolFault::SideApk(_, _, fault) =>
            write_apk_fault(fault, out),
        ToolFault::Table(fault)
        | ToolFault::LayerTable(_, fault)
        | ToolFault::SideTable(_, _, fault) => write_table_fault(fault, out),
        ToolFault::Layers(fault) | ToolFault::SideLayers(_, fault) => {
            write_layers_fault(fault, out)
        }
        ToolFault::LayerMap(_, fault) | ToolFault::SideMap(_, _, fault) => {
            write_map_fault(fault, out)
        }
        ToolFault::Device(fault) => write_device_fault(fault, out),
        ToolFault::Box(fault) => write_box_fault(fault, out),
        ToolFault::Certificate(fault) => write_cert_fault(fault, out),
        ToolFault::OutOfMemory | ToolFault::Write => Ok(()),
    }
}
