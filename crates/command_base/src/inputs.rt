//! What gives the bytes of inputs.

ghost use Rattle.std.specs.Prelude.{◌≡◌, ◌≢◌, Option, None, IfSome, string_bytes};
ghost use Rattle.std.specs.IoError.{error_kind};
ghost use Rattle.std.specs.Option.{option_map_or};
ghost use Rattle.command_base.specs.Input.{ReadsWithin};
ghost use Rattle.command_base.specs.declared.fault.ToolFault.TheVariants.{Apk, LayerApk};
ghost use Rattle.command_base.specs.declared.input.InputFault.TheVariants as input_faults;
ghost use Rattle.contract_words.specs.Exact.{GivesOr};
ghost use Rattle.command_base.specs.Place.{place_of};
ghost use Rattle.command_base.specs.Inputs.{Places, file_of, layer_file_of, layer_table_of, listed_table_of, most_bytes, stop_at, table_at, table_of};
ghost use Rattle.command_base.specs.FilesSeen.{bytes_of};
ghost use Rattle.command_base.specs.Stop.{GivesOrStops, stop_of};

use crate::fault::ToolFault;
use crate::input::{InputFault, read_input};
use crate::place::Place;
use crate::stop::Stop;
use apk_member::{ApkFault, TableFile};
use std::alloc::Global;
use std::io::{self, ErrorKind, Read};
use std::rt::{Env, Files};
use std::{env, fs};

/// How many bytes an input has at most.
const MOST_BYTES: usize = 268_435_456;

/// What gives the bytes of inputs.
pub trait Inputs {
    /// What each place has, where that is known.
    ghost places: { Self → Option Places } = { λ _. None };

    fn read(&self, place: Place<'_>) -> Result<Vec<u8>, InputFault>
        ensures { IfSome (places self.now)
            (λ places. GivesOr input_faults.OutOfMemory bytes_of result (places (place_of place.entry))) };

    /// The bytes of a file once more, for what is told to people alone; none where it can't be read a second time, as a pipe.
    fn read_again(&self, path: &str) -> Option<Vec<u8>>;

    /// The folder in which paths begin, where it is known.
    fn folder(&self) -> Option<String>;
}

/// The files and the standard input of the process.
#[derive(Drop)]
pub struct ProcessInputs<'a, R> {
    pub rt: &'a R,
}

impl<R: Input + Files + Env + AllocGlobal> Inputs for ProcessInputs<'_, R> {
    fn read(&self, place: Place<'_>) -> Result<Vec<u8>, InputFault> {
        let alloc = self.rt.alloc();
        match place {
            Place::StandardInput => read_within_limit(alloc, &mut self.rt.reader()),
            Place::File(path) => match fs::open(self.rt, path) {
                Ok(mut file) => read_within_limit(alloc, &mut file),
                Err(error) => Err(fault_of_opening(&error)),
            },
        }
    }

    fn read_again(&self, path: &str) -> Option<Vec<u8>> {
        match fs::metadata(self.rt, path) {
            Ok(found) if found.is_file() => self.read(Place::File(path)).ok(),
            _ => None,
        }
    }

    fn folder(&self) -> Option<String> {
        let folder = env::current_dir(self.rt).ok()?;
        String::from_str(self.rt.alloc(), folder.as_str()).ok()
    }
}

// A file that is not opened is not read, unless memory ran out.
fn fault_of_opening(error: &io::Error) -> InputFault
    ensures memory { error_kind error.now ≡ ErrorKind.OutOfMemory → result ≡ InputFault.OutOfMemory }
    ensures other { error_kind error.now ≢ ErrorKind.OutOfMemory → result ≡ InputFault.Read }
{
    if error.kind() == ErrorKind::OutOfMemory {
        InputFault::OutOfMemory
    } else {
        InputFault::Read
    }
}

fn read_within_limit<R: Read>(alloc: Global, reader: &mut R) -> Result<Vec<u8>, InputFault>
    ensures { ReadsWithin most_bytes (R.remaining reader.old) (R.remaining reader.new) result }
{
    read_input(alloc, reader, MOST_BYTES)
}

/// The file of a table, at a path or on the standard input.
pub fn table_file<'a, I: Inputs>(inputs: &I, path: &'a str) -> Result<TableFile, Stop<'a>>
    ensures { IfSome (I.places inputs.now) (λ places. GivesOrStops (λ table. table) result (table_of places path.entry.now)) }
{
    table_at(inputs, None, path)
}

/// The same of a table that is a layer by itself, which the fault of an apk names.
pub fn layer_table_file<'a, I: Inputs>(
    inputs: &I,
    layer: usize,
    path: &'a str,
) -> Result<TableFile, Stop<'a>>
    ensures { IfSome (I.places inputs.now) (λ places. GivesOrStops (λ table. table) result (layer_table_of layer places path.entry.now)) }
{
    table_at(inputs, Some(layer), path)
}

#[tactic(auto, unfolding(crate::specs::Inputs::table_at))]
fn table_at<'a, I: Inputs>(
    inputs: &I,
    layer: Option<usize>,
    path: &'a str,
) -> Result<TableFile, Stop<'a>>
    ensures { IfSome (I.places inputs.now) (λ places. GivesOrStops (λ table. table) result
        (table_at (λ fault. option_map_or (λ place. LayerApk place fault) layer (Apk fault)) places path.entry.now)) }
{
    match inputs.read(Place::of_table(path)) {
        Ok(bytes) => match TableFile::of(path, bytes) {
            Ok(table) => Ok(table),
            Err(fault) => Err(Stop::Tool(fault_of_apk(layer, fault))),
        },
        Err(fault) => Err(stop_at(Stop::File(path), fault)),
    }
}

// The fault of an apk, which is a layer or stands alone.
fn fault_of_apk(layer: Option<usize>, fault: ApkFault) -> ToolFault
    ensures { result ≡ option_map_or (λ place. LayerApk place fault) layer (Apk fault) }
{
    match layer {
        Some(place) => ToolFault::LayerApk(place, fault),
        None => ToolFault::Apk(fault),
    }
}

/// The bytes of the file at a path.
pub fn file_bytes<'a, I: Inputs>(inputs: &I, path: &'a str) -> Result<Vec<u8>, Stop<'a>>
    ensures { IfSome (I.places inputs.now) (λ places. GivesOrStops bytes_of result (file_of places path.entry.now)) }
{
    match inputs.read(Place::File(path)) {
        Ok(bytes) => Ok(bytes),
        Err(fault) => Err(stop_at(Stop::File(path), fault)),
    }
}

/// The file of a layer's table, at a path that a list of layers names. The fault of an apk names the layer.
#[tactic(auto, unfolding(crate::specs::Inputs::listed_table_of))]
pub fn listed_table_file<I: Inputs>(
    inputs: &I,
    layer: usize,
    path: String,
) -> Result<TableFile, Stop<'static>>
    ensures { IfSome (I.places inputs.now) (λ places. GivesOrStops (λ table. table) result (listed_table_of layer places (string_bytes path))) }
{
    match inputs.read(Place::File(path.as_str())) {
        Ok(bytes) => match TableFile::of(path.as_str(), bytes) {
            Ok(table) => Ok(table),
            Err(fault) => Err(Stop::Tool(ToolFault::LayerApk(layer, fault))),
        },
        Err(fault) => Err(stop_at(Stop::LayerFile(path), fault)),
    }
}

/// The bytes of the file at a path that a list of layers names.
pub fn layer_file_bytes<I: Inputs>(inputs: &I, path: String) -> Result<Vec<u8>, Stop<'static>>
    ensures { IfSome (I.places inputs.now) (λ places. GivesOrStops bytes_of result (layer_file_of places (string_bytes path))) }
{
    match inputs.read(Place::File(path.as_str())) {
        Ok(bytes) => Ok(bytes),
        Err(fault) => Err(stop_at(Stop::LayerFile(path), fault)),
    }
}

// Why the program stops where an input is not read: as `unread` says, which names its path, or for want of memory.
fn stop_at<'a>(unread: Stop<'a>, fault: InputFault) -> Stop<'a>
    ensures { stop_of result ≡ stop_at (stop_of unread.entry) fault }
{
    match fault {
        InputFault::Read | InputFault::TooLarge => unread,
        InputFault::OutOfMemory => Stop::Tool(ToolFault::OutOfMemory),
    }
}
