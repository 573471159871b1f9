//! What a person may try where the program stops. Nothing is proved of these texts.

use crate::fault::ToolFault;
use crate::layers_fault::LayersFault;
use crate::stop::Stop;
use answer_text::{DeviceFault, TableFault};
use apk_member::ApkFault;
use cert_tree::{BoxFault, CertFault, Coord};

const LAYERS: &str =
    "LAYERS is a JSON list unless it ends in .apk or .arsc, as app.apk,split.apk+overlay.apk";

const LIST: &str = "a list is [{\"table\":\"PATH\"},{\"table\":\"PATH\",\"map\":\"PATH\"}]";

const LISTED: &str = "paths in a list of layers begin in the folder where restool runs";

const TABLE: &str = "an apk is read where its path ends in .apk; restool survey tells more";

const COMPRESSED: &str = "unpack its table: unzip -p a.apk resources.arsc >a.arsc";

const DEVICE: &str =
    "a device is {\"density\":320,\"locale\":\"de-DE\",..}, or \"$(adb shell am get-config)\"";

const NUMBERS: &str =
    "all but the locale are numbers: \"density\":320 for xhdpi, \"orientation\":2 for land, \"night\":2";

const LOCALE: &str = "locales are as es-MX or es-419, and with --locales android as sr-Latn-RS";

const DENSITY: &str = "give the density, as \"density\":320 for xhdpi";

const PART: &str =
    "the words are those of resource folders, each kind once, as en-rUS-sw411dp-land-night-xhdpi-v27";

const SETS: &str =
    "a box has a list or a range for each qualifier: \"night\":[1,2],\"density\":{\"from\":120,\"to\":640}";

const CERTIFICATE: &str =
    "where make finds a device without a value, or reaches its node limit, it prints no certificate";

const RESOURCE: &str = "restool ids LAYERS prints all names";

impl Stop<'_> {
    /// What may help, where something is known that does.
    pub fn hint(&self) -> Option<&'static str> {
        match self {
            Stop::LayerFile(_) => Some(LISTED),
            Stop::NoResource(_) => Some(RESOURCE),
            Stop::DevicePart(_) => Some(PART),
            Stop::Tool(fault) => hint_of_fault(fault),
            _ => None,
        }
    }
}

fn hint_of_fault(fault: &ToolFault) -> Option<&'static str> {
    let hint = match *fault {
        ToolFault::Layers(LayersFault::Syntax) | ToolFault::SideLayers(_, LayersFault::Syntax) => {
            LAYERS
        }
        ToolFault::Layers(LayersFault::Shape) | ToolFault::SideLayers(_, LayersFault::Shape) =>
            LIST,
        ToolFault::Apk(ApkFault::Compressed)
        | ToolFault::LayerApk(_, ApkFault::Compressed)
        | ToolFault::SideApk(_, _, ApkFault::Compressed) => COMPRESSED,
        ToolFault::Table(TableFault::NotTable | TableFault::Chunk(_))
        | ToolFault::LayerTable(_, TableFault::NotTable | TableFault::Chunk(_))
        | ToolFault::SideTable(_, _, TableFault::NotTable | TableFault::Chunk(_)) => TABLE,
        ToolFault::Device(DeviceFault::Syntax) => DEVICE,
        ToolFault::Device(DeviceFault::Shape) => NUMBERS,
        ToolFault::Device(DeviceFault::FieldRange(Coord::Locale) | DeviceFault::RegionAlone)
        | ToolFault::Box(BoxFault::FieldRange(Coord::Locale) | BoxFault::RegionAlone) => LOCALE,
        ToolFault::Device(DeviceFault::Density) | ToolFault::Box(BoxFault::Density) => DENSITY,
        ToolFault::Box(BoxFault::Syntax | BoxFault::Shape) => SETS,
        ToolFault::Certificate(CertFault::Syntax) => CERTIFICATE,
        _ => return None,
    };
    Some(hint)
}
