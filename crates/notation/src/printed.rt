//! The text that `am get-config` prints, of which the first line is of the device.

ghost use Rattle.std.specs.Prelude.{◌≡◌, not, Ok, position, option_map, IfOk};
ghost use Rattle.contract_words.specs.Exact.{GivesOr};
ghost use Rattle.config_record.specs.DeviceSeen.{device_numbers};
ghost use Rattle.notation.specs.declared.line.NoLine.TheVariants.{OutOfMemory};
ghost use Rattle.notation.specs.Fault.{seen};
ghost use Rattle.notation.specs.Printed.{is_printed, is_blank, without_blanks, ends_line, first_line, line_in, device_of_printed_by, printed_text, printed_of_by};

use crate::cut::behind;
use crate::fault::ConfigWordFault;
use crate::line::{NoLine, unsaid};
use crate::line_parts::write_line;
use crate::read::read_line;
use config_record::{Device, LocaleRule};
use std::alloc::Global;
use std::io::{self, Write};

/// What stands before the line.
const MARK: &[u8] = b"config:";

/// Whether a text begins as the text that `am get-config` prints does, with `config:`.
pub fn is_printed(text: &str) -> bool
    ensures { result ≡ is_printed text.now }
{
    behind(MARK, text.as_bytes()).is_some()
}

/// The device of the text that `adb shell am get-config` prints: blanks may stand behind `config:`, and what stands behind
/// the line is not looked at. A text without `config:` begins with the line. The locale is read by a rule, by which it is
/// then compared.
///
/// ```text
/// let text = "config: mcc310-mnc4-en-rUS-ldltr-sw411dp-560dpi-v27\nabi: arm64-v8a\n";
/// let device = read_printed_by(text, rule)?;
/// ```
pub fn read_printed_by(text: &str, rule: LocaleRule) -> Result<Device, ConfigWordFault<'_>>
    ensures { seen device_numbers result ≡ device_of_printed_by rule text.now }
{
    read_text(text.as_bytes(), rule)
}

#[tactic(auto, unfolding(crate::specs::Printed::device_of_printed_by))]
fn read_text(text: &[u8], rule: LocaleRule) -> Result<Device, ConfigWordFault<'_>>
    ensures { seen device_numbers result ≡ device_of_printed_by rule text.now }
{
    read_line(line_in(text), rule)
}

#[tactic(auto, unfolding(crate::specs::Printed::line_in))]
fn line_in(text: &[u8]) -> &[u8]
    ensures { result.now ≡ line_in text.now }
{
    first_line(without_blanks(behind(MARK, text).unwrap_or(text)))
}

fn without_blanks(text: &[u8]) -> &[u8]
    ensures { result.now ≡ without_blanks text.now }
{
    match first_other(text) {
        Some(place) => &text[place..],
        None => &[],
    }
}

// The place of the first byte that is no blank.
fn first_other(text: &[u8]) -> Option<usize>
    ensures { result ≡ position (λ byte. not (is_blank byte)) text.now }
{
    text.iter()
        .position(|byte| !(*byte == b' ' || *byte == b'\t'))
}

fn first_line(text: &[u8]) -> &[u8]
    ensures { result.now ≡ first_line text.now }
{
    match first_end(text) {
        Some(place) => &text[..place],
        None => text,
    }
}

// The place where the first line ends, if another follows.
fn first_end(text: &[u8]) -> Option<usize>
    ensures { result ≡ position ends_line text.now }
{
    text.iter()
        .position(|byte| *byte == b'\n' || *byte == b'\r')
}

/// The text that `am get-config` begins with on a device: `config: `, its line, and a line feed. It is read back by a rule
/// before it is given.
///
/// ```text
/// let text = print_config_by(alloc, &device, rule)?; // config: mcc310-mnc4-en-rUS-ldltr-sw411dp-560dpi-v27
/// ```
#[tactic(auto, unfolding(crate::specs::Printed::printed_of_by, crate::specs::Printed::device_of_printed_by))]
pub fn print_config_by(alloc: Global, device: &Device, rule: LocaleRule) -> Result<Vec<u8>, NoLine>
    ensures text { GivesOr OutOfMemory (λ text. text.items) result (printed_of_by rule (device_numbers device.now)) }

    // It reads as that device.
    ensures reads_back { IfOk result (λ text. device_of_printed_by rule text.items ≡ Ok (device_numbers device.now)) }
{
    // To a `Vec` only a want of memory is a fault.
    let Ok(text) = printed_text(alloc, device) else {
        return Err(NoLine::OutOfMemory);
    };
    match unsaid(line_in(&text), *device, rule) {
        None => Ok(text),
        Some(coord) => Err(NoLine::NoWord(coord)),
    }
}

fn printed_text(alloc: Global, device: &Device) -> io::Result<Vec<u8>>
    ensures { IfOk result (λ text. text.items ≡ printed_text (device_numbers device.now)) }
{
    let mut text = Vec::new(alloc);
    text.write_all(b"config: ")?;
    write_line(device, &mut text)?;
    text.write_all(b"\n")?;
    Ok(text)
}
