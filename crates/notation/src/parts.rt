//! The parts of a line.

ghost use Rattle.std.specs.Prelude.{◌≡◌, ◌∷◌};
ghost use Rattle.notation.specs.Parts.{begins_region, ends_part, parts_of};
ghost use Rattle.notation.specs.PartsSeen.{parts_behind, IsShorter};

use crate::numeral::is_digit;

/// The first part of a line, and what stands behind its dash.
#[tactic(auto, using(crate::proofs::PartSteps::part_steps))]
pub(crate) fn first_part(line: &[u8]) -> (&[u8], Option<&[u8]>)
    ensures parts { parts_of line.now ≡ result.0.now ∷ parts_behind result.1 }
    ensures shorter { IsShorter result.1 line.now }
{
    'bytes: for (place, byte) in line.iter().enumerate() {
        let behind = &line[place + 1..];
        if ends_part(*byte, behind) {
            return (&line[..place], Some(behind));
        }
    }
    (line, None)
}

// A part ends before this byte, which others follow.
fn ends_part(byte: u8, others: &[u8]) -> bool
    ensures { result ≡ ends_part byte others.now }
{
    byte == b'-' && !begins_region(others)
}

// `r`, and a capital letter or a digit.
fn begins_region(text: &[u8]) -> bool
    ensures { result ≡ begins_region text.now }
{
    match text {
        [b'r', second, ..] => (*second >= b'A' && *second <= b'Z') || is_digit(*second),
        _ => false,
    }
}
