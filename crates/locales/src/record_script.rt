//! What is kept of a record's script and variant, beside its language and its region.

ghost use Rattle.std.specs.Prelude.{◌≡◌, ◌<◌, slice_index};
ghost use Rattle.locales.specs.KeptScript.{own_script, kept_script, with_variant};

use crate::zero::is_zero;

const NONE: [u8; 4] = [0; 4];

/// A script that no device has.
const OTHER: [u8; 4] = [0, 0, 0, 1];

/// None, and Android has looked for one.
const LOOKED_FOR: [u8; 4] = [0, 0, 0, 2];

/// Bit 7 of the first byte of a script, which no script of a device has.
const BIT_7: u8 = 0x80;

/// Four bytes that say what a rule may ask of a record's script and variant: zeros where it has neither. `was_computed`
/// says that Android has looked for its script.
///
/// ```text
/// kept_script(*b"Latn", &[0; 8], false) // *b"Latn"
/// ```
#[tactic(auto, unfolding(crate::specs::KeptScript::kept_script))]
pub fn kept_script(script: [u8; 4], variant: &[u8], was_computed: bool) -> [u8; 4]
    ensures { result ≡ kept_script script variant.now was_computed }
{
    with_variant(!is_zero(variant), own_script(script, was_computed))
}

fn own_script(script: [u8; 4], was_computed: bool) -> [u8; 4]
    ensures value { result ≡ own_script script was_computed }
    ensures bit_7 { slice_index result 0 < 128 }
{
    if is_zero(&script) {
        return if was_computed { LOOKED_FOR } else { NONE };
    }
    let [first, _, _, _] = script;
    if first > 0 && first < BIT_7 {
        script
    } else {
        OTHER
    }
}

fn with_variant(has_variant: bool, script: [u8; 4]) -> [u8; 4]
    requires { slice_index script 0 < 128 }
    ensures { result ≡ with_variant has_variant script }
{
    let [first, b, c, d] = script;
    if has_variant {
        [first + BIT_7, b, c, d]
    } else {
        script
    }
}
