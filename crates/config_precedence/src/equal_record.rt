//! Whether two records are equal: in all their fields but the size, with the bits and the byte in
//! which no coordinate stands.

ghost use Rattle.std.specs.Prelude.{◌≡◌};
ghost use Rattle.config_match.specs.config_record.Record.{record_bytes};
ghost use Rattle.config_precedence.specs.EqualRecord.{same_operator, same_locale, same_screen_type, same_input, same_screen_size, same_version, same_screen_config, same_screen_size_dp, is_same};

use config_match::Record;

/// Whether two records are equal (AOSP: `ResTable_config::compare` is 0). A row of an overlay takes the place of one
/// with an equal record.
#[tactic(auto, unfolding(crate::specs::EqualRecord::is_same))]
pub fn same(a: &Record, b: &Record) -> bool
    ensures { result ≡ is_same (record_bytes a.now) (record_bytes b.now) }
{
    same_operator(a, b)
        && same_locale(a, b)
        && same_screen_type(a, b)
        && same_input(a, b)
        && same_screen_size(a, b)
        && same_version(a, b)
        && same_screen_config(a, b)
        && same_screen_size_dp(a, b)
}

fn same_operator(a: &Record, b: &Record) -> bool
    ensures { result ≡ same_operator (record_bytes a.now) (record_bytes b.now) }
{
    a.mcc() == b.mcc() && a.mnc() == b.mnc()
}

fn same_locale(a: &Record, b: &Record) -> bool
    ensures { result ≡ same_locale (record_bytes a.now) (record_bytes b.now) }
{
    a.language() == b.language()
        && a.country() == b.country()
        && a.script() == b.script()
        && a.variant() == b.variant()
}

fn same_screen_type(a: &Record, b: &Record) -> bool
    ensures { result ≡ same_screen_type (record_bytes a.now) (record_bytes b.now) }
{
    a.orientation() == b.orientation()
        && a.touchscreen() == b.touchscreen()
        && a.density() == b.density()
}

fn same_input(a: &Record, b: &Record) -> bool
    ensures { result ≡ same_input (record_bytes a.now) (record_bytes b.now) }
{
    a.keyboard() == b.keyboard()
        && a.navigation() == b.navigation()
        && a.input_flags() == b.input_flags()
        && a.input_pad() == b.input_pad()
}

fn same_screen_size(a: &Record, b: &Record) -> bool
    ensures { result ≡ same_screen_size (record_bytes a.now) (record_bytes b.now) }
{
    a.screen_width() == b.screen_width() && a.screen_height() == b.screen_height()
}

fn same_version(a: &Record, b: &Record) -> bool
    ensures { result ≡ same_version (record_bytes a.now) (record_bytes b.now) }
{
    a.sdk_version() == b.sdk_version() && a.minor_version() == b.minor_version()
}

fn same_screen_config(a: &Record, b: &Record) -> bool
    ensures { result ≡ same_screen_config (record_bytes a.now) (record_bytes b.now) }
{
    a.screen_layout() == b.screen_layout()
        && a.screen_layout2() == b.screen_layout2()
        && a.color_mode() == b.color_mode()
        && a.ui_mode() == b.ui_mode()
}

fn same_screen_size_dp(a: &Record, b: &Record) -> bool
    ensures { result ≡ same_screen_size_dp (record_bytes a.now) (record_bytes b.now) }
{
    a.smallest_screen_width_dp() == b.smallest_screen_width_dp()
        && a.screen_width_dp() == b.screen_width_dp()
        && a.screen_height_dp() == b.screen_height_dp()
}
