//! What the text of a configuration has of its locale.

ghost use Rattle.std.specs.Prelude.{◌≡◌, ◌≤◌, ◌++◌, [], codes, length, is_some, option_map, if◌then◌else◌, OnOk};
ghost use Rattle.std.specs.List.{list_all};
ghost use Rattle.contract_words.specs.Writes.{Writes};
ghost use Rattle.config_record.specs.Qualifiers.{locale_qualifier, bytes_qualifier};
ghost use Rattle.config_record.specs.Record.{record_bytes, locale_in, locale_script, locale_variant};
ghost use Rattle.config_record.specs.locales.Zero.{is_zero};
ghost use Rattle.config_record.specs.locales.Text.{written_script};
ghost use Rattle.config_record.specs.locales.Locale.{dash};
ghost use Rattle.notation.specs.Cut.{cut_at, behind_sign};
ghost use Rattle.notation.specs.Dashes.{WritesParts};
ghost use Rattle.notation.specs.LocaleParts.{is_language, is_script, variant_text, is_variant_letter, are_zeros, is_written_variant, is_variant, are_letters, is_other_word, script_behind, variant_behind, tag_text, letters_text, named_parts, parts_by_letters, locale_parts};

use crate::cut::cut_at;
use crate::separator::write_separator;
use crate::words::is_word;
use arrayvec::ArrayVec;
use config_record::{Coord, Locale, Record, write_locale};
use locales::{is_zero, write_hex};
use std::io::{self, Write};

/// The length of the longest text of a locale without a script: `x` and eight digits.
const LONGEST: usize = 9;

/// Writes the locale of a record with its script and its variant: in letters where these say all, else each by its name.
#[tactic(auto, unfolding(crate::specs::LocaleParts::locale_parts))]
pub(crate) fn write_locale_parts<W: Write + Drop>(
    config: &Record<'_>,
    due: &mut bool,
    out: &mut W,
) -> io::Result<()>
    ensures { OnOk result (WritesParts due.old due.new (W.contents out.old) (W.contents out.new)
        (locale_parts (locale_in (record_bytes config.now)) (locale_script (record_bytes config.now)) (locale_variant (record_bytes config.now)))) }
{
    let locale = config.locale();
    let mut text = ArrayVec::<u8, LONGEST>::new();
    write_locale(locale, &mut text)?;
    write_by_text(locale, &text, &config.script(), &config.variant(), due, out)
}

// The text is that of the locale.
#[tactic(auto, unfolding(config_record::specs::Separator::continued))]
fn write_by_text<W: Write + Drop>(
    locale: Locale,
    text: &[u8],
    script: &[u8],
    variant: &[u8],
    due: &mut bool,
    out: &mut W,
) -> io::Result<()>
    requires few { (length script.now ≤ 8) × (length variant.now ≤ 8) }
    ensures { OnOk result (WritesParts due.old due.new (W.contents out.old) (W.contents out.new)
        (parts_by_letters locale (cut_at dash text.now) script.now variant.now)) }
{
    let (language, region) = cut_at(b'-', text);
    if !are_letters(language, script, variant) {
        return write_named(locale, script, variant, due, out);
    }
    write_separator(b'-', due, out)?;
    write_letters(language, region, script, variant, out)
}

fn are_letters(language: &[u8], script: &[u8], variant: &[u8]) -> bool
    ensures { result ≡ are_letters language.now script.now variant.now }
{
    is_language(language) && is_script(script) && is_variant(variant)
}

fn is_language(text: &[u8]) -> bool
    ensures { result ≡ is_language text.now }
{
    text.len() == 2 || text.len() == 3
}

fn is_script(bytes: &[u8]) -> bool
    ensures { result ≡ is_script bytes.now }
{
    is_zero(bytes) || is_written_script(bytes)
}

fn is_variant(bytes: &[u8]) -> bool
    ensures { result ≡ is_variant bytes.now }
{
    is_zero(bytes) || is_written_variant(bytes)
}

// A capital and three small letters.
fn is_written_script(bytes: &[u8]) -> bool
    ensures { result ≡ is_some (written_script bytes.now) }
{
    match bytes {
        [a, b, c, d] => a.is_ascii_uppercase()
            && b.is_ascii_lowercase()
            && c.is_ascii_lowercase()
            && d.is_ascii_lowercase(),
        _ => false,
    }
}

fn is_written_variant(bytes: &[u8]) -> bool
    ensures { result ≡ is_written_variant bytes.now }
{
    let (text, zeros) = cut_at(0, bytes);
    text.len() >= 4 && are_variant_letters(text) && are_zeros(zeros)
}

fn are_zeros(bytes: Option<&[u8]>) -> bool
    ensures { result ≡ are_zeros (option_map (λ bytes. bytes.now) bytes.entry) }
{
    match bytes {
        Some(bytes) => is_zero(bytes),
        None => true,
    }
}

fn are_variant_letters(text: &[u8]) -> bool
    ensures { result ≡ list_all is_variant_letter text.now }
{
    text.iter()
        .all(|byte| byte.is_ascii_lowercase() || byte.is_ascii_digit())
}

fn variant_text(variant: &[u8]) -> &[u8]
    ensures { result.now ≡ variant_text variant.now }
{
    cut_at(0, variant).0
}

// `fr-rCA`, or with `b+`.
#[tactic(auto, unfolding(crate::specs::LocaleParts::letters_text))]
fn write_letters<W: Write + Drop>(
    language: &[u8],
    region: Option<&[u8]>,
    script: &[u8],
    variant: &[u8],
    out: &mut W,
) -> io::Result<()>
    ensures { Writes W.contents out.old out.new result
        (letters_text language.now (option_map (λ region. region.now) region.entry) script.now variant.now) }
{
    if is_zero(script) && is_zero(variant) && !is_word(language) {
        out.write_all(language)?;
        return write_behind(b"-r", region, out);
    }
    write_tag(language, region, script, variant, out)
}

fn write_tag<W: Write + Drop>(
    language: &[u8],
    region: Option<&[u8]>,
    script: &[u8],
    variant: &[u8],
    out: &mut W,
) -> io::Result<()>
    ensures { Writes W.contents out.old out.new result
        (tag_text language.now (option_map (λ region. region.now) region.entry) script.now variant.now) }
{
    out.write_all(b"b+")?;
    out.write_all(language)?;
    write_unless_zero(script, script, out)?;
    write_behind(b"+", region, out)?;
    write_unless_zero(variant, variant_text(variant), out)
}

/// Writes a text behind a sign, where there is one.
pub(crate) fn write_behind<W: Write + Drop>(
    sign: &[u8],
    text: Option<&[u8]>,
    out: &mut W,
) -> io::Result<()>
    ensures { Writes W.contents out.old out.new result (behind_sign sign.now (option_map (λ text. text.now) text.entry)) }
{
    let Some(text) = text else {
        return Ok(());
    };
    out.write_all(sign)?;
    out.write_all(text)
}

// Writes the text of bytes behind a plus, unless they are zero.
fn write_unless_zero<W: Write + Drop>(bytes: &[u8], text: &[u8], out: &mut W) -> io::Result<()>
    ensures { Writes W.contents out.old out.new result (if is_zero bytes.now then [] else codes "+" ++ text.now) }
{
    if is_zero(bytes) {
        return Ok(());
    }
    out.write_all(b"+")?;
    out.write_all(text)
}

// Each by its name.
fn write_named<W: Write + Drop>(
    locale: Locale,
    script: &[u8],
    variant: &[u8],
    due: &mut bool,
    out: &mut W,
) -> io::Result<()>
    requires few { (length script.now ≤ 8) × (length variant.now ≤ 8) }
    ensures { OnOk result (WritesParts due.old due.new (W.contents out.old) (W.contents out.new)
        (named_parts locale script.now variant.now)) }
{
    write_named_locale(locale, due, out)?;
    write_named_bytes("script", script, due, out)?;
    write_named_bytes("variant", variant, due, out)?;
    Ok(())
}

#[tactic(auto, unfolding(config_record::specs::Qualifiers::locale_qualifier, config_record::specs::Separator::continued))]
fn write_named_locale<W: Write + Drop>(
    locale: Locale,
    due: &mut bool,
    out: &mut W,
) -> io::Result<()>
    ensures { OnOk result (WritesParts due.old due.new (W.contents out.old) (W.contents out.new)
        (locale_qualifier locale)) }
{
    if is_zero(&locale.language) && is_zero(&locale.region) {
        return Ok(());
    }
    let name = Coord::Locale.name();
    write_separator(b'-', due, out)?;
    write!(out, "{name}=")?;
    write_locale(locale, out)
}

#[tactic(auto, unfolding(config_record::specs::Qualifiers::bytes_qualifier, config_record::specs::Separator::continued))]
fn write_named_bytes<W: Write + Drop>(
    name: &str,
    bytes: &[u8],
    due: &mut bool,
    out: &mut W,
) -> io::Result<()>
    requires { length bytes.now ≤ 8 }
    ensures { OnOk result (WritesParts due.old due.new (W.contents out.old) (W.contents out.new)
        (bytes_qualifier name.now bytes.now)) }
{
    if is_zero(bytes) {
        return Ok(());
    }
    write_separator(b'-', due, out)?;
    write!(out, "{name}=")?;
    write_hex(bytes, out)
}
