//! Locales, read from texts and written as texts.

ghost use Rattle.std.specs.Prelude.{◌≡◌, ◌≢◌, ℕ, ◌<◌, ◌≤◌, ◌+◌, ◌==◌, ◌++◌, List, Ok, codes, position, OnOk, IfOk, IfErr};
ghost use Rattle.hex.specs.Hex.{encode_lower};
ghost use Rattle.contract_words.specs.Writes.{Writes};
ghost use Rattle.locales.specs.Locale.{dash, is_small_letter, is_capital_letter, is_digit, packed, language_of, region_of, without_region, with_region, locale_of, without_script, symbol_bytes, unpacked, is_spelled, checked_locale, language_text, region_text, plain_text};
ghost use Rattle.locales.specs.LocaleNumber.{locale_number, locale_of_number};

use crate::zero::is_zero;
use chunk_walk::write_hex;
use std::fmt::{self, Debug, Display, Formatter};
use std::io::{self, Write};
use thiserror::Error;

/// Why a text is no locale.
#[derive(Clone, Copy, Error)]
pub enum LocaleFault {
    /// A dash and a region, without a language.
    #[error("RegionAlone")]
    RegionAlone,
    /// Any other text.
    #[error("Malformed")]
    Malformed,
}

/// By its text.
impl Debug for LocaleFault {
    fn fmt<W: fmt::Write>(&self, f: &mut Formatter<W>) -> fmt::Result {
        Display::fmt(self, f)
    }
}

/// A language, a region and a script, each as the bytes that a record has (AOSP: `language`, `country` and
/// `localeScript` of `ResTable_config`). Where all bytes are zero there is none.
#[derive(Clone, Copy)]
pub struct Locale {
    pub language: [u8; 2],
    pub region: [u8; 2],
    /// Zeros where it is compared by language and region alone, as each is that this crate reads.
    pub script: [u8; 4],
}

const NO_PART: [u8; 2] = [0, 0];

const NO_SCRIPT: [u8; 4] = [0; 4];

/// Bit 7 of the first byte says that the two bytes hold three letters or digits, of five bits each.
const PACKED: u8 = 0x80;

const SYMBOL_BITS: u32 = 5;

const SYMBOL_MASK: u8 = 0x1f;

// Of the second of the three, the upper two bits stand in the first byte, the lower three in the second.
const UPPER_BITS: u32 = 2;

const UPPER_MASK: u8 = 0x03;

const LOWER_BITS: u32 = 3;

const LOWER_MASK: u8 = 0x07;

impl Locale {
    /// No language and no region.
    pub const NONE: Locale = Locale {
        language: NO_PART,
        region: NO_PART,
        script: NO_SCRIPT,
    };

    /// A language and a region.
    pub fn without_script(language: [u8; 2], region: [u8; 2]) -> Locale
        ensures { result ≡ without_script language region }
    {
        Locale {
            language,
            region,
            script: NO_SCRIPT,
        }
    }

    /// The locale of a text: of `""`, of two or three small letters, or of these, a dash, and two
    /// capital letters or three digits.
    #[tactic(auto, using(crate::proofs::LocaleLemmas::printed_back))]
    pub fn read(text: &str) -> Result<Locale, LocaleFault>
        ensures value { result ≡ locale_of text.now }
        ensures printed_back { IfOk result (λ locale. plain_text locale ≡ text.now) }
    {
        locale_of(text.as_bytes())
    }

    /// The same locale, where a text gives it.
    #[tactic(auto, unfolding(crate::specs::Locale::checked_locale))]
    pub fn checked(self) -> Result<Locale, LocaleFault>
        ensures value { result ≡ checked_locale self }
        ensures given { IfOk result (λ locale. locale_of (plain_text locale) ≡ Ok locale) }
        ensures not_given { IfErr result (λ _. (text : List ℕ) → locale_of text ≢ Ok self) }
        ensures numbered { IfOk result (λ locale. locale_of_number (locale_number locale) ≡ locale) }
    {
        if !is_zero(&self.script) {
            return Err(LocaleFault::Malformed);
        }
        if !is_spelled(self) {
            return Err(LocaleFault::Malformed);
        }
        if is_zero(&self.language) && !is_zero(&self.region) {
            Err(LocaleFault::RegionAlone)
        } else {
            Ok(self)
        }
    }

    /// The number of the eight bytes, language first.
    #[tactic(auto, unfolding(crate::specs::LocaleNumber::locale_number))]
    pub fn number(self) -> u64
        ensures value { result ≡ locale_number self }
        ensures back { locale_of_number result ≡ self }
    {
        let Locale {
            language: [a, b],
            region: [c, d],
            script: [e, f, g, h],
        } = self;
        u64::from_be_bytes([a, b, c, d, e, f, g, h])
    }

    /// The locale that has this number.
    #[tactic(auto, unfolding(crate::specs::LocaleNumber::locale_of_number))]
    pub fn of_number(number: u64) -> Locale
        ensures value { result ≡ locale_of_number number }
        ensures back { locale_number result ≡ number }
    {
        let [a, b, c, d, e, f, g, h] = number.to_be_bytes();
        Locale {
            language: [a, b],
            region: [c, d],
            script: [e, f, g, h],
        }
    }
}

// ---- from a text

fn locale_of(text: &[u8]) -> Result<Locale, LocaleFault>
    ensures { result ≡ locale_of text.now }
{
    match first_dash(text) {
        Some(place) => with_region(&text[..place], &text[place + 1..]),
        None => without_region(text),
    }
}

fn first_dash(text: &[u8]) -> Option<usize>
    ensures { result ≡ position (λ b. b == dash) text.now }
{
    text.iter().position(|byte| *byte == b'-')
}

fn without_region(text: &[u8]) -> Result<Locale, LocaleFault>
    ensures { result ≡ without_region text.now }
{
    if text.is_empty() {
        return Ok(Locale::NONE);
    }
    match language(text) {
        Some(language) => Ok(Locale::without_script(language, NO_PART)),
        None => Err(LocaleFault::Malformed),
    }
}

fn with_region(before: &[u8], after: &[u8]) -> Result<Locale, LocaleFault>
    ensures { result ≡ with_region before.now after.now }
{
    let Some(region) = region(after) else {
        return Err(LocaleFault::Malformed);
    };
    if before.is_empty() {
        return Err(LocaleFault::RegionAlone);
    }
    match language(before) {
        Some(language) => Ok(Locale::without_script(language, region)),
        None => Err(LocaleFault::Malformed),
    }
}

fn language(text: &[u8]) -> Option<[u8; 2]>
    ensures { result ≡ language_of text.now }
{
    match text {
        [a, b] if is_small_letter(*a) && is_small_letter(*b) => Some([*a, *b]),
        [a, b, c] if is_small_letter(*a) && is_small_letter(*b) && is_small_letter(*c) => {
            Some(packed(b'a', *a, *b, *c))
        }
        _ => None,
    }
}

fn region(text: &[u8]) -> Option<[u8; 2]>
    ensures { result ≡ region_of text.now }
{
    match text {
        [a, b] if is_capital_letter(*a) && is_capital_letter(*b) => Some([*a, *b]),
        [a, b, c] if is_digit(*a) && is_digit(*b) && is_digit(*c) => {
            Some(packed(b'0', *a, *b, *c))
        }
        _ => None,
    }
}

fn is_small_letter(byte: u8) -> bool
    ensures { result ≡ is_small_letter byte }
{
    byte >= b'a' && byte <= b'z'
}

fn is_capital_letter(byte: u8) -> bool
    ensures { result ≡ is_capital_letter byte }
{
    byte >= b'A' && byte <= b'Z'
}

fn is_digit(byte: u8) -> bool
    ensures { result ≡ is_digit byte }
{
    byte >= b'0' && byte <= b'9'
}

// Three letters or digits, counted from the first of their kind (AOSP: `packLanguageOrRegion`).
fn packed(base: u8, first: u8, second: u8, third: u8) -> [u8; 2]
    requires low { (base ≤ first) × (base ≤ second) × (base ≤ third) }
    requires near { (first < base + 32) × (second < base + 32) × (third < base + 32) }
    ensures { result ≡ packed base first second third }
{
    let (a, b, c) = (first - base, second - base, third - base);
    [
        PACKED + (c << UPPER_BITS) + (b >> LOWER_BITS),
        ((b & LOWER_MASK) << SYMBOL_BITS) + a,
    ]
}

impl Locale {
    ghost use Rattle.std.specs.Prelude.{option_map};
    ghost use Rattle.locales.specs.Locale.{locale_of_parts};

    /// The locale of a language and a region that stand apart, each as a text has them. For callers whose
    /// texts have another sign than a dash between the two.
    ///
    /// ```text
    /// let locale = Locale::of_parts(b"fr", Some(b"CA"))?; // that of fr-CA
    /// ```
    pub fn of_parts(language: &[u8], region: Option<&[u8]>) -> Result<Locale, LocaleFault>
        ensures { result ≡ locale_of_parts language.now (option_map (λ region. region.now) region.entry) }
    {
        match region {
            Some(region) => with_region(language, region),
            None => without_region(language),
        }
    }
}

// ---- as a text

/// The letters or digits of a language or a region.
#[derive(Clone, Copy)]
enum Symbols {
    Two([u8; 2]),
    Three([u8; 3]),
}

impl Symbols {
    fn as_slice(&self) -> &[u8]
        ensures { result.now ≡ symbol_bytes self.now }
    {
        match self {
            Symbols::Two(bytes) => bytes,
            Symbols::Three(bytes) => bytes,
        }
    }
}

/// Writes the text of a locale: the one that it is read from, a region alone after its dash, or,
/// where a part is not what a text gives, `x` and the eight digits of the four bytes. For callers that
/// show a locale by itself; `write_qualifiers` shows it with all others.
///
/// ```text
/// write_plain_locale(record.locale(), &mut out)?; // fr-CA
/// ```
#[tactic(auto, unfolding(crate::specs::Locale::plain_text))]
pub fn write_plain_locale<W: Write + Drop>(locale: Locale, out: &mut W) -> io::Result<()>
    ensures { Writes W.contents out.old out.new result (plain_text locale) }
{
    if !is_spelled(locale) {
        return write_bytes(locale, out);
    }
    write_language(locale.language, out)?;
    write_region(locale.region, out)
}

fn write_bytes<W: Write + Drop>(locale: Locale, out: &mut W) -> io::Result<()>
    ensures { Writes W.contents out.old out.new result (codes "x" ++ encode_lower locale.language ++ encode_lower locale.region) }
{
    out.write_all(b"x")?;
    write_hex(&locale.language, out)?;
    write_hex(&locale.region, out)
}

fn write_language<W: Write + Drop>(language: [u8; 2], out: &mut W) -> io::Result<()>
    ensures { Writes W.contents out.old out.new result (language_text language) }
{
    if is_zero(&language) {
        return Ok(());
    }
    out.write_all(unpacked(b'a', language).as_slice())
}

fn write_region<W: Write + Drop>(region: [u8; 2], out: &mut W) -> io::Result<()>
    ensures { Writes W.contents out.old out.new result (region_text region) }
{
    if is_zero(&region) {
        return Ok(());
    }
    out.write_all(b"-")?;
    out.write_all(unpacked(b'0', region).as_slice())
}

fn is_spelled(locale: Locale) -> bool
    ensures { result ≡ is_spelled locale }
{
    let Locale {
        language,
        region,
        ..
    } = locale;
    (is_zero(&language) || self::language(unpacked(b'a', language).as_slice()).is_some())
        && (is_zero(&region) || self::region(unpacked(b'0', region).as_slice()).is_some())
}

// Three letters or digits are counted from the first of their kind (AOSP: `unpackLanguageOrRegion`).
fn unpacked(base: u8, part: [u8; 2]) -> Symbols
    requires { base < 128 }
    ensures { symbol_bytes result ≡ unpacked base part }
{
    let [high, low] = part;
    if high < PACKED {
        return Symbols::Two(part);
    }
    Symbols::Three([
        base + (low & SYMBOL_MASK),
        base + ((low >> SYMBOL_BITS) + ((high & UPPER_MASK) << LOWER_BITS)),
        base + (high >> UPPER_BITS & SYMBOL_MASK),
    ])
}
