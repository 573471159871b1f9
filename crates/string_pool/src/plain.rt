//! Texts that stand for themselves.

ghost use Rattle.std.specs.Prelude.{◌≡◌, IsTrue};
ghost use Rattle.std.specs.List.{list_all};
ghost use Rattle.string_pool.specs.Escapes.{is_plain_byte, is_unescaped};
ghost use Rattle.string_pool.specs.Shown.{bytes_text};

use simdutf8::is_utf8;

const FIRST_PLAIN: u8 = b' ';

const DELETE: u8 = 0x7f;

/// Whether bytes are known to be shown as they stand: UTF-8 in which no character takes an escape. ASCII is
/// tried first, since it needs no second look.
#[tactic(auto, using(crate::proofs::PlainTexts::plain_texts))]
pub(crate) fn is_plain_text(bytes: &[u8]) -> bool
    ensures { IsTrue result → bytes_text bytes.now ≡ bytes.now }
{
    are_plain(bytes) || (has_no_escape(bytes) && is_utf8(bytes))
}

// Whether all bytes are characters of ASCII that stand for themselves. No early exit, so that many bytes are
// looked at in one step.
fn are_plain(bytes: &[u8]) -> bool
    ensures { result ≡ list_all is_plain_byte bytes.now }
{
    let mut plain = true;
    for &byte in bytes {
        plain &= is_plain_ascii(byte);
    }
    plain
}

// Whether no byte is a character of ASCII that takes an escape, in the same way.
fn has_no_escape(bytes: &[u8]) -> bool
    ensures { result ≡ list_all is_unescaped bytes.now }
{
    let mut unescaped = true;
    for &byte in bytes {
        unescaped &= is_unescaped(byte);
    }
    unescaped
}

/// Whether a byte is a character of ASCII that is shown as itself.
pub(crate) fn is_plain_ascii(byte: u8) -> bool
    ensures { result ≡ is_plain_byte byte }
{
    is_unescaped(byte) & (byte < DELETE)
}

// Whether a byte is no character that takes an escape.
fn is_unescaped(byte: u8) -> bool
    ensures { result ≡ is_unescaped byte }
{
    (byte >= FIRST_PLAIN) & (byte != DELETE) & (byte != b'"') & (byte != b'\\')
}
