//! Texts that are cut at a byte, and texts with something in front or behind.

ghost use Rattle.std.specs.Prelude.{◌≡◌, ◌==◌, option_map, position};
ghost use Rattle.notation.specs.Cut.{cut_at, behind, before};

/// What stands before the first such byte, and what behind it, if it is there.
pub(crate) fn cut_at(byte: u8, text: &[u8]) -> (&[u8], Option<&[u8]>)
    ensures before { result.0.now ≡ (cut_at byte text.now).0 }
    ensures behind { option_map (λ text. text.now) result.1 ≡ (cut_at byte text.now).1 }
{
    match first_place(byte, text) {
        Some(place) => (&text[..place], Some(&text[place + 1..])),
        None => (text, None),
    }
}

fn first_place(byte: u8, text: &[u8]) -> Option<usize>
    ensures { result ≡ position (λ b. b == byte) text.now }
{
    text.iter().position(|b| *b == byte)
}

/// What stands behind this front.
pub(crate) fn behind<'a>(front: &[u8], text: &'a [u8]) -> Option<&'a [u8]>
    ensures { option_map (λ text. text.now) result ≡ behind front.now text.now }
{
    text.strip_prefix(front)
}

/// What stands before this end.
pub(crate) fn before<'a>(end: &[u8], text: &'a [u8]) -> Option<&'a [u8]>
    ensures { option_map (λ text. text.now) result ≡ before end.now text.now }
{
    text.strip_suffix(end)
}
