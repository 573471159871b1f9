//! The parts of a name.

ghost use Rattle.std.specs.Prelude.{◌≡◌};
ghost use Rattle.std.specs.List.{list_any, before_first, after_first};
ghost use Rattle.std.specs.Option.{option_map};
ghost use Rattle.names.specs.Named.{behind_sign, is_colon, is_slash, is_of_no_name, is_part};

/// Stands between the type and the entry of a name.
const SLASH: char = '/';

/// Begins a name as XML has it, and a word that names a file.
const AT_SIGN: char = '@';

/// What stands behind the `@` that a word begins with.
pub(crate) fn behind_sign(word: &str) -> Option<&str>
    ensures { option_map (λ text. text.now) result ≡ behind_sign word.now }
{
    word.strip_prefix(AT_SIGN)
}

/// What stands before the first `/`, and what stands behind it; all and nothing where there is none.
pub(crate) fn parts_at_slash(word: &str) -> (&str, &str)
    ensures before { result.0.now ≡ before_first is_slash word.now }
    ensures behind { result.1.now ≡ after_first is_slash word.now }
{
    match word.split_once(SLASH) {
        Some(parts) => parts,
        None => (word, ""),
    }
}

/// Whether there is a `/`, which parts a type and an entry.
pub(crate) fn has_slash(text: &str) -> bool
    ensures { result ≡ list_any is_slash text.now }
{
    text.as_bytes().contains(&b'/')
}

/// Whether there is a `:`, which parts a package and a type.
pub(crate) fn has_colon(text: &str) -> bool
    ensures { result ≡ list_any is_colon text.now }
{
    text.as_bytes().contains(&b':')
}

/// Whether a text can be a part of a name: it is not empty and has no `*`, `,` or `@`.
pub(crate) fn is_part(text: &str) -> bool
    ensures { result ≡ is_part text.now }
{
    !text.is_empty() && !has_byte_of_no_name(text.as_bytes())
}

fn has_byte_of_no_name(text: &[u8]) -> bool
    ensures { result ≡ list_any is_of_no_name text.now }
{
    'bytes: for byte in text {
        if is_of_no_name(*byte) {
            return true;
        }
    }
    false
}

fn is_of_no_name(byte: u8) -> bool
    ensures { result ≡ is_of_no_name byte }
{
    byte == b'*' || byte == b',' || byte == b'@'
}
