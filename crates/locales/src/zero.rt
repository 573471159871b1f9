//! Bytes that say nothing.

ghost use Rattle.std.specs.Prelude.{◌≡◌};
ghost use Rattle.locales.specs.Zero.{is_zero};

pub fn is_zero(bytes: &[u8]) -> bool
    ensures { result ≡ is_zero bytes.now }
{
    bytes.iter().all(|byte| *byte == 0)
}
