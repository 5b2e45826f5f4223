//! Digits.

ghost use Rattle.std.specs.Prelude.{◌≡◌};
ghost use Rattle.kan_grammar.specs.Data.Words.{all_digits};

/// Whether all bytes are digits.
pub fn all_digits(bytes: &[u8]) -> bool
    ensures { result ≡ all_digits bytes.now }
{
    bytes.iter().all(|byte| byte.is_ascii_digit())
}
