// Compares words with literals.
ghost use Rattle.std.specs.Prelude.{◌≡◌, bytes_eq};

/// Whether the word is the literal. It says what `==` says, in one plain call.
pub fn is_literal(word: &[u8], literal: &[u8]) -> bool
    ensures { result ≡ bytes_eq word.now literal.now }
{
    word == literal
}
