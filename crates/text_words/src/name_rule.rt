// Which words may name a wire, a part or a field.
ghost use Rattle.std.specs.Prelude.{◌≡◌};
ghost use Rattle.std.specs.List.{list_all};
ghost use Rattle.text_words.specs.Names.{begins_name, continues_name, is_name};

// In bytes.
const LONGEST_NAME: usize = 32;

/// Whether the word is a name: 1 to 32 bytes, of which the first is a letter (A to Z, a to z) or an underscore, and
/// each other one a letter, a digit or an underscore.
#[tactic(auto, unfolding(crate::specs::Names::is_name))]
pub fn is_name(word: &[u8]) -> bool
    ensures { result ≡ is_name word.now }
{
    match word {
        [] => false,
        [first, rest @ ..] => word.len() <= LONGEST_NAME
            && begins_name(*first)
            && all_continue_name(rest),
    }
}

fn all_continue_name(bytes: &[u8]) -> bool
    ensures { result ≡ list_all continues_name bytes.now }
{
    bytes.iter().all(|byte| continues_name(*byte))
}

fn begins_name(byte: u8) -> bool
    ensures { result ≡ begins_name byte }
{
    byte.is_ascii_alphabetic() || byte == b'_'
}

fn continues_name(byte: u8) -> bool
    ensures { result ≡ continues_name byte }
{
    begins_name(byte) || byte.is_ascii_digit()
}
