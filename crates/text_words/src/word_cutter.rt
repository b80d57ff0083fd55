// Cuts a line into its words, one at a time, with nothing copied.
ghost use Rattle.std.specs.Prelude.{◌≡◌, ◌<◌, ◌≤◌, ◌∷◌, [], length, not, MatchOption, IfSome};
ghost use Rattle.std.specs.List.{prefix_len};
ghost use Rattle.text_words.specs.Lines.{is_space_or_tab, words_of};

/// The next word of what is left of a line, and what is left after it. `None` where only spaces, tabs or a
/// comment are left: a word that begins with `#`, and all after it.
#[tactic(auto, using(crate::proofs::Cuts::word_steps))]
pub fn next_word(line: &[u8]) -> Option<(&[u8], &[u8])>
    ensures words { MatchOption result (words_of line.now ≡ [])
        (λ cut. words_of line.now ≡ cut.0.now ∷ words_of cut.1.now) }
    ensures shorter { IfSome result (λ cut. length cut.1.now < length line.now) }
{
    let (_, from_word) = line.split_at(spaces_before(line));
    if from_word.is_empty() || from_word[0] == b'#' {
        return None;
    }
    let (word, rest) = from_word.split_at(word_len(from_word));
    Some((word, rest))
}

// How many spaces and tabs stand at the front.
fn spaces_before(bytes: &[u8]) -> usize
    ensures value { result ≡ prefix_len is_space_or_tab bytes.now }
    ensures within { result ≤ length bytes.now }
{
    bytes
        .iter()
        .take_while(|byte| is_space_or_tab(**byte))
        .count()
}

// How many bytes stand before the first space or tab.
fn word_len(bytes: &[u8]) -> usize
    ensures value { result ≡ prefix_len (λ byte. not (is_space_or_tab byte)) bytes.now }
    ensures within { result ≤ length bytes.now }
{
    bytes
        .iter()
        .take_while(|byte| !is_space_or_tab(**byte))
        .count()
}

/// Whether the byte stands between words.
#[inline(always)]
pub fn is_space_or_tab(byte: u8) -> bool
    ensures { result ≡ is_space_or_tab byte }
{
    byte == b' ' || byte == b'\t'
}
