// Picks words out of a line, with nothing copied.
ghost use Rattle.std.specs.Prelude.{◌≡◌, length};
ghost use Rattle.text_words.specs.Lines.{nth, words_of};

use crate::word_cutter::next_word;

/// Word number `k` of a line, from 0, or no bytes behind the last one.
pub fn word_at(line: &[u8], k: usize) -> &[u8]
    ensures { result.now ≡ nth (words_of line.now) k }
{
    match next_word(line) {
        None => b"",
        Some((word, rest)) => { if k == 0 { word } else { word_at(rest, k - 1) } }
    }
}

/// How many words a line has.
pub fn count_words(line: &[u8]) -> usize
    ensures { result ≡ length (words_of line.now) }
{
    let mut left = line;
    let mut count = 0;
    while let Some((_, rest)) = next_word(left) {
        count += 1;
        left = rest;
    }
    count
}
