// Finds the head of a text that is read line by line.
ghost use Rattle.std.specs.Prelude.{◌≡◌, ◌+◌, ◌<◌, ◌≤◌, ◌^◌, length, Ok, Err, IfOk, MatchResult};
ghost use Rattle.text_words.specs.Lines.{lines_from, lines_of, words_of};
ghost use Rattle.text_words.specs.Readers.{head_below, is_head};

use crate::line_cutter::{next_line, without_mark};
use crate::line_words::{count_words, word_at};
use crate::literal::is_literal;

/// The line of a text's head, from 1, and what is left below it, or the line in its place.
#[tactic(auto, using(crate::proofs::ReaderSteps::head_steps))]
pub fn behind_head<'a>(keyword: &[u8], text: &'a [u8]) -> Result<(u32, &'a [u8]), u32>
    requires { length text.now < 2 ^ 32 }
    ensures found { MatchResult result
        (λ cut. head_below keyword.now 0 (lines_of text.now) ≡ Ok (record { line = cut.0; below = lines_from cut.1.now }))
        (λ line. head_below keyword.now 0 (lines_of text.now) ≡ Err line) }
    ensures fewer { IfOk result (λ cut. cut.0 + length cut.1.now ≤ length text.now) }
{
    let mut above = 0;
    let mut rest = without_mark(text);
    while let Some((line, below)) = next_line(rest) {
        above += 1;
        if count_words(line) > 0 {
            return if is_head(keyword, line) {
                Ok((above, below))
            } else {
                Err(above)
            };
        }
        rest = below;
    }
    Err(1)
}

fn is_head(keyword: &[u8], line: &[u8]) -> bool
    ensures { result ≡ is_head keyword.now (words_of line.now) }
{
    is_literal(word_at(line, 0), keyword)
        && is_literal(word_at(line, 1), b"1")
        && count_words(line) == 2
}
