// Cuts a text into its lines, one at a time, with nothing copied.
ghost use Rattle.std.specs.Prelude.{◌≡◌, ◌<◌, ◌≤◌, ◌∷◌, [], drop, length, not, MatchOption, IfSome};
ghost use Rattle.std.specs.List.{prefix_len};
ghost use Rattle.std.specs.Str.Lines.{strip_carriage_return};
ghost use Rattle.text_words.specs.Lines.{is_line_feed, lines_from, lines_of, without_mark};

use memchr::memchr;

/// The text without the byte-order mark that some editors put at its very start. Call it once, and then `next_line`.
#[tactic(auto, unfolding(crate::specs::Lines::lines_of))]
pub fn without_mark(text: &[u8]) -> &[u8]
    ensures value { result.now ≡ without_mark text.now }
    ensures lines { lines_from result.now ≡ lines_of text.now }
{
    if text.starts_with(b"\xEF\xBB\xBF") {
        &text[3..]
    } else {
        text
    }
}

/// The next line of what is left of a text, without its line feed and one carriage return before that, and what is
/// left after it. `None` where nothing is left.
#[tactic(auto, using(crate::proofs::Cuts::line_steps))]
#[inline(always)]
pub fn next_line(rest: &[u8]) -> Option<(&[u8], &[u8])>
    ensures lines { MatchOption result (lines_from rest.now ≡ [])
        (λ cut. lines_from rest.now ≡ cut.0.now ∷ lines_from cut.1.now) }
    ensures shorter { IfSome result (λ cut. length cut.1.now < length rest.now) }
{
    if rest.is_empty() {
        return None;
    }
    let (line, from_feed) = rest.split_at(line_len(rest));
    Some((without_return(line), tail(from_feed)))
}

// How many bytes stand before the first line feed.
#[tactic(auto, using(crate::proofs::Feeds::line_len_found, crate::proofs::Feeds::line_len_whole))]
fn line_len(bytes: &[u8]) -> usize
    ensures value { result ≡ prefix_len (λ byte. not (is_line_feed byte)) bytes.now }
    ensures within { result ≤ length bytes.now }
{
    match memchr(b'\n', bytes) {
        Some(place) => place,
        None => bytes.len(),
    }
}

// All bytes but the first, if there is one.
fn tail(bytes: &[u8]) -> &[u8]
    ensures { result.now ≡ drop 1 bytes.now }
{
    match bytes {
        [_, rest @ ..] => rest,
        [] => bytes,
    }
}

// The line without one carriage return at its end.
fn without_return(line: &[u8]) -> &[u8]
    ensures { result.now ≡ strip_carriage_return line.now }
{
    match line {
        [front @ .., b'\r'] => front,
        _ => line,
    }
}
