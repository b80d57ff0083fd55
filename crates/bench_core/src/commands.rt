// The word grammar.
ghost use Rattle.std.specs.Prelude.{◌≡◌, map, string_bytes, option_map};
ghost use Rattle.bench_core.specs.Requests.{command_over, is_file_word, request_of, request_seen, two_files};

use text_words::is_literal;

/// A command with its words.
#[derive(Clone, Copy)]
pub(crate) enum Command<'a> {
    /// Checks a certificate of a network.
    Check { net: &'a str, cert: &'a str },
    /// Runs a network over a recording.
    Run { net: &'a str, rec: &'a str },
}

/// The command that the words ask for. None: they are outside the grammar.
pub(crate) fn command_of(words: &[String]) -> Option<Command<'_>>
    ensures { option_map request_seen result ≡ request_of (map string_bytes words.now) }
{
    match words {
        [] => None,
        [command, rest @ ..] => match two_files(rest) {
            Some((net, other)) => command_over(command.as_bytes(), net, other),
            None => None,
        },
    }
}

// The command over a network and one file more, by its word.
fn command_over<'a>(word: &[u8], net: &'a str, other: &'a str) -> Option<Command<'a>>
    ensures { option_map request_seen result ≡ command_over word.now net.now other.now }
{
    if is_literal(word, b"check") {
        Some(Command::Check { net, cert: other })
    } else if is_literal(word, b"run") {
        Some(Command::Run { net, rec: other })
    } else {
        None
    }
}

// The two files of a command, from the words behind the first.
fn two_files(words: &[String]) -> Option<(&str, &str)>
    ensures { option_map (λ f. (f.0.now, f.1.now)) result ≡ two_files (map string_bytes words.now) }
{
    match words {
        [net, other] => {
            if is_file(net) && is_file(other) {
                Some((net, other))
            } else {
                None
            }
        }
        _ => None,
    }
}

// Whether the word may name a file: it isn't empty and doesn't begin with `-`.
fn is_file(word: &str) -> bool
    ensures { result ≡ is_file_word word.now }
{
    match word.as_bytes() {
        [] => false,
        [first, ..] => *first != b'-',
    }
}
