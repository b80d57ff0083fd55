// The program's one call.
ghost use Rattle.std.specs.Prelude.{◌≡◌, ℕ, List, ◌≤◌, ◌⊎◌, Contains, [], Some, None, OnOk};
ghost use Rattle.std.specs.Option.{ForSome};
ghost use Rattle.fx_io.specs.Whole.{IsReadOut};
ghost use Rattle.bench_core.specs.Calls.{WritesFront, sink_call, shelf_call};
ghost use Rattle.bench_core.specs.Requests.{request_of, request_seen, files_of, check_words, run_words, PrintsUnread};
ghost use Rattle.bench_core.specs.HowItEnds.{Ends, HasAnswerCause, HasEndingCause, WhereUnread};
ghost use Rattle.bench_core.specs.WholeAnswer.{answer_of, request_answer};
ghost use Rattle.bench_core.specs.Clauses.{KeepsToAnswer, IsSteady, HasReadText, HasWriteText, SaysFront, HasUsageText, Certifies, Runs};

use super::checking::check;
use super::commands::{Command, command_of};
use super::endings::{Ending, finish};
use super::running::run;
use super::word_list::Words;
use fx_io::{Shelf, Sink};
use std::alloc::Global;

/// Does what the words ask for, over these files and sinks, and gives the status: 0 where the work
/// is done, 1 where the words are outside the grammar, 2 where the shelf fails on a file, 3 where
/// the network is refused, 4 where a recording or one of its rows is, 5 where the certificate is,
/// 6 where it isn't accepted, 7 where `out` fails, 8 where memory runs out, 9 where a file is too
/// long. At each status but 0 it says one line on `err`.
pub fn bench<S: Shelf, O: Sink, E: Sink>(
    alloc: Global,
    words: &Words,
    shelf: &mut S,
    out: &mut O,
    err: &mut E,
) -> u8
    // Where the files are told, and it is none of 2, 7 and 8, the answer is exactly that of the
    // words and the files.
    ensures answered { ForSome (S.files shelf.old) (λ files.
        KeepsToAnswer (answer_of words.now files) (sink_call O.written O.faults out.old out.new)
        (sink_call E.written E.faults err.old err.new) result) }
    ensures front { ForSome (S.files shelf.old) (λ files. WritesFront
        (sink_call O.written O.faults out.old out.new) (answer_of words.now files).out) }
    ensures steady { ForSome (S.files shelf.old) (λ files. IsSteady (answer_of words.now files)
        (shelf_call S.faults S.failed shelf.old shelf.new)
        (sink_call O.written O.faults out.old out.new) result) }

    // The statuses that hang on the outside and on memory.
    ensures reached { ForSome (S.files shelf.old) (λ files. result ≡ 2 →
        Contains (answer_of words.now files).reads (S.failed shelf.new)) }
    ensures read { result ≡ 2 → HasReadText (request_of words.now)
        (shelf_call S.faults S.failed shelf.old shelf.new)
        (sink_call E.written E.faults err.old err.new) }
    ensures unread { result ≡ 2 →
        PrintsUnread (request_of words.now) (sink_call O.written O.faults out.old out.new) }
    ensures write { result ≡ 7 → HasWriteText (sink_call O.written O.faults out.old out.new)
        (sink_call E.written E.faults err.old err.new) }
    ensures memory { ForSome (S.files shelf.old) (λ files. result ≡ 8 →
        SaysFront (answer_of words.now files) (shelf_call S.faults S.failed shelf.old shelf.new)
        (sink_call O.written O.faults out.old out.new)
        (sink_call E.written E.faults err.old err.new)) }

    // Where the work is done, the last file was read to its end.
    ensures read_out { ForSome (S.files shelf.old) (λ files. result ≡ 0 →
        S.left shelf.new ≡ Some []) }

    // The words, also where nothing is told.
    ensures usage { result ≡ 1 → HasUsageText (request_of words.now)
        (sink_call O.written O.faults out.old out.new)
        (sink_call E.written E.faults err.old err.new) }
    ensures outside { request_of words.now ≡ None → (result ≡ 1) ⊎ (result ≡ 8) }
    ensures bounded { result ≤ 12 }

    // An accepted certificate holds for every recording.
    ensures accepted { ForSome (S.files shelf.old) (λ files. result ≡ 0 →
        (net cert : List ℕ) → words.now ≡ check_words net cert →
        Certifies files net cert (sink_call O.written O.faults out.old out.new)) }

    // A printed run is the network's meaning, row by row.
    ensures ran { ForSome (S.files shelf.old) (λ files. result ≡ 0 →
        (net rec : List ℕ) → words.now ≡ run_words net rec →
        Runs files net rec (sink_call O.written O.faults out.old out.new)) }
{
    let ending = answer(alloc, words, shelf, out);
    finish(&ending, err)
}

// Does what the words ask for, and says nothing.
#[tactic(auto, using(crate::proofs::ClauseLaws::cause_of_command), unfolding(crate::specs::WholeAnswer::answer_of))]
fn answer<S: Shelf, O: Sink>(
    alloc: Global,
    words: &Words,
    shelf: &mut S,
    out: &mut O,
) -> Result<(), Ending>
    ensures told { ForSome (S.files shelf.old)
        (λ files. Ends (answer_of words.now files) (S.failed shelf.new)
        (sink_call O.written O.faults out.old out.new) result) }
    ensures cause { HasAnswerCause (request_of words.now)
        (shelf_call S.faults S.failed shelf.old shelf.new)
        (sink_call O.written O.faults out.old out.new) result }
    ensures unread { WhereUnread result
        (PrintsUnread (request_of words.now) (sink_call O.written O.faults out.old out.new)) }
    ensures finished { OnOk result (IsReadOut (S.files shelf.old) (S.left shelf.new)) }
{
    match command_of(words.as_slice()) {
        Some(command) => perform(alloc, command, shelf, out),
        None => Err(Ending::Usage),
    }
}

// Does what a command asks for.
fn perform<S: Shelf, O: Sink>(
    alloc: Global,
    command: Command<'_>,
    shelf: &mut S,
    out: &mut O,
) -> Result<(), Ending>
    ensures told { ForSome (S.files shelf.old)
        (λ files. Ends (request_answer files (request_seen command.entry)) (S.failed shelf.new)
        (sink_call O.written O.faults out.old out.new) result) }
    ensures cause { HasEndingCause (files_of (request_seen command.entry))
        (shelf_call S.faults S.failed shelf.old shelf.new)
        (sink_call O.written O.faults out.old out.new) result }
    ensures unread { WhereUnread result (PrintsUnread (Some (request_seen command.entry))
        (sink_call O.written O.faults out.old out.new)) }
    ensures finished { OnOk result (IsReadOut (S.files shelf.old) (S.left shelf.new)) }
{
    match command {
        Command::Check { net, cert } => check(alloc, net, cert, shelf, out),
        Command::Run { net, rec } => run(alloc, net, rec, shelf, out),
    }
}
