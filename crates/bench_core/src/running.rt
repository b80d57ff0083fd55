// The command `run NET REC`.
ghost use Rattle.std.specs.Prelude.{◌≡◌, ◌≤◌, ◌^◌, ◌∷◌, [], ℕ, List, IfOk, OnOk};
ghost use Rattle.std.specs.Option.{ForSome};
ghost use Rattle.fx_io.specs.Whole.{IsReadOut};
ghost use Rattle.text_words.specs.Lines.{lines_from, lines_of};
ghost use Rattle.net_eval.specs.After.{IsAfter};
ghost use Rattle.rec_csv.specs.Recordings.{bad_row};
ghost use Rattle.bench_core.specs.Calls.{ShelfCall, Writes, sink_call, shelf_call};
ghost use Rattle.bench_core.specs.HowItEnds.{Ends, HasEndingCause, Makes, Prints, WhereUnread};
ghost use Rattle.bench_core.specs.PrintedRuns.{names_line};
ghost use Rattle.bench_core.specs.RecordingTexts.{recording_refused};
ghost use Rattle.bench_core.specs.RunAnswer.{run_answer, run_bytes};
ghost use Rattle.bench_core.specs.RunSteps.{IsHeaderOf, StopsAtRow, head_step, headed_answer, rows_answer};

use super::endings::Ending;
use super::evaluation::Evaluation;
use super::recording_refusals::{refuse_empty, refuse_header, refuse_row};
use super::refusals::print;
use super::run_lines::push_names;
use super::steps::network_and_bytes;
use fx_io::{Shelf, Sink};
use net_model::Network;
use rec_csv::{Header, RowFault, is_blank};
use std::alloc::{AllocError, Global};
use text_words::{next_line, without_mark};

// The most bytes of a recording.
const RECORDING_LIMIT: usize = 0x400_0000;

// How many rows are written at once.
const BATCH: usize = 64;

/// Reads the network and the recording, and prints the outputs of each row.
pub(crate) fn run<S: Shelf, O: Sink>(
    alloc: Global,
    net: &str,
    rec: &str,
    shelf: &mut S,
    out: &mut O,
) -> Result<(), Ending>
    ensures told { ForSome (S.files shelf.old)
        (λ files. Ends (run_answer files net.now rec.now) (S.failed shelf.new)
        (sink_call O.written O.faults out.old out.new) result) }
    ensures cause { HasEndingCause (net.now ∷ rec.now ∷ [])
        (shelf_call S.faults S.failed shelf.old shelf.new)
        (sink_call O.written O.faults out.old out.new) result }
    ensures unread { WhereUnread result (Writes (sink_call O.written O.faults out.old out.new) []) }
    ensures finished { OnOk result (IsReadOut (S.files shelf.old) (S.left shelf.new)) }
{
    match network_and_bytes(alloc, shelf, net, rec, RECORDING_LIMIT) {
        Ok((network, recording)) => replay(alloc, &network, &recording, out),
        Err(ending) => Err(ending),
    }
}

// Prints the outputs of each row of a recording.
fn replay<O: Sink>(
    alloc: Global,
    network: &Network,
    recording: &[u8],
    out: &mut O,
) -> Result<(), Ending>
    ensures told { (failed : List ℕ) → Ends (run_bytes network.now recording.now) failed
        (sink_call O.written O.faults out.old out.new) result }
    ensures cause { (shelf : ShelfCall) → HasEndingCause [] shelf
        (sink_call O.written O.faults out.old out.new) result }
    ensures unread { WhereUnread result ⊥ }
{
    match head(alloc, network, recording) {
        Ok((header, below)) => print_run(alloc, network, &header, below, out),
        Err(ending) => Err(ending),
    }
}

// The header of a recording, and what is left below it.
#[tactic(auto, using(crate::proofs::RecordingSteps::head_blank, crate::proofs::RecordingSteps::header_made, crate::proofs::RecordingSteps::header_stops, crate::proofs::RecordingSteps::empty_stops))]
fn head<'a>(
    alloc: Global,
    network: &Network,
    recording: &'a [u8],
) -> Result<(Header, &'a [u8]), Ending>
    ensures made { Makes (λ h. record { header = h.0; below = lines_from h.1.now })
        (head_step network.now (lines_of recording.now)) result }
    ensures header { IfOk result (λ h. IsHeaderOf network.now.wires h.0) }
{
    let mut rest = without_mark(recording);
    while let Some((line, after)) = next_line(rest) {
        if !is_blank(line) {
            return match Header::new(alloc, line, network) {
                Ok(header) => Ok((header, after)),
                Err(fault) => Err(refuse_header(alloc, network, fault)),
            };
        }
        rest = after;
    }
    Err(refuse_empty(alloc, network))
}

// Prints the names of the outputs, and their values at each row below the header.
fn print_run<O: Sink>(
    alloc: Global,
    network: &Network,
    header: &Header,
    below: &[u8],
    out: &mut O,
) -> Result<(), Ending>
    requires { IsHeaderOf network.now.wires header.now }
    ensures told { (failed : List ℕ) →
        Ends (headed_answer network.now (record { header = header.now; below = lines_from below.now }))
        failed (sink_call O.written O.faults out.old out.new) result }
    ensures cause { (shelf : ShelfCall) → HasEndingCause [] shelf
        (sink_call O.written O.faults out.old out.new) result }
    ensures unread { WhereUnread result ⊥ }
{
    let Ok(mut text) = names_text(alloc, network) else {
        return Err(Ending::OutOfMemory);
    };
    let Ok(mut evaluation) = Evaluation::new(alloc, network) else {
        return Err(Ending::OutOfMemory);
    };
    match flush(&mut text, out) {
        Ok(()) => print_rows(
            alloc,
            network,
            header,
            below,
            &mut evaluation,
            &mut text,
            out,
        ),
        Err(ending) => Err(ending),
    }
}

// The line with the names of the outputs, with room for the lines of a batch.
fn names_text(alloc: Global, network: &Network) -> Result<Vec<u8>, AllocError>
    ensures { IfOk result (λ text. text.items ≡ names_line network.now) }
{
    let mut text = Vec::with_capacity(alloc, batch_room(network.outs().len()))?;
    push_names(&mut text, network)?;
    Ok(text)
}

// The most bytes of a batch's lines: a value is at most a sign and ten digits, and a comma or a line feed follows it.
fn batch_room(outputs: usize) -> usize {
    outputs.saturating_mul(12).saturating_mul(BATCH)
}

// Prints the line of each row below the header, in batches, each in one write.
#[tactic(auto, using(crate::proofs::RunLaws::under_start, crate::proofs::RunLaws::under_row))]
fn print_rows<O: Sink>(
    alloc: Global,
    network: &Network,
    header: &Header,
    below: &[u8],
    evaluation: &mut Evaluation<'_>,
    text: &mut Vec<u8>,
    out: &mut O,
) -> Result<(), Ending>
    requires header { IsHeaderOf network.now.wires header.now }
    requires net { evaluation.old.net ≡ network.now }
    requires start { IsAfter network.now [] evaluation.old.kept }
    requires empty { text.old.items ≡ [] }
    ensures told { (failed : List ℕ) →
        Ends (rows_answer network.now header.now [] (lines_from below.now))
        failed (sink_call O.written O.faults out.old out.new) result }
    ensures cause { (shelf : ShelfCall) → HasEndingCause [] shelf
        (sink_call O.written O.faults out.old out.new) result }
    ensures unread { WhereUnread result ⊥ }
{
    let mut number = 0;
    let mut rest = below;
    while let Some((line, after)) = next_line(rest) {
        rest = after;
        if !is_blank(line) {
            number += 1;
            match evaluation.push_row(alloc, header, line, text) {
                Ok(()) => {
                    if number % BATCH == 0 {
                        flush(text, out)?;
                    }
                }
                Err(fault) => return Err(stop_at(alloc, network, number, fault, text, out)),
            }
        }
    }
    flush(text, out)
}

// A row is refused: writes the lines of the rows before it, and gives the refusal.
fn stop_at<O: Sink>(
    alloc: Global,
    network: &Network,
    number: usize,
    fault: RowFault,
    text: &mut Vec<u8>,
    out: &mut O,
) -> Ending
    ensures told { StopsAtRow text.old.items (recording_refused network.now.wires (bad_row number fault))
        (sink_call O.written O.faults out.old out.new) result }
    ensures memory { fault ≡ RowFault.OutOfMemory → (result ≡ Ending.OutOfMemory) × (O.written out.new ≡ O.written out.old) }
{
    if fault == RowFault::OutOfMemory {
        return Ending::OutOfMemory;
    }
    match flush(text, out) {
        Ok(()) => refuse_row(alloc, network, number, fault),
        Err(ending) => ending,
    }
}

// Writes what waits, if anything does, in one write.
fn flush<O: Sink>(text: &mut Vec<u8>, out: &mut O) -> Result<(), Ending>
    ensures text { Prints text.old.items
        (sink_call O.written O.faults out.old out.new) result }
    ensures count { O.faults out.old ≤ O.faults out.new }
    ensures empty { OnOk result (text.new.items ≡ []) }
{
    if text.is_empty() {
        return Ok(());
    }
    print(out, text)?;
    text.clear();
    Ok(())
}
