// How a command ends, and what is then said.
ghost use Rattle.std.specs.Prelude.{◌≡◌};
ghost use Rattle.bench_core.specs.Calls.{sink_call};
ghost use Rattle.bench_core.specs.HowItEnds.{Says, Finishes};
ghost use Rattle.bench_core.specs.RefusalTexts.{cannot_write, out_of_memory};

use super::notice::Notice;
use fx_io::{Sink, SinkFault};

// What is said where the words are outside the grammar.
const USAGE: &[u8] =
    b"usage: bench check NET CERT | run NET REC | audit NET CERT REC | propose NET | gen SEED ROWS\n";

/// Why a command ends before its work is done.
#[derive(Drop)]
pub(crate) enum Ending {
    /// The words are outside the grammar.
    Usage,
    /// The files refuse the work.
    Refused(Notice),
    /// The shelf failed on a file; the line that is said of it, with its line feed.
    CannotRead(Vec<u8>),
    /// The sink failed to take what is printed.
    CannotWrite,
    /// Memory ran out.
    OutOfMemory,
}

/// Says on `err` how the command ended, in one write, and gives the status.
pub(crate) fn finish<E: Sink>(ending: &Result<(), Ending>, err: &mut E) -> u8
    ensures { Finishes ending.now (sink_call E.written E.faults err.old err.new) result }
{
    match ending {
        Ok(()) => 0,
        Err(Ending::Usage) => say(1, USAGE, err),
        Err(Ending::Refused(notice)) => say(notice.status, &notice.text, err),
        Err(Ending::CannotRead(text)) => say(2, text, err),
        Err(Ending::CannotWrite) => say(7, b"cannot write\n", err),
        Err(Ending::OutOfMemory) => say(8, b"out of memory\n", err),
    }
}

/// Says the text on `err` in one write and gives the status; 8 where memory runs out in it.
pub(crate) fn say<E: Sink>(status: u8, text: &[u8], err: &mut E) -> u8
    ensures { Says status text.now (sink_call E.written E.faults err.old err.new) result }
{
    match err.write(text) {
        Ok(()) => status,
        Err(SinkFault::Failed) => status,
        Err(SinkFault::OutOfMemory) => 8,
    }
}
