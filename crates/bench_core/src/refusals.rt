// The lines that are said of refusals, and printing.
ghost use Rattle.std.specs.Prelude.{◌≡◌, ◌≤◌, ◌++◌, ◌∷◌, [], IfOk};
ghost use Rattle.bench_core.specs.Calls.{sink_call};
ghost use Rattle.bench_core.specs.Outcomes.{line};
ghost use Rattle.bench_core.specs.HowItEnds.{RefusesWith, Prints, IsUnread};
ghost use Rattle.bench_core.specs.Statuses.{IsRefusalStatus};

use super::endings::Ending;
use super::notice::Notice;
use fx_io::{Sink, SinkFault};
use std::alloc::{AllocError, Global};

/// A refusal with this status and the line that the two texts make.
pub(crate) fn refuse(alloc: Global, status: u8, front: &[u8], back: &[u8]) -> Ending
    requires { IsRefusalStatus status }
    ensures { RefusesWith (record { status = status; text = line front.now back.now }) result }
{
    match line_of(alloc, front, back) {
        Ok(text) => Ending::Refused(Notice { status, text }),
        Err(_) => Ending::OutOfMemory,
    }
}

/// The shelf failed on this file.
pub(crate) fn unread(alloc: Global, file: &str) -> Ending
    ensures { IsUnread file.now result }
{
    match line_of(alloc, b"cannot read ", file.as_bytes()) {
        Ok(text) => Ending::CannotRead(text),
        Err(_) => Ending::OutOfMemory,
    }
}

// The line that two texts make, with its line feed.
fn line_of(alloc: Global, front: &[u8], back: &[u8]) -> Result<Vec<u8>, AllocError>
    ensures { IfOk result (λ text. text.items ≡ line front.now back.now) }
{
    [front, back, b"\n"].concat(alloc)
}

/// Prints the text in one write.
pub(crate) fn print<O: Sink>(out: &mut O, text: &[u8]) -> Result<(), Ending>
    ensures text { Prints text.now (sink_call O.written O.faults out.old out.new) result }
    ensures count { O.faults out.old ≤ O.faults out.new }
{
    match out.write(text) {
        Ok(()) => Ok(()),
        Err(SinkFault::Failed) => Err(Ending::CannotWrite),
        Err(SinkFault::OutOfMemory) => Err(Ending::OutOfMemory),
    }
}
