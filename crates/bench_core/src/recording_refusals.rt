// The lines that are said of recordings.
ghost use Rattle.std.specs.Prelude.{◌≡◌, ◌++◌, ◌∷◌, [], IfOk};
ghost use Rattle.bench_core.specs.HowItEnds.{RefusesWith};
ghost use Rattle.bench_core.specs.RecordingTexts.{recording_refused, row_line, row_refused};
ghost use Rattle.rec_csv.specs.Recordings.{no_header, bad_header, bad_row};

use super::endings::Ending;
use super::notice::Notice;
use super::run_lines::name_of;
use itoa::Buffer;
use net_model::Network;
use rec_csv::{HeadFault, RowFault};
use std::alloc::{AllocError, Global};

/// The recording has no line that could be its header.
#[tactic(auto, unfolding(crate::specs::RecordingTexts::recording_refused))]
pub(crate) fn refuse_empty(alloc: Global, network: &Network) -> Ending
    ensures { RefusesWith (recording_refused network.now.wires no_header) result }
{
    refuse_row_for(alloc, 0, b"no header", b"")
}

/// The recording's header is refused.
#[tactic(auto, unfolding(crate::specs::RecordingTexts::recording_refused))]
pub(crate) fn refuse_header(alloc: Global, network: &Network, fault: HeadFault) -> Ending
    ensures text { RefusesWith (recording_refused network.now.wires (bad_header fault)) result }
    ensures memory { fault ≡ HeadFault.OutOfMemory → result ≡ Ending.OutOfMemory }
{
    match fault {
        HeadFault::BadLine => refuse_row_for(alloc, 0, b"bad line", b""),
        HeadFault::Missing(wire) => refuse_row_for(alloc, 0, b"missing ", name_of(network, wire)),
        HeadFault::Twice(wire) => refuse_row_for(alloc, 0, b"twice ", name_of(network, wire)),
        HeadFault::OutOfMemory => Ending::OutOfMemory,
    }
}

/// A row is refused; rows are numbered from 1.
#[tactic(auto, unfolding(crate::specs::RecordingTexts::recording_refused))]
pub(crate) fn refuse_row(alloc: Global, network: &Network, number: usize, fault: RowFault) -> Ending
    ensures text { RefusesWith (recording_refused network.now.wires (bad_row number fault)) result }
    ensures memory { fault ≡ RowFault.OutOfMemory → result ≡ Ending.OutOfMemory }
{
    match fault {
        RowFault::BadLine => refuse_row_for(alloc, number, b"bad line", b""),
        RowFault::BadWidth => refuse_row_for(alloc, number, b"bad width", b""),
        RowFault::BadNumber(wire) => {
            refuse_row_for(alloc, number, name_of(network, wire), b": not a number")
        }
        RowFault::OutOfType(wire) => {
            refuse_row_for(alloc, number, name_of(network, wire), b": out of type")
        }
        RowFault::OutOfMemory => Ending::OutOfMemory,
    }
}

// A row is refused for the reason that two texts make.
fn refuse_row_for(alloc: Global, number: usize, front: &[u8], back: &[u8]) -> Ending
    ensures { RefusesWith (row_refused number (front.now ++ back.now)) result }
{
    match row_line(alloc, number, front, back) {
        Ok(text) => Ending::Refused(Notice { status: 4, text }),
        Err(_) => Ending::OutOfMemory,
    }
}

// The line of a refused row, with its line feed.
fn row_line(alloc: Global, number: usize, front: &[u8], back: &[u8]) -> Result<Vec<u8>, AllocError>
    ensures { IfOk result (λ text. text.items ≡ row_line number (front.now ++ back.now)) }
{
    let mut digits = Buffer::new();
    let row = digits.format(number).as_bytes();
    [b"row ", row, b": ", front, back, b"\n"].concat(alloc)
}
