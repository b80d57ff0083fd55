// The lines of a printed run.
ghost use Rattle.std.specs.Prelude.{◌≡◌, ◌++◌, map, OnOk};
ghost use Rattle.std.specs.Fmt.{signed_decimal};
ghost use Rattle.bench_core.specs.RecordingTexts.{name_of};
ghost use Rattle.bench_core.specs.PrintedRuns.{behind, joined, names_line, values_line};

use itoa::Buffer;
use net_model::{Network, WireNo};
use std::alloc::AllocError;

/// Appends the line with the names of the outputs, with its line feed.
pub(crate) fn push_names(text: &mut Vec<u8>, network: &Network) -> Result<(), AllocError>
    ensures { OnOk result (text.new.items ≡ text.old.items ++ names_line network.now) }
{
    let outs = network.outs();
    for i in 0..outs.len() {
        push_piece(text, i, name_of(network, outs[i]))?;
    }
    text.push(b'\n')?;
    Ok(())
}

/// Appends the line of a row's values, in decimal, with its line feed.
#[tactic(auto, using(crate::proofs::PrintedLines::pieces_step, crate::proofs::PrintedLines::pieces_end))]
pub(crate) fn push_values(text: &mut Vec<u8>, values: &[i64]) -> Result<(), AllocError>
    ensures { OnOk result (text.new.items ≡ text.old.items ++ values_line values.now) }
{
    let mut digits = Buffer::new();
    for i in 0..values.len() {
        push_piece(text, i, digits.format(values[i]).as_bytes())?;
    }
    text.push(b'\n')?;
    Ok(())
}

// Appends a text that is joined by a comma behind so many others.
fn push_piece(text: &mut Vec<u8>, place: usize, piece: &[u8]) -> Result<(), AllocError>
    ensures { OnOk result (text.new.items ≡ text.old.items ++ behind place piece.now) }
{
    if place > 0 {
        text.push(b',')?;
    }
    text.extend_from_slice(piece)
}

/// The name of a wire; no bytes where there is none.
pub(crate) fn name_of(network: &Network, wire: WireNo) -> &[u8]
    ensures { result.now ≡ name_of network.now.wires wire }
{
    match network.wires().get(wire.0 as usize) {
        Some(wire) => wire.name.bytes(),
        None => b"",
    }
}
