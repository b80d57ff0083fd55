// Where a network's inputs stand among the fields of a header.
ghost use Rattle.std.specs.Prelude.{◌≡◌, ◌<◌, ◌∷◌, ◌+◌, ◌^◌, [], drop, length, IfErr, IfOk, IfSome, Ok, MatchOption};
ghost use Rattle.csv.specs.Records.{fields_of};
ghost use Rattle.net_model.specs.Wires.{wire_at};
ghost use Rattle.rec_csv.specs.Headers.{TellsHead, are_wires, column_of, columns_of, only_place, places_from};

use crate::faults::HeadFault;
use crate::line_fields::{field_in, trimmed};
use csv::ByteRecord;
use net_model::{Kind, Wire, WireNo};
use std::alloc::Global;

/// Where an input stands: its column from 0, its wire and its kind.
#[derive(Clone, Copy)]
pub struct Column {
    pub place: usize,
    pub wire: WireNo,
    pub kind: Kind,
}

/// The columns of the inputs, in order.
#[tactic(auto, using(crate::proofs::ColumnFacts::columns_end, crate::proofs::ColumnFacts::input_is_wire, crate::proofs::ColumnFacts::tells_columns))]
pub fn columns_of(
    alloc: Global,
    row: &ByteRecord,
    wires: &[Wire],
    inputs: &[WireNo],
) -> Result<Vec<Column>, HeadFault>
    requires { are_wires wires.now inputs.now }
    ensures columns { IfOk result (λ columns. columns_of (fields_of row.now) wires.now inputs.now ≡ Ok columns.items) }
    ensures inputs { IfOk result (λ columns. length columns.items ≡ length inputs.now) }
    ensures fault { IfErr result (TellsHead (columns_of (fields_of row.now) wires.now inputs.now)) }
{
    let mut columns = Vec::new(alloc);
    'inputs: for i in 0..inputs.len() {
        let input = inputs[i];
        let column = match column_at(row, wires, input) {
            Ok(column) => column,
            Err(fault) => return Err(fault),
        };
        match columns.push(column) {
            Ok(()) => {}
            Err(_) => return Err(HeadFault::OutOfMemory),
        }
    }
    Ok(columns)
}

fn column_at(row: &ByteRecord, wires: &[Wire], input: WireNo) -> Result<Column, HeadFault>
    requires { input.0 < length wires.now }
    ensures { result ≡ column_of (fields_of row.now) input (wire_at wires.now input.0) }
{
    column_of(row, &wires[input.0 as usize], input)
}

#[tactic(auto, unfolding(crate::specs::Headers::column_of))]
fn column_of(row: &ByteRecord, wire: &Wire, input: WireNo) -> Result<Column, HeadFault>
    ensures { result ≡ column_of (fields_of row.now) input wire.now }
{
    let place = only_place(row, wire.name.bytes(), input)?;
    Ok(Column {
        place,
        wire: input,
        kind: wire.kind,
    })
}

fn only_place(row: &ByteRecord, name: &[u8], input: WireNo) -> Result<usize, HeadFault>
    ensures { result ≡ only_place input (places_from 0 name.now (fields_of row.now)) }
{
    let Some(place) = next_place(row, name, 0) else {
        return Err(HeadFault::Missing(input));
    };
    match next_place(row, name, place + 1) {
        None => Ok(place),
        Some(_) => Err(HeadFault::Twice(input)),
    }
}

// The first column from `from` on that is named so.
#[tactic(auto, using(crate::proofs::ColumnFacts::places_yes, crate::proofs::ColumnFacts::places_no, crate::proofs::ColumnFacts::places_end))]
fn next_place(row: &ByteRecord, name: &[u8], from: usize) -> Option<usize>
    ensures first { MatchOption result (places_from from name.now (drop from (fields_of row.now)) ≡ [])
        (λ place. places_from from name.now (drop from (fields_of row.now)) ≡ place ∷ places_from (place + 1) name.now (drop (place + 1) (fields_of row.now))) }
    ensures within { IfSome result (λ place. place + 1 < 2 ^ 64) }
{
    'fields: for i in from..row.len() {
        if trimmed(field_in(row, i)) == name {
            return Some(i);
        }
    }
    None
}
