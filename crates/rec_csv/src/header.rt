// The header and the rows.
ghost use Rattle.std.specs.Prelude.{◌≡◌, IfErr, IfOk, IfSome, OnOk, Ok, is_some, length};
ghost use Rattle.net_model.specs.Wires.{inputs_of};
ghost use Rattle.rec_csv.specs.Fields.{is_plain};
ghost use Rattle.rec_csv.specs.Headers.{TellsHead, header_of};
ghost use Rattle.rec_csv.specs.Rows.{Leaves, Tells, row_of, values_before};

use crate::columns::{Column, columns_of};
use crate::faults::{HeadFault, RowFault};
use crate::line_fields::{LineFault, fields};
use crate::plain_rows::fill_plain;
use crate::rows::fill;
use crate::slots::slots_of;
use net_model::Network;
use std::alloc::Global;
use std::marker::Model;

/// The header of a recording, seen as its width and the columns of a network's inputs.
#[derive(Drop)]
pub struct Header {
    columns: Vec<Column>,
    // One for each field of the header: the number of the input that stands there, if one does.
    slots: Vec<Option<u32>>,
}

impl Model for Header {
    ghost use Rattle.std.specs.Prelude.{length};
    ghost use Rattle.rec_csv.specs.Headers.{HeaderData};
    ghost use Rattle.rec_csv.specs.Slots.{IsTable};

    ghost Value = { HeaderData };

    ghost view = { λ h. record { width = length h.slots.items; columns = h.columns.items } };

    ghost invariant = { λ h. IsTable h.columns.items h.slots.items };
}

impl Header {
    /// The header that a line is for a network. Names of columns lose the spaces and tabs round them; a column
    /// that names no input is ignored.
    #[tactic(auto, unfolding(crate::specs::Headers::header_of), using(crate::proofs::ColumnFacts::inputs_are_wires, crate::proofs::ColumnFacts::tells_header, crate::proofs::ApartColumns::columns_apart, crate::proofs::ApartColumns::few_columns))]
    pub fn new(alloc: Global, line: &[u8], net: &Network) -> Result<Header, HeadFault>
        ensures made { IfOk result (λ header. header_of net.now.wires line.now ≡ Ok header) }
        ensures inputs { IfOk result (λ header. length header.columns ≡ length (inputs_of net.now.wires)) }
        ensures fault { IfErr result (TellsHead (header_of net.now.wires line.now)) }
    {
        let row = match fields(alloc, line) {
            Ok(row) => row,
            Err(LineFault::BadLine) => return Err(HeadFault::BadLine),
            Err(LineFault::OutOfMemory) => return Err(HeadFault::OutOfMemory),
        };
        let columns = match columns_of(alloc, &row, net.wires(), net.inputs()) {
            Ok(columns) => columns,
            Err(fault) => return Err(fault),
        };
        match slots_of(alloc, &columns, row.len()) {
            Ok(slots) => Ok(Header { columns, slots }),
            Err(_) => Err(HeadFault::OutOfMemory),
        }
    }

    /// Fills in a row's values, in the order of the network's inputs. After the fault of an input the values of
    /// the inputs before it stand in `values`. A line that doesn't begin with the byte 239 and has no quote,
    /// carriage return or line feed takes no memory.
    pub fn row(&self, alloc: Global, line: &[u8], values: &mut [i64]) -> Result<(), RowFault>
        requires { length values.old ≡ length self.now.columns }
        ensures values { OnOk result (row_of self.now line.now ≡ Ok values.new) }
        ensures fault { IfErr result (Tells (row_of self.now line.now)) }
        ensures before { IfErr result (Leaves (values_before self.now line.now) values.new) }
    {
        match self.plain_row(line, values) {
            Some(row) => row,
            None => self.read_row(alloc, line, values),
        }
    }

    // The same of a plain line, from the pieces between its commas, and None of another.
    pub(crate) fn plain_row(&self, line: &[u8], values: &mut [i64]) -> Option<Result<(), RowFault>>
        requires { length values.old ≡ length self.now.columns }
        ensures plain { is_some result ≡ is_plain line.now }
        ensures kept { length values.new ≡ length self.now.columns }
        ensures values { IfSome result (λ row. OnOk row (row_of self.now line.now ≡ Ok values.new)) }
        ensures fault { IfSome result (λ row. IfErr row (Tells (row_of self.now line.now))) }
        ensures before { IfSome result (λ row. IfErr row (Leaves (values_before self.now line.now) values.new)) }
    {
        fill_plain(&self.columns, &self.slots, line, values)
    }

    // The same of any line, from what the reader of records makes of it.
    #[tactic(auto, unfolding(crate::specs::Rows::row_of))]
    pub(crate) fn read_row(
        &self,
        alloc: Global,
        line: &[u8],
        values: &mut [i64],
    ) -> Result<(), RowFault>
        requires { length values.old ≡ length self.now.columns }
        ensures values { OnOk result (row_of self.now line.now ≡ Ok values.new) }
        ensures fault { IfErr result (Tells (row_of self.now line.now)) }
        ensures before { IfErr result (Leaves (values_before self.now line.now) values.new) }
    {
        let row = match fields(alloc, line) {
            Ok(row) => row,
            Err(LineFault::BadLine) => return Err(RowFault::BadLine),
            Err(LineFault::OutOfMemory) => return Err(RowFault::OutOfMemory),
        };
        if row.len() < self.slots.len() {
            return Err(RowFault::BadWidth);
        }
        fill(&self.columns, &row, values)
    }
}
