// The fields of one line.
ghost use Rattle.std.specs.Prelude.{◌≡◌, ◌≤◌, [], length, IfOk, IfErr, None, OnOk, Some, reverse};
ghost use Rattle.std.specs.List.{prefix_len};
ghost use Rattle.csv.specs.Machine.{next_record};
ghost use Rattle.csv.specs.Reading.{default_config, strip_bom};
ghost use Rattle.csv.specs.Records.{fields_of};
ghost use Rattle.csv.specs.declared.parser.State.TheVariants as st;
ghost use Rattle.text_words.specs.Lines.{is_space_or_tab};
ghost use Rattle.rec_csv.specs.Fields.{IsOfSource, field_in, fields_of_line, is_blank, is_blank_byte, trimmed, trimmed_back, trimmed_front};

use csv::{ByteRecord, Error, Reader, ReaderBuilder};
use std::alloc::Global;
use text_words::is_space_or_tab;

/// How many bytes a line may have.
pub const MOST_BYTES: usize = 65_536;

/// Why a line has no fields.
pub enum LineFault {
    /// The line has more than 65,536 bytes, or isn't exactly one record.
    BadLine,
    OutOfMemory,
}

/// Whether a line has no byte other than spaces, tabs and carriage returns.
pub fn is_blank(line: &[u8]) -> bool
    ensures { result ≡ is_blank line.now }
{
    line.iter().all(|byte| is_blank_byte(*byte))
}

/// The fields of a line, which is read by itself.
#[tactic(auto, unfolding(crate::specs::Fields::fields_of_line))]
pub fn fields(alloc: Global, line: &[u8]) -> Result<ByteRecord, LineFault>
    ensures fields { IfOk result (λ row. fields_of_line line.now ≡ Some (fields_of row)) }
    ensures bad { result ≡ Err LineFault.BadLine → fields_of_line line.now ≡ None }
{
    if line.len() > MOST_BYTES {
        return Err(LineFault::BadLine);
    }
    let mut rdr = ReaderBuilder::new()
        .has_headers(false)
        .flexible(true)
        .from_reader(alloc, line);
    let mut row = ByteRecord::new(alloc);
    let mut next = ByteRecord::new(alloc);
    match rdr.read_byte_record(&mut row) {
        Ok(true) => {}
        Ok(false) => return Err(LineFault::BadLine),
        Err(error) => return Err(out_of_memory(error)),
    }
    match rdr.read_byte_record(&mut next) {
        Ok(true) => Err(LineFault::BadLine),
        Ok(false) => Ok(row),
        Err(error) => Err(out_of_memory(error)),
    }
}

/// The field of a column, from 0, or no bytes where there is none.
#[tactic(auto, using(crate::proofs::ColumnFacts::field_in_at))]
pub fn field_in(row: &ByteRecord, column: usize) -> &[u8]
    ensures { result.now ≡ field_in (fields_of row.now) column }
{
    match row.get(column) {
        Some(field) => field,
        None => b"",
    }
}

/// A field without the spaces and tabs round it.
pub fn trimmed(field: &[u8]) -> &[u8]
    ensures { result.now ≡ trimmed field.now }
{
    trimmed_back(trimmed_front(field))
}

fn trimmed_front(field: &[u8]) -> &[u8]
    ensures { result.now ≡ trimmed_front field.now }
{
    let (_, rest) = field.split_at(spaces_before(field));
    rest
}

fn trimmed_back(field: &[u8]) -> &[u8]
    ensures { result.now ≡ trimmed_back field.now }
{
    let (front, _) = field.split_at(field.len() - spaces_behind(field));
    front
}

fn spaces_before(field: &[u8]) -> usize
    ensures value { result ≡ prefix_len is_space_or_tab field.now }
    ensures within { result ≤ length field.now }
{
    field
        .iter()
        .take_while(|byte| is_space_or_tab(**byte))
        .count()
}

fn spaces_behind(field: &[u8]) -> usize
    ensures value { result ≡ prefix_len is_space_or_tab (reverse field.now) }
    ensures within { result ≤ length field.now }
{
    field
        .iter()
        .rev()
        .take_while(|byte| is_space_or_tab(**byte))
        .count()
}

fn is_blank_byte(byte: u8) -> bool
    ensures { result ≡ is_blank_byte byte }
{
    is_space_or_tab(byte) || byte == b'\r'
}

// A read of a text in memory fails for want of memory alone: the reader is flexible, and reads bytes.
fn out_of_memory(error: Error) -> LineFault
    requires { IsOfSource error.kind }
    ensures { result ≡ LineFault.OutOfMemory }
{
    drop(error);
    LineFault::OutOfMemory
}
