// The values of a row.
ghost use Rattle.std.specs.Prelude.{◌≡◌, [], length, option_map, IfErr, OnOk, Ok};
ghost use Rattle.csv.specs.Records.{fields_of};
ghost use Rattle.text_words.specs.Numbers.{held, number_of};
ghost use Rattle.net_model.specs.Validity.{kind_holds};
ghost use Rattle.rec_csv.specs.Fields.{trimmed};
ghost use Rattle.rec_csv.specs.Rows.{Leaves, Tells, good_values, input_value, input_values};

use crate::columns::Column;
use crate::faults::RowFault;
use crate::line_fields::{field_in, trimmed};
use csv::ByteRecord;
use net_model::Kind;
use text_words::number;

/// Fills in the values of the columns.
#[tactic(auto, using(crate::proofs::RowFacts::values_step, crate::proofs::RowFacts::values_fault, crate::proofs::RowFacts::values_end, crate::proofs::RowFacts::good_step, crate::proofs::RowFacts::good_fault, crate::proofs::RowFacts::tells, crate::proofs::RowFacts::leaves))]
pub fn fill(columns: &[Column], row: &ByteRecord, values: &mut [i64]) -> Result<(), RowFault>
    requires { length values.old ≡ length columns.now }
    ensures values { OnOk result (input_values columns.now (fields_of row.now) ≡ Ok values.new) }
    ensures fault { IfErr result (Tells (input_values columns.now (fields_of row.now))) }
    ensures before { IfErr result (Leaves (good_values columns.now (fields_of row.now)) values.new) }
{
    'columns: for i in 0..columns.len() {
        let column = columns[i];
        match input_value(column, field_in(row, column.place)) {
            Ok(value) => values[i] = value,
            Err(fault) => return Err(fault),
        }
    }
    Ok(())
}

/// The value of an input whose field is this one.
#[tactic(auto, using(crate::proofs::HeldValues::input_value_held))]
#[inline(always)]
pub fn input_value(column: Column, field: &[u8]) -> Result<i64, RowFault>
    ensures { result ≡ input_value column field.now }
{
    let Some(value) = number_in(field) else {
        return Err(RowFault::BadNumber(column.wire));
    };
    if kind_holds(column.kind, value) {
        Ok(value)
    } else {
        Err(RowFault::OutOfType(column.wire))
    }
}

// The number of a field. What is a number as it stands has no spaces or tabs round it, so it isn't trimmed.
#[tactic(auto, using(crate::proofs::UntrimmedNumbers::number_untrimmed))]
#[inline(always)]
fn number_in(field: &[u8]) -> Option<i64>
    ensures { result ≡ option_map held (number_of (trimmed field.now)) }
{
    match number(field) {
        Some(value) => Some(value),
        None => trimmed_number(field),
    }
}

fn trimmed_number(field: &[u8]) -> Option<i64>
    ensures { result ≡ option_map held (number_of (trimmed field.now)) }
{
    number(trimmed(field))
}

fn kind_holds(kind: Kind, value: i64) -> bool
    ensures { result ≡ kind_holds [] kind value }
{
    match kind {
        Kind::Num(ty, _) => ty.holds(value),
        Kind::Truth => 0 <= value && value <= 1,
        // No input is a position, so no axis is looked at, and 0 alone is one.
        Kind::Position(_) => 0 <= value && value <= 0,
    }
}
