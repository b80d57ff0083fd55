// The values of a plain line: one walk over its bytes, with no memory taken and nothing copied.
ghost use Rattle.std.specs.Prelude.{◌≡◌, ◌≤◌, ◌<◌, ◌∷◌, [], false, is_some, length, true, IfErr, IfSome, MatchOption, OnOk, Ok};
ghost use Rattle.std.specs.List.{list_all, prefix_len};
ghost use Rattle.text_words.specs.Lines.{pieces};
ghost use Rattle.rec_csv.specs.Fields.{begins_plain, goes_on, is_comma, is_plain, is_plain_byte};
ghost use Rattle.rec_csv.specs.Rows.{Leaves, Tells, row_of, input_value, values_before};
ghost use Rattle.rec_csv.specs.Slots.{IsTable, header_with};
ghost use Rattle.rec_csv.specs.Verdicts.{values_after, verdict_after};

use crate::columns::Column;
use crate::faults::RowFault;
use crate::line_fields::MOST_BYTES;
use crate::rows::input_value;

/// What is known of a row's values after some of its fields.
#[derive(Clone, Copy)]
struct Verdict {
    /// The least input that is known to be faulty, or the number of inputs.
    good_before: usize,
    /// The fault of that input, if there is one.
    outcome: Result<(), RowFault>,
}

/// Fills in the values of a row whose line is plain, in one walk over its bytes. None where the line isn't plain: then
/// the values say nothing. The slots say which input stands in each of the header's columns.
#[tactic(auto, using(crate::proofs::WalkFacts::narrow, crate::proofs::WalkFacts::ends_values))]
pub fn fill_plain(
    columns: &[Column],
    slots: &[Option<u32>],
    line: &[u8],
    values: &mut [i64],
) -> Option<Result<(), RowFault>>
    requires table { IsTable columns.now slots.now }
    requires one_each { length values.old ≡ length columns.now }
    ensures plain { is_some result ≡ is_plain line.now }
    ensures kept { length values.new ≡ length columns.now }
    ensures values { IfSome result (λ row. OnOk row (row_of (header_with columns.now slots.now) line.now ≡ Ok values.new)) }
    ensures fault { IfSome result (λ row. IfErr row (Tells (row_of (header_with columns.now slots.now) line.now))) }
    ensures before { IfSome result (λ row. IfErr row (Leaves (values_before (header_with columns.now slots.now) line.now) values.new)) }
{
    if !begins_plain(line) {
        return None;
    }
    let mut left = Some(line);
    let mut verdict = Verdict {
        good_before: columns.len(),
        outcome: Ok(()),
    };
    'slots: for slot in slots {
        let Some(bytes) = left else {
            return Some(Err(RowFault::BadWidth));
        };
        let Some((field, behind)) = first_field(bytes) else {
            return None;
        };
        left = behind;
        if let Some(number) = *slot {
            let input = number as usize;
            verdict = with_field(columns[input], input, field, values, verdict);
        }
    }
    if let Some(rest) = left {
        if !are_plain(rest) {
            return None;
        }
    }
    Some(verdict.outcome)
}

// Whether a line isn't empty, doesn't begin as a byte-order mark does, and isn't too long.
#[tactic(auto, unfolding(crate::specs::Fields::begins_plain))]
fn begins_plain(line: &[u8]) -> bool
    ensures { result ≡ begins_plain line.now }
{
    match line {
        [] => false,
        [first, ..] => *first != 0xEF && line.len() <= MOST_BYTES,
    }
}

fn are_plain(bytes: &[u8]) -> bool
    ensures { result ≡ list_all is_plain_byte bytes.now }
{
    bytes.iter().all(|byte| is_plain_byte(*byte))
}

// The three bytes lie below those of numbers and commas, so one comparison answers for nearly all.
fn is_plain_byte(byte: u8) -> bool
    ensures { result ≡ is_plain_byte byte }
{
    byte > b'"' || (byte != b'"' && byte != b'\r' && byte != b'\n')
}

// What is known after the field of an input, whose value is written. An input behind a faulty one doesn't matter.
#[tactic(auto, unfolding(crate::specs::Verdicts::values_after, crate::specs::Verdicts::verdict_after))]
fn with_field(
    column: Column,
    input: usize,
    field: &[u8],
    values: &mut [i64],
    verdict: Verdict,
) -> Verdict
    requires { input < length values.old }
    ensures values { values.new ≡ values_after verdict input (input_value column field.now) values.old }
    ensures verdict { result ≡ verdict_after verdict input (input_value column field.now) }
{
    if verdict.good_before <= input {
        return verdict;
    }
    match input_value(column, field) {
        Ok(value) => {
            values[input] = value;
            verdict
        }
        Err(fault) => Verdict {
            good_before: input,
            outcome: Err(fault),
        },
    }
}

// The bytes before the first comma, and those behind it, if there is one. None where a byte before it isn't plain.
fn first_field(bytes: &[u8]) -> Option<(&[u8], Option<&[u8]>)>
    ensures cut { IfSome result (λ cut. MatchOption cut.1 (pieces is_comma bytes.now ≡ cut.0.now ∷ [])
        (λ behind. pieces is_comma bytes.now ≡ cut.0.now ∷ pieces is_comma behind.now)) }
    ensures plain { MatchOption result (list_all is_plain_byte bytes.now ≡ false) (λ cut. MatchOption cut.1
        (list_all is_plain_byte bytes.now ≡ true)
        (λ behind. list_all is_plain_byte bytes.now ≡ list_all is_plain_byte behind.now)) }
{
    let (field, rest) = bytes.split_at(field_len(bytes));
    match rest {
        [] => Some((field, None)),
        [first, behind @ ..] => {
            if *first == b',' {
                Some((field, Some(behind)))
            } else {
                None
            }
        }
    }
}

// How many bytes stand before the first comma, or before the first byte that isn't plain.
fn field_len(bytes: &[u8]) -> usize
    ensures value { result ≡ prefix_len goes_on bytes.now }
    ensures within { result ≤ length bytes.now }
{
    bytes.iter().take_while(|byte| goes_on(**byte)).count()
}

// Commas and the bytes that aren't plain lie below those of numbers, so one comparison answers for nearly all.
fn goes_on(byte: u8) -> bool
    ensures { result ≡ goes_on byte }
{
    byte > b',' || (byte != b',' && is_plain_byte(byte))
}
