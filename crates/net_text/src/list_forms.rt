// The forms of lines of axes and tables: what each gives, or the first of its tests that fails.
ghost use Rattle.std.specs.Prelude.{◌≡◌, ◌+ℤ◌, ◌-ℤ◌, ◌*ℤ◌, ◌≤◌, ◌^◌, ◌&&◌, IfErr, IfOk, IfSome, None, drop, is_some, length, map, nat_le, pos, true, unsigned_abs};
ghost use Rattle.std.specs.List.{list_all};
ghost use Rattle.text_words.specs.Lines.{nth, words_of};
ghost use Rattle.text_words.specs.Numbers.{held, number_of};
ghost use Rattle.fx_core.specs.Types.{holds, width_of};
ghost use Rattle.ifx_search.specs.Axes.{axis_fault, listed_axis, stepped_axis};
ghost use Rattle.ifx_curves.specs.Tables.{table_fault};
ghost use Rattle.net_text.specs.TypeWords.{ty_of};
ghost use Rattle.net_model.specs.BlockForms.{in_range};
ghost use Rattle.net_text.specs.Forms.{GivesLine, IsNarrow, counts, steps, are_steps, are_values, axis_line, axisshift_line, axisstep_line, list_front, list_room, narrow_of, number_written, numbers_written, points_given, rises, shift_given, steps_given, table_line, values_given};
ghost use Rattle.net_text.specs.declared.list_forms.LineFault.TheVariants.{OutOfMemory};

use crate::line_forms::{fresh, is_number};
use crate::names::Above;
use crate::type_word::ty_of;
use fx_core::Ty;
use ifx_curves::{Table, TableFault};
use ifx_search::{Axis, AxisFault};
use net_model::{MOST_LISTS, NetKind, Range, in_range};
use std::alloc::{AllocError, Global};
use text_words::{count_words, demand, next_word, number, word_at};

/// Why a line gives nothing.
#[derive(Clone, Copy)]
pub enum LineFault {
    /// The first of its tests that fails.
    OfKind(NetKind),
    OutOfMemory,
}

// How many points an axis may have, and how many values a table.
const MOST_NUMBERS: usize = 4096;

/// `axis NAME TYPE P P ..`
#[tactic(auto, unfolding(crate::specs::Forms::axis_line))]
pub fn axis_line(alloc: Global, above: &Above, line: &[u8]) -> Result<Axis, LineFault>
    ensures { GivesLine (axis_line above.now.net (words_of line.now)) result }
{
    let ty = match list_front(count_words(line) >= 4, above, line) {
        Ok(ty) => ty,
        Err(kind) => return Err(LineFault::OfKind(kind)),
    };
    let Ok(points) = numbers_written(alloc, behind_type(line)) else {
        return Err(LineFault::OutOfMemory);
    };
    points_given(alloc, count_axes(above), ty, points.as_slice())
}

/// `table NAME TYPE V V ..`
#[tactic(auto, unfolding(crate::specs::Forms::table_line))]
pub fn table_line(alloc: Global, above: &Above, line: &[u8]) -> Result<Table, LineFault>
    ensures { GivesLine (table_line above.now.net (words_of line.now)) result }
{
    let ty = match list_front(count_words(line) >= 4, above, line) {
        Ok(ty) => ty,
        Err(kind) => return Err(LineFault::OfKind(kind)),
    };
    let Ok(values) = numbers_written(alloc, behind_type(line)) else {
        return Err(LineFault::OutOfMemory);
    };
    values_given(alloc, count_tables(above), ty, values.as_slice())
}

/// `axisstep NAME TYPE OFFSET STEP COUNT`
#[tactic(auto, unfolding(crate::specs::Forms::axisstep_line))]
pub fn axisstep_line(above: &Above, line: &[u8]) -> Result<Axis, NetKind>
    ensures { result ≡ axisstep_line above.now.net (words_of line.now) }
{
    let ty = list_front(count_words(line) == 6, above, line)?;
    let offset = number_written(word_at(line, 3));
    let step = number_written(word_at(line, 4));
    let count = number_written(word_at(line, 5));
    steps_given(above.draft().axes.len(), ty, offset, step, count)
}

/// `axisshift NAME TYPE OFFSET SHIFT COUNT`
#[tactic(auto, unfolding(crate::specs::Forms::axisshift_line))]
pub fn axisshift_line(above: &Above, line: &[u8]) -> Result<Axis, NetKind>
    ensures { result ≡ axisshift_line above.now.net (words_of line.now) }
{
    let ty = list_front(count_words(line) == 6, above, line)?;
    let offset = number_written(word_at(line, 3));
    let shift = number_written(word_at(line, 4));
    let count = number_written(word_at(line, 5));
    shift_given(above.draft().axes.len(), ty, offset, shift, count)
}

fn count_axes(above: &Above) -> usize
    ensures { result ≡ length above.now.net.axes }
{
    above.draft().axes.len()
}

fn count_tables(above: &Above) -> usize
    ensures { result ≡ length above.now.net.tables }
{
    above.draft().tables.len()
}

// The type of a line of this form, whose words behind the type are numbers.
#[tactic(auto, unfolding(crate::specs::Forms::list_front))]
fn list_front(has_form: bool, above: &Above, line: &[u8]) -> Result<Ty, NetKind>
    ensures value { result ≡ list_front has_form above.now.net (words_of line.now) }
    ensures narrow { IfOk result IsNarrow }
{
    demand!(has_form, NetKind::BadLine);
    fresh(above, word_at(line, 1))?;
    let Some(ty) = narrow_at(line) else {
        return Err(NetKind::BadType);
    };
    demand!(are_all_numbers(behind_type(line)), NetKind::BadNumber);
    Ok(ty)
}

/// The type of an axis, a table or a map, if it stands in the type's place.
pub fn narrow_at(line: &[u8]) -> Option<Ty>
    ensures value { result ≡ narrow_of (ty_of (nth (words_of line.now) 2)) }
    ensures narrow { IfSome result IsNarrow }
{
    narrow_of(ty_of(word_at(line, 2)))
}

fn narrow_of(ty: Option<Ty>) -> Option<Ty>
    ensures value { result ≡ narrow_of ty }
    ensures narrow { IfSome result IsNarrow }
{
    match ty {
        Some(Ty::U8) => Some(Ty::U8),
        Some(Ty::S8) => Some(Ty::S8),
        Some(Ty::U16) => Some(Ty::U16),
        Some(Ty::S16) => Some(Ty::S16),
        _ => None,
    }
}

// ---- numbers

// What stands behind the type of a line.
#[tactic(auto, using(crate::proofs::LineSteps::behind_three))]
fn behind_type(line: &[u8]) -> &[u8]
    ensures { words_of result.now ≡ drop 3 (words_of line.now) }
{
    behind_word(behind_word(behind_word(line)))
}

// What stands behind the first word, if there is one.
fn behind_word(line: &[u8]) -> &[u8]
    ensures { words_of result.now ≡ drop 1 (words_of line.now) }
{
    match next_word(line) {
        Some((_, rest)) => rest,
        None => line,
    }
}

// Whether all words are numbers.
fn are_all_numbers(words: &[u8]) -> bool
    ensures { result ≡ list_all (λ word. is_some (number_of word)) (words_of words.now) }
{
    let mut left = words;
    while let Some((word, rest)) = next_word(left) {
        if !is_number(word) {
            return false;
        }
        left = rest;
    }
    true
}

// The numbers that words write, each as 64 bits hold it.
fn numbers_written(alloc: Global, words: &[u8]) -> Result<Vec<i64>, AllocError>
    ensures { IfOk result (λ numbers. numbers.items ≡ map held (numbers_written (words_of words.now))) }
{
    let mut numbers = Vec::new(alloc);
    let mut left = words;
    while let Some((word, rest)) = next_word(left) {
        numbers.push(number_written(word))?;
        left = rest;
    }
    Ok(numbers)
}

#[tactic(auto, unfolding(text_words::specs::Numbers::held))]
fn number_written(word: &[u8]) -> i64
    ensures { result ≡ held (number_written word.now) }
{
    match number(word) {
        Some(number) => number,
        None => 0,
    }
}

// ---- listed numbers

// The axis of these points.
#[tactic(auto, using(crate::proofs::ListFacts::points_pass), unfolding(crate::specs::Forms::points_given))]
fn points_given(alloc: Global, above: usize, ty: Ty, points: &[i64]) -> Result<Axis, LineFault>
    requires { width_of ty ≤ 16 }
    ensures { GivesLine (points_given above ty points.now) result }
{
    if !(are_values(ty, points) && rises(points)) {
        return Err(LineFault::OfKind(NetKind::OutOfRange));
    }
    if !has_list_room(above, points.len()) {
        return Err(LineFault::OfKind(NetKind::TooMany));
    }
    axis_of(alloc, ty, points)
}

// The axis of points that make one.
fn axis_of(alloc: Global, ty: Ty, points: &[i64]) -> Result<Axis, LineFault>
    requires narrow { width_of ty ≤ 16 }
    requires good { axis_fault ty points.now ≡ None }
    ensures made { IfOk result (λ axis. axis ≡ listed_axis ty points.now) }
    ensures fails { IfErr result (λ fault. fault ≡ OutOfMemory) }
{
    match Axis::new(alloc, ty, points) {
        Ok(axis) => Ok(axis),
        Err(AxisFault::OutOfMemory) => Err(LineFault::OutOfMemory),
        Err(_) => unreachable!(),
    }
}

// The table of these values.
#[tactic(auto, using(crate::proofs::ListFacts::values_pass), unfolding(crate::specs::Forms::values_given))]
fn values_given(alloc: Global, above: usize, ty: Ty, values: &[i64]) -> Result<Table, LineFault>
    requires { width_of ty ≤ 16 }
    ensures { GivesLine (values_given above ty values.now) result }
{
    if !are_values(ty, values) {
        return Err(LineFault::OfKind(NetKind::OutOfRange));
    }
    if !has_list_room(above, values.len()) {
        return Err(LineFault::OfKind(NetKind::TooMany));
    }
    table_of(alloc, ty, values)
}

// The table of values that make one.
fn table_of(alloc: Global, ty: Ty, values: &[i64]) -> Result<Table, LineFault>
    requires narrow { width_of ty ≤ 16 }
    requires good { table_fault ty values.now ≡ None }
    ensures made { IfOk result (λ table. table ≡ record { ty = ty; values = values.now }) }
    ensures fails { IfErr result (λ fault. fault ≡ OutOfMemory) }
{
    match Table::new(alloc, ty, values) {
        Ok(table) => Ok(table),
        Err(TableFault::OutOfMemory) => Err(LineFault::OutOfMemory),
        Err(_) => unreachable!(),
    }
}

// Two or more numbers of a type.
fn are_values(ty: Ty, numbers: &[i64]) -> bool
    ensures { result ≡ are_values ty numbers.now }
{
    numbers.len() >= 2 && are_held(ty, numbers)
}

fn are_held(ty: Ty, numbers: &[i64]) -> bool
    ensures { result ≡ list_all (λ number. holds ty number) numbers.now }
{
    numbers.iter().all(|number| ty.holds(*number))
}

// Whether each number is above the one before.
fn rises(numbers: &[i64]) -> bool
    ensures { result ≡ rises numbers.now }
{
    for i in 1..numbers.len() {
        if numbers[i] <= numbers[i - 1] {
            return false;
        }
    }
    true
}

// Whether there is room for one more list of so many numbers, where so many are there.
fn has_list_room(above: usize, count: usize) -> bool
    ensures { result ≡ list_room above count }
{
    count <= MOST_NUMBERS && above < MOST_LISTS
}

// ---- equal steps

// The axis of a count of points in equal steps.
#[tactic(auto, using(crate::proofs::ListFacts::room_few), unfolding(crate::specs::Forms::steps_given))]
fn steps_given(above: usize, ty: Ty, offset: i64, step: i64, count: i64) -> Result<Axis, NetKind>
    requires { width_of ty ≤ 16 }
    ensures { result ≡ steps_given above ty offset step count }
{
    demand!(are_steps(ty, offset, step, count), NetKind::OutOfRange);
    demand!(has_list_room(above, count as usize), NetKind::TooMany);
    Ok(stepped_axis(ty, offset, step, count))
}

// The axis of steps that make one.
fn stepped_axis(ty: Ty, offset: i64, step: i64, count: i64) -> Axis
    requires narrow { width_of ty ≤ 16 }
    requires good { are_steps ty offset step count ≡ true }
    requires few { nat_le (unsigned_abs count) 4096 ≡ true }
    ensures { result ≡ stepped_axis ty offset step (unsigned_abs count) }
{
    match Axis::stepped(ty, offset, step, count as u32) {
        Ok(axis) => axis,
        Err(_) => unreachable!(),
    }
}

// Two points or more in equal steps that rise, all in the type.
#[tactic(auto, using(crate::proofs::ListFacts::held_is_small))]
fn are_steps(ty: Ty, offset: i64, step: i64, count: i64) -> bool
    ensures { result ≡ are_steps ty offset step count }
{
    if !has_steps(step, count) {
        return false;
    }
    if !ty.holds(offset) {
        return false;
    }
    ty.holds(last_point(offset, step, count))
}

fn has_steps(step: i64, count: i64) -> bool
    ensures { result ≡ (in_range steps step && in_range counts count) }
{
    let steps = Range {
        low: 1,
        high: 65_535,
    };
    let counts = Range {
        low: 2,
        high: 65_536,
    };
    in_range(steps, step) && in_range(counts, count)
}

// The last of a count of points.
fn last_point(offset: i64, step: i64, count: i64) -> i64
    requires steps { (in_range steps step && in_range counts count) ≡ true }
    requires first { unsigned_abs offset ≤ 2 ^ 32 }
    ensures { result ≡ offset +ℤ (count -ℤ pos 1) *ℤ step }
{
    offset + (count - 1) * step
}

// The axis of a count of points in steps of a power of two.
#[tactic(auto, unfolding(crate::specs::Forms::shift_given))]
fn shift_given(above: usize, ty: Ty, offset: i64, shift: i64, count: i64) -> Result<Axis, NetKind>
    requires { width_of ty ≤ 16 }
    ensures { result ≡ shift_given above ty offset shift count }
{
    let shifts = Range { low: 0, high: 15 };
    demand!(in_range(shifts, shift), NetKind::OutOfRange);
    steps_given(above, ty, offset, power_of_two(shift as u32), count)
}

fn power_of_two(shift: u32) -> i64
    requires { shift ≤ 15 }
    ensures { result ≡ pos (2 ^ shift) }
{
    1 << shift
}
