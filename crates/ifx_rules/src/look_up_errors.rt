// The errors of look-ups, in units of 1/65536 of a raw count. The error of what is read has at most 40
// bits, and no number here more than 103.

ghost use Rattle.std.specs.Prelude.{◌≡◌, ◌<◌, ◌^◌, ◌≤ℤ◌, ◌<ℤ◌, ◌*ℤ◌, length, pos, unsigned_abs};
ghost use Rattle.fx_core.specs.Rounding.{least_quotient_above};
ghost use Rattle.part_rules.specs.Entries.{IsSmall};
ghost use Rattle.ifx_curves.specs.Slopes.{slope_of, step_of};
ghost use Rattle.ifx_rules.specs.LookUpRules.{gap_of, slope_error, slope_move};

use crate::gaps::least_gap;
use fx_core::ceil_div;
use ifx_curves::{Table, greatest_slope, greatest_step};
use ifx_search::Axis;
use part_rules::Bounds;

/// How far the positions of neighbouring points are apart.
pub(crate) const SEGMENT: i64 = 65536;

/// What rounding downward may move a value by, one raw count, in the units of errors.
pub(crate) const ONE_COUNT: i128 = 65536;

/// How steep a look-up is at most: its value moves by no more than `rise` where what it reads moves
/// by `run`, both in raw counts.
#[derive(Clone, Copy)]
pub(crate) struct Steepness {
    pub(crate) rise: i64,
    pub(crate) run: i64,
}

/// The error of a position.
pub(crate) fn position_error(axis: &Axis, x: Bounds) -> i128
    requires { IsSmall x }
    ensures { result ≡ slope_error (pos 65536) (pos (gap_of axis.now.points)) x.err }
{
    let steepest = Steepness {
        rise: SEGMENT,
        run: least_gap(axis),
    };
    slope_error(steepest, x)
}

/// The error of a curve at a position.
pub(crate) fn curve_error(table: &Table, position: Bounds) -> i128
    requires { IsSmall position }
    ensures { result ≡ slope_error (pos (step_of table.now.values)) (pos 65536) position.err }
{
    let steepest = Steepness {
        rise: greatest_step(table),
        run: SEGMENT,
    };
    slope_error(steepest, position)
}

/// The error of a curve over an axis.
pub(crate) fn curve_over_error(axis: &Axis, table: &Table, x: Bounds) -> i128
    requires lengths { length axis.now.points ≡ length table.now.values }
    requires small { IsSmall x }
    ensures { result ≡ slope_error (pos (slope_of axis.now.points table.now.values).rise) (pos (slope_of axis.now.points table.now.values).run) x.err }
{
    slope_error(steepest_over(axis, table), x)
}

// How steep a curve over an axis is.
fn steepest_over(axis: &Axis, table: &Table) -> Steepness
    requires { length axis.now.points ≡ length table.now.values }
    ensures rise { result.rise ≡ pos (slope_of axis.now.points table.now.values).rise }
    ensures run { result.run ≡ pos (slope_of axis.now.points table.now.values).run }
    ensures some { pos 1 ≤ℤ result.run }
{
    // That the points rise is known by this call alone.
    let _points = axis.len();
    let (rise, run) = greatest_slope(axis, table);
    Steepness { rise, run }
}

// The error of what is nowhere steeper than this, and is rounded downward.
fn slope_error(steepest: Steepness, x: Bounds) -> i128
    requires rise { pos 0 ≤ℤ steepest.rise }
    requires run { pos 1 ≤ℤ steepest.run }
    requires small { IsSmall x }
    ensures { result ≡ slope_error steepest.rise steepest.run x.err }
{
    slope_move(steepest, x) + ONE_COUNT
}

/// How far a value moves at most that is nowhere steeper than this, where what is read is off by its
/// error.
pub(crate) fn slope_move(steepest: Steepness, x: Bounds) -> i128
    requires rise { pos 0 ≤ℤ steepest.rise }
    requires run { pos 1 ≤ℤ steepest.run }
    requires small { IsSmall x }
    ensures value { result ≡ slope_move steepest.rise steepest.run x.err }
    ensures size { unsigned_abs result < 2 ^ 103 }
{
    let raised = product(i128::from(steepest.rise), i128::from(x.err));
    quotient_above(raised, i128::from(steepest.run))
}

// The product of a number of at most 63 bits and an error.
fn product(rise: i128, err: i128) -> i128
    requires rise_low { pos 0 ≤ℤ rise }
    requires rise_high { rise <ℤ pos (2 ^ 63) }
    requires low { pos 0 ≤ℤ err }
    requires high { err <ℤ pos (2 ^ 40) }
    ensures value { result ≡ rise *ℤ err }
    ensures low { pos 0 ≤ℤ result }
    ensures high { result <ℤ pos (2 ^ 103) }
{
    rise * err
}

// The least whole number that isn't below `raised / run`.
fn quotient_above(raised: i128, run: i128) -> i128
    requires low { pos 0 ≤ℤ raised }
    requires high { raised <ℤ pos (2 ^ 103) }
    requires run { pos 1 ≤ℤ run }
    ensures value { result ≡ least_quotient_above raised run }
    ensures size { unsigned_abs result < 2 ^ 103 }
{
    ceil_div(raised, run)
}
