// How steep a curve is.

ghost use Rattle.std.specs.Prelude.{◌≡◌, ◌<◌, length, pos, suc};
ghost use Rattle.ifx_curves.specs.Slopes.{counts_of, run_at, slope_at, slope_of, step_at, step_of, steeper};

use crate::table::Table;
use ifx_search::Axis;

/// A slope of a curve without its sign: how far it rises, over how far on the axis, both in raw
/// counts.
#[derive(Clone, Copy, Debug, PartialEq, Eq)]
pub struct Slope {
    pub rise: u32,
    pub run: u32,
}

/// The greatest step from a value of the table to the next, a raw count without its sign.
pub fn greatest_step(table: &Table) -> i64
    ensures { result ≡ pos (step_of table.now.values) }
{
    let mut greatest = 0;
    for i in 0..table.len() - 1 {
        greatest = greatest.max(step(table, i));
    }
    i64::from(greatest)
}

/// The steepest slope of a curve over `axis`, without its sign: how far the value goes in its
/// segment, and the segment's length, both raw counts. Of equal slopes it is the first.
pub fn greatest_slope(axis: &Axis, table: &Table) -> (i64, i64)
    requires { length axis.now.points ≡ length table.now.values }
    ensures { result ≡ counts_of (slope_of axis.now.points table.now.values) }
{
    let segments = axis.len() - 1;
    let mut steepest = segment_slope(axis, table, 0);
    for i in 1..segments {
        steepest = steeper(steepest, segment_slope(axis, table, i));
    }
    (i64::from(steepest.rise), i64::from(steepest.run))
}

// The slope from point `i` to the next one.
fn segment_slope(axis: &Axis, table: &Table, i: u32) -> Slope
    requires lengths { length axis.now.points ≡ length table.now.values }
    requires bound { suc i < length table.now.values }
    ensures { result ≡ slope_at axis.now.points table.now.values i }
{
    Slope {
        rise: step(table, i),
        run: run(axis, i),
    }
}

/// The length of the segment from point number `i` of an axis to the next one, a raw count.
pub fn run(axis: &Axis, i: u32) -> u32
    requires { suc i < length axis.now.points }
    ensures { result ≡ run_at axis.now.points i }
{
    prove!(axis.len() > i + 1);
    let low = axis.point(i);
    let high = axis.point(i + 1);
    high.abs_diff(low) as u32
}

// How far value `i + 1` is from value `i`.
fn step(table: &Table, i: u32) -> u32
    requires { suc i < length table.now.values }
    ensures { result ≡ step_at table.now.values i }
{
    let low = table.value(i);
    let high = table.value(i + 1);
    high.abs_diff(low) as u32
}

/// The steeper of two slopes, and of equal ones the first.
pub fn steeper(first: Slope, second: Slope) -> Slope
    ensures { result ≡ steeper first second }
{
    let first_product = u64::from(first.rise) * u64::from(second.run);
    let second_product = u64::from(second.rise) * u64::from(first.run);
    if first_product < second_product {
        second
    } else {
        first
    }
}
