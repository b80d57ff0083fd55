// How steep a map is in each direction.

ghost use Rattle.std.specs.Prelude.{◌≡◌, ◌<◌, ◌≤◌, length, pos, unsigned_abs};
ghost use Rattle.ifx_curves.specs.Slopes.{counts_of};
ghost use Rattle.ifx_maps.specs.declared.slopes.Direction.TheVariants.{X, Y};
ghost use Rattle.ifx_maps.specs.Maps.{IsMap};
ghost use Rattle.ifx_maps.specs.Slopes.{column_slope, column_step, columns_along, lines_along, next_value, point_of, points_along, slope_from, slope_of, step_from, step_of};

use crate::map_table::MapTable;
use ifx_curves::{Slope, run, steeper};
use ifx_search::Axis;

/// A direction of a map.
#[derive(Clone, Copy, Debug, PartialEq, Eq)]
pub enum Direction {
    /// From a column to the next.
    X,
    /// From a line to the next.
    Y,
}

/// The greatest step from a value of the map to that of the same line in the next column, a raw count
/// without its sign.
pub fn step_x(m: &MapTable) -> i64
    ensures { result ≡ pos (step_of X m.now) }
{
    i64::from(greatest_step(Direction::X, m))
}

/// The greatest step from a value of the map to that of the same column in the next line, a raw count
/// without its sign.
pub fn step_y(m: &MapTable) -> i64
    ensures { result ≡ pos (step_of Y m.now) }
{
    i64::from(greatest_step(Direction::Y, m))
}

/// The steepest slope of a map over `ax` along `x`, without its sign: how far the value goes from a
/// column to the next, and how far these are apart, both raw counts. Of equal slopes it is the first
/// by the place of its lower end.
pub fn slope_x(ax: &Axis, m: &MapTable) -> (i64, i64)
    requires { length ax.now.points ≡ m.now.nx }
    ensures { result ≡ counts_of (slope_of X ax.now.points m.now) }
{
    counts(steepest(Direction::X, ax, m))
}

/// The steepest slope of a map over `ay` along `y`, without its sign: how far the value goes from a
/// line to the next, and how far these are apart, both raw counts. Of equal slopes it is the first by
/// the place of its lower end.
pub fn slope_y(ay: &Axis, m: &MapTable) -> (i64, i64)
    requires { length ay.now.points ≡ m.now.ny }
    ensures { result ≡ counts_of (slope_of Y ay.now.points m.now) }
{
    counts(steepest(Direction::Y, ay, m))
}

fn counts(slope: Slope) -> (i64, i64)
    ensures { result ≡ counts_of slope }
{
    (i64::from(slope.rise), i64::from(slope.run))
}

// ---- all segments of a direction

fn greatest_step(along: Direction, m: &MapTable) -> u32
    ensures { result ≡ step_of along m.now }
{
    let mut greatest = 0;
    for ix in 0..columns(along, m) {
        greatest = greatest.max(greatest_in_column(along, m, ix));
    }
    greatest
}

// The greatest step that begins in column `ix`.
fn greatest_in_column(along: Direction, m: &MapTable, ix: u32) -> u32
    requires { ix < columns_along along m.now }
    ensures { result ≡ column_step along m.now ix }
{
    let mut greatest = 0;
    for iy in 0..lines(along, m) {
        greatest = greatest.max(step(along, m, ix, iy));
    }
    greatest
}

fn steepest(along: Direction, axis: &Axis, m: &MapTable) -> Slope
    requires { length axis.now.points ≡ points_along along m.now }
    ensures { result ≡ slope_of along axis.now.points m.now }
{
    let columns = columns(along, m);
    let mut steepest = steepest_in_column(along, axis, m, 0);
    for ix in 1..columns {
        steepest = steeper(steepest, steepest_in_column(along, axis, m, ix));
    }
    steepest
}

// The steepest slope that begins in column `ix`.
fn steepest_in_column(along: Direction, axis: &Axis, m: &MapTable, ix: u32) -> Slope
    requires lengths { length axis.now.points ≡ points_along along m.now }
    requires column { ix < columns_along along m.now }
    ensures { result ≡ column_slope along axis.now.points m.now ix }
{
    let lines = lines(along, m);
    let mut steepest = slope(along, axis, m, ix, 0);
    for iy in 1..lines {
        steepest = steeper(steepest, slope(along, axis, m, ix, iy));
    }
    steepest
}

// ---- one segment

// In how many columns segments begin.
fn columns(along: Direction, m: &MapTable) -> u32
    ensures columns { result ≡ columns_along along m.now }
    ensures some { 1 ≤ result }
{
    match along {
        Direction::X => m.nx() - 1,
        Direction::Y => m.nx(),
    }
}

// In how many lines segments begin.
fn lines(along: Direction, m: &MapTable) -> u32
    ensures lines { result ≡ lines_along along m.now }
    ensures some { 1 ≤ result }
{
    match along {
        Direction::X => m.ny(),
        Direction::Y => m.ny() - 1,
    }
}

// The slope of the segment that begins in column `ix` and line `iy`.
fn slope(along: Direction, axis: &Axis, m: &MapTable, ix: u32, iy: u32) -> Slope
    requires lengths { length axis.now.points ≡ points_along along m.now }
    requires column { ix < columns_along along m.now }
    requires line { iy < lines_along along m.now }
    ensures { result ≡ slope_from along axis.now.points m.now ix iy }
{
    Slope {
        rise: step(along, m, ix, iy),
        run: run(axis, point(along, ix, iy)),
    }
}

// How far the value at its upper end is from that at its lower one.
fn step(along: Direction, m: &MapTable, ix: u32, iy: u32) -> u32
    requires column { ix < columns_along along m.now }
    requires line { iy < lines_along along m.now }
    ensures { result ≡ step_from along m.now ix iy }
{
    let low = m.value(ix, iy);
    let high = next(along, m, ix, iy);
    high.abs_diff(low) as u32
}

fn next(along: Direction, m: &MapTable, ix: u32, iy: u32) -> i64
    requires map { IsMap m.now.ty m.now.nx m.now.ny m.now.values }
    requires column { ix < columns_along along m.now }
    requires line { iy < lines_along along m.now }
    ensures value { result ≡ next_value along m.now ix iy }
    ensures small { unsigned_abs result < 65536 }
{
    match along {
        Direction::X => m.value(ix + 1, iy),
        Direction::Y => m.value(ix, iy + 1),
    }
}

// The number of its lower end's point on the axis.
fn point(along: Direction, ix: u32, iy: u32) -> u32
    ensures { result ≡ point_of along ix iy }
{
    match along {
        Direction::X => ix,
        Direction::Y => iy,
    }
}
