// The errors of maps, in units of 1/65536 of a raw count: what the two numbers that are read move the
// value by along x and along y, and one rounding.

ghost use Rattle.std.specs.Prelude.{◌≡◌, ◌<◌, ◌^◌, ◌≤ℤ◌, length, pos, unsigned_abs};
ghost use Rattle.part_rules.specs.Entries.{IsSmall};
ghost use Rattle.ifx_maps.specs.declared.slopes.Direction.TheVariants.{X, Y};
ghost use Rattle.ifx_maps.specs.Slopes.{slope_of, step_of};
ghost use Rattle.ifx_rules.specs.LookUpRules.{slope_move};
ghost use Rattle.ifx_rules.specs.MapRules.{moves_error};

use crate::look_up_errors::{ONE_COUNT, SEGMENT, Steepness, slope_move};
use ifx_maps::{MapTable, slope_x, slope_y, step_x, step_y};
use ifx_search::Axis;
use part_rules::Bounds;

/// The error of a map at two positions.
pub(crate) fn map_error(m: &MapTable, px: Bounds, py: Bounds) -> i128
    requires small_x { IsSmall px }
    requires small_y { IsSmall py }
    ensures { result ≡ moves_error (slope_move (pos (step_of X m.now)) (pos 65536) px.err) (slope_move (pos (step_of Y m.now)) (pos 65536) py.err) }
{
    let steepest_x = Steepness {
        rise: step_x(m),
        run: SEGMENT,
    };
    let steepest_y = Steepness {
        rise: step_y(m),
        run: SEGMENT,
    };
    moves_error(slope_move(steepest_x, px), slope_move(steepest_y, py))
}

/// The error of a map over two axes.
pub(crate) fn map_over_error(ax: &Axis, ay: &Axis, m: &MapTable, x: Bounds, y: Bounds) -> i128
    requires columns { length ax.now.points ≡ m.now.nx }
    requires lines { length ay.now.points ≡ m.now.ny }
    requires small_x { IsSmall x }
    requires small_y { IsSmall y }
    ensures { let slope_x = slope_of X ax.now.points m.now in
        let slope_y = slope_of Y ay.now.points m.now in
        result ≡ moves_error (slope_move (pos slope_x.rise) (pos slope_x.run) x.err) (slope_move (pos slope_y.rise) (pos slope_y.run) y.err) }
{
    let along_x = slope_move(steepest_x(ax, m), x);
    let along_y = slope_move(steepest_y(ay, m), y);
    moves_error(along_x, along_y)
}

// How steep a map over two axes is along x.
fn steepest_x(ax: &Axis, m: &MapTable) -> Steepness
    requires { length ax.now.points ≡ m.now.nx }
    ensures rise { result.rise ≡ pos (slope_of X ax.now.points m.now).rise }
    ensures run { result.run ≡ pos (slope_of X ax.now.points m.now).run }
    ensures some { pos 1 ≤ℤ result.run }
{
    // That the points rise and that there are lines is known by these calls alone.
    let _points = ax.len();
    let _lines = m.ny();
    let (rise, run) = slope_x(ax, m);
    Steepness { rise, run }
}

// And along y.
fn steepest_y(ay: &Axis, m: &MapTable) -> Steepness
    requires { length ay.now.points ≡ m.now.ny }
    ensures rise { result.rise ≡ pos (slope_of Y ay.now.points m.now).rise }
    ensures run { result.run ≡ pos (slope_of Y ay.now.points m.now).run }
    ensures some { pos 1 ≤ℤ result.run }
{
    let _points = ay.len();
    let _columns = m.nx();
    let (rise, run) = slope_y(ay, m);
    Steepness { rise, run }
}

// The error of what moves by so much along x and along y, and is rounded downward.
fn moves_error(along_x: i128, along_y: i128) -> i128
    requires first { unsigned_abs along_x < 2 ^ 103 }
    requires second { unsigned_abs along_y < 2 ^ 103 }
    ensures { result ≡ moves_error along_x along_y }
{
    along_x + along_y + ONE_COUNT
}
