// Maps: interpolation and look-up at two positions and, integrated, at two inputs.

ghost use Rattle.std.specs.Prelude.{◌≡◌, ◌-◌, ◌*◌, ◌<◌, ◌^◌, ◌≤ℤ◌, length, pos, suc, unsigned_abs};
ghost use Rattle.fx_fraction.specs.Fraction.{Fraction, whole};
ghost use Rattle.fx_core.specs.Rounding.{rounded};
ghost use Rattle.fx_core.specs.Types.{Holds};
ghost use Rattle.fx_core.specs.declared.quotient.Mode.TheVariants.{Floor};
ghost use Rattle.ifx_search.specs.Positions.{position};
ghost use Rattle.ifx_curves.specs.Stretches.{EndsAt, HoldsOver, weighted_sum};
ghost use Rattle.ifx_maps.specs.Surfaces.{column_sum, lower_end, map_value};

use crate::map_table::MapTable;
use fx_routines::MapOp;
use ifx_curves::{Stretch, stretch_at, stretch_to};
use ifx_search::Axis;

/// The value of a map at `px` and `py`, positions on axes of as many points as the map has columns and
/// lines: 65536 for each whole segment, and the way in the next one in 1/65536. It lies in the map's
/// type.
pub fn call(op: MapOp, m: &MapTable, px: i64, py: i64) -> i64
    requires low_x { pos 0 ≤ℤ px }
    requires high_x { px ≤ℤ pos (65536 * (m.now.nx - 1)) }
    requires low_y { pos 0 ≤ℤ py }
    requires high_y { py ≤ℤ pos (65536 * (m.now.ny - 1)) }
    ensures value { result ≡ map_value op m.now (whole px) (whole py) }
    ensures held { Holds m.now.ty result }
{
    let along_x = stretch_at(m.nx(), px);
    let along_y = stretch_at(m.ny(), py);
    value_on(op, m, &along_x, &along_y)
}

/// The value of a map over the axes `ax` and `ay` at `x` and `y`, raw counts of the types of these:
/// interpolated at their positions without rounding them, or looked up at these positions rounded
/// downward. It lies in the map's type.
pub fn call_int(op: MapOp, ax: &Axis, ay: &Axis, m: &MapTable, x: i64, y: i64) -> i64
    requires columns { length ax.now.points ≡ m.now.nx }
    requires lines { length ay.now.points ≡ m.now.ny }
    requires input_x { Holds ax.now.ty x }
    requires input_y { Holds ay.now.ty y }
    ensures value { result ≡ map_value op m.now (position ax.now.points (whole x)) (position ay.now.points (whole y)) }
    ensures held { Holds m.now.ty result }
{
    let along_x = stretch_to(ax, x);
    let along_y = stretch_to(ay, y);
    value_on(op, m, &along_x, &along_y)
}

// The value of a map at the ends of two stretches.
fn value_on(op: MapOp, m: &MapTable, x: &Stretch, y: &Stretch) -> i64
    requires column { suc x.now.segment < m.now.nx }
    requires line { suc y.now.segment < m.now.ny }
    ensures value { (tx ty : Fraction) → EndsAt x.now tx → EndsAt y.now ty → result ≡ map_value op m.now tx ty }
    ensures held { Holds m.now.ty result }
{
    match op {
        MapOp::Ipo => between(m, x, y),
        MapOp::LkUp => m.value(x.nearer_point(), y.nearer_point()),
        MapOp::LkUpBase => m.value(lower_point(x), lower_point(y)),
    }
}

// The value between four, rounded downward once.
fn between(m: &MapTable, x: &Stretch, y: &Stretch) -> i64
    requires column { suc x.now.segment < m.now.nx }
    requires line { suc y.now.segment < m.now.ny }
    ensures value { result ≡ rounded Floor (weighted_sum x.now (column_sum m.now x.now.segment y.now) (column_sum m.now (suc x.now.segment) y.now)) (pos (y.now.span * x.now.span)) }
    ensures held { Holds m.now.ty result }
{
    let low = along_column(m, x.segment, y);
    let high = along_column(m, x.segment + 1, y);
    let sum = x.weighted(low, high);
    sum.div_euclid(sum_of_weights(x, y))
}

// What the weights of the four values come to.
fn sum_of_weights(x: &Stretch, y: &Stretch) -> i64
    ensures weights { result ≡ pos (y.now.span * x.now.span) }
    ensures some { pos 1 ≤ℤ result }
{
    i64::from(y.span) * i64::from(x.span)
}

// What column `ix` has at the end of a stretch along y, times the span.
fn along_column(m: &MapTable, ix: u32, y: &Stretch) -> i64
    requires column { ix < m.now.nx }
    requires line { suc y.now.segment < m.now.ny }
    ensures value { result ≡ column_sum m.now ix y.now }
    ensures held { HoldsOver m.now.ty y.now.span result }
    ensures small { unsigned_abs result < 2 ^ 32 }
{
    let low = m.value(ix, y.segment);
    let high = m.value(ix, y.segment + 1);
    y.weighted(low, high)
}

// The number of the last point at or below the end of a stretch.
fn lower_point(stretch: &Stretch) -> u32
    ensures { result ≡ lower_end stretch.now }
{
    if stretch.way < stretch.span {
        stretch.segment
    } else {
        stretch.segment + 1
    }
}
