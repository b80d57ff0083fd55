// The values of look-ups at whole numbers, rounded downward: at any number, and where they bend.

ghost use Rattle.std.specs.Prelude.{◌≡◌, ◌*◌, ◌-◌, ◌<◌, ◌≤ℤ◌, length, pos};
ghost use Rattle.fx_core.specs.Types.{Holds};
ghost use Rattle.ifx_search.specs.Axes.{IsAxis, point_at};
ghost use Rattle.ifx_search.specs.Positions.{position};
ghost use Rattle.ifx_curves.specs.Curves.{curve};
ghost use Rattle.ifx_curves.specs.Tables.{IsTable};
ghost use Rattle.ifx_rules.specs.LookUpRules.{curve_over, rounded_down};

use ifx_curves::{CurveOp, Table, call, call_int};
use ifx_search::{Axis, search};
use part_rules::Whole;

/// A place where a look-up bends, and its value there, both raw counts.
#[derive(Clone, Copy)]
pub(crate) struct Bend {
    pub(crate) place: i64,
    pub(crate) value: i64,
}

/// The position of a number.
pub(crate) fn position_at(axis: &Axis, x: i64) -> Whole
    requires { Holds axis.now.ty x }
    ensures { result.number ≡ rounded_down (position axis.now.points) x }
{
    Whole::of_count(search(axis, x).word())
}

/// The value of a curve at a position.
pub(crate) fn curve_at(table: &Table, position: i64) -> Whole
    requires low { pos 0 ≤ℤ position }
    requires high { position ≤ℤ pos (65536 * (length table.now.values - 1)) }
    ensures { result.number ≡ rounded_down (curve table.now.values) position }
{
    Whole::of_count(call(CurveOp::Ipo, table, position))
}

/// The value of a curve over an axis at a number.
pub(crate) fn curve_over_at(axis: &Axis, table: &Table, x: i64) -> Whole
    requires lengths { length axis.now.points ≡ length table.now.values }
    requires input { Holds axis.now.ty x }
    ensures { result.number ≡ rounded_down (curve_over axis.now.points table.now.values) x }
{
    Whole::of_count(call_int(CurveOp::Ipo, axis, table, x))
}

/// Point `i` of an axis, and its position.
pub(crate) fn position_bend(axis: &Axis, i: u32) -> Bend
    requires axis { IsAxis axis.now.ty axis.now.points }
    requires bound { i < length axis.now.points }
    ensures place { result.place ≡ point_at axis.now.points i }
    ensures value { result.value ≡ rounded_down (position axis.now.points) (point_at axis.now.points i) }
{
    Bend {
        place: axis.point(i),
        value: 65536 * i64::from(i),
    }
}

/// The position of value `i` of a table, and that value.
pub(crate) fn curve_bend(table: &Table, i: u32) -> Bend
    requires table { IsTable table.now.ty table.now.values }
    requires bound { i < length table.now.values }
    ensures place { result.place ≡ pos (65536 * i) }
    ensures value { result.value ≡ rounded_down (curve table.now.values) (pos (65536 * i)) }
{
    Bend {
        place: 65536 * i64::from(i),
        value: table.value(i),
    }
}

/// Point `i` of an axis, and the value of a table that stands there.
pub(crate) fn curve_over_bend(axis: &Axis, table: &Table, i: u32) -> Bend
    requires axis { IsAxis axis.now.ty axis.now.points }
    requires lengths { length axis.now.points ≡ length table.now.values }
    requires bound { i < length axis.now.points }
    ensures place { result.place ≡ point_at axis.now.points i }
    ensures value { result.value ≡ rounded_down (curve_over axis.now.points table.now.values) (point_at axis.now.points i) }
{
    Bend {
        place: axis.point(i),
        value: table.value(i),
    }
}
