// Curves: interpolation and look-up at a position and, integrated, at an input.

ghost use Rattle.std.specs.Prelude.{◌≡◌, ◌-◌, ◌*◌, ◌<◌, ◌≤ℤ◌, length, pos, suc};
ghost use Rattle.fx_fraction.specs.Fraction.{Fraction, whole};
ghost use Rattle.fx_core.specs.Rounding.{rounded};
ghost use Rattle.fx_core.specs.Types.{Holds};
ghost use Rattle.fx_core.specs.declared.quotient.Mode.TheVariants.{Floor};
ghost use Rattle.ifx_search.specs.Positions.{position};
ghost use Rattle.ifx_curves.specs.Curves.{curve_value};
ghost use Rattle.ifx_curves.specs.Stretches.{EndsAt, weighted_sum};
ghost use Rattle.ifx_curves.specs.Tables.{value_at};

use crate::stretch::Stretch;
use crate::stretches::{stretch_at, stretch_to};
use crate::table::Table;
use fx_routines::CurveOp;
use ifx_search::Axis;

/// The value of a curve at `dp`, a position on an axis of as many points as the table has values:
/// 65536 for each whole segment, and the way in the next one in 1/65536. It lies in the table's type.
pub fn call(op: CurveOp, table: &Table, dp: i64) -> i64
    requires low { pos 0 ≤ℤ dp }
    requires high { dp ≤ℤ pos (65536 * (length table.now.values - 1)) }
    ensures value { result ≡ curve_value op table.now.values (whole dp) }
    ensures held { Holds table.now.ty result }
{
    value_on(op, table, &stretch_at(table.len(), dp))
}

/// The value of a curve over `axis` at `x`, a raw count of the axis's type: interpolated at the
/// position of `x` without rounding it, or looked up at that position rounded downward. It lies in
/// the table's type.
pub fn call_int(op: CurveOp, axis: &Axis, table: &Table, x: i64) -> i64
    requires lengths { length axis.now.points ≡ length table.now.values }
    requires input { Holds axis.now.ty x }
    ensures value { result ≡ curve_value op table.now.values (position axis.now.points (whole x)) }
    ensures held { Holds table.now.ty result }
{
    value_on(op, table, &stretch_to(axis, x))
}

// The value of a curve at the end of a stretch.
fn value_on(op: CurveOp, table: &Table, stretch: &Stretch) -> i64
    requires bound { suc stretch.now.segment < length table.now.values }
    ensures value { (t : Fraction) → EndsAt stretch.now t → result ≡ curve_value op table.now.values t }
    ensures held { Holds table.now.ty result }
{
    match op {
        CurveOp::Ipo => between(table, stretch),
        CurveOp::LkUp => table.value(stretch.nearer_point()),
    }
}

// The value between two, rounded downward.
fn between(table: &Table, stretch: &Stretch) -> i64
    requires bound { suc stretch.now.segment < length table.now.values }
    ensures value { result ≡ rounded Floor (weighted_sum stretch.now (value_at table.now.values stretch.now.segment) (value_at table.now.values (suc stretch.now.segment))) (pos stretch.now.span) }
    ensures held { Holds table.now.ty result }
{
    let low = table.value(stretch.segment);
    let high = table.value(stretch.segment + 1);
    let sum = stretch.weighted(low, high);
    sum.div_euclid(i64::from(stretch.span))
}
