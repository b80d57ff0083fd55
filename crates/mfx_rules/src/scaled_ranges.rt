// The range of a form with binary points: the hull of its values at the corners of its arguments'
// ranges.

ghost use Rattle.std.specs.Prelude.{◌≡◌, ◌<◌, ◌^◌, unsigned_abs};
ghost use Rattle.fx_core.specs.Arguments.{two};
ghost use Rattle.part_rules.specs.Entries.{IsSmall};
ghost use Rattle.part_rules.specs.Ranges.{greatest_among, least_among};
ghost use Rattle.mfx_rules.specs.ScaledCorners.{AreLow, FormHasDivisorsAtEnds, form_greatest_at_corners, form_greatest_over_second, form_least_at_corners, form_least_over_second};
ghost use Rattle.mfx_rules.specs.ScaledRules.{level_points, scaled_values};

use crate::scaled_values::value_at;
use mfx_scaled::{Points, ScaledOp};
use part_rules::{Bounds, Range, Whole, high_end, low_end};

// The values over the ends of the second argument's range.
fn over_second(op: ScaledOp, p: Points, x: Whole, y: Bounds) -> Range
    requires points { AreLow p }
    requires first { unsigned_abs x.number < 2 ^ 32 }
    requires second { IsSmall y }
    requires divisor { FormHasDivisorsAtEnds op y }
    ensures lo { result.lo ≡ form_least_over_second op p x.number y }
    ensures hi { result.hi ≡ form_greatest_over_second op p x.number y }
{
    let (low, high) = (low_end(y), high_end(y));
    Range::at(value_at(op, p, x, low)).joined(Range::at(value_at(op, p, x, high)))
}

// The values at all corners.
fn at_corners(op: ScaledOp, p: Points, x: Bounds, y: Bounds) -> Range
    requires points { AreLow p }
    requires first { IsSmall x }
    requires second { IsSmall y }
    requires divisor { FormHasDivisorsAtEnds op y }
    ensures lo { result.lo ≡ form_least_at_corners op p x y }
    ensures hi { result.hi ≡ form_greatest_at_corners op p x y }
{
    over_second(op, p, low_end(x), y).joined(over_second(op, p, high_end(x), y))
}

/// The range of a form's value.
pub(crate) fn range_of(op: ScaledOp, p: Points, x: Bounds, y: Bounds) -> Range
    requires points { AreLow p }
    requires first { IsSmall x }
    requires second { IsSmall y }
    requires divisor { FormHasDivisorsAtEnds op y }
    ensures lo { result.lo ≡ least_among (scaled_values op p (two x y)) }
    ensures hi { result.hi ≡ greatest_among (scaled_values op p (two x y)) }
{
    let range = at_corners(op, p, x, y);
    match op {
        ScaledOp::AbsDiff => range.turned(at_corners(ScaledOp::Sub, level(p), x, y)),
        _ => range,
    }
}

// The inputs' points, with the higher of them for the output.
fn level(p: Points) -> Points
    requires { AreLow p }
    ensures points { result ≡ level_points p }
    ensures low { AreLow result }
{
    Points {
        a: p.a,
        b: p.b,
        c: p.a.max(p.b),
    }
}
