// The error of a form with binary points, in units of 1/65536 of a raw count.

ghost use Rattle.std.specs.Prelude.{◌≡◌, pos, ◌+◌, ◌-◌, ◌<◌, ◌≤◌, ◌≤ℤ◌, ◌<ℤ◌, ◌*ℤ◌, ◌^◌, false};
ghost use Rattle.fx_core.specs.Rounding.{power};
ghost use Rattle.fx_core.specs.Arguments.{two};
ghost use Rattle.part_rules.specs.Errors.{may_be_zero, product_error, magnitude, quotient_error};
ghost use Rattle.part_rules.specs.Entries.{IsSmall};
ghost use Rattle.mfx_rules.specs.ScaledCorners.{AreLow};
ghost use Rattle.mfx_rules.specs.ScaledRules.{converted_error, scaled_error, scaled_may_divide_by_zero, sum_error};

use crate::scaled_counts::{Count, exact, highest};
use mfx_scaled::{Points, ScaledOp};
use part_rules::{Bounds, magnitude, product_error, quotient_error, shifted_error};

/// The error of a form's value.
pub(crate) fn error_of(op: ScaledOp, p: Points, x: Bounds, y: Bounds) -> i128
    requires points { AreLow p }
    requires first { IsSmall x }
    requires second { IsSmall y }
    requires nonzero { scaled_may_divide_by_zero op (two x y) ≡ false }
    ensures { result ≡ scaled_error op p (two x y) }
{
    match op {
        ScaledOp::Convert => converted_error(exact(x.err, p.a), p.c),
        ScaledOp::Add | ScaledOp::Sub | ScaledOp::AbsDiff => sum_error(p, x, y),
        ScaledOp::Mul => converted_error(product_at(p, x, y), p.c),
        ScaledOp::Div => quotient_at(p, x, y),
    }
}

// The error of a product, at the sum of its factors' points.
fn product_at(p: Points, x: Bounds, y: Bounds) -> Count
    requires points { AreLow p }
    requires first { IsSmall x }
    requires second { IsSmall y }
    ensures number { result.number ≡ product_error x y }
    ensures point { result.point ≡ p.a + p.b }
    ensures low { pos 0 ≤ℤ result.number }
    ensures high { result.number <ℤ pos (2 ^ 74) }
{
    Count {
        number: product_error(x, y),
        point: p.a + p.b,
    }
}

// The error through a change of the binary point.
fn converted_error(err: Count, point: u8) -> i128
    requires low { pos 0 ≤ℤ err.number }
    requires high { err.number <ℤ pos (2 ^ 74) }
    requires from { err.point ≤ 30 }
    requires to { point ≤ 15 }
    ensures { result ≡ converted_error err.point point err.number }
{
    let high = err.point.max(point);
    shifted_error(high - point, err.raised(high).number)
}

// The error of a sum: both errors together at the highest point, and from there at the output's.
#[tactic(auto, unfolding(crate::specs::ScaledRules::sum_error))]
fn sum_error(p: Points, x: Bounds, y: Bounds) -> i128
    requires points { AreLow p }
    requires first { IsSmall x }
    requires second { IsSmall y }
    ensures { result ≡ sum_error p x.err y.err }
{
    let high = highest(p);
    let sum = exact(x.err, p.a).plus(exact(y.err, p.b), high);
    shifted_error(high - p.c, sum.number)
}

// The error of a quotient: the dividend is raised or the divisor is, to the higher of their points.
fn quotient_at(p: Points, x: Bounds, y: Bounds) -> i128
    requires points { AreLow p }
    requires dividend { IsSmall x }
    requires divisor { IsSmall y }
    requires nonzero { may_be_zero y ≡ false }
    ensures { result ≡ quotient_error (p.a - (p.c + p.b)) (magnitude x *ℤ power (p.c + p.b - p.a)) (x.err *ℤ power (p.c + p.b - p.a)) y }
{
    let divisor_point = p.c + p.b;
    let high = p.a.max(divisor_point);
    let top = Count {
        number: magnitude(x),
        point: p.a,
    };
    quotient_error(
        high - divisor_point,
        top.raised(high).number,
        exact(x.err, p.a).raised(high).number,
        y,
    )
}
