// The value of each form with binary points at whole numbers of at most 32 bits, rounded and not
// saturated.

ghost use Rattle.std.specs.Prelude.{◌≡◌, ◌<◌, ◌≤◌, ◌^◌, int_div, max, unsigned_abs, ◌+◌};
ghost use Rattle.mfx_scaled.specs.Counts.{raised};
ghost use Rattle.mfx_rules.specs.ScaledCorners.{AreLow, FormHasDivisor, form_value};

use crate::scaled_counts::{Count, at_point, highest};
use mfx_scaled::{Points, ScaledOp};
use part_rules::Whole;

/// The value of a form at the numbers of its arguments. What it doesn't have isn't looked at.
pub(crate) fn value_at(op: ScaledOp, p: Points, x: Whole, y: Whole) -> Whole
    requires points { AreLow p }
    requires first { unsigned_abs x.number < 2 ^ 32 }
    requires second { unsigned_abs y.number < 2 ^ 32 }
    requires divisor { FormHasDivisor op y.number }
    ensures { result.number ≡ form_value op p x.number y.number }
{
    let (first, second) = (at_point(x, p.a), at_point(y, p.b));
    match op {
        ScaledOp::Convert => first.moved(p.c),
        ScaledOp::Add => first.plus(second, highest(p)).lowered(p.c),
        ScaledOp::Sub => first.minus(second, highest(p)).lowered(p.c),
        ScaledOp::AbsDiff => first.minus(second, highest(p)).absolute().lowered(p.c),
        ScaledOp::Mul => first.times(second).moved(p.c),
        ScaledOp::Div => quotient(first, second, p.c),
    }
}

// The quotient at a binary point: the plain one by a divisor whose point is that much higher.
fn quotient(dividend: Count, divisor: Count, point: u8) -> Whole
    requires first { unsigned_abs dividend.number < 2 ^ 32 }
    requires second { unsigned_abs divisor.number < 2 ^ 32 }
    requires nonzero { 1 ≤ unsigned_abs divisor.number }
    requires points { (dividend.point ≤ 15) × (divisor.point ≤ 15) }
    requires to { point ≤ 15 }
    ensures { let high = max dividend.point (point + divisor.point) in
        result.number ≡ int_div (raised dividend.number dividend.point high) (raised divisor.number (point + divisor.point) high) }
{
    let divisor = Count {
        number: divisor.number,
        point: point + divisor.point,
    };
    let high = dividend.point.max(divisor.point);
    dividend.raised(high).over(divisor.raised(high))
}
