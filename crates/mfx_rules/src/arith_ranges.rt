// The range of an operation of arithmetic: the hull of its values at the corners of its arguments'
// ranges.

ghost use Rattle.std.specs.Prelude.{◌≡◌, ◌<◌, ◌≤◌, ◌^◌, unsigned_abs, IsTrue};
ghost use Rattle.fx_core.specs.Arguments.{three};
ghost use Rattle.mfx_arith.specs.Operations.{is_smooth_operation};
ghost use Rattle.mfx_rules.specs.ArithCorners.{HasDivisor, HasDivisorsAtEnds, greatest_at_corners, greatest_over_second, greatest_over_third, least_at_corners, least_over_second, least_over_third};
ghost use Rattle.mfx_rules.specs.ArithRules.{arith_values};
ghost use Rattle.part_rules.specs.Entries.{IsSmall};
ghost use Rattle.part_rules.specs.Ranges.{greatest_among, least_among};

use crate::arith_values::value_at;
use mfx_arith::ArithOp;
use part_rules::{Bounds, Range, Whole, ends, high_end, low_end};

// The values over the ends of the third argument's range.
fn over_third(op: ArithOp, shift: u8, x: Whole, y: Whole, z: Bounds) -> Range
    requires rule { IsTrue (is_smooth_operation op) }
    requires shift { shift ≤ 15 }
    requires first { unsigned_abs x.number < 2 ^ 32 }
    requires second { unsigned_abs y.number < 2 ^ 32 }
    requires third { IsSmall z }
    requires low_divisor { HasDivisor op y.number z.lo }
    requires high_divisor { HasDivisor op y.number z.hi }
    ensures lo { result.lo ≡ least_over_third op shift x.number y.number z }
    ensures hi { result.hi ≡ greatest_over_third op shift x.number y.number z }
{
    let (low, high) = (low_end(z), high_end(z));
    Range::at(value_at(op, shift, x, y, low)).joined(Range::at(value_at(op, shift, x, y, high)))
}

// The values over the ends of the second and of the third argument's range.
fn over_second(op: ArithOp, shift: u8, x: Whole, y: Bounds, z: Bounds) -> Range
    requires rule { IsTrue (is_smooth_operation op) }
    requires shift { shift ≤ 15 }
    requires first { unsigned_abs x.number < 2 ^ 32 }
    requires second { IsSmall y }
    requires third { IsSmall z }
    requires divisor { HasDivisorsAtEnds op y z }
    ensures lo { result.lo ≡ least_over_second op shift x.number y z }
    ensures hi { result.hi ≡ greatest_over_second op shift x.number y z }
{
    over_third(op, shift, x, low_end(y), z).joined(over_third(op, shift, x, high_end(y), z))
}

// The values at all corners.
fn at_corners(op: ArithOp, shift: u8, x: Bounds, y: Bounds, z: Bounds) -> Range
    requires rule { IsTrue (is_smooth_operation op) }
    requires shift { shift ≤ 15 }
    requires first { IsSmall x }
    requires second { IsSmall y }
    requires third { IsSmall z }
    requires divisor { HasDivisorsAtEnds op y z }
    ensures lo { result.lo ≡ least_at_corners op shift x y z }
    ensures hi { result.hi ≡ greatest_at_corners op shift x y z }
{
    over_second(op, shift, low_end(x), y, z).joined(over_second(op, shift, high_end(x), y, z))
}

/// The range of an operation's value.
pub(crate) fn range_of(op: ArithOp, shift: u8, x: Bounds, y: Bounds, z: Bounds) -> Range
    requires rule { IsTrue (is_smooth_operation op) }
    requires shift { shift ≤ 15 }
    requires first { IsSmall x }
    requires second { IsSmall y }
    requires third { IsSmall z }
    requires divisor { HasDivisorsAtEnds op y z }
    ensures lo { result.lo ≡ least_among (arith_values op shift (three x y z)) }
    ensures hi { result.hi ≡ greatest_among (arith_values op shift (three x y z)) }
{
    let range = at_corners(op, shift, x, y, z);
    match op {
        ArithOp::AbsDiff => range.turned(at_corners(ArithOp::Sub, 0, x, y, z)),
        ArithOp::Abs => range.turned(ends(x)),
        _ => range,
    }
}
