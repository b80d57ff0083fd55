// The value of each operation of arithmetic at whole numbers of at most 32 bits, rounded and not
// saturated.

ghost use Rattle.std.specs.Prelude.{◌≡◌, ◌<◌, ◌≤◌, ◌^◌, unsigned_abs, IsTrue};
ghost use Rattle.mfx_arith.specs.Operations.{is_smooth_operation};
ghost use Rattle.mfx_rules.specs.ArithCorners.{HasDivisor, corner_value};

use mfx_arith::ArithOp;
use part_rules::Whole;

/// The value of an operation at the numbers of its arguments. What it doesn't have isn't looked at.
pub(crate) fn value_at(op: ArithOp, shift: u8, x: Whole, y: Whole, z: Whole) -> Whole
    requires rule { IsTrue (is_smooth_operation op) }
    requires shift { shift ≤ 15 }
    requires first { unsigned_abs x.number < 2 ^ 32 }
    requires second { unsigned_abs y.number < 2 ^ 32 }
    requires third { unsigned_abs z.number < 2 ^ 32 }
    requires divisor { HasDivisor op y.number z.number }
    ensures { result.number ≡ corner_value op shift x.number y.number z.number }
{
    match op {
        ArithOp::Add => x.plus(y),
        ArithOp::Sub => x.minus(y),
        ArithOp::AbsDiff => x.minus(y).absolute(),
        ArithOp::Abs => x.absolute(),
        ArithOp::Mul => x.times(y),
        ArithOp::Div => x.over(y),
        ArithOp::Mod => unreachable!(),
        ArithOp::MulDiv => x.times(y).over(z),
        ArithOp::MulShRight => x.times(y).over(Whole::of_shift(shift)),
        ArithOp::DivShLeft => x.times(Whole::of_shift(shift)).over(y),
        ArithOp::Limit => z.lesser(y.greater(x)),
        ArithOp::Min => x.lesser(y),
        ArithOp::Max => x.greater(y),
        ArithOp::RateLimiter => y.plus(z).lesser(y.minus(z).greater(x)),
    }
}
