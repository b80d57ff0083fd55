// The error of an operation of arithmetic, in units of 1/65536 of a raw count.

ghost use Rattle.std.specs.Prelude.{◌≡◌, ◌≤◌, false, IsTrue};
ghost use Rattle.fx_core.specs.Arguments.{three};
ghost use Rattle.mfx_arith.specs.Operations.{is_smooth_operation};
ghost use Rattle.mfx_rules.specs.ArithRules.{arith_error, arith_may_divide_by_zero};
ghost use Rattle.part_rules.specs.Entries.{IsSmall};

use mfx_arith::ArithOp;
use part_rules::{
    Bounds, greater, greater_error, magnitude, product_error, product_quotient_error,
    quotient_error, shifted_error, shifted_quotient_error, sum_error,
};

/// The error of an operation's value.
pub(crate) fn error_of(op: ArithOp, shift: u8, x: Bounds, y: Bounds, z: Bounds) -> i128
    requires rule { IsTrue (is_smooth_operation op) }
    requires shift { shift ≤ 15 }
    requires first { IsSmall x }
    requires second { IsSmall y }
    requires third { IsSmall z }
    requires nonzero { arith_may_divide_by_zero op (three x y z) ≡ false }
    ensures { result ≡ arith_error op shift (three x y z) }
{
    match op {
        ArithOp::Add | ArithOp::Sub | ArithOp::AbsDiff => sum_error(x, y),
        ArithOp::Abs => i128::from(x.err),
        ArithOp::Mul => product_error(x, y),
        ArithOp::Div => quotient_error(0, magnitude(x), i128::from(x.err), y),
        ArithOp::Mod => unreachable!(),
        ArithOp::MulDiv => product_quotient_error(x, y, z),
        ArithOp::MulShRight => shifted_error(shift, product_error(x, y)),
        ArithOp::DivShLeft => shifted_quotient_error(shift, x, y),
        ArithOp::Limit => greater(greater_error(x, y), i128::from(z.err)),
        ArithOp::Min | ArithOp::Max => greater_error(x, y),
        ArithOp::RateLimiter => greater(i128::from(x.err), sum_error(y, z)),
    }
}
