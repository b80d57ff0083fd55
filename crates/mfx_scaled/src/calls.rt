// A form by its operation, its types and its binary points.

ghost use Rattle.std.specs.Prelude.{◌≡◌, ◌≤◌};
ghost use Rattle.mfx_scaled.specs.Calls.{scaled_value};
ghost use Rattle.mfx_scaled.specs.Operations.{HasArguments};

use crate::binary_points::Points;
use crate::counts::exact;
use fx_routines::ScaledOp;
use mfx_arith::Variant;

/// The form `op` at the types `v` and the binary points `p`, on the raw counts `x` and `y`. The
/// answer is a raw count of `v.o` at the point `p.c`, rounded toward zero; beyond an end of `v.o` it
/// is that end. A quotient by 0 is the greatest count of `v.o` for an `x` of at least 0, else the
/// least. `Convert` has no `y` and doesn't look at it.
pub fn call(op: ScaledOp, v: Variant, x: i64, y: i64, p: Points) -> i64
    requires arguments { HasArguments op v x y }
    requires first_point { p.a ≤ 15 }
    requires second_point { p.b ≤ 15 }
    requires output_point { p.c ≤ 15 }
    ensures { result ≡ scaled_value op v.o x y p }
{
    let first = exact(x, p.a);
    let second = exact(y, p.b);
    match op {
        ScaledOp::Convert => first.converted(v.o(), p.c),
        ScaledOp::Add => first.plus(second, p.c).stored(v.o(), p.c),
        ScaledOp::Sub => first.minus(second, p.c).stored(v.o(), p.c),
        ScaledOp::AbsDiff => first.minus(second, p.c).absolute().stored(v.o(), p.c),
        ScaledOp::Mul => first.times(second).stored(v.o(), p.c),
        ScaledOp::Div => first.over(second, v.o(), p.c),
    }
}
