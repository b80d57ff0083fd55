// Sums, differences, products and absolute values.

ghost use Rattle.std.specs.Prelude.{◌≡◌, pos, ◌≤◌};
ghost use Rattle.fx_core.specs.Types.{width_of};
ghost use Rattle.mfx_arith.specs.Calls.{arith_value};

use crate::integers::exact;
use fx_core::FxInt;
use fx_routines::ArithOp;

/// The sum `x + y`, saturated.
#[tactic(auto, using(crate::proofs::WholeNumbers::add_is))]
pub fn add<X: FxInt, Y: FxInt, Z: FxInt>(x: X, y: Y) -> Z
    requires one_width { width_of X.TY ≡ width_of Y.TY }
    ensures { Z.wide result ≡ arith_value ArithOp.Add Z.TY (X.wide x) (Y.wide y) (pos 0) 0 }
{
    exact(x).plus(exact(y)).stored()
}

/// The difference `x - y`, saturated.
#[tactic(auto, using(crate::proofs::WholeNumbers::sub_is))]
pub fn sub<X: FxInt, Y: FxInt, Z: FxInt>(x: X, y: Y) -> Z
    requires one_width { width_of X.TY ≡ width_of Y.TY }
    ensures { Z.wide result ≡ arith_value ArithOp.Sub Z.TY (X.wide x) (Y.wide y) (pos 0) 0 }
{
    exact(x).minus(exact(y)).stored()
}

/// The distance `|x - y|`, saturated.
#[tactic(auto, using(crate::proofs::WholeNumbers::abs_diff_is))]
pub fn abs_diff<X: FxInt, Y: FxInt, Z: FxInt>(x: X, y: Y) -> Z
    requires one_width { width_of X.TY ≡ width_of Y.TY }
    ensures { Z.wide result ≡ arith_value ArithOp.AbsDiff Z.TY (X.wide x) (Y.wide y) (pos 0) 0 }
{
    exact(x).minus(exact(y)).absolute().stored()
}

/// The absolute value `|x|`, saturated.
#[tactic(auto, using(crate::proofs::WholeNumbers::abs_is))]
pub fn abs<X: FxInt, Z: FxInt>(x: X) -> Z
    ensures { Z.wide result ≡ arith_value ArithOp.Abs Z.TY (X.wide x) (pos 0) (pos 0) 0 }
{
    exact(x).absolute().stored()
}

/// The product `x * y`, saturated.
#[tactic(auto, using(crate::proofs::WholeNumbers::mul_is))]
pub fn mul<X: FxInt, Y: FxInt, Z: FxInt>(x: X, y: Y) -> Z
    requires one_width { width_of X.TY ≡ width_of Y.TY }
    ensures { Z.wide result ≡ arith_value ArithOp.Mul Z.TY (X.wide x) (Y.wide y) (pos 0) 0 }
{
    exact(x).times(exact(y)).stored()
}

/// The product over two to the power of `sh`, `x * y / 2^sh`, rounded toward zero and saturated.
/// `sh` is at most 15.
#[tactic(auto, using(crate::proofs::WholeNumbers::mul_sh_right_is))]
pub fn mul_sh_right<X: FxInt, Y: FxInt, Z: FxInt>(x: X, y: Y, sh: u8) -> Z
    requires one_width { width_of X.TY ≡ width_of Y.TY }
    requires shift { sh ≤ 15 }
    ensures { Z.wide result ≡ arith_value ArithOp.MulShRight Z.TY (X.wide x) (Y.wide y) (pos 0) sh }
{
    exact(x).times(exact(y)).shifted_right(sh).stored()
}
