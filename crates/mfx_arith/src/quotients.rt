// Quotients and remainders.

ghost use Rattle.std.specs.Prelude.{◌≡◌, pos, ◌≤◌};
ghost use Rattle.fx_core.specs.Types.{width_of};
ghost use Rattle.mfx_arith.specs.Calls.{arith_value};

use crate::integers::exact;
use fx_core::FxInt;
use fx_routines::ArithOp;

/// The quotient `x / y`, rounded toward zero and saturated. Where `y` is 0, it is the greatest
/// number of the output for an `x` of at least 0, else the least.
#[tactic(auto, using(crate::proofs::WholeNumbers::div_is))]
pub fn div<X: FxInt, Y: FxInt, Z: FxInt>(x: X, y: Y) -> Z
    requires one_width { width_of X.TY ≡ width_of Y.TY }
    ensures { Z.wide result ≡ arith_value ArithOp.Div Z.TY (X.wide x) (Y.wide y) (pos 0) 0 }
{
    exact(x).over(exact(y))
}

/// What is left of `x` by the quotient `x / y` toward zero, saturated. It has the sign of `x`, and
/// is 0 where `y` is 0.
#[tactic(auto, using(crate::proofs::WholeNumbers::modulo_is))]
pub fn modulo<X: FxInt, Y: FxInt, Z: FxInt>(x: X, y: Y) -> Z
    requires one_width { width_of X.TY ≡ width_of Y.TY }
    ensures { Z.wide result ≡ arith_value ArithOp.Mod Z.TY (X.wide x) (Y.wide y) (pos 0) 0 }
{
    exact(x).remainder(exact(y)).stored()
}

/// The product over a third, `x * y / z`, rounded toward zero and saturated. Where `z` is 0, it is
/// the greatest number of the output for a product of at least 0, else the least.
#[tactic(auto, using(crate::proofs::WholeNumbers::mul_div_is))]
pub fn mul_div<X: FxInt, Y: FxInt, Z: FxInt>(x: X, y: Y, z: Y) -> Z
    requires one_width { width_of X.TY ≡ width_of Y.TY }
    ensures { Z.wide result ≡ arith_value ArithOp.MulDiv Z.TY (X.wide x) (Y.wide y) (Y.wide z) 0 }
{
    exact(x).times(exact(y)).over(exact(z))
}

/// The quotient `x * 2^sh / y`, rounded toward zero and saturated. Where `y` is 0, it is the
/// greatest number of the output for an `x` of at least 0, else the least. `sh` is at most 15.
#[tactic(auto, using(crate::proofs::WholeNumbers::div_sh_left_is))]
pub fn div_sh_left<X: FxInt, Y: FxInt, Z: FxInt>(x: X, y: Y, sh: u8) -> Z
    requires one_width { width_of X.TY ≡ width_of Y.TY }
    requires shift { sh ≤ 15 }
    ensures { Z.wide result ≡ arith_value ArithOp.DivShLeft Z.TY (X.wide x) (Y.wide y) (pos 0) sh }
{
    exact(x).shifted_left(sh).over(exact(y))
}
