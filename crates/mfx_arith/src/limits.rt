// Words held between others of their type.

ghost use Rattle.std.specs.Prelude.{◌≡◌, pos};
ghost use Rattle.mfx_arith.specs.Calls.{arith_value};
ghost use Rattle.mfx_arith.specs.Operations.{unsigned_of};

use crate::integers::exact;
use fx_core::FxInt;
use fx_routines::ArithOp;

/// The lesser of `x` and `y`.
#[tactic(auto, using(crate::proofs::WholeNumbers::min_is))]
pub fn min<T: FxInt>(x: T, y: T) -> T
    ensures { T.wide result ≡ arith_value ArithOp.Min T.TY (T.wide x) (T.wide y) (pos 0) 0 }
{
    exact(x).lesser(exact(y)).stored()
}

/// The greater of `x` and `y`.
#[tactic(auto, using(crate::proofs::WholeNumbers::max_is))]
pub fn max<T: FxInt>(x: T, y: T) -> T
    ensures { T.wide result ≡ arith_value ArithOp.Max T.TY (T.wide x) (T.wide y) (pos 0) 0 }
{
    exact(x).greater(exact(y)).stored()
}

/// `x` held between `lo` and `hi`. Where `lo` is above `hi`, it is `hi`.
#[tactic(auto, using(crate::proofs::WholeNumbers::limit_is))]
pub fn limit<T: FxInt>(x: T, lo: T, hi: T) -> T
    ensures { T.wide result ≡ arith_value ArithOp.Limit T.TY (T.wide x) (T.wide lo) (T.wide hi) 0 }
{
    exact(hi).lesser(exact(lo).greater(exact(x))).stored()
}

/// `new` held to at most `d` away from `old`. `D` is the unsigned type of the width of `T`.
#[tactic(auto, using(crate::proofs::WholeNumbers::rate_limiter_is))]
pub fn rate_limiter<T: FxInt, D: FxInt>(new: T, old: T, d: D) -> T
    requires { D.TY ≡ unsigned_of T.TY }
    ensures { T.wide result ≡ arith_value ArithOp.RateLimiter T.TY (T.wide new) (T.wide old) (D.wide d) 0 }
{
    let highest = exact(old).plus(exact(d));
    let lowest = exact(old).minus(exact(d));
    highest.lesser(lowest.greater(exact(new))).stored()
}
