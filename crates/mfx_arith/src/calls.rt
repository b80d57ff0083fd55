// A routine by its operation and its types. Sums, differences and the lesser and the greater of two
// are exact in 64 bits and computed there at once, which takes fewer instructions. For the others
// the native types are chosen one after the other.

ghost use Rattle.std.specs.Prelude.{◌≡◌, ◌≤◌};
ghost use Rattle.fx_core.specs.Types.{Holds};
ghost use Rattle.mfx_arith.specs.Calls.{arith_value};
ghost use Rattle.mfx_arith.specs.Integers.{whole_in};
ghost use Rattle.mfx_arith.specs.Operations.{HasArguments, Takes, types};

use crate::limits::{limit, max, min, rate_limiter};
use crate::quotients::{div, div_sh_left, modulo, mul_div};
use crate::sums::{abs, abs_diff, add, mul, mul_sh_right, sub};
use fx_core::{FxInt, Ty};
use fx_routines::{ArithOp, Variant};
use num_traits::{cast, clamp};

// What a routine is given. Where a type has one of the numbers, the word of that type stands for
// it.
#[derive(Clone, Copy)]
struct Given {
    x: i64,
    y: i64,
    z: i64,
    shift: u8,
}

impl Given {
    fn x<W: FxInt>(self) -> W
        ensures { Holds W.TY self.x → W.wide result ≡ self.x }
    {
        W::from_wide(i128::from(self.x))
    }

    fn y<W: FxInt>(self) -> W
        ensures { Holds W.TY self.y → W.wide result ≡ self.y }
    {
        W::from_wide(i128::from(self.y))
    }

    fn z<W: FxInt>(self) -> W
        ensures { Holds W.TY self.z → W.wide result ≡ self.z }
    {
        W::from_wide(i128::from(self.z))
    }
}

// A call of a generic function with the native type of a word type, after the types that are known.
macro_rules! at_native {
    ($ty:expr, $function:ident $(::<$($known:ident),*>)? ($($argument:expr),*)) => {
        match $ty {
            Ty::U8 => $function::<$($($known,)*)? u8>($($argument),*),
            Ty::S8 => $function::<$($($known,)*)? i8>($($argument),*),
            Ty::U16 => $function::<$($($known,)*)? u16>($($argument),*),
            Ty::S16 => $function::<$($($known,)*)? i16>($($argument),*),
            Ty::U32 => $function::<$($($known,)*)? u32>($($argument),*),
            Ty::S32 => $function::<$($($known,)*)? i32>($($argument),*),
        }
    };
}

/// The routine of the operation `op` at the types `v`, on its arguments `x`, `y` and `z` in their
/// order and its shift `sh`. Arguments that it doesn't have are not looked at.
pub fn call(op: ArithOp, v: Variant, x: i64, y: i64, z: i64, sh: u8) -> i64
    requires taken { Takes op v }
    requires arguments { HasArguments op v x y z }
    requires shift { sh ≤ 15 }
    ensures { result ≡ arith_value op v.o x y z sh }
{
    match op {
        ArithOp::Add => nearest(v.o(), x + y),
        ArithOp::Sub => nearest(v.o(), x - y),
        ArithOp::Min => nearest(v.o(), x.min(y)),
        ArithOp::Max => nearest(v.o(), x.max(y)),
        _ => {
            let given = Given { x, y, z, shift: sh };
            at_native!(v.x(), with_first(op, v.y(), v.o(), given))
        }
    }
}

// The number of the type that is nearest to `number`.
#[tactic(auto, using(crate::proofs::WholeNumbers::storing))]
fn nearest(t: Ty, number: i64) -> i64
    ensures { result ≡ whole_in t number }
{
    clamp(number, t.least(), t.greatest())
}

fn with_first<X: FxInt>(op: ArithOp, y: Ty, o: Ty, given: Given) -> i64
    requires taken { Takes op (types X.TY y o) }
    requires arguments { HasArguments op (types X.TY y o) given.x given.y given.z }
    requires shift { given.shift ≤ 15 }
    ensures { result ≡ arith_value op o given.x given.y given.z given.shift }
{
    at_native!(y, with_inputs::<X>(op, o, given))
}

fn with_inputs<X: FxInt, Y: FxInt>(op: ArithOp, o: Ty, given: Given) -> i64
    requires taken { Takes op (types X.TY Y.TY o) }
    requires arguments { HasArguments op (types X.TY Y.TY o) given.x given.y given.z }
    requires shift { given.shift ≤ 15 }
    ensures { result ≡ arith_value op o given.x given.y given.z given.shift }
{
    at_native!(o, with_types::<X, Y>(op, given))
}

fn with_types<X: FxInt, Y: FxInt, Z: FxInt>(op: ArithOp, given: Given) -> i64
    requires taken { Takes op (types X.TY Y.TY Z.TY) }
    requires arguments { HasArguments op (types X.TY Y.TY Z.TY) given.x given.y given.z }
    requires shift { given.shift ≤ 15 }
    ensures { result ≡ arith_value op Z.TY given.x given.y given.z given.shift }
{
    count(answer::<X, Y, Z>(op, given))
}

// The number that a word stands for.
fn count<W: FxInt>(word: W) -> i64
    ensures { result ≡ W.wide word }
{
    cast(word.to_wide()).unwrap()
}

// The routine at its native types. It answers for each operation, also for those that `call` computes at once.
#[tactic(auto, unfolding(crate::specs::Calls::arith_value))]
fn answer<X: FxInt, Y: FxInt, Z: FxInt>(op: ArithOp, given: Given) -> Z
    requires taken { Takes op (types X.TY Y.TY Z.TY) }
    requires arguments { HasArguments op (types X.TY Y.TY Z.TY) given.x given.y given.z }
    requires shift { given.shift ≤ 15 }
    ensures { Z.wide result ≡ arith_value op Z.TY given.x given.y given.z given.shift }
{
    match op {
        ArithOp::Add => add::<X, Y, Z>(given.x(), given.y()),
        ArithOp::Sub => sub::<X, Y, Z>(given.x(), given.y()),
        ArithOp::AbsDiff => abs_diff::<X, Y, Z>(given.x(), given.y()),
        ArithOp::Abs => abs::<X, Z>(given.x()),
        ArithOp::Mul => mul::<X, Y, Z>(given.x(), given.y()),
        ArithOp::Div => div::<X, Y, Z>(given.x(), given.y()),
        ArithOp::Mod => modulo::<X, Y, Z>(given.x(), given.y()),
        ArithOp::MulDiv => mul_div::<X, Y, Z>(given.x(), given.y(), given.z()),
        ArithOp::MulShRight => mul_sh_right::<X, Y, Z>(given.x(), given.y(), given.shift),
        ArithOp::DivShLeft => div_sh_left::<X, Y, Z>(given.x(), given.y(), given.shift),
        ArithOp::Limit => limit::<Z>(given.x(), given.y(), given.z()),
        ArithOp::Min => min::<Z>(given.x(), given.y()),
        ArithOp::Max => max::<Z>(given.x(), given.y()),
        ArithOp::RateLimiter => with_change::<Z>(given),
    }
}

// The rate limiter at the unsigned type of the width.
fn with_change<T: FxInt>(given: Given) -> T
    requires { HasArguments ArithOp.RateLimiter (types T.TY T.TY T.TY) given.x given.y given.z }
    ensures { T.wide result ≡ arith_value ArithOp.RateLimiter T.TY given.x given.y given.z 0 }
{
    match T::TY {
        Ty::U8 | Ty::S8 => rate_limiter::<T, u8>(given.x(), given.y(), given.z()),
        Ty::U16 | Ty::S16 => rate_limiter::<T, u16>(given.x(), given.y(), given.z()),
        Ty::U32 | Ty::S32 => rate_limiter::<T, u32>(given.x(), given.y(), given.z()),
    }
}
