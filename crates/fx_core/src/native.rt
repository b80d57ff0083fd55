// The native integers that hold the words of each type.

ghost use Rattle.std.specs.Prelude.{◌≡◌, ℤ, pos, unsigned_abs};
ghost use Rattle.fx_core.specs.Types.{Holds, saturated};
ghost use Rattle.fx_core.specs.declared.word_type.Ty.{Ty};
ghost use Rattle.fx_core.specs.declared.word_type.Ty.TheVariants.{U8, S8, U16, S16, U32, S32};

use crate::word_type::{Ty, sat};
use num_traits::cast;

/// A native integer type that holds the words of one word type.
pub trait FxInt: Copy {
    // The word type that the type holds.
    ghost TY: { Ty };

    // The integer that a word stands for.
    ghost wide: { Self → ℤ };

    // The word that an integer is stored as.
    ghost narrow: { ℤ → Self };

    /// The word type that this type holds.
    const TY: Ty;

    /// The integer that the word stands for, which is a number of the word type. Storing it again
    /// gives the word.
    fn to_wide(self) -> i128
        ensures value { result ≡ wide self }
        ensures held { Holds TY result }
        ensures stored_again { narrow (wide self) ≡ self };

    /// The word for the number of the word type that is nearest to `v`: it saturates.
    fn from_wide(v: i128) -> Self
        ensures word { result ≡ narrow v }
        ensures saturates { wide result ≡ saturated TY v };
}

impl FxInt for u8 {
    ghost TY = { U8 };

    ghost wide = { λ n. pos n };

    ghost narrow = { λ v. unsigned_abs (saturated U8 v) };

    const TY: Ty = Ty::U8;

    fn to_wide(self) -> i128 {
        i128::from(self)
    }

    fn from_wide(v: i128) -> Self {
        cast(sat(Self::TY, v)).unwrap()
    }
}

impl FxInt for i8 {
    ghost TY = { S8 };

    ghost wide = { λ z. z };

    ghost narrow = { λ v. saturated S8 v };

    const TY: Ty = Ty::S8;

    fn to_wide(self) -> i128 {
        i128::from(self)
    }

    fn from_wide(v: i128) -> Self {
        cast(sat(Self::TY, v)).unwrap()
    }
}

impl FxInt for u16 {
    ghost TY = { U16 };

    ghost wide = { λ n. pos n };

    ghost narrow = { λ v. unsigned_abs (saturated U16 v) };

    const TY: Ty = Ty::U16;

    fn to_wide(self) -> i128 {
        i128::from(self)
    }

    fn from_wide(v: i128) -> Self {
        cast(sat(Self::TY, v)).unwrap()
    }
}

impl FxInt for i16 {
    ghost TY = { S16 };

    ghost wide = { λ z. z };

    ghost narrow = { λ v. saturated S16 v };

    const TY: Ty = Ty::S16;

    fn to_wide(self) -> i128 {
        i128::from(self)
    }

    fn from_wide(v: i128) -> Self {
        cast(sat(Self::TY, v)).unwrap()
    }
}

impl FxInt for u32 {
    ghost TY = { U32 };

    ghost wide = { λ n. pos n };

    ghost narrow = { λ v. unsigned_abs (saturated U32 v) };

    const TY: Ty = Ty::U32;

    fn to_wide(self) -> i128 {
        i128::from(self)
    }

    fn from_wide(v: i128) -> Self {
        cast(sat(Self::TY, v)).unwrap()
    }
}

impl FxInt for i32 {
    ghost TY = { S32 };

    ghost wide = { λ z. z };

    ghost narrow = { λ v. saturated S32 v };

    const TY: Ty = Ty::S32;

    fn to_wide(self) -> i128 {
        i128::from(self)
    }

    fn from_wide(v: i128) -> Self {
        cast(sat(Self::TY, v)).unwrap()
    }
}
