// Exact whole numbers on the way from words to an answer. The number of a word has at most 32 bits,
// the product of two at most 64.

ghost use Rattle.std.specs.Prelude.{◌≡◌, pos, ◌+ℤ◌, ◌-ℤ◌, ◌*ℤ◌, neg_ℤ, ◌<◌, ◌^◌, ◌≤◌, ◌≢◌, if◌then◌else◌, int_div, unsigned_abs};
ghost use Rattle.std.specs.Int.{int_max, int_min};
ghost use Rattle.fx_core.specs.Rounding.{power};
ghost use Rattle.fx_core.specs.Types.{greatest_of, least_of, saturated};
ghost use Rattle.mfx_arith.specs.Integers.{quotient_in, whole_in, whole_remainder};

use fx_core::FxInt;
use num_traits::cast;

/// A whole number, exact.
#[derive(Clone, Copy)]
pub(crate) struct Integer {
    number: i128,
}

/// The number that a word stands for.
pub(crate) fn exact<W: FxInt>(word: W) -> Integer
    ensures value { result.number ≡ W.wide word }
    ensures size { unsigned_abs result.number < 2 ^ 32 }
{
    Integer {
        number: word.to_wide(),
    }
}

impl Integer {
    /// The sum.
    pub(crate) fn plus(self, other: Integer) -> Integer
        requires first { unsigned_abs self.number < 2 ^ 32 }
        requires second { unsigned_abs other.number < 2 ^ 32 }
        ensures value { result.number ≡ self.number +ℤ other.number }
    {
        Integer {
            number: self.number + other.number,
        }
    }

    /// The difference.
    pub(crate) fn minus(self, other: Integer) -> Integer
        requires first { unsigned_abs self.number < 2 ^ 32 }
        requires second { unsigned_abs other.number < 2 ^ 32 }
        ensures value { result.number ≡ self.number -ℤ other.number }
        ensures size { unsigned_abs result.number < 2 ^ 64 }
    {
        Integer {
            number: self.number - other.number,
        }
    }

    /// The product.
    pub(crate) fn times(self, other: Integer) -> Integer
        requires first { unsigned_abs self.number < 2 ^ 32 }
        requires second { unsigned_abs other.number < 2 ^ 32 }
        ensures value { result.number ≡ self.number *ℤ other.number }
        ensures size { unsigned_abs result.number < 2 ^ 64 }
    {
        Integer {
            number: self.number * other.number,
        }
    }

    /// The product with two to the power of `shift`.
    pub(crate) fn shifted_left(self, shift: u8) -> Integer
        requires number { unsigned_abs self.number < 2 ^ 32 }
        requires shift { shift ≤ 15 }
        ensures value { result.number ≡ self.number *ℤ power shift }
        ensures size { unsigned_abs result.number < 2 ^ 64 }
    {
        Integer {
            number: self.number * i128::from(1_u32 << shift),
        }
    }

    /// The quotient by two to the power of `shift`, rounded toward zero.
    pub(crate) fn shifted_right(self, shift: u8) -> Integer
        requires number { unsigned_abs self.number < 2 ^ 64 }
        requires shift { shift ≤ 15 }
        ensures value { result.number ≡ int_div self.number (power shift) }
    {
        signed(self.number < 0, self.magnitude() >> shift)
    }

    /// What is left by the quotient toward zero, and 0 where `other` is 0.
    #[tactic(auto, unfolding(crate::specs::Integers::whole_remainder))]
    pub(crate) fn remainder(self, other: Integer) -> Integer
        requires dividend { unsigned_abs self.number < 2 ^ 64 }
        requires divisor { unsigned_abs other.number < 2 ^ 64 }
        ensures value { result.number ≡ whole_remainder self.number other.number }
    {
        if other.number == 0 {
            Integer { number: 0 }
        } else {
            signed(self.number < 0, self.magnitude() % other.magnitude())
        }
    }

    /// The number without its sign.
    pub(crate) fn absolute(self) -> Integer
        requires { unsigned_abs self.number < 2 ^ 64 }
        ensures value { result.number ≡ pos (unsigned_abs self.number) }
    {
        Integer {
            number: self.number.abs(),
        }
    }

    /// The smaller of the two.
    pub(crate) fn lesser(self, other: Integer) -> Integer
        ensures value { result.number ≡ int_min self.number other.number }
    {
        if other.number < self.number {
            other
        } else {
            self
        }
    }

    /// The larger of the two.
    pub(crate) fn greater(self, other: Integer) -> Integer
        ensures value { result.number ≡ int_max self.number other.number }
    {
        if other.number < self.number {
            self
        } else {
            other
        }
    }

    /// The nearest word.
    #[tactic(auto, using(crate::proofs::WholeNumbers::storing))]
    pub(crate) fn stored<Z: FxInt>(self) -> Z
        ensures { Z.wide result ≡ whole_in Z.TY self.number }
    {
        Z::from_wide(self.number)
    }

    /// The quotient, rounded toward zero, as the nearest word. Where `other` is 0, it is the
    /// greatest word for a dividend of at least 0, else the least.
    #[tactic(auto, using(crate::proofs::WholeNumbers::quotients))]
    pub(crate) fn over<Z: FxInt>(self, other: Integer) -> Z
        requires dividend { unsigned_abs self.number < 2 ^ 64 }
        requires divisor { unsigned_abs other.number < 2 ^ 64 }
        ensures { Z.wide result ≡ quotient_in Z.TY self.number other.number }
    {
        if other.number == 0 {
            end_beside(self.number < 0)
        } else {
            self.quotient(other).stored()
        }
    }

    // The quotient by what is not 0, rounded toward zero. 64 bits divide it, and not 128.
    fn quotient(self, other: Integer) -> Integer
        requires dividend { unsigned_abs self.number < 2 ^ 64 }
        requires divisor { unsigned_abs other.number < 2 ^ 64 }
        requires nonzero { other.number ≢ pos 0 }
        ensures { result.number ≡ int_div self.number other.number }
    {
        let negative = (self.number < 0) != (other.number < 0);
        signed(negative, self.magnitude() / other.magnitude())
    }

    fn magnitude(self) -> u64
        requires { unsigned_abs self.number < 2 ^ 64 }
        ensures { result ≡ unsigned_abs self.number }
    {
        cast(self.number.unsigned_abs()).unwrap()
    }
}

// The number of this sign and this size.
fn signed(negative: bool, size: u64) -> Integer
    ensures { result.number ≡ (if negative then neg_ℤ (pos size) else pos size) }
{
    let number = i128::from(size);
    Integer {
        number: if negative { -number } else { number },
    }
}

// The least word, or else the greatest.
fn end_beside<Z: FxInt>(negative: bool) -> Z
    ensures { Z.wide result ≡ saturated Z.TY (if negative then least_of Z.TY else greatest_of Z.TY) }
{
    let end = if negative {
        Z::TY.least()
    } else {
        Z::TY.greatest()
    };
    Z::from_wide(i128::from(end))
}
