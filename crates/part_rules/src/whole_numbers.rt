// Whole numbers in 128 bits, whose ends they stay far from: values on their way through an operation of
// arithmetic.

ghost use Rattle.std.specs.Prelude.{◌≡◌, pos, ◌+ℤ◌, ◌-ℤ◌, ◌*ℤ◌, ◌<◌, ◌≤◌, ◌^◌, int_div, unsigned_abs};
ghost use Rattle.std.specs.Int.{int_max, int_min};
ghost use Rattle.fx_core.specs.Rounding.{power};

/// A whole number.
#[derive(Clone, Copy)]
pub struct Whole {
    pub number: i128,
}

impl Whole {
    /// The number of a raw count.
    pub fn of_count(count: i64) -> Whole
        ensures { result.number ≡ count }
    {
        Whole {
            number: i128::from(count),
        }
    }

    /// Two to the power of a shift.
    pub fn of_shift(shift: u8) -> Whole
        requires { shift ≤ 15 }
        ensures value { result.number ≡ power shift }
        ensures size { unsigned_abs result.number < 2 ^ 32 }
        ensures nonzero { 1 ≤ unsigned_abs result.number }
    {
        Whole {
            number: power_of_two(shift),
        }
    }

    /// The sum.
    pub fn plus(self, other: Whole) -> Whole
        requires first { unsigned_abs self.number < 2 ^ 32 }
        requires second { unsigned_abs other.number < 2 ^ 32 }
        ensures { result.number ≡ self.number +ℤ other.number }
    {
        Whole {
            number: self.number + other.number,
        }
    }

    /// The difference.
    pub fn minus(self, other: Whole) -> Whole
        requires first { unsigned_abs self.number < 2 ^ 32 }
        requires second { unsigned_abs other.number < 2 ^ 32 }
        ensures value { result.number ≡ self.number -ℤ other.number }
        ensures size { unsigned_abs result.number < 2 ^ 72 }
    {
        Whole {
            number: self.number - other.number,
        }
    }

    /// The number without its sign.
    pub fn absolute(self) -> Whole
        requires { unsigned_abs self.number < 2 ^ 72 }
        ensures { result.number ≡ pos (unsigned_abs self.number) }
    {
        Whole {
            number: self.number.abs(),
        }
    }

    /// The product.
    pub fn times(self, other: Whole) -> Whole
        requires first { unsigned_abs self.number < 2 ^ 32 }
        requires second { unsigned_abs other.number < 2 ^ 32 }
        ensures value { result.number ≡ self.number *ℤ other.number }
        ensures size { unsigned_abs result.number < 2 ^ 64 }
    {
        Whole {
            number: self.number * other.number,
        }
    }

    /// The quotient, rounded toward zero.
    pub fn over(self, divisor: Whole) -> Whole
        requires dividend { unsigned_abs self.number < 2 ^ 64 }
        requires nonzero { 1 ≤ unsigned_abs divisor.number }
        ensures { result.number ≡ int_div self.number divisor.number }
    {
        Whole {
            number: self.number / divisor.number,
        }
    }

    /// The lesser of both.
    pub fn lesser(self, other: Whole) -> Whole
        ensures { result.number ≡ int_min self.number other.number }
    {
        Whole {
            number: lesser(self.number, other.number),
        }
    }

    /// The greater of both.
    pub fn greater(self, other: Whole) -> Whole
        ensures { result.number ≡ int_max self.number other.number }
    {
        Whole {
            number: greater(self.number, other.number),
        }
    }
}

/// Two to the power of a shift.
#[tactic(auto, using(crate::proofs::WordSteps::power_small))]
pub fn power_of_two(shift: u8) -> i128
    requires { shift ≤ 30 }
    ensures value { result ≡ power shift }
    ensures size { unsigned_abs result ≤ 2 ^ 30 }
    ensures nonzero { 1 ≤ unsigned_abs result }
{
    i128::from(1_u32 << shift)
}

/// The lesser of two numbers.
pub fn lesser(x: i128, y: i128) -> i128
    ensures { result ≡ int_min x y }
{
    if y < x { y } else { x }
}

/// The greater of two numbers.
pub fn greater(x: i128, y: i128) -> i128
    ensures { result ≡ int_max x y }
{
    if y < x { x } else { y }
}
