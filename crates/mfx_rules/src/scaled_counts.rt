// Whole numbers at binary points: values and errors on their way to an output's point. A value has at
// most 32 bits, a product of two at most 64, and an error at most 74; a shift is by at most 30 places.

ghost use Rattle.std.specs.Prelude.{◌≡◌, ◌*◌, ◌+◌, ◌-◌, ◌+ℤ◌, ◌-ℤ◌, ◌*ℤ◌, ◌<◌, ◌≤◌, ◌^◌, int_div, max, pos, unsigned_abs};
ghost use Rattle.fx_core.specs.Rounding.{power};
ghost use Rattle.mfx_scaled.specs.Counts.{raised};
ghost use Rattle.mfx_rules.specs.ScaledRules.{highest};

use mfx_scaled::Points;
use part_rules::{Whole, power_of_two};

/// The number `number / 2^point`, exact.
#[derive(Clone, Copy)]
pub(crate) struct Count {
    pub(crate) number: i128,
    pub(crate) point: u8,
}

/// The number of a raw count, or of an error in the units of errors, at its binary point.
pub(crate) fn exact(number: i64, point: u8) -> Count
    ensures number { result.number ≡ number }
    ensures point { result.point ≡ point }
{
    Count {
        number: i128::from(number),
        point,
    }
}

/// A whole number at a binary point.
pub(crate) fn at_point(value: Whole, point: u8) -> Count
    ensures number { result.number ≡ value.number }
    ensures point { result.point ≡ point }
{
    Count {
        number: value.number,
        point,
    }
}

impl Count {
    /// The same number at a binary point that isn't lower.
    pub(crate) fn raised(self, point: u8) -> Count
        requires size { unsigned_abs self.number < 2 ^ 74 }
        requires up { self.point ≤ point }
        requires few { point ≤ 30 }
        ensures number { result.number ≡ raised self.number self.point point }
        ensures point { result.point ≡ point }
        ensures size { unsigned_abs result.number ≤ unsigned_abs self.number * 2 ^ 30 }
    {
        Count {
            number: self.number * power_of_two(point - self.point),
            point,
        }
    }

    /// The sum, at a binary point that is lower than neither.
    pub(crate) fn plus(self, other: Count, point: u8) -> Count
        requires first { unsigned_abs self.number < 2 ^ 40 }
        requires second { unsigned_abs other.number < 2 ^ 40 }
        requires up { (self.point ≤ point) × (other.point ≤ point) }
        requires few { point ≤ 30 }
        ensures number { result.number ≡ raised self.number self.point point +ℤ raised other.number other.point point }
        ensures point { result.point ≡ point }
        ensures size { unsigned_abs result.number < 2 ^ 72 }
    {
        Count {
            number: self.raised(point).number + other.raised(point).number,
            point,
        }
    }

    /// The difference, at a binary point that is lower than neither.
    pub(crate) fn minus(self, other: Count, point: u8) -> Count
        requires first { unsigned_abs self.number < 2 ^ 40 }
        requires second { unsigned_abs other.number < 2 ^ 40 }
        requires up { (self.point ≤ point) × (other.point ≤ point) }
        requires few { point ≤ 30 }
        ensures number { result.number ≡ raised self.number self.point point -ℤ raised other.number other.point point }
        ensures point { result.point ≡ point }
        ensures size { unsigned_abs result.number < 2 ^ 72 }
    {
        Count {
            number: self.raised(point).number - other.raised(point).number,
            point,
        }
    }

    /// The number without its sign.
    pub(crate) fn absolute(self) -> Count
        requires { unsigned_abs self.number < 2 ^ 72 }
        ensures number { result.number ≡ pos (unsigned_abs self.number) }
        ensures point { result.point ≡ self.point }
    {
        Count {
            number: self.number.abs(),
            point: self.point,
        }
    }

    /// The product, at the sum of the two points.
    pub(crate) fn times(self, other: Count) -> Count
        requires first { unsigned_abs self.number < 2 ^ 32 }
        requires second { unsigned_abs other.number < 2 ^ 32 }
        requires points { (self.point ≤ 15) × (other.point ≤ 15) }
        ensures number { result.number ≡ self.number *ℤ other.number }
        ensures point { result.point ≡ self.point + other.point }
        ensures size { unsigned_abs result.number < 2 ^ 64 }
    {
        Count {
            number: self.number * other.number,
            point: self.point + other.point,
        }
    }

    /// The quotient of the two numbers, rounded toward zero.
    pub(crate) fn over(self, divisor: Count) -> Whole
        requires dividend { unsigned_abs self.number < 2 ^ 104 }
        requires divisor { unsigned_abs divisor.number < 2 ^ 104 }
        requires nonzero { 1 ≤ unsigned_abs divisor.number }
        ensures { result.number ≡ int_div self.number divisor.number }
    {
        Whole {
            number: self.number / divisor.number,
        }
    }

    /// The number at a binary point that isn't higher, rounded toward zero.
    pub(crate) fn lowered(self, point: u8) -> Whole
        requires size { unsigned_abs self.number < 2 ^ 104 }
        requires down { point ≤ self.point }
        requires few { self.point ≤ 30 }
        ensures { result.number ≡ int_div self.number (power (self.point - point)) }
    {
        self.over(Count {
            number: power_of_two(self.point - point),
            point: 0,
        })
    }

    /// The number at a binary point, rounded toward zero.
    pub(crate) fn moved(self, point: u8) -> Whole
        requires size { unsigned_abs self.number < 2 ^ 64 }
        requires from { self.point ≤ 30 }
        requires to { point ≤ 30 }
        ensures { let high = max self.point point in
            result.number ≡ int_div (raised self.number self.point high) (power (high - point)) }
    {
        self.raised(self.point.max(point)).lowered(point)
    }
}

/// The highest of three binary points.
pub(crate) fn highest(p: Points) -> u8
    ensures { result ≡ highest p }
{
    p.a.max(p.b).max(p.c)
}
