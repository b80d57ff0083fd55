// Exact numbers on the way from raw counts to an answer: a whole number of counts at a binary
// point. A raw count has at most 32 bits, and 64 hold it raised by 30 places; the product of two
// alone wants 128.

ghost use Rattle.std.specs.Prelude.{◌≡◌, ◌≢◌, ◌+◌, ◌+ℤ◌, ◌-ℤ◌, ◌*ℤ◌, ◌<◌, ◌≤◌, ◌^◌, if◌then◌else◌, int_div, max, neg_ℤ, pos, unsigned_abs};
ghost use Rattle.fx_core.specs.Rounding.{power};
ghost use Rattle.fx_core.specs.Types.{greatest_of, least_of, saturated};
ghost use Rattle.mfx_arith.specs.Integers.{quotient_in};
ghost use Rattle.mfx_scaled.specs.Counts.{count_in, raised};

use fx_core::{Mode, Ty, sat, shift_round};

/// The number `number / 2^point`, exact.
#[derive(Clone, Copy)]
pub(crate) struct Count {
    number: i64,
    point: u8,
}

/// The product of two raw counts, exact, at the sum of their points.
#[derive(Clone, Copy)]
pub(crate) struct Product {
    number: i128,
    point: u8,
}

/// The number of a raw count at its binary point.
pub(crate) fn exact(raw: i64, point: u8) -> Count
    ensures number { result.number ≡ raw }
    ensures point { result.point ≡ point }
{
    Count { number: raw, point }
}

impl Count {
    /// The sum, at the highest of the two points and `least_point`.
    pub(crate) fn plus(self, other: Count, least_point: u8) -> Count
        requires first { unsigned_abs self.number < 2 ^ 32 }
        requires second { unsigned_abs other.number < 2 ^ 32 }
        requires points { (self.point ≤ 15) × (other.point ≤ 15) }
        requires least { least_point ≤ 15 }
        ensures number { result.number ≡ raised self.number self.point result.point +ℤ raised other.number other.point result.point }
        ensures point { result.point ≡ max (max self.point other.point) least_point }
        ensures size { unsigned_abs result.number < 2 ^ 63 }
    {
        let point = self.point.max(other.point).max(least_point);
        Count {
            number: self.raised(point).number + other.raised(point).number,
            point,
        }
    }

    /// The difference, at the highest of the two points and `least_point`.
    pub(crate) fn minus(self, other: Count, least_point: u8) -> Count
        requires first { unsigned_abs self.number < 2 ^ 32 }
        requires second { unsigned_abs other.number < 2 ^ 32 }
        requires points { (self.point ≤ 15) × (other.point ≤ 15) }
        requires least { least_point ≤ 15 }
        ensures number { result.number ≡ raised self.number self.point result.point -ℤ raised other.number other.point result.point }
        ensures point { result.point ≡ max (max self.point other.point) least_point }
        ensures size { unsigned_abs result.number < 2 ^ 63 }
    {
        let point = self.point.max(other.point).max(least_point);
        Count {
            number: self.raised(point).number - other.raised(point).number,
            point,
        }
    }

    /// The number without its sign.
    pub(crate) fn absolute(self) -> Count
        requires { unsigned_abs self.number < 2 ^ 63 }
        ensures number { result.number ≡ pos (unsigned_abs self.number) }
        ensures point { result.point ≡ self.point }
    {
        Count {
            number: self.number.abs(),
            point: self.point,
        }
    }

    /// The number as a raw count of `t` at a binary point that isn't higher: rounded toward zero,
    /// and the nearest count that `t` has.
    #[tactic(auto, using(crate::proofs::Steps::storing))]
    pub(crate) fn stored(self, t: Ty, point: u8) -> i64
        requires size { unsigned_abs self.number < 2 ^ 63 }
        requires down { point ≤ self.point }
        requires few { self.point ≤ 30 }
        ensures { result ≡ count_in t self.number self.point point }
    {
        let rounded = without_digits(self.number, self.point - point);
        nearest(t, rounded)
    }

    /// A raw count as one of `t` at any binary point, rounded and saturated likewise.
    #[tactic(auto, using(crate::proofs::Steps::converting))]
    pub(crate) fn converted(self, t: Ty, point: u8) -> i64
        requires size { unsigned_abs self.number < 2 ^ 32 }
        requires from { self.point ≤ 15 }
        requires to { point ≤ 15 }
        ensures { result ≡ count_in t self.number self.point point }
    {
        if point < self.point {
            self.stored(t, point)
        } else {
            self.raised(point).stored(t, point)
        }
    }

    /// The product of two raw counts.
    pub(crate) fn times(self, other: Count) -> Product
        requires first { unsigned_abs self.number < 2 ^ 32 }
        requires second { unsigned_abs other.number < 2 ^ 32 }
        requires points { (self.point ≤ 15) × (other.point ≤ 15) }
        ensures number { result.number ≡ self.number *ℤ other.number }
        ensures point { result.point ≡ self.point + other.point }
        ensures size { unsigned_abs result.number < 2 ^ 64 }
    {
        Product {
            number: i128::from(self.number) * i128::from(other.number),
            point: self.point + other.point,
        }
    }

    /// The quotient as a raw count of `t` at the binary point `point`: rounded toward zero, and the
    /// nearest count that `t` has. Where `other` is 0, it is the greatest count of `t` for a dividend
    /// of at least 0, else the least.
    pub(crate) fn over(self, other: Count, t: Ty, point: u8) -> i64
        requires first { unsigned_abs self.number < 2 ^ 32 }
        requires second { unsigned_abs other.number < 2 ^ 32 }
        requires points { (self.point ≤ 15) × (other.point ≤ 15) }
        requires to { point ≤ 15 }
        ensures { let high = max self.point (point + other.point) in
            result ≡ quotient_in t (raised self.number self.point high) (raised other.number (point + other.point) high) }
    {
        // The quotient at `point` is the plain one by a divisor whose point is that much higher.
        let divisor = Count {
            number: other.number,
            point: point + other.point,
        };
        let high = self.point.max(divisor.point);
        quotient(self.raised(high), divisor.raised(high), t)
    }

    // The same number at a binary point that isn't lower.
    fn raised(self, point: u8) -> Count
        requires size { unsigned_abs self.number < 2 ^ 32 }
        requires up { self.point ≤ point }
        requires few { point ≤ 30 }
        ensures number { result.number ≡ raised self.number self.point point }
        ensures point { result.point ≡ point }
        ensures size { unsigned_abs result.number < 2 ^ 62 }
    {
        Count {
            number: self.number * power_of_two(point - self.point),
            point,
        }
    }
}

impl Product {
    /// The number as a raw count of `t` at the binary point `point`: rounded toward zero, and the
    /// nearest count that `t` has.
    pub(crate) fn stored(self, t: Ty, point: u8) -> i64
        requires size { unsigned_abs self.number < 2 ^ 64 }
        requires from { self.point ≤ 30 }
        requires to { point ≤ 15 }
        ensures { result ≡ count_in t self.number self.point point }
    {
        let rounded = shift_round(self.number, distance(self.point, point), Mode::Zero);
        sat(t, rounded)
    }
}

#[tactic(auto, using(crate::proofs::Sizes::power_small))]
fn power_of_two(places: u8) -> i64
    requires { places ≤ 30 }
    ensures value { result ≡ power places }
    ensures size { unsigned_abs result ≤ 2 ^ 30 }
{
    i64::from(1_u32 << places)
}

// The number without its last binary digits: its quotient by a power of two, rounded toward zero.
fn without_digits(number: i64, places: u8) -> i64
    requires size { unsigned_abs number < 2 ^ 63 }
    requires few { places ≤ 30 }
    ensures { result ≡ int_div number (power places) }
{
    signed(number < 0, number.unsigned_abs() >> places)
}

// The number of this sign and this size.
fn signed(negative: bool, size: u64) -> i64
    requires { size < 2 ^ 63 }
    ensures { result ≡ (if negative then neg_ℤ (pos size) else pos size) }
{
    let number = size as i64;
    if negative { -number } else { number }
}

// The number of `t` that is nearest to this one.
fn nearest(t: Ty, number: i64) -> i64
    ensures { result ≡ saturated t number }
{
    if number < t.least() {
        t.least()
    } else if t.greatest() < number {
        t.greatest()
    } else {
        number
    }
}

// How many places the point `to` is above the point `from`.
fn distance(from: u8, to: u8) -> i32
    ensures { result ≡ pos to -ℤ pos from }
{
    i32::from(to) - i32::from(from)
}

// The quotient of the counts as the nearest of `t`, rounded toward zero, and an end of `t` where
// the divisor is 0.
fn quotient(dividend: Count, divisor: Count, t: Ty) -> i64
    requires dividend { unsigned_abs dividend.number < 2 ^ 62 }
    requires divisor { unsigned_abs divisor.number < 2 ^ 62 }
    ensures { result ≡ quotient_in t dividend.number divisor.number }
{
    if divisor.number == 0 {
        end_beside(t, dividend.number < 0)
    } else {
        nearest(t, toward_zero(dividend, divisor))
    }
}

// The quotient of the counts by what isn't 0, rounded toward zero.
fn toward_zero(dividend: Count, divisor: Count) -> i64
    requires dividend { unsigned_abs dividend.number < 2 ^ 62 }
    requires divisor { unsigned_abs divisor.number < 2 ^ 62 }
    requires nonzero { divisor.number ≢ pos 0 }
    ensures { result ≡ int_div dividend.number divisor.number }
{
    dividend.number / divisor.number
}

// The least count of the type, or else the greatest.
fn end_beside(t: Ty, negative: bool) -> i64
    ensures { result ≡ (if negative then least_of t else greatest_of t) }
{
    if negative { t.least() } else { t.greatest() }
}
