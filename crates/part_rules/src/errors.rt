// The magnitude and the mignitude of a range, and the errors of products and quotients, in units of
// 1/65536 of a raw count. The ends of a range have at most 32 bits and errors at most 40, so the error of
// a product has at most 74, and no number here more than 126.

ghost use Rattle.std.specs.Prelude.{◌≡◌, ℕ, pos, ◌*◌, ◌^◌, ◌<◌, ◌≤◌, ◌≤ℤ◌, ◌<ℤ◌, ◌+ℤ◌, ◌*ℤ◌, false, unsigned_abs};
ghost use Rattle.std.specs.Int.{int_max};
ghost use Rattle.fx_core.specs.Rounding.{power};
ghost use Rattle.part_rules.specs.Errors.{cross_error, holds_zero, least_divisors, magnitude, may_be_zero, mignitude, product_error, quotient_error, shifted_error};
ghost use Rattle.part_rules.specs.Units.{one_count};
ghost use Rattle.part_rules.specs.Entries.{IsSmall};

use crate::bounds::Bounds;
use crate::whole_numbers::{greater, lesser, power_of_two};
use fx_core::ceil_div;

/// What a rounding toward zero may move a value by, one raw count, in the units of errors.
const ONE_COUNT: i128 = 65536;

/// Two errors together.
pub fn sum_error(x: Bounds, y: Bounds) -> i128
    requires first { IsSmall x }
    requires second { IsSmall y }
    ensures { result ≡ x.err +ℤ y.err }
{
    i128::from(x.err + y.err)
}

/// The greater of two errors.
pub fn greater_error(x: Bounds, y: Bounds) -> i128
    ensures { result ≡ int_max x.err y.err }
{
    greater(i128::from(x.err), i128::from(y.err))
}

/// The magnitude of a range: the greatest absolute value in it.
pub fn magnitude(b: Bounds) -> i128
    requires { IsSmall b }
    ensures value { result ≡ magnitude b }
    ensures low { pos 0 ≤ℤ result }
    ensures high { result <ℤ pos (2 ^ 32) }
{
    greater(absolute(b.lo), absolute(b.hi))
}

/// The mignitude of a range: the least absolute value in it.
fn mignitude(b: Bounds) -> i128
    requires { IsSmall b }
    ensures value { result ≡ mignitude b }
    ensures low { pos 0 ≤ℤ result }
    ensures high { result <ℤ pos (2 ^ 32) }
{
    if holds_zero(b) {
        0
    } else {
        lesser(absolute(b.lo), absolute(b.hi))
    }
}

fn absolute(end: i64) -> i128
    requires { unsigned_abs end < 2 ^ 32 }
    ensures value { result ≡ pos (unsigned_abs end) }
    ensures high { result <ℤ pos (2 ^ 32) }
{
    i128::from(end).abs()
}

fn holds_zero(b: Bounds) -> bool
    ensures { result ≡ holds_zero b }
{
    b.lo <= 0 && 0 <= b.hi
}

/// Whether a divisor may be 0: in the machine, where its range holds 0, or as a fraction, where its
/// error reaches to 0.
pub fn may_be_zero(y: Bounds) -> bool
    requires { IsSmall y }
    ensures { result ≡ may_be_zero y }
{
    holds_zero(y) || ONE_COUNT * mignitude(y) <= i128::from(y.err)
}

/// The error of a product.
#[tactic(auto, unfolding(crate::specs::Errors::product_error))]
pub fn product_error(x: Bounds, y: Bounds) -> i128
    requires first { IsSmall x }
    requires second { IsSmall y }
    ensures value { result ≡ product_error x y }
    ensures low { pos 0 ≤ℤ result }
    ensures high { result <ℤ pos (2 ^ 74) }
{
    let (x_err, y_err) = (i128::from(x.err), i128::from(y.err));
    let first = product(magnitude(x), y_err);
    let second = product(magnitude(y), x_err);
    let both = product(x_err, y_err);
    first + second + ceil_div(both, ONE_COUNT)
}

/// The error of what is divided by two to a power. By 1 nothing is rounded.
#[tactic(auto, unfolding(crate::specs::Errors::shifted_error))]
pub fn shifted_error(shift: u8, err: i128) -> i128
    requires shift { shift ≤ 30 }
    requires low { pos 0 ≤ℤ err }
    requires high { err <ℤ pos (2 ^ 106) }
    ensures { result ≡ shifted_error shift err }
{
    if shift == 0 {
        err
    } else {
        ceil_div(err, power_of_two(shift)) + ONE_COUNT
    }
}

/// The error of a quotient whose divisor is multiplied by two to the power of `shift`, from the magnitude
/// `top` and the error of the dividend.
#[tactic(auto, unfolding(crate::specs::Errors::quotient_error))]
pub fn quotient_error(shift: u8, top: i128, err: i128, y: Bounds) -> i128
    requires shift { shift ≤ 15 }
    requires top_low { pos 0 ≤ℤ top }
    requires top_high { top <ℤ pos (2 ^ 64) }
    requires low { pos 0 ≤ℤ err }
    requires high { err <ℤ pos (2 ^ 74) }
    requires divisor { IsSmall y }
    requires nonzero { may_be_zero y ≡ false }
    ensures { result ≡ quotient_error shift top err y }
{
    ceil_div(moves(top, err, y), raised_divisors(shift, y)) + ONE_COUNT
}

// How far the cross products of a quotient are apart, in the units of errors.
fn moves(top: i128, err: i128, y: Bounds) -> i128
    requires top_low { pos 0 ≤ℤ top }
    requires top_high { top <ℤ pos (2 ^ 64) }
    requires low { pos 0 ≤ℤ err }
    requires high { err <ℤ pos (2 ^ 74) }
    requires divisor { IsSmall y }
    ensures value { result ≡ one_count *ℤ cross_error top err y }
    ensures low { pos 0 ≤ℤ result }
    ensures high { result <ℤ pos (2 ^ 124) }
{
    let (least, y_err) = (mignitude(y), i128::from(y.err));
    ONE_COUNT * (product(top, y_err) + product(err, least))
}

// The product of the divisor in the machine and the divisor as a fraction, both where they are least.
fn divisors(y: Bounds) -> i128
    requires small { IsSmall y }
    requires nonzero { may_be_zero y ≡ false }
    ensures value { result ≡ least_divisors y }
    ensures low { pos 1 ≤ℤ result }
    ensures high { result <ℤ pos (2 ^ 81) }
{
    let least = mignitude(y);
    product(least, ONE_COUNT * least - i128::from(y.err))
}

// The same where the divisor is multiplied by two to the power of `shift`.
fn raised_divisors(shift: u8, y: Bounds) -> i128
    requires shift { shift ≤ 15 }
    requires small { IsSmall y }
    requires nonzero { may_be_zero y ≡ false }
    ensures value { result ≡ least_divisors y *ℤ power shift }
    ensures low { pos 1 ≤ℤ result }
{
    divisors(y) * power_of_two(shift)
}

/// The error of a quotient whose dividend is shifted to the left.
pub fn shifted_quotient_error(shift: u8, x: Bounds, y: Bounds) -> i128
    requires shift { shift ≤ 15 }
    requires dividend { IsSmall x }
    requires divisor { IsSmall y }
    requires nonzero { may_be_zero y ≡ false }
    ensures { result ≡ quotient_error 0 (magnitude x *ℤ power shift) (x.err *ℤ power shift) y }
{
    let factor = power_of_two(shift);
    quotient_error(
        0,
        product(magnitude(x), factor),
        product(i128::from(x.err), factor),
        y,
    )
}

/// The error of a product over a third.
pub fn product_quotient_error(x: Bounds, y: Bounds, z: Bounds) -> i128
    requires first { IsSmall x }
    requires second { IsSmall y }
    requires divisor { IsSmall z }
    requires nonzero { may_be_zero z ≡ false }
    ensures { result ≡ quotient_error 0 (magnitude x *ℤ magnitude y) (product_error x y) z }
{
    quotient_error(
        0,
        product(magnitude(x), magnitude(y)),
        product_error(x, y),
        z,
    )
}

// The product of a number of at most 78 bits and one of at most 48.
fn product(x: i128, y: i128) -> i128
    requires first_low { pos 0 ≤ℤ x }
    requires first_high { x <ℤ pos (2 ^ 78) }
    requires second_low { pos 0 ≤ℤ y }
    requires second_high { y <ℤ pos (2 ^ 49) }
    ensures value { result ≡ x *ℤ y }
    ensures low { pos 0 ≤ℤ result }
    ensures size { (m n : ℕ) → x ≤ℤ pos m → y ≤ℤ pos n → result ≤ℤ pos (m * n) }
{
    x * y
}
