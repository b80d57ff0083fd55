// Quotients rounded to whole numbers.

ghost use Rattle.std.specs.Prelude.{◌≡◌, ℤ, pos, negsuc, neg_ℤ, ◌^◌, ◌<◌, ◌≤◌, ◌≤ℤ◌, int_div, unsigned_abs, if◌then◌else◌};
ghost use Rattle.fx_core.specs.Rounding.{IsLeastQuotientAbove, Rounds, ShiftRounds, least_quotient_above, power, rounded, shifted_rounded};

use num_traits::cast;

/// How a quotient is rounded to a whole number.
#[derive(Clone, Copy, Debug, PartialEq, Eq)]
pub enum Mode {
    /// Toward zero: the fraction is dropped.
    Zero,
    /// Downward, toward minus infinity.
    Floor,
    /// To the nearest whole number, a half upward.
    Near,
}

/// `n / d` rounded to a whole number, at every `n` and every `d` from 1 up.
pub fn round(n: i128, d: i128, m: Mode) -> i128
    requires { pos 1 ≤ℤ d }
    ensures value { result ≡ rounded m n d }
    ensures relation { Rounds m n d result }
{
    match m {
        Mode::Zero => toward_zero(n, d),
        Mode::Floor => downward(n, d),
        Mode::Near => to_nearest(n, d),
    }
}

fn toward_zero(n: i128, d: i128) -> i128
    requires { pos 1 ≤ℤ d }
    ensures { result ≡ rounded Mode.Zero n d }
{
    n / d
}

fn downward(n: i128, d: i128) -> i128
    requires { pos 1 ≤ℤ d }
    ensures { result ≡ rounded Mode.Floor n d }
{
    n.div_euclid(d)
}

// Twice the remainder may not fit, so it is compared with what is left of the divisor.
fn to_nearest(n: i128, d: i128) -> i128
    requires { pos 1 ≤ℤ d }
    ensures { result ≡ rounded Mode.Near n d }
{
    let below = downward(n, d);
    let rest = n.rem_euclid(d);
    if rest >= d - rest { below + 1 } else { below }
}

/// `n` times two to the power `e`, rounded to a whole number. It is exact where `e` is 0 or more.
/// `n` is at most two to the power 90 in size, and `e` from -31 to 31.
pub fn shift_round(n: i128, e: i32, m: Mode) -> i128
    requires size { unsigned_abs n ≤ 2 ^ 90 }
    requires right { negsuc 30 ≤ℤ e }
    requires left { e ≤ℤ pos 31 }
    ensures value { result ≡ shifted_rounded m n e }
    ensures relation { ShiftRounds m n e result }
{
    let places = e.unsigned_abs();
    let factor = power_of_two(places);
    if e >= 0 {
        n * factor
    } else {
        round_by_power(n, factor, places, m)
    }
}

// `n` over a power of two, rounded to a whole number. Toward zero a shift does it, in a fraction of a division's time.
fn round_by_power(n: i128, factor: i128, places: u32, m: Mode) -> i128
    requires size { unsigned_abs n ≤ 2 ^ 90 }
    requires few { places < 32 }
    requires power { factor ≡ power places }
    ensures { result ≡ rounded m n factor }
{
    if m == Mode::Zero {
        without_digits(n, places)
    } else {
        round(n, factor, m)
    }
}

// `n` without its last `k` binary digits: its quotient by a power of two, rounded toward zero.
fn without_digits(n: i128, k: u32) -> i128
    requires size { unsigned_abs n ≤ 2 ^ 90 }
    requires few { k < 32 }
    ensures { result ≡ int_div n (power k) }
{
    let size = n.unsigned_abs() >> k;
    signed(n < 0, size)
}

// The number of this sign and this size.
fn signed(negative: bool, size: u128) -> i128
    requires { size ≤ 2 ^ 90 }
    ensures { result ≡ (if negative then neg_ℤ (pos size) else pos size) }
{
    let number: i128 = cast(size).unwrap();
    if negative { -number } else { number }
}

fn power_of_two(k: u32) -> i128
    requires { k < 32 }
    ensures { result ≡ power k }
{
    i128::from(1_u32 << k)
}

/// The least whole number that is not below `n / d`, at every `n` from 0 and every `d` from 1 up.
pub fn ceil_div(n: i128, d: i128) -> i128
    requires dividend { pos 0 ≤ℤ n }
    requires divisor { pos 1 ≤ℤ d }
    ensures value { result ≡ least_quotient_above n d }
    ensures relation { IsLeastQuotientAbove n d result }
{
    let below = downward(n, d);
    let rest = n.rem_euclid(d);
    if rest > 0 { below + 1 } else { below }
}

/// States the law of rounding, and does nothing: in every mode the definition rounds, and there is
/// one whole number only that a quotient is rounded to.
pub fn law_of_rounding()
    ensures rounds { (m : Mode) (n d : ℤ) → pos 1 ≤ℤ d → Rounds m n d (rounded m n d) }
    ensures once { (m : Mode) (n d r s : ℤ) → pos 1 ≤ℤ d → Rounds m n d r → Rounds m n d s → r ≡ s }
{}
