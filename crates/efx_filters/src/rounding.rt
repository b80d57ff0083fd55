// Counts of 1/65536 rounded to whole numbers, and the nearest word or state to a number.

ghost use Rattle.std.specs.Prelude.{◌≡◌, ◌-◌, ◌<◌, ◌≤◌, ◌^◌, pos, unsigned_abs};
ghost use Rattle.fx_core.specs.Rounding.{rounded};
ghost use Rattle.fx_core.specs.Types.{saturated, saturated_to};
ghost use Rattle.fx_core.specs.declared.quotient.Mode.TheVariants.{Near};
ghost use Rattle.efx_filters.specs.Formulas.{state_greatest, state_least};
ghost use Rattle.efx_filters.specs.States.{IsState, state_value};

use fx_core::Ty;

/// A half, in 1/65536.
const HALF: i64 = 32_768;

/// The ends of a state, a raw count of 48 bits.
const LEAST_STATE: i128 = -140_737_488_355_328;

const GREATEST_STATE: i128 = 140_737_488_355_327;

/// `n / 65536`, rounded to the nearest whole number, a half upward. A shift rounds downward.
pub(crate) fn unscaled(n: i64) -> i64
    requires { unsigned_abs n ≤ 2 ^ 63 - 2 ^ 31 }
    ensures { result ≡ rounded Near n (pos 65536) }
{
    (n + HALF) >> 16
}

/// The same of a number of more bits.
pub fn unscaled_wide(n: i128) -> i128
    requires { unsigned_abs n < 2 ^ 96 }
    ensures { result ≡ rounded Near n (pos 65536) }
{
    (n + i128::from(HALF)) >> 16
}

/// The number of `t` that is nearest to this one.
pub(crate) fn nearest(t: Ty, number: i64) -> i64
    ensures { result ≡ saturated t number }
{
    if number < t.least() {
        t.least()
    } else if t.greatest() < number {
        t.greatest()
    } else {
        number
    }
}

/// The state that is nearest to this number: a raw count of 48 bits, 16 of them fractional.
pub fn nearest_state(number: i128) -> i64
    ensures value { result ≡ saturated_to state_least state_greatest number }
    ensures state { IsState result }
{
    if number < LEAST_STATE {
        LEAST_STATE as i64
    } else if GREATEST_STATE < number {
        GREATEST_STATE as i64
    } else {
        number as i64
    }
}

/// The value of type `o` that a state gives, rounded to the nearest and saturated.
pub fn state_value(o: Ty, y: i64) -> i64
    requires { IsState y }
    ensures { result ≡ state_value o y }
{
    nearest(o, unscaled(y))
}
