// The errors of filters, in units of 1/65536 of a raw count. The error of a state has at most 56 bits,
// that of an input 40, and no number here more than 105.

ghost use Rattle.std.specs.Prelude.{◌≡◌, pos, ◌^◌, ◌≤◌, ◌≤ℤ◌, ◌<ℤ◌, ◌+ℤ◌, ◌-◌, ◌*ℤ◌, unsigned_abs};
ghost use Rattle.std.specs.Int.{int_max};
ghost use Rattle.fx_core.specs.Rounding.{least_quotient_above};
ghost use Rattle.part_rules.specs.Entries.{IsSmall};
ghost use Rattle.efx_rules.specs.FilterRules.{gain_error, half_count, is_whole_gain, lag_error};
ghost use Rattle.efx_rules.specs.StateEntries.{IsState};

use crate::filter_values::Lag;
use fx_core::ceil_div;
use part_rules::{Bounds, greater_error, sum_error};

/// What a number with 16 fractional bits is divided by.
const ONE: i128 = 65536;

/// Half a raw count: what rounding to the nearest moves a value by at most.
const HALF_COUNT: i128 = 32768;

/// The error of a proportional block's value.
#[tactic(auto, unfolding(crate::specs::FilterRules::gain_error))]
pub(crate) fn gain_error(k: i32, x: Bounds) -> i128
    requires { IsSmall x }
    ensures { result ≡ gain_error k x.err }
{
    let through = weighed(i128::from(k.unsigned_abs()), i128::from(x.err));
    if is_whole_gain(k) {
        ceil_div(through, ONE)
    } else {
        rounded_error(through)
    }
}

// Whether a gain is a whole number, so that nothing is rounded.
fn is_whole_gain(k: i32) -> bool
    ensures { result ≡ is_whole_gain k }
{
    k.unsigned_abs() % 65536 == 0
}

/// The error of a lag's state.
pub(crate) fn lag_error(lag: Lag, y: Bounds, x1: Bounds) -> i128
    requires weight { lag.teq ≤ 65536 }
    requires state { IsState y }
    requires input { IsSmall x1 }
    ensures { result ≡ lag_error lag.teq lag.k y.err x1.err }
{
    driven_error(lag, y, i128::from(x1.err))
}

/// The error of the state of a lag that a difference drives.
pub(crate) fn difference_error(lag: Lag, y: Bounds, newer: Bounds, older: Bounds) -> i128
    requires weight { lag.teq ≤ 65536 }
    requires state { IsState y }
    requires newer { IsSmall newer }
    requires older { IsSmall older }
    ensures { result ≡ lag_error lag.teq lag.k y.err (newer.err +ℤ older.err) }
{
    driven_error(lag, y, sum_error(newer, older))
}

// The error of a lag's state, from the error of what drives it.
#[tactic(auto, unfolding(crate::specs::FilterRules::lag_error))]
fn driven_error(lag: Lag, y: Bounds, drive: i128) -> i128
    requires weight { lag.teq ≤ 65536 }
    requires state { IsState y }
    requires low { pos 0 ≤ℤ drive }
    requires high { drive <ℤ pos (2 ^ 41) }
    ensures { result ≡ lag_error lag.teq lag.k y.err drive }
{
    let old = weighed(i128::from(lag.teq), i128::from(y.err));
    let driven = weighed(drive_size(lag), drive);
    rounded_error(both(old, driven))
}

// The weight of what drives a lag, without its sign.
fn drive_size(lag: Lag) -> i128
    requires { lag.teq ≤ 65536 }
    ensures value { result ≡ pos (65536 - lag.teq) *ℤ pos (unsigned_abs lag.k) }
    ensures low { pos 0 ≤ℤ result }
    ensures high { result ≤ℤ pos (2 ^ 47) }
{
    i128::from(65536 - lag.teq) * i128::from(lag.k.unsigned_abs())
}

/// The error of the value of a block with a state.
pub(crate) fn value_error(y: Bounds) -> i128
    requires { IsState y }
    ensures { result ≡ least_quotient_above y.err (pos 65536) +ℤ half_count }
{
    rounded_error(i128::from(y.err))
}

/// The error of an average.
pub(crate) fn average_error(x: Bounds, window: Bounds) -> i128
    requires input { IsSmall x }
    requires window { IsSmall window }
    ensures { result ≡ int_max x.err window.err +ℤ half_count }
{
    greater_error(x, window) + HALF_COUNT
}

// The product of a weight and an error.
fn weighed(weight: i128, err: i128) -> i128
    requires weight_low { pos 0 ≤ℤ weight }
    requires weight_high { weight ≤ℤ pos (2 ^ 47) }
    requires low { pos 0 ≤ℤ err }
    requires high { err <ℤ pos (2 ^ 56) }
    ensures value { result ≡ weight *ℤ err }
    ensures low { pos 0 ≤ℤ result }
    ensures high { result <ℤ pos (2 ^ 103) }
{
    weight * err
}

// Two weighed errors together.
fn both(first: i128, second: i128) -> i128
    requires first_low { pos 0 ≤ℤ first }
    requires first_high { first <ℤ pos (2 ^ 103) }
    requires second_low { pos 0 ≤ℤ second }
    requires second_high { second <ℤ pos (2 ^ 103) }
    ensures value { result ≡ first +ℤ second }
    ensures low { pos 0 ≤ℤ result }
    ensures high { result <ℤ pos (2 ^ 104) }
{
    first + second
}

// The error of what is divided by 65536 and rounded to the nearest.
fn rounded_error(err: i128) -> i128
    requires low { pos 0 ≤ℤ err }
    requires high { err <ℤ pos (2 ^ 104) }
    ensures { result ≡ least_quotient_above err (pos 65536) +ℤ half_count }
{
    ceil_div(err, ONE) + HALF_COUNT
}
