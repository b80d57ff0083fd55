// The ranges of filters: the hull of their values at the corners of the ranges of what they read.

ghost use Rattle.std.specs.Prelude.{◌≡◌, ◌<◌, ◌≤◌, ◌^◌, unsigned_abs};
ghost use Rattle.std.specs.Int.{int_max, int_min};
ghost use Rattle.fx_core.specs.Arguments.{three, two};
ghost use Rattle.part_rules.specs.Entries.{IsSmall};
ghost use Rattle.part_rules.specs.Ranges.{corner_values, ends_of, greatest_among, least_among};
ghost use Rattle.efx_rules.specs.FilterCorners.{states_over_drive, states_over_inputs, states_over_older};
ghost use Rattle.efx_rules.specs.FilterRules.{difference_rounded, gain_rounded, lag_rounded, value_rounded};

use crate::filter_values::{Lag, difference_at, gain_at, lag_at, value_at};
use part_rules::{Bounds, Range, Whole, high_end, low_end};

/// The range of a proportional block's value.
pub(crate) fn gain_range(k: i32, x: Bounds) -> Range
    requires { IsSmall x }
    ensures lo { result.lo ≡ least_among (corner_values (gain_rounded k) (ends_of 1 (λ p. x))) }
    ensures hi { result.hi ≡ greatest_among (corner_values (gain_rounded k) (ends_of 1 (λ p. x))) }
{
    Range::at(gain_at(k, low_end(x))).joined(Range::at(gain_at(k, high_end(x))))
}

/// The range of a lag's state.
pub(crate) fn lag_range(lag: Lag, y: Bounds, x1: Bounds) -> Range
    requires weight { lag.teq ≤ 65536 }
    requires input { IsSmall x1 }
    ensures lo { result.lo ≡ least_among (corner_values (lag_rounded lag.teq lag.k) (ends_of 2 (two y x1))) }
    ensures hi { result.hi ≡ greatest_among (corner_values (lag_rounded lag.teq lag.k) (ends_of 2 (two y x1))) }
{
    let low = over_drive(lag, least_state(y), x1);
    let high = over_drive(lag, greatest_state(y), x1);
    low.joined(high)
}

// The states over the ends of the range of what drives a lag.
fn over_drive(lag: Lag, y: Whole, x1: Bounds) -> Range
    requires weight { lag.teq ≤ 65536 }
    requires state { unsigned_abs y.number < 2 ^ 72 }
    requires input { IsSmall x1 }
    ensures lo { result.lo ≡ least_among (states_over_drive lag.teq lag.k y.number x1) }
    ensures hi { result.hi ≡ greatest_among (states_over_drive lag.teq lag.k y.number x1) }
{
    let low = Range::at(lag_at(lag, y, low_end(x1)));
    let high = Range::at(lag_at(lag, y, high_end(x1)));
    low.joined(high)
}

/// The range of the state of a lag that a difference drives.
pub(crate) fn difference_range(lag: Lag, y: Bounds, newer: Bounds, older: Bounds) -> Range
    requires weight { lag.teq ≤ 65536 }
    requires newer { IsSmall newer }
    requires older { IsSmall older }
    ensures lo { result.lo ≡ least_among (corner_values (difference_rounded lag.teq lag.k) (ends_of 3 (three y newer older))) }
    ensures hi { result.hi ≡ greatest_among (corner_values (difference_rounded lag.teq lag.k) (ends_of 3 (three y newer older))) }
{
    let low = over_inputs(lag, least_state(y), newer, older);
    let high = over_inputs(lag, greatest_state(y), newer, older);
    low.joined(high)
}

// The states over the corners of the ranges of both inputs.
fn over_inputs(lag: Lag, y: Whole, newer: Bounds, older: Bounds) -> Range
    requires weight { lag.teq ≤ 65536 }
    requires state { unsigned_abs y.number < 2 ^ 72 }
    requires newer { IsSmall newer }
    requires older { IsSmall older }
    ensures lo { result.lo ≡ least_among (states_over_inputs lag.teq lag.k y.number newer older) }
    ensures hi { result.hi ≡ greatest_among (states_over_inputs lag.teq lag.k y.number newer older) }
{
    let low = over_older(lag, y, low_end(newer), older);
    let high = over_older(lag, y, high_end(newer), older);
    low.joined(high)
}

// The states over the ends of the older input's range.
fn over_older(lag: Lag, y: Whole, newer: Whole, older: Bounds) -> Range
    requires weight { lag.teq ≤ 65536 }
    requires state { unsigned_abs y.number < 2 ^ 72 }
    requires newer { unsigned_abs newer.number < 2 ^ 32 }
    requires older { IsSmall older }
    ensures lo { result.lo ≡ least_among (states_over_older lag.teq lag.k y.number newer.number older) }
    ensures hi { result.hi ≡ greatest_among (states_over_older lag.teq lag.k y.number newer.number older) }
{
    let low = Range::at(difference_at(lag, y, newer, low_end(older)));
    let high = Range::at(difference_at(lag, y, newer, high_end(older)));
    low.joined(high)
}

/// The range of the value of a block with a state.
pub(crate) fn value_range(y: Bounds) -> Range
    ensures lo { result.lo ≡ least_among (corner_values value_rounded (ends_of 1 (λ p. y))) }
    ensures hi { result.hi ≡ greatest_among (corner_values value_rounded (ends_of 1 (λ p. y))) }
{
    let low = Range::at(value_at(least_state(y)));
    let high = Range::at(value_at(greatest_state(y)));
    low.joined(high)
}

/// The range of an average's value.
pub(crate) fn average_range(x: Bounds, window: Bounds) -> Range
    requires input { IsSmall x }
    requires window { IsSmall window }
    ensures lo { result.lo ≡ int_min x.lo window.lo }
    ensures hi { result.hi ≡ int_max x.hi window.hi }
{
    Range {
        lo: low_end(x).lesser(low_end(window)).number,
        hi: high_end(x).greater(high_end(window)).number,
    }
}

// The least number of a state's range.
fn least_state(y: Bounds) -> Whole
    ensures value { result.number ≡ y.lo }
    ensures size { unsigned_abs result.number < 2 ^ 72 }
{
    Whole::of_count(y.lo)
}

// The greatest number of a state's range.
fn greatest_state(y: Bounds) -> Whole
    ensures value { result.number ≡ y.hi }
    ensures size { unsigned_abs result.number < 2 ^ 72 }
{
    Whole::of_count(y.hi)
}
