// The bounds of the values and states of filters, as bounds of a part.

ghost use Rattle.std.specs.Prelude.{◌≡◌, ◌≤◌};
ghost use Rattle.fx_core.specs.Arguments.{three, two};
ghost use Rattle.part_rules.specs.Entries.{IsSmall, if_small};
ghost use Rattle.efx_rules.specs.FilterRules.{average_bounds, difference_bounds, gain_bounds, lag_bounds, value_bounds};
ghost use Rattle.efx_rules.specs.StateEntries.{IsState, if_state};

use crate::filter_errors::{average_error, difference_error, gain_error, lag_error, value_error};
use crate::filter_ranges::{average_range, difference_range, gain_range, lag_range, value_range};
use crate::filter_values::Lag;
use crate::state_bounds::narrowed_state;
use part_rules::{Bounds, WideBounds, narrowed};

/// The bounds of a proportional block's value, from those of its input `x`: None where no part may
/// have them. The gain `k` has 16 fractional bits.
#[tactic(auto, unfolding(crate::specs::FilterRules::gain_bounds))]
pub fn gain_bounds(k: i32, x: Bounds) -> Option<Bounds>
    requires { IsSmall x }
    ensures { result ≡ if_small (gain_bounds k (λ p. x)) }
{
    let range = gain_range(k, x);
    narrowed(WideBounds {
        lo: range.lo,
        hi: range.hi,
        err: gain_error(k, x),
    })
}

/// The bounds of a lag's state, from those of the old state `y` and of the input `x1` of the row
/// before: None where no state may have them. `teq` is the old state's weight in 1/65536, and the
/// gain `k` and a state have 16 fractional bits.
#[tactic(auto, unfolding(crate::specs::FilterRules::lag_bounds))]
pub fn lag_bounds(teq: u32, k: i32, y: Bounds, x1: Bounds) -> Option<Bounds>
    requires weight { teq ≤ 65536 }
    requires state { IsState y }
    requires input { IsSmall x1 }
    ensures { result ≡ if_state (lag_bounds teq k (two y x1)) }
{
    let lag = Lag { teq, k };
    let range = lag_range(lag, y, x1);
    narrowed_state(WideBounds {
        lo: range.lo,
        hi: range.hi,
        err: lag_error(lag, y, x1),
    })
}

/// The bounds of the state of a lag that the difference of two inputs drives, from those of the old
/// state `y` and of both inputs: None where no state may have them. `teq` is the old state's weight
/// in 1/65536, and the gain `k` and a state have 16 fractional bits.
#[tactic(auto, unfolding(crate::specs::FilterRules::difference_bounds))]
pub fn difference_bounds(
    teq: u32,
    k: i32,
    y: Bounds,
    newer: Bounds,
    older: Bounds,
) -> Option<Bounds>
    requires weight { teq ≤ 65536 }
    requires state { IsState y }
    requires newer { IsSmall newer }
    requires older { IsSmall older }
    ensures { result ≡ if_state (difference_bounds teq k (three y newer older)) }
{
    let lag = Lag { teq, k };
    let range = difference_range(lag, y, newer, older);
    narrowed_state(WideBounds {
        lo: range.lo,
        hi: range.hi,
        err: difference_error(lag, y, newer, older),
    })
}

/// The bounds of the value of a block with a state, from those of its state `y`: None where no part
/// may have them. A state has 16 fractional bits, and a value is a raw count.
#[tactic(auto, unfolding(crate::specs::FilterRules::value_bounds))]
pub fn value_bounds(y: Bounds) -> Option<Bounds>
    requires { IsState y }
    ensures { result ≡ if_small (value_bounds (λ p. y)) }
{
    let range = value_range(y);
    narrowed(WideBounds {
        lo: range.lo,
        hi: range.hi,
        err: value_error(y),
    })
}

/// The bounds of an average's value, from those of its input `x` and of the inputs in its window:
/// None where no part may have them.
#[tactic(auto, unfolding(crate::specs::FilterRules::average_bounds))]
pub fn average_bounds(x: Bounds, window: Bounds) -> Option<Bounds>
    requires input { IsSmall x }
    requires window { IsSmall window }
    ensures { result ≡ if_small (average_bounds (two x window)) }
{
    let range = average_range(x, window);
    narrowed(WideBounds {
        lo: range.lo,
        hi: range.hi,
        err: average_error(x, window),
    })
}
