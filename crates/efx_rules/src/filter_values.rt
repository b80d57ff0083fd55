// The values of filters at whole numbers, rounded and not saturated. A state has at most 64 bits, an
// input 32, and no number here more than 120.

ghost use Rattle.std.specs.Prelude.{◌≡◌, pos, ◌+ℤ◌, ◌*ℤ◌, ◌<◌, ◌≤◌, ◌^◌, unsigned_abs};
ghost use Rattle.fx_core.specs.Arguments.{three, two};
ghost use Rattle.fx_core.specs.Rounding.{rounded};
ghost use Rattle.efx_filters.specs.Formulas.{drive_weight};
ghost use Rattle.efx_rules.specs.FilterRules.{difference_rounded, gain_rounded, lag_rounded, value_rounded};

use fx_core::{Mode, round};
use part_rules::Whole;

/// The constants of a lag.
#[derive(Clone, Copy)]
pub(crate) struct Lag {
    /// The weight of the old state, in 1/65536.
    pub(crate) teq: u32,
    /// The gain, with 16 fractional bits.
    pub(crate) k: i32,
}

/// The value of a proportional block at its input.
pub(crate) fn gain_at(k: i32, x: Whole) -> Whole
    requires { unsigned_abs x.number < 2 ^ 32 }
    ensures { result.number ≡ gain_rounded k (λ p. x.number) }
{
    nearest(product(x, gain_weight(k)))
}

/// The state of a lag at its old state and what drives it.
pub(crate) fn lag_at(lag: Lag, y: Whole, x: Whole) -> Whole
    requires weight { lag.teq ≤ 65536 }
    requires state { unsigned_abs y.number < 2 ^ 72 }
    requires drive { unsigned_abs x.number < 2 ^ 72 }
    ensures { result.number ≡ lag_rounded lag.teq lag.k (two y.number x.number) }
{
    nearest(sum(product(y, old_weight(lag)), product(x, drive_weight(lag))))
}

/// The same where the difference of two inputs drives it.
pub(crate) fn difference_at(lag: Lag, y: Whole, newer: Whole, older: Whole) -> Whole
    requires weight { lag.teq ≤ 65536 }
    requires state { unsigned_abs y.number < 2 ^ 72 }
    requires newer { unsigned_abs newer.number < 2 ^ 32 }
    requires older { unsigned_abs older.number < 2 ^ 32 }
    ensures { result.number ≡ difference_rounded lag.teq lag.k (three y.number newer.number older.number) }
{
    lag_at(lag, y, newer.minus(older))
}

/// The value of a block at its state.
pub(crate) fn value_at(y: Whole) -> Whole
    ensures { result.number ≡ value_rounded (λ p. y.number) }
{
    nearest(y)
}

// The weight of a proportional block's input.
fn gain_weight(k: i32) -> Whole
    ensures value { result.number ≡ k }
    ensures size { unsigned_abs result.number ≤ 2 ^ 47 }
{
    Whole {
        number: i128::from(k),
    }
}

// The weight of a lag's old state.
fn old_weight(lag: Lag) -> Whole
    requires { lag.teq ≤ 65536 }
    ensures value { result.number ≡ pos lag.teq }
    ensures size { unsigned_abs result.number ≤ 2 ^ 47 }
{
    Whole {
        number: i128::from(lag.teq),
    }
}

// The weight of what drives a lag.
fn drive_weight(lag: Lag) -> Whole
    requires { lag.teq ≤ 65536 }
    ensures value { result.number ≡ drive_weight lag.teq lag.k }
    ensures size { unsigned_abs result.number ≤ 2 ^ 47 }
{
    Whole {
        number: i128::from(65536 - lag.teq) * i128::from(lag.k),
    }
}

fn product(x: Whole, weight: Whole) -> Whole
    requires number { unsigned_abs x.number < 2 ^ 72 }
    requires weight { unsigned_abs weight.number ≤ 2 ^ 47 }
    ensures value { result.number ≡ x.number *ℤ weight.number }
    ensures size { unsigned_abs result.number < 2 ^ 119 }
{
    Whole {
        number: x.number * weight.number,
    }
}

fn sum(x: Whole, y: Whole) -> Whole
    requires first { unsigned_abs x.number < 2 ^ 119 }
    requires second { unsigned_abs y.number < 2 ^ 119 }
    ensures { result.number ≡ x.number +ℤ y.number }
{
    Whole {
        number: x.number + y.number,
    }
}

// A number with 16 fractional bits, rounded to the nearest whole number.
fn nearest(n: Whole) -> Whole
    ensures { result.number ≡ rounded Mode.Near n.number (pos 65536) }
{
    Whole {
        number: round(n.number, 65536, Mode::Near),
    }
}
