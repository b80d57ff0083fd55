// Proportional blocks.

ghost use Rattle.std.specs.Prelude.{◌≡◌, ◌-◌, ◌*ℤ◌, ◌<◌, ◌≤◌, ◌^◌, unsigned_abs};
ghost use Rattle.fx_core.specs.Types.{Holds};
ghost use Rattle.efx_filters.specs.States.{gain_after, gain_start, gain_value};

use crate::rounding::{nearest, unscaled};
use fx_core::Ty;
use std::marker::Model;

/// A proportional block: its value is the gain times the input, without a state.
#[derive(Drop)]
pub struct Gain {
    x: Ty,
    o: Ty,
    k: i32,
}

impl Model for Gain {
    ghost use Rattle.efx_filters.specs.States.{GainData};

    ghost Value = { GainData };

    ghost view = { λ g. record { x = g.x; o = g.o; k = g.k } };
}

impl Gain {
    /// A block from inputs of `x` to values of `o`, with the gain `k` in 1/65536.
    pub fn new(x: Ty, o: Ty, k: i32) -> Gain
        ensures { result ≡ gain_start x o k }
    {
        Gain { x, o, k }
    }

    /// The value in a row with the input `x`, a raw count: `k * x / 65536`, rounded to the nearest
    /// and saturated.
    pub fn step(&mut self, x: i64) -> i64
        requires { Holds self.old.x x }
        ensures after { self.new ≡ gain_after self.old x }
        ensures value { result ≡ gain_value self.old x }
    {
        nearest(self.o, unscaled(product(self.k, x)))
    }

    /// Goes back to before the first row, which changes nothing.
    pub fn reset(&mut self)
        ensures { self.new ≡ gain_start self.old.x self.old.o self.old.k }
    {}
}

// The gain times the input, exact.
fn product(k: i32, x: i64) -> i64
    requires { unsigned_abs x < 2 ^ 32 }
    ensures value { result ≡ x *ℤ k }
    ensures size { unsigned_abs result ≤ 2 ^ 63 - 2 ^ 31 }
{
    x * i64::from(k)
}
