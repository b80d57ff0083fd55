// Ramps. A state has 48 bits, 16 of them fractional.

ghost use Rattle.std.specs.Prelude.{◌≡◌, ◌+ℤ◌, ◌-ℤ◌, ◌*ℤ◌, ◌<◌, ◌^◌, pos, unsigned_abs};
ghost use Rattle.std.specs.Int.{int_max, int_min};
ghost use Rattle.fx_fraction.specs.Fraction.{whole};
ghost use Rattle.fx_core.specs.Types.{Holds};
ghost use Rattle.efx_filters.specs.States.{IsState};
ghost use Rattle.efx_control.specs.Formulas.{ramp_formula};
ghost use Rattle.efx_control.specs.States.{kept_state, ramp_after, ramp_start, ramp_value};

use efx_filters::{nearest_state, state_value};
use fx_core::Ty;
use std::marker::Model;

/// A count, in 1/65536.
const COUNT: i64 = 65_536;

/// A ramp: it follows its input, but rises by at most `up` and falls by at most `down` in a row.
#[derive(Drop)]
pub struct Ramp {
    x: Ty,
    o: Ty,
    up: u32,
    down: u32,
    y: i64,
}

impl Model for Ramp {
    ghost use Rattle.std.specs.Prelude.{◌<◌, ◌^◌};
    ghost use Rattle.efx_filters.specs.States.{IsState};
    ghost use Rattle.efx_control.specs.States.{RampData};

    ghost Value = { RampData };

    ghost view = { λ ramp. record { x = ramp.x; o = ramp.o; up = ramp.up; down = ramp.down; y = ramp.y } };

    ghost invariant = { λ ramp. (ramp.up < 2 ^ 31) × (ramp.down < 2 ^ 31) × IsState ramp.y };
}

impl Ramp {
    /// A ramp before its first row, from inputs of `x` to values of `o`. It rises by at most `up` and
    /// falls by at most `down` in a row; both are in 1/65536 of a count.
    pub fn new(x: Ty, o: Ty, up: u32, down: u32) -> Ramp
        requires up { up < 2 ^ 31 }
        requires down { down < 2 ^ 31 }
        ensures { result ≡ ramp_start x o up down }
    {
        Ramp {
            x,
            o,
            up,
            down,
            y: 0,
        }
    }

    /// The value in a row with the input `x`, a raw count.
    pub fn step(&mut self, x: i64) -> i64
        requires { Holds self.old.x x }
        ensures after { self.new ≡ ramp_after self.old x }
        ensures value { result ≡ ramp_value self.old x }
    {
        let y = next_state(self.up, self.down, self.y, x);
        self.y = y;
        state_value(self.o, y)
    }

    /// Goes back to before the first row.
    pub fn reset(&mut self)
        ensures { self.new ≡ ramp_start self.old.x self.old.o self.old.up self.old.down }
    {
        self.y = 0;
    }
}

// The state behind one more row, from the old one and the input.
fn next_state(up: u32, down: u32, y: i64, x: i64) -> i64
    requires up { up < 2 ^ 31 }
    requires down { down < 2 ^ 31 }
    requires state { IsState y }
    requires input { unsigned_abs x < 2 ^ 32 }
    ensures value { result ≡ kept_state (ramp_formula up down (whole y) (whole x)) }
    ensures state { IsState result }
{
    nearest_state(i128::from(followed(up, down, y, x)))
}

// The new state, which may lie beyond those that are kept.
fn followed(up: u32, down: u32, y: i64, x: i64) -> i64
    requires up { up < 2 ^ 31 }
    requires down { down < 2 ^ 31 }
    requires state { IsState y }
    requires input { unsigned_abs x < 2 ^ 32 }
    ensures { result ≡ int_min (y +ℤ pos up) (int_max (y -ℤ pos down) (x *ℤ pos 65536)) }
{
    let highest = y + i64::from(up);
    let lowest = y - i64::from(down);
    highest.min(lowest.max(wanted(x)))
}

// The state that would give the input itself.
fn wanted(x: i64) -> i64
    requires { unsigned_abs x < 2 ^ 32 }
    ensures value { result ≡ x *ℤ pos 65536 }
    ensures size { unsigned_abs result < 2 ^ 48 }
{
    x * COUNT
}
