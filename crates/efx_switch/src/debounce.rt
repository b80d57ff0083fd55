// Debouncing: an input counts once it has stayed the same for a number of rows.

ghost use Rattle.std.specs.Prelude.{◌≡◌, ◌≤◌};
ghost use Rattle.efx_switch.specs.Switching.{IsTruth};
ghost use Rattle.efx_switch.specs.States.{debounce_after, debounce_start, debounce_value};

use crate::truth::{is_one, number_of};
use std::marker::Model;

/// A debounced truth value. It turns to its input once that has differed from it for a number of
/// rows without a break, this row among them: `rise` of them to become true, `fall` to become false.
#[derive(Drop)]
pub struct Debounce {
    rise: u16,
    fall: u16,
    on: bool,
    count: u16,
}

impl Model for Debounce {
    ghost use Rattle.std.specs.Prelude.{◌<◌, ◌≤◌, if◌then◌else◌};
    ghost use Rattle.efx_switch.specs.States.{DebounceData};

    ghost Value = { DebounceData };

    ghost view = { λ d. record { rise = d.rise; fall = d.fall; on = d.on; count = d.count } };

    ghost invariant = { λ d. (1 ≤ d.rise) × (1 ≤ d.fall) × (d.count < (if d.on then d.fall else d.rise)) };
}

impl Debounce {
    /// A block before its first row. `rise` and `fall` are numbers of rows.
    pub fn new(rise: u16, fall: u16) -> Debounce
        requires rise { 1 ≤ rise }
        requires fall { 1 ≤ fall }
        ensures { result ≡ debounce_start rise fall }
    {
        Debounce {
            rise,
            fall,
            on: false,
            count: 0,
        }
    }

    /// The debounced value in a row with the input `x`; both are 0 or 1.
    pub fn step(&mut self, x: i64) -> i64
        requires { IsTruth x }
        ensures after { self.new ≡ debounce_after self.old x }
        ensures value { result ≡ debounce_value self.old x }
    {
        let now = is_one(x);
        if now == self.on {
            self.count = 0;
        } else {
            let rows = if now { self.rise } else { self.fall };
            self.count += 1;
            if self.count >= rows {
                self.on = now;
                self.count = 0;
            }
        }
        number_of(self.on)
    }

    /// Goes back to before the first row.
    pub fn reset(&mut self)
        ensures { self.new ≡ debounce_start self.old.rise self.old.fall }
    {
        self.on = false;
        self.count = 0;
    }
}
