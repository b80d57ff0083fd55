// Hysteresis: a switch with two ends.

ghost use Rattle.std.specs.Prelude.{◌≡◌, ◌<◌, ◌^◌, unsigned_abs};
ghost use Rattle.fx_core.specs.Types.{Holds};
ghost use Rattle.efx_switch.specs.Switching.{AreEnds, left_end, right_end};
ghost use Rattle.efx_switch.specs.States.{hyst_after, hyst_start, hyst_value};

use crate::truth::number_of;
use fx_core::Ty;
use fx_routines::HystOp;
use std::marker::Model;

/// A hysteresis: true above its right end, false below its left one, and between the two what it was.
#[derive(Drop)]
pub struct Hyst {
    op: HystOp,
    x: Ty,
    p: i64,
    q: i64,
    on: bool,
}

impl Model for Hyst {
    ghost use Rattle.efx_switch.specs.Switching.{AreEnds};
    ghost use Rattle.efx_switch.specs.States.{HystData};

    ghost Value = { HystData };

    ghost view = { λ h. record { op = h.op; x = h.x; p = h.p; q = h.q; on = h.on } };

    ghost invariant = { λ h. AreEnds h.op h.x h.p h.q };
}

impl Hyst {
    /// A hysteresis before its first row, over inputs of `x`. Its ends are given by `p` and `q`, raw
    /// counts, in the order of the operation's name; a distance is 0 to 4294967295. An end may lie
    /// outside of the type `x`, and is then never passed.
    pub fn new(op: HystOp, x: Ty, p: i64, q: i64) -> Hyst
        requires { AreEnds op x p q }
        ensures { result ≡ hyst_start op x p q }
    {
        Hyst {
            op,
            x,
            p,
            q,
            on: false,
        }
    }

    /// Whether it is on in a row with the input `x`, a raw count: 0 or 1.
    pub fn step(&mut self, x: i64) -> i64
        requires { Holds self.old.x x }
        ensures after { self.new ≡ hyst_after self.old x }
        ensures value { result ≡ hyst_value self.old x }
    {
        if x > right_end(self.op, self.p, self.q) {
            self.on = true;
        } else if x < left_end(self.op, self.p, self.q) {
            self.on = false;
        }
        number_of(self.on)
    }

    /// Goes back to before the first row.
    pub fn reset(&mut self)
        ensures { self.new ≡ hyst_start self.old.op self.old.x self.old.p self.old.q }
    {
        self.on = false;
    }
}

// The end below which it is off.
fn left_end(op: HystOp, p: i64, q: i64) -> i64
    requires first { unsigned_abs p < 2 ^ 32 }
    requires second { unsigned_abs q < 2 ^ 32 }
    ensures { result ≡ left_end op p q }
{
    match op {
        HystOp::LeftRight | HystOp::LeftDelta => p,
        HystOp::CenterHalfDelta => p - q,
        HystOp::DeltaRight => q - p,
    }
}

// The end above which it is on.
fn right_end(op: HystOp, p: i64, q: i64) -> i64
    requires first { unsigned_abs p < 2 ^ 32 }
    requires second { unsigned_abs q < 2 ^ 32 }
    ensures { result ≡ right_end op p q }
{
    match op {
        HystOp::LeftRight | HystOp::DeltaRight => q,
        HystOp::CenterHalfDelta | HystOp::LeftDelta => p + q,
    }
}
