// Lags of first order, and differentiating ones. A state has 48 bits, 16 of them fractional.

ghost use Rattle.std.specs.Prelude.{◌≡◌, ◌+ℤ◌, ◌-ℤ◌, ◌*ℤ◌, ◌<◌, ◌≤◌, ◌^◌, if◌then◌else◌, pos, unsigned_abs};
ghost use Rattle.fx_fraction.specs.Fraction.{whole};
ghost use Rattle.fx_core.specs.Types.{Holds};
ghost use Rattle.efx_filters.specs.Formulas.{drive_weight};
ghost use Rattle.efx_filters.specs.States.{IsState, dt1_after, dt1_start, dt1_value, next_state, pt1_after, pt1_start, pt1_value};

use crate::rounding::{nearest_state, state_value, unscaled_wide};
use fx_core::Ty;
use std::marker::Model;

/// A lag of first order, driven by the input of the row before.
#[derive(Drop)]
pub struct Pt1 {
    x: Ty,
    o: Ty,
    teq: u32,
    k: i32,
    y: i64,
    x1: i64,
}

/// A differentiating lag of first order, driven by a change of its input: by its first type the
/// change up to the row before, by its second the change up to this row.
#[derive(Drop)]
pub struct Dt1 {
    second: bool,
    x: Ty,
    o: Ty,
    teq: u32,
    k: i32,
    y: i64,
    x1: i64,
    x2: i64,
}

impl Model for Pt1 {
    ghost use Rattle.std.specs.Prelude.{◌≤◌};
    ghost use Rattle.fx_core.specs.Types.{Holds};
    ghost use Rattle.efx_filters.specs.States.{IsState, Pt1Data};

    ghost Value = { Pt1Data };

    ghost view = { λ l. record { x = l.x; o = l.o; teq = l.teq; k = l.k; y = l.y; x1 = l.x1 } };

    ghost invariant = { λ l. (l.teq ≤ 65536) × IsState l.y × Holds l.x l.x1 };
}

impl Model for Dt1 {
    ghost use Rattle.std.specs.Prelude.{◌≤◌};
    ghost use Rattle.fx_core.specs.Types.{Holds};
    ghost use Rattle.efx_filters.specs.States.{Dt1Data, IsState};

    ghost Value = { Dt1Data };

    ghost view = { λ l. record { second = l.second; x = l.x; o = l.o; teq = l.teq; k = l.k; y = l.y; x1 = l.x1; x2 = l.x2 } };

    ghost invariant = { λ l. (l.teq ≤ 65536) × IsState l.y × Holds l.x l.x1 × Holds l.x l.x2 };
}

impl Pt1 {
    /// A lag before its first row, from inputs of `x` to values of `o`. `teq` is the weight of the
    /// old state, and `k` the gain; both are in 1/65536.
    pub fn new(x: Ty, o: Ty, teq: u32, k: i32) -> Pt1
        requires { teq ≤ 65536 }
        ensures { result ≡ pt1_start x o teq k }
    {
        Pt1 {
            x,
            o,
            teq,
            k,
            y: 0,
            x1: 0,
        }
    }

    /// The value in a row with the input `x`, a raw count.
    pub fn step(&mut self, x: i64) -> i64
        requires { Holds self.old.x x }
        ensures after { self.new ≡ pt1_after self.old x }
        ensures value { result ≡ pt1_value self.old x }
    {
        let y = next_state(self.teq, self.k, self.y, self.x1);
        self.y = y;
        self.x1 = x;
        state_value(self.o, y)
    }

    /// Goes back to before the first row.
    pub fn reset(&mut self)
        ensures { self.new ≡ pt1_start self.old.x self.old.o self.old.teq self.old.k }
    {
        self.y = 0;
        self.x1 = 0;
    }
}

impl Dt1 {
    /// A lag before its first row, from inputs of `x` to values of `o`, of the second type or else of
    /// the first. `teq` is the weight of the old state, and `k` the gain; both are in 1/65536.
    pub fn new(second: bool, x: Ty, o: Ty, teq: u32, k: i32) -> Dt1
        requires { teq ≤ 65536 }
        ensures { result ≡ dt1_start second x o teq k }
    {
        Dt1 {
            second,
            x,
            o,
            teq,
            k,
            y: 0,
            x1: 0,
            x2: 0,
        }
    }

    /// The value in a row with the input `x`, a raw count.
    pub fn step(&mut self, x: i64) -> i64
        requires { Holds self.old.x x }
        ensures after { self.new ≡ dt1_after self.old x }
        ensures value { result ≡ dt1_value self.old x }
    {
        let drive = change(self.second, x, self.x1, self.x2);
        let y = next_state(self.teq, self.k, self.y, drive);
        self.y = y;
        self.x2 = self.x1;
        self.x1 = x;
        state_value(self.o, y)
    }

    /// Goes back to before the first row.
    pub fn reset(&mut self)
        ensures { self.new ≡ dt1_start self.old.second self.old.x self.old.o self.old.teq self.old.k }
    {
        self.y = 0;
        self.x1 = 0;
        self.x2 = 0;
    }
}

// What drives a differentiating lag: the change of its input up to this row, or up to the row before.
fn change(second: bool, x: i64, x1: i64, x2: i64) -> i64
    requires now { unsigned_abs x < 2 ^ 32 }
    requires before { unsigned_abs x1 < 2 ^ 32 }
    requires earlier { unsigned_abs x2 < 2 ^ 32 }
    ensures value { result ≡ (if second then x -ℤ x1 else x1 -ℤ x2) }
    ensures size { unsigned_abs result < 2 ^ 33 }
{
    if second { x - x1 } else { x1 - x2 }
}

// The state behind one more row, from what drives the lag.
fn next_state(teq: u32, k: i32, y: i64, drive: i64) -> i64
    requires teq { teq ≤ 65536 }
    requires state { IsState y }
    requires drive { unsigned_abs drive < 2 ^ 33 }
    ensures value { result ≡ next_state teq k y (whole drive) }
    ensures state { IsState result }
{
    nearest_state(unscaled_wide(unrounded(teq, k, y, drive)))
}

// The new state in 1/65536, exact.
fn unrounded(teq: u32, k: i32, y: i64, drive: i64) -> i128
    requires teq { teq ≤ 65536 }
    requires state { IsState y }
    requires drive { unsigned_abs drive < 2 ^ 33 }
    ensures value { result ≡ y *ℤ pos teq +ℤ drive *ℤ drive_weight teq k }
    ensures size { unsigned_abs result < 2 ^ 96 }
{
    product(y, i64::from(teq)) + product(drive, weight(65_536 - teq, k))
}

// The weight of what drives the lag, from the gain and what the old state's weight leaves.
fn weight(rest: u32, k: i32) -> i64
    requires { rest ≤ 65536 }
    ensures value { result ≡ pos rest *ℤ k }
    ensures size { unsigned_abs result ≤ 2 ^ 47 }
{
    i64::from(rest) * i64::from(k)
}

fn product(a: i64, b: i64) -> i128
    requires first { unsigned_abs a < 2 ^ 48 }
    requires second { unsigned_abs b ≤ 2 ^ 47 }
    ensures value { result ≡ a *ℤ b }
    ensures size { unsigned_abs result < 2 ^ 95 }
{
    i128::from(a) * i128::from(b)
}
