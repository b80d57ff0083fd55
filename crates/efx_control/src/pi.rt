// PI controllers. A state has 48 bits, 16 of them fractional.

ghost use Rattle.std.specs.Prelude.{◌≡◌, ◌+◌, ◌-◌, ◌+ℤ◌, ◌-ℤ◌, ◌*ℤ◌, ◌<◌, ◌≤◌, ◌≤ℤ◌, ◌^◌, pos, unsigned_abs};
ghost use Rattle.std.specs.Int.{int_max, int_min};
ghost use Rattle.fx_fraction.specs.Fraction.{whole};
ghost use Rattle.fx_core.specs.Types.{Holds};
ghost use Rattle.efx_filters.specs.States.{IsState};
ghost use Rattle.efx_control.specs.Formulas.{before_weight, input_weight, limited_formula, pi_formula};
ghost use Rattle.efx_control.specs.States.{kept_state, pi_after, pi_lim_after, pi_lim_start, pi_lim_value, pi_start, pi_value};

use efx_filters::{nearest_state, state_value, unscaled_wide};
use fx_core::Ty;
use std::marker::Model;

/// A whole share, in 1/65536.
const ALL: u32 = 65_536;

/// A count of the output, in 1/65536 of a state's raw count.
const COUNT: i64 = 4_294_967_296;

/// A PI controller. In a row its state moves by the gain times the change of the input, and by a
/// share of the gain times an input: by the first type the input before, by the second this one.
#[derive(Drop)]
pub struct Pi {
    second: bool,
    x: Ty,
    o: Ty,
    k: i32,
    r: u32,
    y: i64,
    x1: i64,
}

/// A PI controller whose state is held between two limits, so that it doesn't wind up beyond them.
#[derive(Drop)]
pub struct PiLim {
    second: bool,
    x: Ty,
    o: Ty,
    k: i32,
    r: u32,
    lo: i64,
    hi: i64,
    y: i64,
    x1: i64,
}

impl Model for Pi {
    ghost use Rattle.std.specs.Prelude.{◌≤◌};
    ghost use Rattle.fx_core.specs.Types.{Holds};
    ghost use Rattle.efx_filters.specs.States.{IsState};
    ghost use Rattle.efx_control.specs.States.{PiData};

    ghost Value = { PiData };

    ghost view = { λ pi. record { second = pi.second; x = pi.x; o = pi.o; k = pi.k; r = pi.r; y = pi.y; x1 = pi.x1 } };

    ghost invariant = { λ pi. (pi.r ≤ 65536) × IsState pi.y × Holds pi.x pi.x1 };
}

impl Model for PiLim {
    ghost use Rattle.std.specs.Prelude.{◌≤◌};
    ghost use Rattle.fx_core.specs.Types.{Holds};
    ghost use Rattle.efx_filters.specs.States.{IsState};
    ghost use Rattle.efx_control.specs.States.{PiLimData};

    ghost Value = { PiLimData };

    ghost view = { λ pi. record { second = pi.second; x = pi.x; o = pi.o; k = pi.k; r = pi.r; lo = pi.lo; hi = pi.hi; y = pi.y; x1 = pi.x1 } };

    ghost invariant = { λ pi. (pi.r ≤ 65536) × Holds pi.o pi.lo × Holds pi.o pi.hi × IsState pi.y × Holds pi.x pi.x1 };
}

impl Pi {
    /// A controller before its first row, from inputs of `x` to values of `o`, of the second type or
    /// else of the first. `k` is the gain, and `r` the share of it that is integrated in a row; both
    /// are in 1/65536.
    pub fn new(second: bool, x: Ty, o: Ty, k: i32, r: u32) -> Pi
        requires { r ≤ 65536 }
        ensures { result ≡ pi_start second x o k r }
    {
        Pi {
            second,
            x,
            o,
            k,
            r,
            y: 0,
            x1: 0,
        }
    }

    /// The value in a row with the input `x`, a raw count.
    pub fn step(&mut self, x: i64) -> i64
        requires { Holds self.old.x x }
        ensures after { self.new ≡ pi_after self.old x }
        ensures value { result ≡ pi_value self.old x }
    {
        let y = next_state(self.second, self.k, self.r, self.y, x, self.x1);
        self.y = y;
        self.x1 = x;
        state_value(self.o, y)
    }

    /// Goes back to before the first row.
    pub fn reset(&mut self)
        ensures { self.new ≡ pi_start self.old.second self.old.x self.old.o self.old.k self.old.r }
    {
        self.y = 0;
        self.x1 = 0;
    }
}

impl PiLim {
    /// A controller before its first row, as `Pi::new` makes it, whose state is held between `lo` and
    /// `hi`, raw counts of the output.
    pub fn new(second: bool, x: Ty, o: Ty, k: i32, r: u32, lo: i64, hi: i64) -> PiLim
        requires share { r ≤ 65536 }
        requires low { Holds o lo }
        requires high { Holds o hi }
        requires order { lo ≤ℤ hi }
        ensures { result ≡ pi_lim_start second x o k r lo hi }
    {
        PiLim {
            second,
            x,
            o,
            k,
            r,
            lo,
            hi,
            y: 0,
            x1: 0,
        }
    }

    /// The value in a row with the input `x`, a raw count.
    pub fn step(&mut self, x: i64) -> i64
        requires { Holds self.old.x x }
        ensures after { self.new ≡ pi_lim_after self.old x }
        ensures value { result ≡ pi_lim_value self.old x }
    {
        let held = next_limited_state(
            self.second,
            self.k,
            self.r,
            self.lo,
            self.hi,
            self.y,
            x,
            self.x1,
        );
        self.y = held;
        self.x1 = x;
        state_value(self.o, held)
    }

    /// Goes back to before the first row.
    pub fn reset(&mut self)
        ensures { self.new ≡ pi_lim_start self.old.second self.old.x self.old.o self.old.k self.old.r self.old.lo self.old.hi }
    {
        self.y = 0;
        self.x1 = 0;
    }
}

// The state behind one more row, without limits.
fn next_state(second: bool, k: i32, r: u32, y: i64, x: i64, x1: i64) -> i64
    requires share { r ≤ 65536 }
    requires state { IsState y }
    requires now { unsigned_abs x < 2 ^ 32 }
    requires before { unsigned_abs x1 < 2 ^ 32 }
    ensures value { result ≡ kept_state (pi_formula second k r (whole y) (whole x) (whole x1)) }
    ensures state { IsState result }
{
    nearest_state(unscaled_wide(unrounded(second, k, r, y, x, x1)))
}

// The state behind one more row, held between the limits.
fn next_limited_state(
    second: bool,
    k: i32,
    r: u32,
    lo: i64,
    hi: i64,
    y: i64,
    x: i64,
    x1: i64,
) -> i64
    requires share { r ≤ 65536 }
    requires low { unsigned_abs lo < 2 ^ 32 }
    requires high { unsigned_abs hi < 2 ^ 32 }
    requires state { IsState y }
    requires now { unsigned_abs x < 2 ^ 32 }
    requires before { unsigned_abs x1 < 2 ^ 32 }
    ensures value { result ≡ kept_state (limited_formula lo hi (pi_formula second k r (whole y) (whole x) (whole x1))) }
    ensures state { IsState result }
{
    let exact = unrounded(second, k, r, y, x, x1);
    nearest_state(unscaled_wide(limited(lo, hi, exact)))
}

// A state in 1/65536, held between the limits.
fn limited(lo: i64, hi: i64, exact: i128) -> i128
    requires low { unsigned_abs lo < 2 ^ 32 }
    requires high { unsigned_abs hi < 2 ^ 32 }
    requires exact { unsigned_abs exact < 2 ^ 96 }
    ensures value { result ≡ int_min (hi *ℤ pos 4294967296) (int_max (lo *ℤ pos 4294967296) exact) }
    ensures size { unsigned_abs result < 2 ^ 96 }
{
    weighted(hi, COUNT).min(weighted(lo, COUNT).max(exact))
}

// The new state in 1/65536, exact and without limits.
fn unrounded(second: bool, k: i32, r: u32, y: i64, x: i64, x1: i64) -> i128
    requires share { r ≤ 65536 }
    requires state { IsState y }
    requires now { unsigned_abs x < 2 ^ 32 }
    requires before { unsigned_abs x1 < 2 ^ 32 }
    ensures value { result ≡ y *ℤ pos 65536 +ℤ (x *ℤ input_weight second k r -ℤ x1 *ℤ before_weight second k r) }
    ensures size { unsigned_abs result < 2 ^ 96 }
{
    let moved = weighted(x, input_weight(second, k, r)) - weighted(x1, before_weight(second, k, r));
    scaled(y) + moved
}

fn input_weight(second: bool, k: i32, r: u32) -> i64
    requires { r ≤ 65536 }
    ensures value { result ≡ input_weight second k r }
    ensures size { unsigned_abs result < 2 ^ 49 }
{
    part(if second { ALL + r } else { ALL }, k)
}

fn before_weight(second: bool, k: i32, r: u32) -> i64
    requires { r ≤ 65536 }
    ensures value { result ≡ before_weight second k r }
    ensures size { unsigned_abs result < 2 ^ 49 }
{
    part(if second { ALL } else { ALL - r }, k)
}

// A share of the gain.
fn part(share: u32, k: i32) -> i64
    requires { share ≤ 131072 }
    ensures value { result ≡ pos share *ℤ k }
    ensures size { unsigned_abs result < 2 ^ 49 }
{
    i64::from(share) * i64::from(k)
}

fn weighted(number: i64, weight: i64) -> i128
    requires number { unsigned_abs number < 2 ^ 32 }
    requires weight { unsigned_abs weight < 2 ^ 49 }
    ensures value { result ≡ number *ℤ weight }
    ensures size { unsigned_abs result < 2 ^ 81 }
{
    i128::from(number) * i128::from(weight)
}

// A state in 1/65536 of its raw count.
fn scaled(y: i64) -> i128
    requires { IsState y }
    ensures value { result ≡ y *ℤ pos 65536 }
    ensures size { unsigned_abs result < 2 ^ 64 }
{
    i128::from(y) * i128::from(ALL)
}
