// Moving averages.

ghost use Rattle.std.specs.Prelude.{◌≡◌, ◌*ℤ◌, ◌+ℤ◌, ◌<◌, ◌≤◌, ◌^◌, IfOk, pos, unsigned_abs};
ghost use Rattle.fx_core.specs.Rounding.{rounded};
ghost use Rattle.fx_core.specs.Types.{Holds};
ghost use Rattle.fx_core.specs.declared.quotient.Mode.TheVariants.{Near};
ghost use Rattle.efx_filters.specs.States.{average_after, average_start, average_value};

use crate::ring::Ring;
use crate::rounding::nearest;
use fx_core::Ty;
use std::alloc::{AllocError, Global};
use std::marker::Model;

/// A moving average over `n` rows, where the inputs before the first row count as 0.
#[derive(Drop)]
pub struct Average {
    x: Ty,
    o: Ty,
    n: u16,
    inputs: Ring,
    sum: i64,
}

impl Model for Average {
    ghost use Rattle.std.specs.Prelude.{◌≡◌, ◌≤◌, All, length, suc};
    ghost use Rattle.fx_core.specs.Types.{Holds};
    ghost use Rattle.efx_filters.specs.States.{AverageData};
    ghost use Rattle.efx_filters.specs.Windows.{total};

    ghost Value = { AverageData };

    ghost view = { λ a. record { x = a.x; o = a.o; n = a.n; window = a.inputs } };

    ghost invariant = { λ a. (suc (length a.inputs) ≡ a.n) × (a.n ≤ 1024) × (a.sum ≡ total a.inputs) × All (Holds a.x) a.inputs };
}

impl Average {
    /// An average over `n` rows before its first row, from inputs of `x` to values of `o`.
    pub fn new(alloc: Global, x: Ty, o: Ty, n: u16) -> Result<Average, AllocError>
        requires some { 1 ≤ n }
        requires few { n ≤ 1024 }
        ensures { IfOk result (λ average. average ≡ average_start x o n) }
    {
        let inputs = Ring::new(alloc, (n - 1) as usize)?;
        Ok(Average {
            x,
            o,
            n,
            inputs,
            sum: 0,
        })
    }

    /// The value in a row with the input `x`, a raw count: the mean of this input and those of the
    /// `n - 1` rows before, rounded to the nearest and saturated.
    pub fn step(&mut self, x: i64) -> i64
        requires { Holds self.old.x x }
        ensures after { self.new ≡ average_after self.old x }
        ensures value { result ≡ average_value self.old x }
    {
        let sum = self.sum + x;
        self.sum = sum - self.inputs.push(x);
        nearest(self.o, mean(sum, self.n))
    }

    /// Goes back to before the first row.
    pub fn reset(&mut self)
        ensures { self.new ≡ average_start self.old.x self.old.o self.old.n }
    {
        self.inputs.clear();
        self.sum = 0;
    }
}

// The mean of `n` numbers with this sum, rounded to the nearest whole number, a half upward.
fn mean(sum: i64, n: u16) -> i64
    requires sum { unsigned_abs sum < 2 ^ 43 }
    requires some { 1 ≤ n }
    ensures { result ≡ rounded Near sum (pos n) }
{
    let count = i64::from(n);
    (2 * sum + count).div_euclid(2 * count)
}
