// `efx_filters`: worked values of the filters, row by row.

ghost use Rattle.std.specs.Prelude.{◌≤◌};

use efx_filters::{Average, Dt1, Gain, Pt1};
use fx_core::Ty;
use std::alloc::{AllocError, Global};
use std::test::Fail;

// A gain of 1, and a weight or a gain of a half.
const ONE: i32 = 65_536;

const HALF: i32 = 32_768;

const HALF_WEIGHT: u32 = 32_768;

// The values of a gain of a half at two inputs.
fn halves() -> (i64, i64) {
    let mut half = Gain::new(Ty::S16, Ty::S16, HALF);
    (half.step(3), half.step(-3))
}

// The values of a lag whose input is held at 1000 from its first row on, and once more from the start.
fn lag_values() -> (i64, i64, i64, i64) {
    let mut lag = Pt1::new(Ty::S16, Ty::S16, HALF_WEIGHT, ONE);
    let first = lag.step(1000);
    let second = lag.step(1000);
    let third = lag.step(1000);
    lag.reset();
    (first, second, third, lag.step(1000))
}

// The same of a differentiating lag of either type.
fn change_values(by_second_type: bool) -> (i64, i64, i64) {
    let mut lag = Dt1::new(by_second_type, Ty::S16, Ty::S16, HALF_WEIGHT, ONE);
    (lag.step(1000), lag.step(1000), lag.step(1000))
}

// The values of an average over `n` rows.
fn means(alloc: Global, n: u16) -> Result<(i64, i64, i64), AllocError>
    requires some { 1 ≤ n }
    requires few { n ≤ 1024 }
{
    let mut average = Average::new(alloc, Ty::S16, Ty::S16, n)?;
    Ok((average.step(-1), average.step(-2), average.step(30)))
}

#[test]
fn gains(rt: HostRuntime) {
    assert_eq!(rt; halves(), (2, -1));
}

#[test]
fn lags(rt: HostRuntime) {
    assert_eq!(rt; lag_values(), (0, 500, 750, 0));
    assert_eq!(rt; change_values(false), (0, 500, 250));
    assert_eq!(rt; change_values(true), (500, 250, 125));
}

#[test]
fn averages(rt: HostRuntime) -> Result<(), Fail> {
    assert_eq!(rt; means(rt.alloc(), 1)?, (-1, -2, 30));
    assert_eq!(rt; means(rt.alloc(), 2)?, (0, -1, 14));
    assert_eq!(rt; means(rt.alloc(), 3)?, (0, -1, 9));
    Ok(())
}
