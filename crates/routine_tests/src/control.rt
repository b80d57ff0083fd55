// `efx_control`: worked values of the controllers, row by row.

use efx_control::{Pi, PiLim, Ramp};
use fx_core::Ty;

// A gain of 1, and a share of a quarter.
const ONE: i32 = 65_536;

const QUARTER: u32 = 16_384;

// The values of a controller whose input is held at 100 from its first row on, and once more from
// the start.
fn pi_values(second: bool) -> (i64, i64, i64, i64) {
    let mut pi = Pi::new(second, Ty::S16, Ty::S16, ONE, QUARTER);
    let first = pi.step(100);
    let later = pi.step(100);
    let third = pi.step(100);
    pi.reset();
    (first, later, third, pi.step(100))
}

// The same with its state held between -20 and 120, and an input of 25 after the third row.
fn limited_values() -> (i64, i64, i64, i64) {
    let mut pi = PiLim::new(false, Ty::S16, Ty::S16, ONE, QUARTER, -20, 120);
    (pi.step(100), pi.step(100), pi.step(100), pi.step(25))
}

// The values of a ramp that rises by 2 and falls by 1 in a row.
fn ramp_values() -> (i64, i64, i64, i64) {
    let mut ramp = Ramp::new(Ty::S16, Ty::S16, 131_072, 65_536);
    (ramp.step(5), ramp.step(5), ramp.step(5), ramp.step(0))
}

#[test]
fn controllers(rt: HostRuntime) {
    assert_eq!(rt; pi_values(false), (100, 125, 150, 100));
    assert_eq!(rt; pi_values(true), (125, 150, 175, 125));
    assert_eq!(rt; limited_values(), (100, 120, 120, 70));
}

#[test]
fn ramps(rt: HostRuntime) {
    assert_eq!(rt; ramp_values(), (2, 4, 5, 4));
}
