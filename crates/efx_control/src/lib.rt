// The controllers: PI controllers of two types, without limits and with them, and ramps, each stepped
// row by row.
#![tactic(auto)]

mod pi;
mod ramp;

pub use crate::pi::{Pi, PiLim};
pub use crate::ramp::Ramp;
