// Breakpoint axes, and the search for a number's position on one.
#![tactic(auto)]

mod axis;
mod position;
mod searching;

pub use crate::axis::{Axis, AxisFault};
pub use crate::position::Dp;
pub use crate::searching::{point_below, search};
