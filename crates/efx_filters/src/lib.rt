// The filters: a proportional block, lags of first order, differentiating lags and moving averages,
// each stepped row by row.
#![tactic(auto)]

mod average;
mod gain;
mod lags;
mod ring;
mod rounding;

pub use crate::average::Average;
pub use crate::gain::Gain;
pub use crate::lags::{Dt1, Pt1};
pub use crate::rounding::{nearest_state, state_value, unscaled_wide};
