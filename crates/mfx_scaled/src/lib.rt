// The forms with binary points: sums, differences, products and quotients of raw counts that stand
// at binary points of their own, and the conversion between two points.
#![tactic(auto)]

mod binary_points;
mod calls;
mod counts;

pub use crate::binary_points::Points;
pub use crate::calls::call;
pub use fx_routines::ScaledOp;
