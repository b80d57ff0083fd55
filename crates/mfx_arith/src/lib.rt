// Mfx arithmetic: the operations on raw counts, typed for native integers and by name for any
// types.
#![tactic(auto)]

mod calls;
mod integers;
mod limits;
mod quotients;
mod sums;
mod taking;

pub use crate::calls::call;
pub use crate::limits::{limit, max, min, rate_limiter};
pub use crate::quotients::{div, div_sh_left, modulo, mul_div};
pub use crate::sums::{abs, abs_diff, add, mul, mul_sh_right, sub};
pub use crate::taking::takes;
pub use fx_routines::{ArithOp, Variant};
