// Tables of values, the curves through them, and how steep they are.
#![tactic(auto)]

mod curves;
mod slopes;
mod stretch;
mod stretches;
mod table;

pub use crate::curves::{call, call_int};
pub use crate::slopes::{Slope, greatest_slope, greatest_step, run, steeper};
pub use crate::stretch::Stretch;
pub use crate::stretches::{stretch_at, stretch_to};
pub use crate::table::{Table, TableFault, first_outside};
pub use fx_routines::CurveOp;
