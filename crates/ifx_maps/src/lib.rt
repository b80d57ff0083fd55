// Maps: values over two axes, interpolated or looked up, and how steep they are in each direction.
#![tactic(auto)]

mod map_table;
mod maps;
mod slopes;

pub use crate::map_table::{MapFault, MapTable};
pub use crate::maps::{call, call_int};
pub use crate::slopes::{Direction, slope_x, slope_y, step_x, step_y};
pub use fx_routines::MapOp;
