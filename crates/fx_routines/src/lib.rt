// The routines by name: one table of all names, which routine a word names, which types each one
// takes, and the name of a routine.
#![tactic(auto)]

mod bits;
mod control;
mod fitting;
mod interpolation;
mod laws;
mod operation;
mod reading;
mod shape;
mod table;
mod writing;

pub use crate::bits::BitOp;
pub use crate::control::{ControlOp, EdgeOp, FilterOp, HystOp, SwitchOp};
pub use crate::fitting::takes;
pub use crate::interpolation::{CurveOp, InterpolationOp, MapOp};
pub use crate::laws::law_of_names;
pub use crate::operation::{ArithOp, ScaledOp, Types, Variant};
pub use crate::reading::routine_named;
pub use crate::shape::{Class, Part};
pub use crate::table::Routine;
pub use crate::writing::{push_name, type_word};
