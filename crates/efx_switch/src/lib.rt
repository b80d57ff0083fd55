// The switches: hysteresis, debouncing and edges, each stepped row by row.
#![tactic(auto)]

mod debounce;
mod edge;
mod hysteresis;
mod truth;

pub use crate::debounce::Debounce;
pub use crate::edge::Edge;
pub use crate::hysteresis::Hyst;
pub use fx_routines::{EdgeOp, HystOp};
