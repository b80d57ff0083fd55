// The outside as two traits: a shelf of named files that are read, and a sink that is written.
// Both count their faults, so that what failed can be told from what is wrong.
// Shelves and sinks in memory, over real files and over real output stand beside them.
#![tactic(auto)]

pub mod memory;
mod names;
pub mod outside;
pub mod real;
pub mod steady;
mod stock;
pub mod stored;
pub mod whole;

pub use memory::{MemShelf, MemSink};
pub use outside::{Shelf, ShelfFault, Sink, SinkFault};
pub use real::{FileShelf, StdSink};
pub use steady::{SteadyShelf, SteadySink};
pub use stored::Stored;
pub use whole::{ReadAllFault, read_all};
