// Fractions of whole numbers, their order and their operations, and the laws of distances on
// which bounds of errors stand. There is nothing to run here: the crate is definitions and proofs.
#![tactic(auto)]

mod laws;

pub use laws::laws_of_distances;
