// Evaluates a network row by row: a plan that is made once, and a step for each row that takes no memory.
#![tactic(auto)]

mod evaluator;
mod filling;
mod resolving;
mod states;
mod steps;

pub use evaluator::Plan;
pub use states::State;
