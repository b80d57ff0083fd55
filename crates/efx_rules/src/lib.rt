// The rules of the filters: the bounds of their states and values, with their soundness and monotony.
#![tactic(auto)]

mod filter_errors;
mod filter_laws;
mod filter_ranges;
mod filter_values;
mod narrowing;
mod state_bounds;

pub use filter_laws::law_of_filters;
pub use narrowing::{average_bounds, difference_bounds, gain_bounds, lag_bounds, value_bounds};
