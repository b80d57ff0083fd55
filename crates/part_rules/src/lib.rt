// Bounds of a part of a network, and what the rules of all families stand on: magnitudes, the hull of
// values, and the errors of products and quotients.
#![tactic(auto)]

mod bounds;
mod errors;
mod ranges;
mod rule_laws;
mod whole_numbers;
mod wide_bounds;

pub use bounds::Bounds;
pub use errors::{
    greater_error, magnitude, may_be_zero, product_error, product_quotient_error, quotient_error,
    shifted_error, shifted_quotient_error, sum_error,
};
pub use ranges::{Range, ends, high_end, low_end};
pub use rule_laws::law_of_reading;
pub use whole_numbers::{Whole, greater, lesser, power_of_two};
pub use wide_bounds::{WideBounds, narrowed};
