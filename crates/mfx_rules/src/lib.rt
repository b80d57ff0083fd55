// The rules of Mfx arithmetic and of the forms with binary points: the bounds of an operation's value,
// from those of its arguments.
#![tactic(auto)]

mod arith_errors;
mod arith_laws;
mod arith_ranges;
mod arith_ruling;
mod arith_values;
mod narrowing;
mod rule_laws;
mod scaled_counts;
mod scaled_errors;
mod scaled_laws;
mod scaled_ranges;
mod scaled_ruling;
mod scaled_values;

pub use arith_laws::law_of_arith_rules;
pub use narrowing::{form_bounds, operation_bounds};
pub use rule_laws::{law_of_arithmetic, law_of_forms};
pub use scaled_laws::law_of_scaled_rules;
