// Word types of fixed-point routines, and what is done to a number that does not fit one: rounding
// and saturation.
#![tactic(auto)]

mod fraction_laws;
mod native;
mod quotient;
mod word_type;

pub use crate::fraction_laws::laws_of_fractions;
pub use crate::native::FxInt;
pub use crate::quotient::{Mode, ceil_div, law_of_rounding, round, shift_round};
pub use crate::word_type::{Ty, sat};
