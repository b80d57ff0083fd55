// The rules of the search on an axis, of curves and maps, and of these over axes: the bounds of what each
// gives, with their soundness and monotony.
#![tactic(auto)]

mod gaps;
mod laws;
mod look_up_ends;
mod look_up_errors;
mod look_up_ranges;
mod map_errors;
mod map_over_ranges;
mod map_ranges;
mod map_values;
mod narrowing;

pub use gaps::least_gap;
pub use laws::{
    law_of_curves, law_of_curves_over_axes, law_of_maps, law_of_maps_over_axes, law_of_positions,
};
pub use narrowing::{
    curve_bounds, curve_over_bounds, map_bounds, map_over_bounds, position_bounds,
};
