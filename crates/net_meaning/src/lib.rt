// What a network means over a recording: the machine's whole numbers and the exact fractions, both as equations
// between the cells of a table, with the laws that there is one such table and no other.
#![tactic(auto)]

mod laws_of_runs;

pub use laws_of_runs::{runs_are_one, table_is_a_run};
