// Worked values of the routines and of what they stand on, one file a crate, through public calls alone. A crate
// with tests is proved once more for them, so those of the crates of numbers and routines stand together here.
#![tactic(auto)]

#[cfg(test)]
mod arithmetic;
#[cfg(test)]
mod axes;
#[cfg(test)]
mod binary_point_forms;
#[cfg(test)]
mod bits;
#[cfg(test)]
mod control;
#[cfg(test)]
mod curves;
#[cfg(test)]
mod filters;
#[cfg(test)]
mod maps;
#[cfg(test)]
mod rounding;
#[cfg(test)]
mod routine_names;
#[cfg(test)]
mod switches;
