// The program's one call: words, files and sinks in, a status out. What it answers is one
// definition; its contract says how far the call keeps to it where the outside fails.
#![tactic(auto)]

mod checking;
mod commands;
mod endings;
mod evaluation;
mod fault_refusals;
mod notice;
mod recording_refusals;
mod refusals;
mod run_lines;
mod running;
mod steps;
mod top;
mod word_list;

pub use top::bench;
pub use word_list::Words;
