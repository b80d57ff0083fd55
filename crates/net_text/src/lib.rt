// The network's text: which network it says, or its first fault with line and kind; and the canonical text of
// a network, which reads as that network again.
#![tactic(auto)]

mod content;
mod keyword;
mod line_forms;
mod list_forms;
mod names;
mod printing;
mod reader;
mod routine_word;
mod type_word;

pub use printing::{law_of_printing, print_net};
pub use reader::{NetError, NetFault, law_of_reading, read_net};
