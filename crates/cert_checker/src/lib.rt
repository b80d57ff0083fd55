// Certificates of networks: what a text of one says, and the text of one; whether it is accepted, which part fails
// first where it isn't, and the type of what is accepted, whose every value holds over every recording.
#![tactic(auto)]

mod checking;
mod faults;
mod part_line;
mod part_naming;
mod parts;
mod printing;
mod reader;
mod verdict;

pub use checking::first_disallowed;
pub use faults::{CertError, CertFault, CertKind};
pub use part_naming::part_name;
pub use printing::{law_of_printing, print_cert};
pub use reader::read_cert;
pub use verdict::{Accepted, Rejected, check};
