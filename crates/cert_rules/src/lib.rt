// What a certificate says, the rule of each part, when a certificate is accepted, and the theorem that an
// accepted certificate holds over every recording. Whether one is accepted is decided in `cert_checker`.
#![tactic(auto)]

mod arguments;
mod certificate;
mod limits;
mod lookups;
mod promise;
mod rule_laws;
mod ruling;

pub use arguments::{argument, rules_read_their_arguments};
pub use certificate::{BadBounds, Certificate};
pub use limits::allowed;
pub use part_rules::Bounds;
pub use promise::{acceptance_is_exact, certificates_hold};
pub use rule_laws::law_of_rules;
pub use ruling::rule;
