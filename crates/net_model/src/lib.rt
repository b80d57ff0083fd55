// Networks as data: names, wires with their kinds and items, blocks, and when a network is valid, by the
// tests of each wire in their order, which the reader of a network's text makes too.
#![tactic(auto)]

mod block_forms;
mod conditions;
mod draft_checks;
mod families;
mod laws;
mod naming;
mod network;
mod numbering;
mod rooms;
mod signatures;
mod smoothness;
mod wires;

pub use block_forms::{Form, form_in, form_of};
pub use conditions::{
    first_unsourced, form_agrees, in_range, is_kind_there, is_plain, kind_holds, last_position,
};
pub use draft_checks::{MOST_LISTS, MOST_ROWS, MOST_WIRES, has_ends, has_room, is_range};
pub use families::{block_of, is_built, signature_of};
pub use laws::law_of_drafts;
pub use naming::{Name, NameFault};
pub use network::{Draft, NetKind, NetRefusal, Network};
pub use rooms::Few;
pub use signatures::{ListSort, Range, Signature, Sort};
pub use wires::{Block, Item, Kind, Part, PartNo, Role, Wire, WireNo};
