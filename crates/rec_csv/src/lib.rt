// Recordings: the header and the rows of a CSV file, one line at a time.
#![tactic(auto)]

mod columns;
mod faults;
mod header;
mod line_fields;
mod plain_rows;
mod rows;
mod slots;

pub use columns::Column;
pub use faults::{HeadFault, RowFault};
pub use header::Header;
pub use line_fields::is_blank;
