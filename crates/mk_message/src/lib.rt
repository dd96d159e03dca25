//! Messages, items and calls, as they stand on a link.
#![tactic(auto)]

mod calls;
mod groups;
mod items;
mod reading;
mod writing;

pub use calls::write_call;
pub use groups::inputs_bytes;
pub use items::write_item;
pub use mk_json::Scratch;
pub use reading::{ReadFault, read, read_in, read_tree, take_tree};
pub use writing::write;
