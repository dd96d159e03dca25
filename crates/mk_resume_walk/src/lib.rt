//! The walk through a journal by which its items are sent anew to simulators that begin again: how
//! far each can be sent them, where its next entry stands, and which items are free then.
#![tactic(auto)]

mod index;
mod laws;

pub use index::Index;
pub use laws::{
    entries_are_counted, free_items_alternate, free_items_go_on, turns_alternate, walks_go_on,
};
