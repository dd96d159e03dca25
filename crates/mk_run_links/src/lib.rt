//! The links of a run together, with what is heard and said on each.
#![tactic(auto)]

mod answers;
mod channel;
mod channels;
mod closing;
mod laws;
mod links;
mod stopping;

pub use answers::LinkHalt;
pub use closing::close_all;
pub use laws::places_are_distinct;
pub use links::{Links, id_behind};
