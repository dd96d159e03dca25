//! How the messages of a turn are judged: what a simulator may be asked for, which messages are wrong and why, and what
//! is open after a right one.
#![tactic(auto)]

mod all_wants;
mod causes;
mod data;
mod lookups;
mod numbers;
mod places;

pub use all_wants::wants_of_all;
pub use causes::wrong;
pub use data::values_for;
pub use numbers::{next_time, output_time};
pub use places::next_place;
