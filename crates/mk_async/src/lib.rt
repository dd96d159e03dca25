//! The asynchronous requests of a step: why one is refused, or what it asks for, the values that it sets, and the
//! content of its answer.
#![tactic(auto)]

mod data;
mod forms;
mod given;
mod judged;
mod known;
mod pairs;
mod related;
mod request;

pub use data::data_content;
pub use forms::{are_sources, are_wants};
pub use given::{datum_of, given_values};
pub use judged::judge;
pub use related::plain_content;
pub use request::Asked;
