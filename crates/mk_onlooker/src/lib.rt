//! Who looks on at a run, and is shown its journal as it grows.
#![tactic(auto)]

mod onlooker;

pub use onlooker::{Nobody, Onlooker, show};
