//! When each simulator is due: the steps to come of each, whose turn is open, and who may be asked next.
#![tactic(auto)]

mod advance;
mod agenda;
mod beginning;
mod dues;
mod limits;
mod outlets;
mod triggers;
mod turns;

pub use agenda::{Agenda, Ready};
pub use outlets::{Beyond, Outlet};
