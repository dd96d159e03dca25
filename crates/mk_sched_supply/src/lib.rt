//! What has been delivered in a run: the inputs of a step that may be asked for, the outputs of a turn that ends, and
//! what is given up.
#![tactic(auto)]

mod answering;
mod feeds;
mod laws;
mod outputs;
mod stock;

pub use laws::stock_stays;
pub use outputs::Outputs;
pub use stock::Stock;
