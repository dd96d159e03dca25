//! Handshakes without links: what simulators are asked, which plan their replies make, and messages that nothing
//! asked for. The crate has tests alone. The other faults stand among the cases that the built program runs.
#![tactic(auto)]

#[cfg(test)]
mod connections;
#[cfg(test)]
mod handshake;
#[cfg(test)]
mod requests;
