//! Links without simulators: the folder, the sink and the fleets in memory, a session over such a fleet, and the turns
//! that links take. The crate has tests alone.
#![tactic(auto)]

#[cfg(test)]
mod chunks;
#[cfg(test)]
mod fakes;
#[cfg(test)]
mod sessions;
#[cfg(test)]
mod turns;
