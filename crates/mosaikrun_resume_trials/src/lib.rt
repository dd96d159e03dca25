//! Runs that go on from records over fleets in memory: what is said on the links, printed and recorded. The crate has
//! tests alone. How such runs end by what simulators within the program say stands among the cases that the built
//! program runs.
#![tactic(auto)]

#[cfg(test)]
mod apart;
#[cfg(test)]
mod counter;
#[cfg(test)]
mod going;
