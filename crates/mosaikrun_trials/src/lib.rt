//! Whole runs over fleets in memory and of simulators within the program: from a scenario's text to what is said on the
//! links, printed and recorded. The crate has tests alone. How runs end by what simulators say in place of right
//! replies stands among the cases that the built program runs.
#![tactic(auto)]

#[cfg(test)]
mod chain;
#[cfg(test)]
mod counter;
#[cfg(test)]
mod kinds;
#[cfg(test)]
mod orders;
#[cfg(test)]
mod runs;
#[cfg(test)]
mod served;
#[cfg(test)]
mod talks;
#[cfg(test)]
mod within;
