//! Records, reports and replays: what a record's text says and how it is written, where it differs from a journal, and
//! how its replay ends. The crate has tests alone. The faults of records stand among the cases that the built program
//! runs.
#![tactic(auto)]

#[cfg(test)]
mod common;
#[cfg(test)]
mod comparing;
#[cfg(test)]
mod records;
#[cfg(test)]
mod replays;
#[cfg(test)]
mod reports;
