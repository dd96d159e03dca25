//! Who is to blame that two records differ, and records of two plans. The crate has tests alone.
#![tactic(auto)]

#[cfg(test)]
mod plans;
#[cfg(test)]
mod records;
#[cfg(test)]
mod said;
