//! Payloads and lines of records that are written plainly, and ones that nearly are: both ways of reading say the same
//! of them. The crate has tests alone.
#![tactic(auto)]

#[cfg(test)]
mod both;
#[cfg(test)]
mod changes;
#[cfg(test)]
mod records;
