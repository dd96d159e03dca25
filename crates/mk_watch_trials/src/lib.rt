//! Tables of attribute values: what is printed of a record and a file of watches, or the line of
//! the ending. The crate has tests alone.
#![tactic(auto)]

#[cfg(test)]
mod endings;
#[cfg(test)]
mod records;
#[cfg(test)]
mod rules;
#[cfg(test)]
mod said;
#[cfg(test)]
mod tables;
