//! What goes on from a record: the index of a journal, and the core after a record's messages. The
//! crate has tests alone.
#![tactic(auto)]

#[cfg(test)]
mod indexes;
#[cfg(test)]
mod restoring;
