//! Before anything runs: words of the command line, a scenario file, the demo, ranks and cycles, and how simulators are
//! begun. The crate has tests alone. Faults of files, and more words that ask for nothing, are among the cases that the
//! built program runs.
#![tactic(auto)]

#[cfg(test)]
mod commands;
#[cfg(test)]
mod cycles;
#[cfg(test)]
mod documents;
#[cfg(test)]
mod files;
#[cfg(test)]
mod launches;
#[cfg(test)]
mod scenarios;
