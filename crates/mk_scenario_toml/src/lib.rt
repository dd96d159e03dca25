//! TOML, read with `toml`.
#![tactic(auto)]

mod fault;
mod read;

pub use fault::TomlFault;
pub use read::read_toml;
