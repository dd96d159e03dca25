//! What is watched over a run: the rules that the caller stores, and the watches that a text of
//! TOML says over the entities of a plan and these rules.
#![tactic(auto)]

mod fault;
mod folds;
mod known;
mod rule;
mod rules;
mod watches;

pub use fault::WatchFault;
pub use folds::{FOLDS, greatest, last, least, name_of, sum, value_of};
pub use rule::{Fold, Rule};
pub use rules::Rules;
pub use watches::{Watch, read_watches};
