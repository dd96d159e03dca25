//! Tables of attribute values over a run, made by rules that the caller stores: their form is in `docs/formats.md`,
//! "Watches".
#![tactic(auto)]

mod lines;
mod rows;
mod shares;
mod tables;
mod values;

pub use mk_watch_read::{
    Fold, Rule, Rules, Watch, WatchFault, greatest, last, least, read_watches, sum,
};
pub use tables::{tables_are_sequential, write_tables};
