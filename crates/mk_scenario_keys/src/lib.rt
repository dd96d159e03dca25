//! What stands under the keys of a scenario's tables: each value by its kind and range, or the fault, which names the
//! key.
#![tactic(auto)]

mod fault;
mod keys;
mod known;
mod paths;
mod spelling;
mod values;

pub use fault::ScenarioFault;
pub use keys::{
    count_or, optional_port, optional_text, required_name, required_tables, required_text,
    required_time, tables_or_none, times_or_none, truth_or_false, values_or_none, width_or_none,
};
pub use known::{Table, first_other, first_unknown};
pub use paths::{item_in, key_in};
pub use spelling::{port_of, spelled};
pub use values::items;
