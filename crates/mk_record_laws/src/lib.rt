//! Laws of records: what is read as JSON, whatever the bytes; a record that was written, read again; and what a record
//! says, recorded again.
#![tactic(auto)]

mod parsed;
mod recordable;
mod written;

pub use parsed::parsed_is_sound;
pub use recordable::said_is_recordable;
pub use written::written_is_read;
