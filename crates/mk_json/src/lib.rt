//! JSON: bytes read to trees, as `serde_json` reads them, and trees written.
#![tactic(auto)]

mod data;
mod members;
mod number;
mod quotes;
mod read;
mod scratch;
mod write;

pub use data::{DatumFault, datum, datum_of};
pub use quotes::put_text;
pub use read::{JsonFault, read_json, read_json_in};
pub use scratch::Scratch;
pub use write::put_json;
