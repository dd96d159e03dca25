//! What a simulator says of itself in its reply to `init`, and texts of it that are looked up.
#![tactic(auto)]

mod fault;
mod meta;
mod model;
mod texts;
mod trees;

pub use fault::MetaFault;
pub use meta::{Meta, ModelMeta, read_meta};
pub use texts::{Texts, texts_of};
