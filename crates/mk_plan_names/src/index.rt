//! What an index of names is made of.
ghost use Rattle.std.specs.Prelude.{◌<◌, ◌^◌, length};

use indexmap::IndexSet;

/// The names of a plan's parts: its entities by their full ids, the attributes that connections take from each entity,
/// and its asynchronous pairs. It is made once for a plan; what a question costs doesn't grow with the plan.
#[derive(Drop)]
pub struct Names {
    pub(crate) ids: IndexSet<String>,
    pub(crate) attrs: Vec<IndexSet<String>>,
    pub(crate) pairs: IndexSet<(u32, u32)>,
    ghost few: { length ids.keys < 2 ^ 32 },
}
