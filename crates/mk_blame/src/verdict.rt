//! What comes of two journals.
use mk_base::{List, SimNo, Tier};
use mk_plan::Message;

/// A simulator that is to blame: how many messages it had sent before, the tiered time of its last
/// Step before, and its messages at that place in both journals.
#[derive(Drop)]
pub struct Blamed {
    pub sim: SimNo,
    pub place: u64,
    pub at: Tier,
    pub first: Message,
    pub second: Message,
}

/// All that was said is equal; or these simulators are to blame, in the order of the plan.
#[derive(Drop)]
pub enum Verdict {
    Equal,
    Blamed(List<Blamed>),
}
