//! What a setup answers.
use mk_base::SimNo;
use mk_plan::{Call, Plan};

/// What comes next in a handshake.
#[derive(Drop)]
pub enum SetupNext {
    /// This request is to be made, with this id, which counts the requests to the simulator from 0, and is below 2^32.
    Request { sim: SimNo, call: Call, id: u64 },
    /// The reply to the request that was made last hasn't come.
    Wait,
    /// All requests are answered: the plan of the run.
    Ready(Plan),
}
