//! What reading keeps from line to line.
use mk_json::Scratch;
use mk_message_plain::Known;
use std::alloc::Global;

// The room of the parser, for lines that aren't written plainly, and the names that came last, for those that are.
#[derive(Drop)]
pub struct Rooms {
    pub scratch: Scratch,
    pub known: Known,
}

impl Rooms {
    // They take no memory yet.
    pub fn new(alloc: Global) -> Rooms {
        Rooms {
            scratch: Scratch::new(alloc),
            known: Known::new(alloc),
        }
    }
}
