//! Onlookers who are told when a run is over.
use mk_onlooker::{Nobody, Onlooker};

/// Who looks on at a run, and is told when it is over. Nothing of it changes the run, its report or its record.
pub trait Progress: Onlooker + Drop {
    /// The run is over: nothing more of it is shown.
    fn end(&mut self);
}

impl Progress for Nobody {
    fn end(&mut self) {}
}
