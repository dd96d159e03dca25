//! How whoever is ready is asked, one after another, until nobody is.
ghost use Rattle.std.specs.Prelude.{◌≡◌, None, IfOk};
ghost use Rattle.mk_record_replay.specs.inner.Loops.{HasAskedAll};

use mk_base::Mem;
use mk_sched::{Core, CoreFault, Next};

// Why nobody is asked any more: a message is waited for, nothing is left to do, or the journal has
// no room for the Step of whoever is ready.
#[derive(Clone, Copy)]
pub enum Standstill {
    Waiting,
    Over,
    Full(CoreFault),
}

// Asks whoever is ready, until nobody is.
pub fn ask_all(core: &mut Core) -> Result<Standstill, Mem>
    requires going { core.old.ended ≡ None }
    ensures { IfOk result (λ standstill. HasAskedAll core.old standstill core.new) }
{
    'asking: loop {
        match core.next()? {
            Next::Ask(_) => {}
            Next::Wait => return Ok(Standstill::Waiting),
            Next::Done => return Ok(Standstill::Over),
            Next::Fault(fault) => return Ok(Standstill::Full(fault)),
        }
    }
}
