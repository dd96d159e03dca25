//! The law by which the calls of a setup add up to a handshake.
ghost use Rattle.mk_setup.specs.Laws.{RepliesMake};

/// However requests and replies follow one another: what `next` and `arrive` make of a setup that was new is what the
/// replies make of the scenario, its plan at the end among it.
pub fn replies_make()
    ensures { RepliesMake }
{}
