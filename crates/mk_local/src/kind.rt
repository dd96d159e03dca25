//! A kind of simulator within the program.
ghost use Rattle.std.specs.Prelude.{◌≡◌};
ghost use Rattle.mk_local.specs.Rows.{IsAllowed, row};

use crate::turn::{EntityStep, EntityTurn, Turn};

/// A kind of simulator: a row, and a body that may be called wherever the row may and answers there what the row has.
#[derive(Drop)]
pub struct Kind {
    pub turn: Turn,
    body: Box<dyn Fn(EntityStep) -> EntityTurn>,
    ghost callable: { (s : _) → IsAllowed turn s → pre body s },
    ghost answers: { (s : _) (t : _) → IsAllowed turn s → post body s t → t ≡ row turn s },
}

impl Kind {
    /// The kind whose entities take this turn. Its body must compute it for each step from the row's least to
    /// 1,000,000, each time from 0 to 1,000,000,000, and each setting, state and sum of 64 bits.
    pub fn new(turn: Turn, body: Box<dyn Fn(EntityStep) -> EntityTurn>) -> Kind
        requires callable { (s : _) → IsAllowed turn s → pre body s }
        requires answers { (s : _) (t : _) → IsAllowed turn s → post body s t → t ≡ row turn s }
        ensures { result.turn ≡ turn }
    {
        Kind { turn, body }
    }

    // The body's answer.
    pub(crate) fn take(&self, s: EntityStep) -> EntityTurn
        requires { IsAllowed self.now.turn s }
        ensures { result ≡ row self.now.turn s }
    {
        (self.body)(s)
    }
}
