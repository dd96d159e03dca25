//! The ids of a link's requests, and whether an answer's id was asked for.
ghost use Rattle.std.specs.Prelude.{◌≡◌, ◌≢◌, ◌+◌, ◌-◌, ◌<◌, ◌^◌, ◌↔◌, Some, None};

use std::marker::Model;

/// How an answer's id stands to what was asked. `Unasked` has the answer's id and the outstanding
/// one, if there is one.
#[derive(Clone, Copy, Debug, PartialEq, Eq)]
pub enum Answered {
    Asked,
    Unasked { id: u64, outstanding: Option<u64> },
}

/// The ids of a link's requests, which count up from the first. At most one is outstanding.
#[derive(Drop)]
pub struct Numbers {
    next: u64,
    outstanding: Option<u64>,
}

impl Model for Numbers {
    ghost use Rattle.mk_requests.specs.Counting.{Counting};

    ghost Value = { Counting };

    ghost view = { λ a. record { next = a.next; outstanding = a.outstanding } };
}

impl Numbers {
    /// Ids that begin with `first`, none of them outstanding.
    pub fn new(first: u64) -> Numbers
        ensures { result ≡ record { next = first; outstanding = None } }
    {
        Numbers {
            next: first,
            outstanding: None,
        }
    }

    /// The next id, at most 2^63 - 2, which is outstanding from then on; none may be before.
    pub fn draw(&mut self) -> u64
        requires idle { self.old.outstanding ≡ None }
        requires room { self.old.next < 2 ^ 63 - 1 }
        ensures id { result ≡ self.old.next }
        ensures drawn { self.new ≡ record { next = self.old.next + 1; outstanding = Some result } }
    {
        let id = self.next;
        self.next += 1;
        self.outstanding = Some(id);
        id
    }

    /// The id that awaits its answer; `None` where none does.
    pub fn outstanding(&self) -> Option<u64>
        ensures { result ≡ self.now.outstanding }
    {
        self.outstanding
    }

    /// Whether an answer with this id was asked for. If so, its request is no longer outstanding;
    /// if not, nothing changes.
    pub fn answer(&mut self, id: u64) -> Answered
        ensures asked { (result ≡ Answered.Asked) ↔ (self.old.outstanding ≡ Some id) }
        ensures ended { result ≡ Answered.Asked
            → self.new ≡ record self.old { outstanding = None } }
        ensures unasked { result ≢ Answered.Asked
            → result ≡ Answered.Unasked id self.old.outstanding }
        ensures kept { result ≢ Answered.Asked → self.new ≡ self.old }
    {
        if self.outstanding == Some(id) {
            self.outstanding = None;
            Answered::Asked
        } else {
            Answered::Unasked {
                id,
                outstanding: self.outstanding,
            }
        }
    }
}
