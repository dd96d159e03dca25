//! Whose turn it is: links that are ready, taken or parked.
ghost use Rattle.std.specs.Prelude.{◌≡◌, OnOk, OnErr};
ghost use Rattle.mk_base.specs.Lists.{IsIn};
ghost use Rattle.mk_poll.specs.Links.{IsAdded, IsApart, TakeOf, added, made_parked, made_ready, no_links};

use crate::places::{holds, leave_last};
use crate::spots::{lift, make_spot, park, spot_of};
use mk_base::{LinkNo, Mem};
use std::alloc::Global;
use std::collections::VecDeque;
use std::marker::Model;

/// The turns that links take. Each link that was added is ready, taken or parked, and only one of these. The link
/// that has been ready for longest is taken first.
#[derive(Drop)]
pub struct Turns {
    ready: VecDeque<LinkNo>,
    taken: Vec<LinkNo>,
    parked: Vec<LinkNo>,
    // Of each link, by its number, where it stands among those that are parked.
    spots: Vec<Option<usize>>,
    // How many links were added. Each of the three has room for all of them.
    count: u32,
}

impl Model for Turns {
    ghost use Rattle.std.specs.Prelude.{length, vec_capacity};
    ghost use Rattle.std.specs.VecDeque.{deque_capacity};
    ghost use Rattle.mk_poll.specs.Turning.{Turning};
    ghost use Rattle.mk_poll.specs.Links.{IsApart};
    ghost use Rattle.mk_poll.specs.inner.Links.{HasRoom, HaveSpots};

    ghost Value = { Turning };

    ghost view = { λ a. record {
      ready = a.ready.items;
      taken = a.taken.items;
      parked = a.parked.items;
    } };

    ghost invariant = { λ a. HasRoom a.count (length a.ready.items) (length a.taken.items)
        (length a.parked.items) (deque_capacity a.ready) (vec_capacity a.taken)
        (vec_capacity a.parked)
        × IsApart (record { ready = a.ready.items; taken = a.taken.items; parked = a.parked.items })
        × HaveSpots a.spots.items (record {
          ready = a.ready.items;
          taken = a.taken.items;
          parked = a.parked.items;
        }) };
}

impl Turns {
    /// Turns of no link.
    pub fn new(alloc: Global) -> Turns
        ensures none { result ≡ no_links }
    {
        Turns {
            ready: VecDeque::new(alloc),
            taken: Vec::new(alloc),
            parked: Vec::new(alloc),
            spots: Vec::new(alloc),
            count: 0,
        }
    }

    /// Adds a link that wasn't added before, which is ready. At `Mem`, which comes also where 2^32 - 1 were added,
    /// nothing has changed.
    pub fn add(&mut self, link: LinkNo) -> Result<(), Mem>
        requires { ¬ IsAdded link self.old }
        ensures ok { OnOk result (self.new ≡ added link self.old) }
        ensures err { OnErr result (self.new ≡ self.old) }
        ensures apart { IsApart self.new }
    {
        let Some(count) = self.count.checked_add(1) else {
            return Err(Mem);
        };
        self.ready.reserve(count as usize)?;
        self.taken.reserve(count as usize)?;
        self.parked.reserve(count as usize)?;
        make_spot(&mut self.spots, link)?;
        self.count = count;
        self.ready.push_back_reserved(link);
        Ok(())
    }

    /// Makes a link ready; one that is ready stays in its place. It takes no memory, and looks at no other link but at
    /// those that are taken.
    pub fn ready(&mut self, link: LinkNo)
        requires { IsAdded link self.old }
        ensures ready { self.new ≡ made_ready link self.old }
        ensures apart { IsApart self.new }
    {
        if let Some(place) = spot_of(&self.spots, link) {
            lift(&mut self.parked, &mut self.spots, link, place);
            self.ready.push_back_reserved(link);
            return;
        }
        if holds(&self.taken, link) {
            leave_last(&mut self.taken, link);
            self.ready.push_back_reserved(link);
        }
    }

    /// Takes the link that has been ready for longest; `None` exactly where none is ready. It takes no memory.
    pub fn take(&mut self) -> Option<LinkNo>
        ensures took { TakeOf self.old result self.new }
        ensures apart { IsApart self.new }
    {
        let link = self.ready.pop_front()?;
        self.taken.push_reserved(link);
        Some(link)
    }

    /// Parks a link that was taken. It takes no memory, and looks at no other link where this one was taken last.
    pub fn park(&mut self, link: LinkNo)
        requires { IsIn link self.old.taken }
        ensures parked { self.new ≡ made_parked link self.old }
        ensures apart { IsApart self.new }
    {
        leave_last(&mut self.taken, link);
        park(&mut self.parked, &mut self.spots, link);
    }

    /// The links that are parked.
    pub fn parked(&self) -> &[LinkNo]
        ensures { result.now ≡ self.now.parked }
    {
        self.parked.as_slice()
    }
}
