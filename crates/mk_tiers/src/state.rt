//! What bounds keep of each simulator, and how a new start of one changes it.
ghost use Rattle.std.specs.Prelude.{◌≡◌, ◌<◌, length, slice_set};
ghost use Rattle.mk_tiers.specs.Standing.{IsOwn};
ghost use Rattle.mk_tiers.specs.inner.Arcs.{AreKept};
ghost use Rattle.mk_tiers.specs.inner.Standing.{AreLabelled, own_number};
ghost use Rattle.mk_tiers.specs.inner.Times.{IsStart};

use crate::arcs::{NEVER, packed};
use crate::bits::Bits;
use crate::net::Net;
use crate::relabel::{recheck, relabel_if, unsure};
use mk_base::Tier;

// The number of a start.
pub fn own_number(own: Option<Tier>) -> u64
    requires { IsOwn own }
    ensures { result ≡ own_number own }
{
    match own {
        Some(at) => packed(at),
        None => NEVER,
    }
}

// Of each simulator its start, its label, whether it has a step outstanding, and at which arc a search begins, among
// those that trigger it and among those that it waits for; and who is ready.
#[derive(Drop)]
pub struct State {
    pub owns: Vec<u64>,
    pub labels: Vec<u64>,
    pub busy: Vec<bool>,
    pub ready: Bits,
    pub hints: Vec<usize>,
    pub blocks: Vec<usize>,
}

impl State {
    // Sets the start of a simulator, and whether it is outstanding; gives those whose labels may have moved.
    pub fn set_own(&mut self, net: &Net, sim: usize, own: u64, is_busy: bool) -> Bits
        requires stands { AreLabelled net.now self.old.owns.items self.old.labels.items
            self.old.busy.items self.old.ready }
        requires hints { length self.old.hints.items ≡ length self.old.owns.items }
        requires blocks { length self.old.blocks.items ≡ length self.old.owns.items }
        requires sim { sim < length self.old.owns.items }
        requires own { IsStart own }
        ensures stands { AreLabelled net.now self.new.owns.items self.new.labels.items
            self.new.busy.items self.new.ready }
        ensures owns { self.new.owns.items ≡ slice_set self.old.owns.items sim own }
        ensures busy { self.new.busy.items ≡ slice_set self.old.busy.items sim is_busy }
        ensures hints { length self.new.hints.items ≡ length self.new.owns.items }
        ensures blocks { length self.new.blocks.items ≡ length self.new.owns.items }
        ensures kept { AreKept self.old.labels.items self.new.labels.items result }
    {
        let is_new = self.owns[sim] != own;
        self.owns[sim] = own;
        self.busy[sim] = is_busy;
        let moved = relabel_if(
            &net.triggers.ins,
            &net.triggers.outs,
            &self.owns,
            &mut self.labels,
            &mut self.hints,
            sim,
            is_new,
        );
        let unsure = unsure(&net.waits.outs, moved, sim);
        recheck(
            &net.waits.ins,
            &self.owns,
            &self.labels,
            &self.busy,
            &mut self.blocks,
            unsure,
            &mut self.ready,
        );
        moved
    }
}
