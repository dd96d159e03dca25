//! The simulators within the program: what each replies before and in a run.
ghost use Rattle.std.specs.Prelude.{◌≡◌, List, [], None, map, IfOk, IfSome, OnOk, OnErr, is_some, MatchOption};
ghost use Rattle.mk_base.specs.Lists.{Each};
ghost use Rattle.mk_launch.specs.Ready.{CanBegin, IsPrepared, begin_fault};
ghost use Rattle.mk_local.specs.declared.turn.Turn.{Turn};
ghost use Rattle.mk_local.specs.Calls.{IsCallReplied};
ghost use Rattle.mk_local.specs.Kinds.{name_of};
ghost use Rattle.mk_local.specs.Registries.{rows_in};
ghost use Rattle.mk_local.specs.Replies.{IsItemReplied};
ghost use Rattle.mk_run_local.specs.Seen.{AreOf, IsHere, begun_as, first_of, new_within, sim_at};
ghost use Rattle.mk_run_local.specs.Calls.{IsAnswered, IsCalled, IsFitSuccess, IsTakenOut};

use mk_base::{List, Mem, SimNo};
use mk_local::{LocalSim, Registry};
use mk_plan::{Call, Item, Message};
use mk_scenario::{Begin, Scenario, SimPart};
use std::alloc::Global;
use std::collections::VecDeque;
use std::marker::Model;

/// The simulators of a scenario that are within the program, and their replies that weren't taken yet.
#[derive(Drop)]
pub struct Within {
    alloc: Global,
    sims: Vec<Option<LocalSim>>,
    kept: VecDeque<(SimNo, Message)>,
}

impl Model for Within {
    ghost use Rattle.std.specs.Prelude.{map};
    ghost use Rattle.mk_run_local.specs.Seen.{WithinState, arrival};
    ghost use Rattle.mk_run_local.specs.inner.Standing.{AreFit};
    ghost use Rattle.mk_base.specs.contracts.json.Json as json;
    ghost use Rattle.std.specs.Coded.{codes};

    ghost Value = { WithinState };

    ghost coded = { Prim.hlevel (codes, json.the_row.coded) };

    ghost view = { λ a. record { sims = a.sims.items; kept = map arrival a.kept.items } };

    ghost invariant = { λ a.
        AreFit (record { sims = a.sims.items; kept = map arrival a.kept.items }) };
}

// The simulator that is begun so, before any request, if it is within the program.
fn begun_as(alloc: Global, kinds: &Registry, begin: &Begin) -> Result<Option<LocalSim>, Mem>
    requires { begin_fault (map name_of (rows_in kinds.now)) begin.now ≡ None }
    ensures { IfOk result (λ place. place ≡ begun_as (rows_in kinds.now) begin.now) }
{
    match begin {
        Begin::Local(name) => Ok(Some(LocalSim::new(alloc, kinds, name)?)),
        Begin::Command(_) | Begin::Connect(_) => Ok(None),
    }
}

// The simulators that are begun so, each at its place.
fn all_begun(
    alloc: Global,
    kinds: &Registry,
    sims: &List<SimPart>,
) -> Result<Vec<Option<LocalSim>>, Mem>
    requires { Each (CanBegin (map name_of (rows_in kinds.now))) sims.now }
    ensures { IfOk result (λ places. places.items ≡ map (first_of (rows_in kinds.now)) sims.now) }
{
    let mut places = Vec::new(alloc);
    for sim in sims.as_slice() {
        places.push(begun_as(alloc, kinds, &sim.begin)?)?;
    }
    Ok(places)
}

impl Within {
    /// The simulators of a prepared scenario that run within the program, before any request; no reply is kept.
    pub fn new(alloc: Global, scenario: &Scenario, kinds: &Registry) -> Result<Within, Mem>
        requires { IsPrepared scenario.now (map name_of (rows_in kinds.now)) }
        ensures new { IfOk result (λ within. within ≡ new_within (rows_in kinds.now) scenario.now) }
        ensures kinds { IfOk result (λ within. AreOf (rows_in kinds.now) within) }
    {
        let sims = all_begun(alloc, kinds, &scenario.sims)?;
        Ok(Within {
            alloc,
            sims,
            kept: VecDeque::new(alloc),
        })
    }

    /// Whether a simulator is within the program.
    pub fn has(&self, sim: SimNo) -> bool
        ensures { result ≡ is_some (sim_at self.now sim.0) }
    {
        match self.sims.get(sim.0 as usize) {
            Some(place) => place.is_some(),
            None => false,
        }
    }

    /// The reply of a simulator within the program to a request before the run, which isn't `stop`. At `Mem` nothing
    /// has changed.
    pub fn answer_call(
        &mut self,
        kinds: &Registry,
        sim: SimNo,
        call: &Call,
        id: u64,
    ) -> Result<Message, Mem>
        requires here { IsHere self.old sim.0 }
        requires replied { IsCallReplied call.now }
        ensures ok { IfOk result (λ m. IsCalled self.old sim.0 id call.now m self.new) }
        ensures err { OnErr result (self.new ≡ self.old) }
        ensures kinds { (rows : List Turn) → AreOf rows self.old → AreOf rows self.new }
    {
        let reply = match &mut self.sims[sim.0 as usize] {
            Some(local) => local.answer_call(self.alloc, kinds, call, id)?,
            None => unreachable!(),
        };
        Ok(reply)
    }

    /// Keeps the reply of a simulator within the program to an item of the run, a Step at a time from 0 to
    /// 1,000,000,000 or a GetData, behind those that are kept. The kinds are those that the simulators were made of. At
    /// `Mem` nothing has changed.
    pub fn answer_item(
        &mut self,
        kinds: &Registry,
        sim: SimNo,
        item: &Item,
        id: u64,
    ) -> Result<(), Mem>
        requires here { IsHere self.old sim.0 }
        requires known { AreOf (rows_in kinds.now) self.old }
        requires replied { IsItemReplied item.now }
        ensures ok { OnOk result (IsAnswered self.old sim.0 id item.now self.new) }
        ensures err { OnErr result (self.new ≡ self.old) }
        ensures kinds { (rows : List Turn) → AreOf rows self.old → AreOf rows self.new }
    {
        self.kept.reserve(1)?;
        let reply = match &mut self.sims[sim.0 as usize] {
            Some(local) => local.answer_item(self.alloc, kinds, item, id)?,
            None => unreachable!(),
        };
        match self.kept.push_back((sim, reply)) {
            Ok(()) => Ok(()),
            Err(_) => unreachable!(),
        }
    }

    /// Takes the oldest reply that is kept; `None` exactly where none is. It takes no memory.
    pub fn take(&mut self) -> Option<(SimNo, Message)>
        ensures taken { MatchOption result ((self.old.kept ≡ [])
            × (self.new ≡ self.old)) (λ r. IsTakenOut self.old r.0.0 r.1 self.new) }
        ensures fit { IfSome result (λ r. IsFitSuccess r.1) }
        ensures kinds { (rows : List Turn) → AreOf rows self.old → AreOf rows self.new }
    {
        self.kept.pop_front()
    }
}
