//! The setup of a run: what its simulators have replied so far, and what comes next.
ghost use Rattle.std.specs.Prelude.{◌≡◌, IfOk, IfErr, OnOk, Ok};
ghost use Rattle.mk_scenario.specs.Wellformed.{IsWellformed};
ghost use Rattle.mk_setup.specs.Answers.{NextOf, GivesNoRequest, IsRefused};
ghost use Rattle.mk_setup.specs.Handshakes.{begun};
ghost use Rattle.mk_setup.specs.Ranked.{AreRanksOf};
ghost use Rattle.mk_setup.specs.Replies.{after_reply, arrival};

use crate::answers::SetupNext;
use crate::asking::go_on;
use crate::counts::equal_counts;
use crate::fault::SetupFault;
use crate::progress::Progress;
use crate::repeated::{keep, repeated};
use crate::taking::take;
use mk_base::{List, Mem, SimNo};
use mk_entities::Entities;
use mk_plan::Message;
use mk_scenario::Scenario;
use std::alloc::Global;
use std::marker::Model;

/// The setup of a run, request by request: `init` to each simulator, `create` for each group, `setup_done` to each
/// simulator, each request after the reply to the one before (mosaik 3, low-level API).
///
/// Contracts see it as its scenario, the ranks of its simulators, the metadata and entities so far, how many requests
/// were answered, whether the next one was made, and the fault that it answers from now on, if it has met one.
#[derive(Drop)]
pub struct Setup {
    progress: Progress,
    fault: Option<SetupFault>,
}

impl Model for Setup {
    ghost use Rattle.mk_setup.specs.Seen.{SetupState};
    ghost use Rattle.mk_setup.specs.Kept.{state_of};
    ghost use Rattle.mk_setup.specs.inner.Kept.{IsSoundProgress};
    ghost use Rattle.mk_base.specs.contracts.json.Json as json;
    ghost use Rattle.std.specs.Coded.{codes};

    ghost Value = { SetupState };

    ghost coded = { Prim.hlevel (codes, json.the_row.coded) };

    ghost view = { λ a. state_of a.progress a.fault };

    ghost invariant = { λ a. IsSoundProgress a.progress };
}

impl Setup {
    /// The setup of a scenario with these ranks of its simulators: no request was made.
    pub fn new(alloc: Global, scenario: Scenario, ranks: List<u32>) -> Result<Setup, Mem>
        requires wellformed { IsWellformed scenario }
        requires ranked { AreRanksOf scenario ranks }
        ensures { IfOk result (λ setup. setup ≡ begun scenario ranks) }
    {
        let ids = equal_counts(alloc, scenario.sims.len(), 0)?;
        let progress = Progress {
            alloc,
            scenario,
            ranks,
            metas: List::new(alloc),
            entities: Entities::new(alloc),
            answered: 0,
            asked: false,
            ids,
            plan: None,
        };
        Ok(Setup {
            progress,
            fault: None,
        })
    }

    /// What comes next. Before a group's `create` the group is tested, and before the first `setup_done` the
    /// connections are: a plan can be made of them. `Connect` is the first test that fails. After a fault but want of
    /// memory each call answers that fault or want of memory; after want of memory nothing has changed.
    pub fn next(&mut self) -> Result<SetupNext, SetupFault>
        ensures ok { IfOk result (λ next. NextOf self.old next self.new) }
        ensures refused { IfErr result (λ e. GivesNoRequest self.old e self.new) }
    {
        if let Some(fault) = &self.fault {
            return Err(repeated(fault));
        }
        match go_on(&mut self.progress) {
            Ok(next) => Ok(next),
            Err(fault) => Err(keep(&mut self.fault, fault)),
        }
    }

    /// Takes a message of a simulator. It has to be the success reply to the outstanding request: a failure reply to
    /// that is `Failed`, all else is `Unasked`. `Meta` and `Create` tell why the content of a reply to `init` or
    /// `create` isn't taken. After a fault but want of memory each call answers that fault or want of memory; after
    /// want of memory nothing has changed.
    pub fn arrive(&mut self, sim: SimNo, message: &Message) -> Result<(), SetupFault>
        ensures ok { OnOk result (after_reply self.old (arrival sim message.now) ≡ Ok self.new) }
        ensures refused { IfErr result
            (λ e. IsRefused self.old (arrival sim message.now) e self.new) }
    {
        if let Some(fault) = &self.fault {
            return Err(repeated(fault));
        }
        match take(&mut self.progress, sim, message) {
            Ok(()) => Ok(()),
            Err(fault) => Err(keep(&mut self.fault, fault)),
        }
    }
}
