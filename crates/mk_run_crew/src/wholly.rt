//! The begin of a crew whose simulators are all within the program: no link is started, and nobody is waited for.
ghost use Rattle.std.specs.Prelude.{◌≡◌, ℕ, [], true, None, map, IfOk, IfErr};
ghost use Rattle.mk_outside.specs.Counts.{HasRisen};
ghost use Rattle.mk_scenario.specs.Wellformed.{IsWellformed};
ghost use Rattle.mk_launch.specs.Ready.{IsPrepared};
ghost use Rattle.mk_run_crew.specs.Attempts.{attempt};
ghost use Rattle.mk_local.specs.Kinds.{name_of};
ghost use Rattle.mk_local.specs.Registries.{rows_in};
ghost use Rattle.mk_run_laws.specs.Handshake.{is_local};
ghost use Rattle.mk_run_links.specs.Places.{at};
ghost use Rattle.mk_setup.specs.Handshakes.{begun};
ghost use Rattle.mk_setup.specs.Ranked.{AreRanksOf};
ghost use Rattle.mk_run_crew.specs.inner.Asking.{IsNewCrew};
ghost use Rattle.mk_run_crew.specs.Begun.{HasBegun};
ghost use Rattle.mk_run_crew.specs.Halted.{HasHalted};
ghost use Rattle.mk_run_crew.specs.Wholly.{IsWithinHalt, is_wholly_within};
ghost use Rattle.mk_run_crew.specs.inner.Wholly.{no_links};

use crate::asking::Stage;
use crate::beginning::{let_go, new_crew};
use crate::crew::Crew;
use crate::halt::Halt;
use mk_base::{LinkNo, List, Mem};
use mk_local::Registry;
use mk_plan::Plan;
use mk_scenario::{Begin, Scenario};
use mk_setup::{Setup, replies_make};
use std::alloc::Global;

/// Whether each simulator of a scenario runs within the program.
pub fn is_wholly_within(scenario: &Scenario) -> bool
    ensures { result ≡ is_wholly_within scenario.now }
{
    scenario
        .sims
        .as_slice()
        .iter()
        .all(|sim| is_local(&sim.begin))
}

// Whether a simulator that is begun so runs within the program.
fn is_local(begin: &Begin) -> bool
    ensures { result ≡ is_local begin.now }
{
    match begin {
        Begin::Local(_) => true,
        Begin::Command(_) | Begin::Connect(_) => false,
    }
}

// One place for each simulator, none of which has a link.
fn no_links(alloc: Global, scenario: &Scenario) -> Result<List<Option<LinkNo>>, Mem>
    ensures { IfOk result (λ places. places ≡ no_links scenario.now.sims) }
{
    let mut places = List::new(alloc);
    for _sim in 0..scenario.sims.len() {
        places.push(None)?;
    }
    Ok(places)
}

impl Crew {
    // Makes the handshake of a new crew whose simulators are all within the program.
    fn shake_within(self, kinds: &Registry, setup: Setup) -> Result<(Crew, Plan), Halt>
        requires begun { setup ≡ begun setup.scenario setup.ranks }
        requires prepared { IsPrepared setup.scenario (map name_of (rows_in kinds.now)) }
        requires wholly { is_wholly_within setup.scenario ≡ true }
        requires new { (started : ℕ)
            → IsNewCrew started (rows_in kinds.now) setup.scenario [] self }
        requires linkless { (i : ℕ) → at self.channels i ≡ None }
        ensures begun { IfOk result (λ r. (started : ℕ)
            → HasBegun (attempt started setup.scenario setup.ranks (rows_in kinds.now) []) r.0
            r.1) }
        ensures linkless { IfOk result (λ r. (i : ℕ) → at r.0.channels i ≡ None) }
        ensures halted { IfErr result (λ h. (started faults new_faults : ℕ)
            → HasHalted (attempt started setup.scenario setup.ranks (rows_in kinds.now) [])
            (HasRisen faults new_faults) h) }
        ensures cause { IfErr result IsWithinHalt }
    {
        let mut crew = self;
        let mut setup = setup;
        replies_make();
        match crew.set_up_within(kinds, &mut setup) {
            Ok(Stage::Linked { .. }) => unreachable!(),
            Ok(Stage::Planned(plan)) => {
                let_go(setup);
                Ok((crew, plan))
            }
            Err(halt) => {
                let_go(setup);
                drop(crew.into_places());
                Err(halt)
            }
        }
    }

    /// Makes the handshake of a prepared scenario with these ranks, whose simulators all run within the program: `init`
    /// to each of them, `create` for each group, `setup_done` to each. The plan is made of their replies. It needs no
    /// fleet and waits for nobody.
    ///
    /// A halt is a fault of the handshake or want of memory.
    pub fn begin_within(
        alloc: Global,
        scenario: Scenario,
        ranks: List<u32>,
        kinds: &Registry,
    ) -> Result<(Crew, Plan), Halt>
        requires wellformed { IsWellformed scenario }
        requires ranked { AreRanksOf scenario ranks }
        requires prepared { IsPrepared scenario (map name_of (rows_in kinds.now)) }
        requires wholly { is_wholly_within scenario ≡ true }
        ensures begun { IfOk result (λ r. (started : ℕ)
            → HasBegun (attempt started scenario ranks (rows_in kinds.now) []) r.0 r.1) }
        ensures linkless { IfOk result (λ r. (i : ℕ) → at r.0.channels i ≡ None) }
        ensures halted { IfErr result (λ h. (started faults new_faults : ℕ)
            → HasHalted (attempt started scenario ranks (rows_in kinds.now) [])
            (HasRisen faults new_faults) h) }
        ensures cause { IfErr result IsWithinHalt }
    {
        let places = match no_links(alloc, &scenario) {
            Ok(places) => places,
            Err(Mem) => return Err(Halt::Mem),
        };
        let (crew, setup) = match new_crew(alloc, scenario, ranks, places, kinds) {
            Ok(made) => made,
            Err(_places) => return Err(Halt::Mem),
        };
        match crew.shake_within(kinds, setup) {
            Ok(begun) => Ok(begun),
            Err(halt) => Err(halt),
        }
    }
}
