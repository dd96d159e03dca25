//! From a size to the summary of a run of the demo scenario.
ghost use Rattle.std.specs.Prelude.{◌≡◌, ◌≤◌, IfOk, IfErr, Ok, Err};
ghost use Rattle.mk_base.specs.Limits.{largest_demo};
ghost use Rattle.mk_launch.specs.Starts.{AreNumbered};
ghost use Rattle.mk_local.specs.Registries.{rows_in};
ghost use Rattle.mosaikrun_run.specs.Outcomes.{HoldsOver};
ghost use Rattle.mosaikrun_demo.specs.Outcomes.{IsDemoOutcome};

use mk_local::Registry;
use mk_onlooker::Onlooker;
use mk_outside::Fleet;
use mk_scenario_demo::demo_scenario;
use mosaikrun_endings::Ending;
use mosaikrun_run::{Form, played};
use std::alloc::Global;
use std::sync::Wait;

/// Runs the demo scenario of this size, 1 to 100, its simulators being of these kinds, and answers the summary of what
/// each was sent, or why there is none. All its simulators are within the program, so the fleet is as before. The onlooker
/// is shown the run's journal.
pub fn summed<F: Fleet, R: Wait, O: Onlooker>(
    rt: &R,
    alloc: Global,
    kinds: &Registry,
    size: u32,
    fleet: &mut F,
    onlooker: &mut O,
) -> Result<Vec<u8>, Ending>
    requires low { 1 ≤ size }
    requires high { size ≤ largest_demo }
    ensures count { F.faults fleet.old ≤ F.faults fleet.new }
    ensures closed { AreNumbered (F.started fleet.old) (F.open_links fleet.old)
        → F.open_links fleet.new ≡ F.open_links fleet.old }
    ensures unused { fleet.new ≡ fleet.old }
    ensures text { IfOk result (λ text. HoldsOver F.log F.started F.faults (rows_in kinds.now)
        fleet.old fleet.new (λ O. IsDemoOutcome O size (Ok text.items))) }
    ensures none { IfErr result (λ e. HoldsOver F.log F.started F.faults (rows_in kinds.now)
        fleet.old fleet.new (λ O. IsDemoOutcome O size (Err e))) }
{
    let scenario = demo_scenario(alloc, size)?;
    played(
        rt,
        alloc,
        kinds,
        scenario,
        fleet,
        Form::Summary,
        false,
        onlooker,
    )
    .text
}
