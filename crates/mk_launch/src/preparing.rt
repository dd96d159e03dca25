//! Which simulator of a scenario can't be begun, before any is.
ghost use Rattle.std.specs.Prelude.{◌≡◌, ◌⊎◌, ◌<◌, ◌^◌, None, Some, true, false, length, IfErr, OnOk};
ghost use Rattle.std.specs.Result.{result_err};
ghost use Rattle.mk_base.specs.Lists.{is_among};
ghost use Rattle.mk_launch.specs.Words.{template_words};
ghost use Rattle.mk_launch.specs.Ready.{IsFirstFault, IsPrepared, begin_fault};
ghost use Rattle.mk_launch.specs.declared.faults.LaunchFault.TheVariants as faults;

use crate::faults::{LaunchFault, Unready};
use crate::template::words;
use mk_base::{List, SimNo, Text, is_among};
use mk_scenario::{Begin, Scenario};
use std::alloc::Global;

/// Looks for the first simulator, in the scenario's order, that can't be begun: by a command whose template has a
/// fault, or within the program by a kind whose name isn't among these. At `LaunchFault::Mem` nothing is said of any
/// simulator.
pub fn prepare(alloc: Global, scenario: &Scenario, kinds: &List<Text>) -> Result<(), Unready>
    requires { length scenario.now.sims < 2 ^ 32 }
    ensures prepared { OnOk result (IsPrepared scenario.now kinds.now) }
    ensures unready { IfErr result (λ unready. (unready.fault ≡ faults.Mem)
        ⊎ IsFirstFault scenario.now kinds.now unready) }
{
    for (i, sim) in scenario.sims.as_slice().iter().enumerate() {
        if let Err(fault) = test_begin(alloc, &sim.begin, kinds) {
            return Err(Unready {
                sim: SimNo(i as u32),
                fault,
            });
        }
    }
    Ok(())
}

// Whether a simulator can be begun so.
fn test_begin(alloc: Global, begin: &Begin, kinds: &List<Text>) -> Result<(), LaunchFault>
    ensures ok { OnOk result (begin_fault kinds.now begin.now ≡ None) }
    ensures err { IfErr result (λ fault. (fault ≡ faults.Mem)
        ⊎ (begin_fault kinds.now begin.now ≡ Some fault)) }
{
    match begin {
        Begin::Command(template) => test_template(alloc, template),
        Begin::Connect(_) => Ok(()),
        Begin::Local(kind) => test_kind(kind, kinds),
    }
}

// Whether a template has words; the port doesn't matter.
fn test_template(alloc: Global, template: &Text) -> Result<(), LaunchFault>
    ensures ok { OnOk result (result_err (template_words template.now) ≡ None) }
    ensures err { IfErr result (λ fault. (fault ≡ faults.Mem)
        ⊎ (result_err (template_words template.now) ≡ Some fault)) }
{
    match words(alloc, template, 0) {
        Ok(_) => Ok(()),
        Err(fault) => Err(fault),
    }
}

fn test_kind(kind: &Text, kinds: &List<Text>) -> Result<(), LaunchFault>
    ensures ok { OnOk result (is_among kinds.now kind.now ≡ true) }
    ensures err { IfErr result (λ fault. (fault ≡ faults.NoKind)
        × (is_among kinds.now kind.now ≡ false)) }
{
    if is_among(kinds.as_slice(), kind.bytes()) {
        Ok(())
    } else {
        Err(LaunchFault::NoKind)
    }
}
