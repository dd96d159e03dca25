//! From a scenario file's bytes to the scenario.
ghost use Rattle.std.specs.Prelude.{◌≡◌, IfOk, IfErr, Ok};
ghost use Rattle.mk_scenario_keys.specs.Tests.{IsFaultOf};
ghost use Rattle.mk_scenario.specs.Scenarios.{scenario_of};
ghost use Rattle.mk_scenario.specs.Wellformed.{IsWellformed};

use crate::parts::Scenario;
use crate::top::scenario_in;
use mk_scenario_keys::ScenarioFault;
use mk_scenario_toml::{TomlFault, read_toml};
use std::alloc::Global;

/// The scenario that a text of TOML 1.1 is, or want of memory, or the first test that it fails: that it is TOML, then
/// the tests of the top table, of each `sim`, of each `entities` and of each `connect` table in order. In a table it is
/// tested first whether each key is known, then each key in the order of the file format's table: that it stands there,
/// its kind, its range; then the rules of the table.
pub fn read_scenario(alloc: Global, bytes: &[u8]) -> Result<Scenario, ScenarioFault>
    ensures ok { IfOk result (λ s. scenario_of bytes.now ≡ Ok s) }
    ensures refused { IfErr result (λ e. IsFaultOf (scenario_of bytes.now) e) }
    ensures wellformed { IfOk result (λ s. IsWellformed s) }
{
    match read_toml(alloc, bytes) {
        Ok(document) => scenario_in(alloc, &document),
        Err(TomlFault::NotToml) => Err(ScenarioFault::NotToml),
        Err(TomlFault::Mem) => Err(ScenarioFault::Mem),
    }
}
