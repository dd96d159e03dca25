//! What is said of a file that is no scenario.
ghost use Rattle.std.specs.Prelude.{◌≡◌, [], OnOk};
ghost use Rattle.mosaikrun_endings.specs.Scenarios.{text_of_scenario};

use crate::lines::{put, put_after, put_number, put_two};
use mk_scenario::ScenarioFault;
use std::alloc::{AllocError, Global};

// Puts into an empty text what is said of the fault.
pub fn put_scenario(
    alloc: Global,
    out: &mut Vec<u8>,
    fault: &ScenarioFault,
) -> Result<(), AllocError>
    requires { out.old.items ≡ [] }
    ensures { OnOk result (out.new.items ≡ text_of_scenario fault.now) }
{
    match fault {
        ScenarioFault::NotToml => put(out, "scenario 1: not TOML"),
        ScenarioFault::Missing(key) => put_after(out, "scenario 2: missing ", key),
        ScenarioFault::WrongKind(key) => put_after(out, "scenario 3: wrong kind ", key),
        ScenarioFault::UnknownKey(key) => put_after(out, "scenario 4: unknown key ", key),
        ScenarioFault::OutOfRange(key, value) => {
            put_two(out, "scenario 5: out of range ", key, " ", value)
        }
        ScenarioFault::UnknownSim(key, sim) => {
            put_two(out, "scenario 6: unknown simulator ", sim, " at ", key)
        }
        ScenarioFault::UnknownGroup(key, group) => {
            put_two(out, "scenario 7: unknown group ", group, " at ", key)
        }
        ScenarioFault::TwoKinds(table) => put_after(out, "scenario 8: two kinds at ", table),
        ScenarioFault::Uneven(table, left, right) => {
            put(out, "scenario 9: ")?;
            put_number(alloc, out, *left as u64)?;
            put(out, " to ")?;
            put_number(alloc, out, *right as u64)?;
            put(out, " entities at ")?;
            put(out, table.as_str())
        }
        ScenarioFault::Taken(group) => {
            put(out, "scenario 10: group ")?;
            put(out, group.as_str())?;
            put(out, " taken")
        }
        ScenarioFault::Mem => put(out, "out of memory"),
    }
}
