//! The test of a group, before its entities are created.
ghost use Rattle.std.specs.Prelude.{◌≡◌, ℕ, List, map, ◌⊎◌, ◌<◌, None, length, OnOk, IfOk, IfErr, option_map, not};
ghost use Rattle.std.specs.List.{find};
ghost use Rattle.mk_scenario.specs.Wellformed.{IsWellformed};
ghost use Rattle.mk_base.specs.declared.json.Json.{Json};
ghost use Rattle.mk_scenario_keys.specs.Keys.{first_unknown};
ghost use Rattle.mk_connect_pairs.specs.Groups.{fault_of_group, group_fault, model_named, param_fault};
ghost use Rattle.mk_base.specs.Trees.{members_of};
ghost use Rattle.mk_base.specs.Lists.{is_among};

use crate::fault::ConnectFault;
use mk_base::{Json, List, Mem, Text};
use mk_meta::{Meta, ModelMeta, Texts, texts_of};
use mk_scenario::{Group, Scenario, SimPart, id_of_sim};
use std::alloc::Global;

/// The test of the group at this place by its simulator's metadata, before its entities are created (mosaik 3,
/// `create`): the model is there and public, else `NotPublic`; and it has each parameter that the group gives, else
/// `UnknownParam` names the first that it doesn't have, in byte order. `Mem` for want of memory.
pub fn group_check(
    alloc: Global,
    scenario: &Scenario,
    group: u32,
    meta: &Meta,
) -> Result<(), ConnectFault>
    requires wellformed { IsWellformed scenario.now }
    requires there { group < length scenario.now.groups }
    ensures ok { OnOk result (fault_of_group scenario.now group meta.now ≡ None) }
    ensures refused { IfErr result (λ e. (e ≡ ConnectFault.Mem)
        ⊎ (fault_of_group scenario.now group meta.now ≡ Some e)) }
{
    let group = scenario.groups.at(group as usize);
    match group_fault(alloc, scenario.sims.as_slice(), meta, group)? {
        Some(fault) => Err(fault),
        None => Ok(()),
    }
}

fn group_fault(
    alloc: Global,
    sims: &[SimPart],
    meta: &Meta,
    group: &Group,
) -> Result<Option<ConnectFault>, Mem>
    ensures { IfOk result (λ fault. fault ≡ group_fault sims.now meta.now group.now) }
{
    match model_named(&meta.models, &group.model) {
        Some(model) if model.public => param_fault(alloc, model, group),
        _ => {
            let sim = Text::of(alloc, id_of_sim(sims, group.sim.0 as usize))?;
            let model = group.model.copy()?;
            Ok(Some(ConnectFault::NotPublic(sim, model)))
        }
    }
}

fn model_named<'a>(models: &'a List<ModelMeta>, name: &Text) -> Option<&'a ModelMeta>
    ensures { option_map (λ m. m.now) result ≡ model_named models.now name.now }
{
    models
        .as_slice()
        .iter()
        .find(|m| m.name.bytes() == name.bytes())
}

fn param_fault(alloc: Global, model: &ModelMeta, group: &Group) -> Result<Option<ConnectFault>, Mem>
    ensures { IfOk result (λ fault. fault ≡ param_fault model.now group.now) }
{
    match first_unknown(alloc, &model.params, &group.params)? {
        Some(name) => {
            let model = group.model.copy()?;
            let name = name.copy()?;
            Ok(Some(ConnectFault::UnknownParam(model, name)))
        }
        None => Ok(None),
    }
}

// The first member, in byte order, whose name is none of these.
fn first_unknown<'a>(
    alloc: Global,
    known: &List<Text>,
    params: &'a Json,
) -> Result<Option<&'a Text>, Mem>
    ensures { IfOk result (λ unknown. option_map (λ t. t.now) unknown
        ≡ first_unknown known.now params.now) }
{
    let members = params.members();
    if members.is_empty() {
        return Ok(None);
    }
    let known = texts_of(alloc, known)?;
    let unknown = first_other(&known, members);
    drop(known);
    Ok(unknown)
}

fn first_other<'a>(known: &Texts, members: &'a [(Text, Json)]) -> Option<&'a Text>
    ensures { option_map (λ t. t.now) result
        ≡ find (λ key. not (is_among known.now key))
        (map (λ (m : List ℕ × Json). m.0) members.now) }
{
    for (name, _) in members {
        if !known.has(name) {
            return Some(name);
        }
    }
    None
}
