//! The lines of a plan: its limits, and a line for each of its parts.
ghost use Rattle.std.specs.Prelude.{◌≡◌, ◌++◌, ◌∷◌, [], true, map, flat_map, All, IfSome, OnOk};
ghost use Rattle.std.specs.Fmt.{decimal, signed_decimal};
ghost use Rattle.std.specs.List.{join_with_byte, list_all};
ghost use Rattle.std.specs.Str.{is_utf8};
ghost use Rattle.mk_base.specs.Data.{IsDatumText};
ghost use Rattle.mk_base.specs.Texts.{list_text, quoted};
ghost use Rattle.mk_plan_check.specs.inner.FirstBad.{HasDatums};
ghost use Rattle.mk_record_read.specs.Texts.{bool_text, initial_text, via_text, run_line, sim_line, model_line, entity_line, conn_line, async_line, plan_text};
ghost use Rattle.mk_record_laws.specs.Again.{conn_is_text, model_is_text};
ghost use Rattle.mk_record_laws.specs.inner.Readable.{HasNames};

use crate::fields::{
    put_bool, put_initial, put_kind, put_numbers, put_quoted, put_texts, put_times, put_via,
};
use mk_base::{Mem, put, put_signed, put_unsigned};
use mk_plan::{AsyncPair, Conn, Plan, PlanEntity, PlanModel, PlanSim};
use std::alloc::Global;

/// The lines of a plan, its parts in their order.
pub fn put_plan(alloc: Global, out: &mut Vec<u8>, plan: &Plan) -> Result<(), Mem>
    ensures written { OnOk result (out.new.items ≡ out.old.items ++ plan_text plan.now) }
    ensures utf8 { OnOk result (HasNames plan.now) }
    ensures datums { OnOk result (HasDatums plan.now) }
{
    put(out, "mosaikrun 2\n")?;
    put_run(out, plan)?;
    put_things(alloc, out, plan)?;
    put_ties(alloc, out, plan)
}

// The lines of simulators, models and entities.
fn put_things(alloc: Global, out: &mut Vec<u8>, plan: &Plan) -> Result<(), Mem>
    ensures written { OnOk result (out.new.items ≡ out.old.items ++ (flat_map sim_line plan.now.sims
        ++ (flat_map model_line plan.now.models ++ flat_map entity_line plan.now.entities))) }
    ensures sims { OnOk result (list_all (λ s. is_utf8 s.id) plan.now.sims ≡ true) }
    ensures models { OnOk result (list_all model_is_text plan.now.models ≡ true) }
    ensures entities { OnOk result (list_all (λ e. is_utf8 e.eid) plan.now.entities ≡ true) }
{
    put_sims(alloc, out, plan.sims.as_slice())?;
    put_models(alloc, out, plan.models.as_slice())?;
    put_entities(alloc, out, plan.entities.as_slice())
}

// The lines of connections and asynchronous pairs.
fn put_ties(alloc: Global, out: &mut Vec<u8>, plan: &Plan) -> Result<(), Mem>
    ensures written { OnOk result (out.new.items ≡ out.old.items
        ++ (flat_map conn_line plan.now.conns ++ flat_map async_line plan.now.asyncs)) }
    ensures utf8 { OnOk result (list_all conn_is_text plan.now.conns ≡ true) }
    ensures datums { OnOk result (HasDatums plan.now) }
{
    put_conns(alloc, out, plan.conns.as_slice())?;
    put_asyncs(out, plan.asyncs.as_slice())
}

fn put_run(out: &mut Vec<u8>, plan: &Plan) -> Result<(), Mem>
    ensures { OnOk result (out.new.items ≡ out.old.items ++ run_line plan.now) }
{
    put(out, "run [")?;
    put_signed(out, plan.until)?;
    put(out, ",")?;
    put_unsigned(out, plan.loops as u64)?;
    put(out, ",")?;
    put_unsigned(out, plan.entries as u64)?;
    put(out, "]\n")
}

fn put_sims(alloc: Global, out: &mut Vec<u8>, sims: &[PlanSim]) -> Result<(), Mem>
    ensures written { OnOk result (out.new.items ≡ out.old.items ++ flat_map sim_line sims.now) }
    ensures utf8 { OnOk result (list_all (λ s. is_utf8 s.id) sims.now ≡ true) }
{
    for sim in sims {
        put_sim(alloc, out, sim)?;
    }
    Ok(())
}

fn put_sim(alloc: Global, out: &mut Vec<u8>, sim: &PlanSim) -> Result<(), Mem>
    ensures written { OnOk result (out.new.items ≡ out.old.items ++ sim_line sim.now) }
    ensures utf8 { OnOk result (is_utf8 sim.now.id ≡ true) }
{
    put(out, "sim [")?;
    put_quoted(alloc, out, &sim.id)?;
    put(out, ",")?;
    put_kind(out, sim.kind)?;
    put_numbers_of_sim(out, sim)?;
    put(out, "]\n")
}

// The first id, the rank and the initial events, each behind a comma.
fn put_numbers_of_sim(out: &mut Vec<u8>, sim: &PlanSim) -> Result<(), Mem>
    ensures { OnOk result (out.new.items ≡ out.old.items ++ (44 ∷ join_with_byte 44 (
        decimal sim.now.first_id ∷ decimal sim.now.rank
        ∷ list_text (map signed_decimal sim.now.initial) ∷ []))) }
{
    put(out, ",")?;
    put_unsigned(out, sim.first_id)?;
    put(out, ",")?;
    put_unsigned(out, sim.rank as u64)?;
    put(out, ",")?;
    put_times(out, sim.initial.as_slice())
}

fn put_models(alloc: Global, out: &mut Vec<u8>, models: &[PlanModel]) -> Result<(), Mem>
    ensures written { OnOk result (out.new.items ≡ out.old.items
        ++ flat_map model_line models.now) }
    ensures utf8 { OnOk result (list_all model_is_text models.now ≡ true) }
{
    for model in models {
        put_model(alloc, out, model)?;
    }
    Ok(())
}

fn put_model(alloc: Global, out: &mut Vec<u8>, model: &PlanModel) -> Result<(), Mem>
    ensures written { OnOk result (out.new.items ≡ out.old.items ++ model_line model.now) }
    ensures utf8 { OnOk result (model_is_text model.now ≡ true) }
{
    put(out, "model [")?;
    put_unsigned(out, model.sim.0 as u64)?;
    put(out, ",")?;
    put_quoted(alloc, out, &model.name)?;
    put(out, ",")?;
    put_attributes(alloc, out, model)?;
    put(out, "]\n")
}

// The attributes of a model, and whether it takes any input.
fn put_attributes(alloc: Global, out: &mut Vec<u8>, model: &PlanModel) -> Result<(), Mem>
    ensures written { OnOk result (out.new.items ≡ out.old.items ++ join_with_byte 44 (
        list_text (map quoted model.now.attrs) ∷ bool_text model.now.any_inputs ∷ [])) }
    ensures utf8 { OnOk result (list_all is_utf8 model.now.attrs ≡ true) }
{
    put_texts(alloc, out, model.attrs.as_slice())?;
    put(out, ",")?;
    put_bool(out, model.any_inputs)
}

fn put_entities(alloc: Global, out: &mut Vec<u8>, entities: &[PlanEntity]) -> Result<(), Mem>
    ensures written { OnOk result (out.new.items ≡ out.old.items
        ++ flat_map entity_line entities.now) }
    ensures utf8 { OnOk result (list_all (λ e. is_utf8 e.eid) entities.now ≡ true) }
{
    for entity in entities {
        put_entity(alloc, out, entity)?;
    }
    Ok(())
}

fn put_entity(alloc: Global, out: &mut Vec<u8>, entity: &PlanEntity) -> Result<(), Mem>
    ensures written { OnOk result (out.new.items ≡ out.old.items ++ entity_line entity.now) }
    ensures utf8 { OnOk result (is_utf8 entity.now.eid ≡ true) }
{
    put(out, "entity [")?;
    put_unsigned(out, entity.model as u64)?;
    put(out, ",")?;
    put_quoted(alloc, out, &entity.eid)?;
    put(out, ",")?;
    put_numbers(out, entity.related.as_slice())?;
    put(out, "]\n")
}

fn put_conns(alloc: Global, out: &mut Vec<u8>, conns: &[Conn]) -> Result<(), Mem>
    ensures written { OnOk result (out.new.items ≡ out.old.items ++ flat_map conn_line conns.now) }
    ensures utf8 { OnOk result (list_all conn_is_text conns.now ≡ true) }
    ensures datums { OnOk result (All (λ c. IfSome c.initial IsDatumText) conns.now) }
{
    for conn in conns {
        put_conn(alloc, out, conn)?;
    }
    Ok(())
}

fn put_conn(alloc: Global, out: &mut Vec<u8>, conn: &Conn) -> Result<(), Mem>
    ensures written { OnOk result (out.new.items ≡ out.old.items ++ conn_line conn.now) }
    ensures utf8 { OnOk result (conn_is_text conn.now ≡ true) }
    ensures datum { OnOk result (IfSome conn.now.initial IsDatumText) }
{
    put(out, "conn [")?;
    put_ends(alloc, out, conn)?;
    put(out, ",")?;
    put_way(out, conn)?;
    put(out, "]\n")
}

// Where a connection leads from, and where to.
fn put_ends(alloc: Global, out: &mut Vec<u8>, conn: &Conn) -> Result<(), Mem>
    ensures written { OnOk result (out.new.items ≡ out.old.items ++ join_with_byte 44 (
        decimal conn.now.from ∷ quoted conn.now.from_attr
        ∷ decimal conn.now.to ∷ quoted conn.now.to_attr ∷ [])) }
    ensures utf8 { OnOk result (conn_is_text conn.now ≡ true) }
{
    put_unsigned(out, conn.from as u64)?;
    put(out, ",")?;
    put_quoted(alloc, out, &conn.from_attr)?;
    put(out, ",")?;
    put_unsigned(out, conn.to as u64)?;
    put(out, ",")?;
    put_quoted(alloc, out, &conn.to_attr)?;
    Ok(())
}

// How a connection delivers.
fn put_way(out: &mut Vec<u8>, conn: &Conn) -> Result<(), Mem>
    ensures written { OnOk result (out.new.items ≡ out.old.items ++ join_with_byte 44 (
        via_text conn.now.via ∷ bool_text conn.now.persistent
        ∷ bool_text conn.now.triggering ∷ initial_text conn.now.initial ∷ [])) }
    ensures datum { OnOk result (IfSome conn.now.initial IsDatumText) }
{
    put_via(out, conn.via)?;
    put(out, ",")?;
    put_bool(out, conn.persistent)?;
    put(out, ",")?;
    put_bool(out, conn.triggering)?;
    put(out, ",")?;
    put_initial(out, &conn.initial)
}

fn put_asyncs(out: &mut Vec<u8>, pairs: &[AsyncPair]) -> Result<(), Mem>
    ensures { OnOk result (out.new.items ≡ out.old.items ++ flat_map async_line pairs.now) }
{
    for pair in pairs {
        put_async(out, pair)?;
    }
    Ok(())
}

fn put_async(out: &mut Vec<u8>, pair: &AsyncPair) -> Result<(), Mem>
    ensures { OnOk result (out.new.items ≡ out.old.items ++ async_line pair.now) }
{
    put(out, "async [")?;
    put_unsigned(out, pair.from.0 as u64)?;
    put(out, ",")?;
    put_unsigned(out, pair.to.0 as u64)?;
    put(out, "]\n")
}
