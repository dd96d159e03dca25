//! The models of all simulators in order, found by simulator and name.
ghost use Rattle.std.specs.Prelude.{◌≡◌, ◌++◌, ◌∷◌, [], map, option_map, position, slice_get, IfOk, OnOk, None};
ghost use Rattle.std.specs.Map.{lookup};
ghost use Rattle.std.specs.String.{string_bytes};
ghost use Rattle.mk_connect_pairs.specs.inner.Lookups.{HasNumbers, IsKeyOf, is_key};
ghost use Rattle.mk_connect_pairs.specs.Models.{is_model, models_of, model_number, sim_model};

use crate::models::SimModel;
use indexmap::IndexMap;
use mk_base::{List, Mem, SimKind, SimNo, Text};
use mk_entities::EntityInfo;
use mk_meta::{Meta, ModelMeta, Texts, texts_of};
use std::alloc::Global;
use std::marker::Model;

/// Models, which contracts see as the list of them.
#[derive(Drop)]
pub struct Models {
    kept: List<SimModel>,
    numbers: IndexMap<(u32, String), u32>,
}

impl Model for Models {
    ghost use Rattle.std.specs.Prelude.{List};
    ghost use Rattle.mk_connect_pairs.specs.declared.models.SimModel.{SimModel};
    ghost use Rattle.mk_connect_pairs.specs.inner.Lookups.{HasNumbers};

    ghost Value = { List SimModel };

    ghost view = { λ a. a.kept };

    ghost invariant = { λ a. HasNumbers a.numbers a.kept };
}

impl Models {
    fn new(alloc: Global) -> Models
        ensures { result ≡ [] }
    {
        Models {
            kept: List::new(alloc),
            numbers: IndexMap::new(alloc),
        }
    }

    // These models and one more.
    fn with(self, alloc: Global, model: SimModel) -> Result<Models, Mem>
        ensures { IfOk result (λ models. models ≡ self ++ model ∷ []) }
    {
        let Models {
            mut kept,
            mut numbers,
        } = self;
        add(alloc, &mut kept, &mut numbers, model)?;
        Ok(Models { kept, numbers })
    }

    // The number of the simulator's model of this name.
    fn named(&self, alloc: Global, sim: SimNo, name: &Text) -> Result<Option<u32>, Mem>
        ensures { IfOk result (λ n. n ≡ position (is_model sim name.now) self.now) }
    {
        let key = key(alloc, sim, name)?;
        Ok(number_under(&self.numbers, &key))
    }

    /// The model of this number, from 0; `None` where there is none.
    pub fn get(&self, number: usize) -> Option<&SimModel>
        ensures { option_map (λ m. m.now) result ≡ slice_get self.now number }
    {
        self.kept.get(number)
    }

    /// Gives the list back; takes no memory.
    pub fn into_list(self) -> List<SimModel>
        ensures { result ≡ self }
    {
        self.kept
    }
}

// Puts one more model to these, and its number under it where it has none.
fn add(
    alloc: Global,
    kept: &mut List<SimModel>,
    numbers: &mut IndexMap<(u32, String), u32>,
    model: SimModel,
) -> Result<(), Mem>
    requires { HasNumbers numbers.old kept.old }
    ensures kept { OnOk result (kept.new ≡ kept.old ++ model ∷ []) }
    ensures numbers { OnOk result (HasNumbers numbers.new kept.new) }
{
    number_once(alloc, kept, numbers, &model)?;
    kept.push(model)?;
    Ok(())
}

// Puts the number of the model after these under it, where it has none.
fn number_once(
    alloc: Global,
    kept: &List<SimModel>,
    numbers: &mut IndexMap<(u32, String), u32>,
    model: &SimModel,
) -> Result<(), Mem>
    requires { HasNumbers numbers.old kept.now }
    ensures { OnOk result (HasNumbers numbers.new (kept.now ++ model.now ∷ [])) }
{
    let key = key(alloc, model.sim, &model.name)?;
    match number_under(numbers, &key) {
        Some(_) => Ok(()),
        None => {
            number(numbers, key, kept.len())?;
            Ok(())
        }
    }
}

fn key(alloc: Global, sim: SimNo, name: &Text) -> Result<(u32, String), Mem>
    ensures { IfOk result (λ key. IsKeyOf sim.0 name.now key) }
{
    Ok((sim.0, String::from_str(alloc, name.as_str())?))
}

fn number_under(numbers: &IndexMap<(u32, String), u32>, key: &(u32, String)) -> Option<u32>
    ensures { result ≡ lookup (is_key key.now.0 (string_bytes key.now.1)) numbers.now.entries }
{
    numbers.get(key).copied()
}

// Puts the number under a key that has none.
fn number(
    numbers: &mut IndexMap<(u32, String), u32>,
    key: (u32, String),
    place: usize,
) -> Result<(), Mem>
    requires { lookup (is_key key.0 (string_bytes key.1)) numbers.old.entries ≡ None }
    ensures { OnOk result (numbers.new.entries ≡ numbers.old.entries ++ (key, place) ∷ []) }
{
    match u32::try_from(place) {
        Ok(place) => {
            numbers.insert(key, place)?;
            Ok(())
        }
        // So many models as have no number aren't kept.
        Err(_) => Err(Mem),
    }
}

/// The models of the simulators' metadata, in simulator order and in each as it says them. Fails for want of memory, or
/// of numbers: there are 2^32.
pub fn models_of(alloc: Global, metas: &List<Meta>) -> Result<Models, Mem>
    ensures { IfOk result (λ models. models ≡ models_of metas.now) }
{
    let mut models = Models::new(alloc);
    for (sim, meta) in metas.as_slice().iter().enumerate() {
        let sim = sim_no(sim)?;
        models = models_with(alloc, models, sim, meta)?;
    }
    Ok(models)
}

// The number of a simulator. So many metadata as have no number aren't kept.
fn sim_no(sim: usize) -> Result<SimNo, Mem>
    ensures { IfOk result (λ no. no.0 ≡ sim) }
{
    match u32::try_from(sim) {
        Ok(sim) => Ok(SimNo(sim)),
        Err(_) => Err(Mem),
    }
}

// These models and those of one simulator more.
fn models_with(alloc: Global, models: Models, sim: SimNo, meta: &Meta) -> Result<Models, Mem>
    ensures { IfOk result (λ all. all ≡ models
        ++ map (sim_model sim.0 meta.now.kind) meta.now.models) }
{
    let mut models = models;
    for model in meta.models.as_slice() {
        models = models.with(alloc, sim_model(alloc, sim, meta.kind, model)?)?;
    }
    Ok(models)
}

fn sim_model(alloc: Global, sim: SimNo, kind: SimKind, model: &ModelMeta) -> Result<SimModel, Mem>
    ensures { IfOk result (λ m. m ≡ sim_model sim.0 kind model.now) }
{
    let name = model.name.copy()?;
    let attrs = texts_of(alloc, &model.attrs)?;
    let (trigger, events) = roles(alloc, model)?;
    Ok(SimModel {
        sim,
        kind,
        name,
        any_inputs: model.any_inputs,
        attrs,
        trigger,
        events,
    })
}

// The attributes of the model that trigger, and those that are events.
fn roles(alloc: Global, model: &ModelMeta) -> Result<(Texts, Texts), Mem>
    ensures trigger { IfOk result (λ both. both.0 ≡ model.now.trigger) }
    ensures events { IfOk result (λ both. both.1 ≡ model.now.events) }
{
    let trigger = texts_of(alloc, &model.trigger)?;
    let events = texts_of(alloc, &model.events)?;
    Ok((trigger, events))
}

/// The numbers of the entities' models, in order, none for an entity whose simulator has no such model. Fails for want
/// of memory alone.
pub fn numbers_of(
    alloc: Global,
    models: &Models,
    entities: &[EntityInfo],
) -> Result<List<Option<u32>>, Mem>
    ensures { IfOk result (λ numbers. numbers ≡ map (model_number models.now) entities.now) }
{
    let mut numbers = List::new(alloc);
    for entity in entities {
        numbers.push(models.named(alloc, entity.sim, &entity.model)?)?;
    }
    Ok(numbers)
}
