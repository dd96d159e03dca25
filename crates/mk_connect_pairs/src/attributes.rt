//! What an entity's model says of an attribute.
ghost use Rattle.std.specs.Prelude.{◌≡◌, option_map};
ghost use Rattle.mk_connect_pairs.specs.Models.{has_attr, is_persistent, is_triggering, keeps_attr, model_at, says, takes_attr, triggers_by};

use crate::models::SimModel;
use crate::study::{Study, number_at};
use mk_base::{SimKind, Text};

// The model of the entity of this number.
fn model_at<'a>(study: &Study<'a>, entity: u32) -> Option<&'a SimModel>
    ensures { option_map (λ m. m.now) result
        ≡ model_at study.now.models.now study.now.entities.now entity }
{
    match number_at(study.numbers, entity as usize) {
        Some(number) => study.models.get(number as usize),
        None => None,
    }
}

// Whether the attribute is an output of the entity.
pub fn has_attr(study: &Study, entity: u32, attr: &Text) -> bool
    ensures { result ≡ says (has_attr attr.now)
        (model_at study.now.models.now study.now.entities.now entity) }
{
    match model_at(study, entity) {
        Some(model) => model.attrs.has(attr),
        None => false,
    }
}

// Whether the attribute is an input of the entity.
pub fn takes_attr(study: &Study, entity: u32, attr: &Text) -> bool
    ensures { result ≡ says (takes_attr attr.now)
        (model_at study.now.models.now study.now.entities.now entity) }
{
    match model_at(study, entity) {
        Some(model) => model.any_inputs || model.attrs.has(attr),
        None => false,
    }
}

// Whether the output keeps its value: of a time-based simulator always, of an event-based one never, of a hybrid one
// unless it is an event.
pub fn keeps_attr(study: &Study, entity: u32, attr: &Text) -> bool
    ensures { result ≡ says (keeps_attr attr.now)
        (model_at study.now.models.now study.now.entities.now entity) }
{
    match model_at(study, entity) {
        Some(model) => is_persistent(model, attr),
        None => false,
    }
}

fn is_persistent(model: &SimModel, attr: &Text) -> bool
    ensures { result ≡ is_persistent attr.now model.now.kind model.now.events }
{
    match model.kind {
        SimKind::TimeBased => true,
        SimKind::EventBased => false,
        SimKind::Hybrid => !model.events.has(attr),
    }
}

// Whether the input makes its simulator step: of a time-based one never, of an event-based one always, of a hybrid one
// if it is said to.
pub fn triggers_by(study: &Study, entity: u32, attr: &Text) -> bool
    ensures { result ≡ says (triggers_by attr.now)
        (model_at study.now.models.now study.now.entities.now entity) }
{
    match model_at(study, entity) {
        Some(model) => is_triggering(model, attr),
        None => false,
    }
}

fn is_triggering(model: &SimModel, attr: &Text) -> bool
    ensures { result ≡ is_triggering attr.now model.now.kind model.now.trigger }
{
    match model.kind {
        SimKind::TimeBased => false,
        SimKind::EventBased => true,
        SimKind::Hybrid => model.trigger.has(attr),
    }
}
